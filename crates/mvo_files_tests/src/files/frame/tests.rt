use crate::equal::{holds, same};
use crate::files::changes::changed;
use mvo_disk::{Disk, MemDisk};
use mvo_format::{FIRST_FORMAT, Format};
use mvo_frame::{Kind, Segment, next_group, read_all};
use mvo_group::Group;
use mvo_types::{Refusal, Stamp};
use std::alloc::Global;
use std::process::Abort;
use std::test::Fail;

// A segment with the group (0, 2]: one record, end 2, one put at table 0, key 5, sort 50, data 61.
pub const SEGMENT: [u8; 63] = [
    0x4d, 0x56, 0x4f, 0x4c, 1, 0, 0, 0, 0xa5, 0x31, 0, 0, 0, 0, 0, 0, 0, 0, 0, 0, 0, 2, 0, 0, 0, 0,
    0, 0, 0, 1, 0, 2, 0, 0, 0, 0, 0, 0, 0, 1, 0, 1, 0, 5, 0, 0, 0, 0, 0, 0, 0, 0x32, 0, 0, 0, 0, 0,
    0, 0, 1, 0, 0x61, 0,
];

// How many groups are found and where the closed gate stands, or a refusal, as a line.
fn line_of(alloc: Global, found: Result<(usize, usize), Refusal>) -> Result<String, Fail> {
    match found {
        Ok((groups, gate)) => Ok(format!(in alloc; "{groups} at {gate}")?),
        Err(refusal) => Ok(format!(in alloc; "{refusal}")?),
    }
}

// What is found of a segment, as such a line.
fn found(alloc: Global, upto: u32, kind: Kind, bytes: &[u8]) -> Result<String, Fail> {
    let found = match read_all(alloc, upto, 3, Stamp(0), kind, bytes) {
        Ok(contents) => Ok((contents.groups.len(), contents.gate)),
        Err(refusal) => Err(refusal),
    };
    line_of(alloc, found)
}

// The group of one frame behind an open gate, and what stands behind it, by a plain reading.
fn plain_frame(alloc: Global, rest: &[u8]) -> Result<Option<(Group, usize)>, Fail> {
    let Some([a, b, c, d]) = rest.first_chunk::<4>() else {
        return Ok(None);
    };
    if *c != 0 || *d != 0 {
        return Ok(None);
    }
    let len = *a as usize + *b as usize * 256;
    let Some(body) = rest.get(4..4 + len) else {
        return Ok(None);
    };
    Ok(Group::decode(alloc, FIRST_FORMAT, body)?.map(|group| (group, 4 + len)))
}

// Where the closed gate behind the only frame stands, by such a reading.
fn plain_gate(alloc: Global, rest: &[u8]) -> Result<Option<usize>, Fail> {
    let Some((group, len)) = plain_frame(alloc, rest)? else {
        return Ok(None);
    };
    let last = rest.get(len).copied().unwrap_or(0xa5);
    if group.prev().0 != 0 || last == 0xa5 {
        return Ok(None);
    }
    Ok(Some(len.saturating_add(9)))
}

// What stands behind an open gate, or what the segment is found to be without one.
fn behind_gate(bytes: &[u8]) -> Result<&[u8], &'static str> {
    if bytes.len() < 8 || !bytes.starts_with(b"MVOL") {
        return Err("refused 54 3");
    }
    if !bytes[4..].starts_with(&[1, 0, 0, 0]) {
        return Err("refused 55");
    }
    match bytes[8..].split_first() {
        Some((0xa5, rest)) => Ok(rest),
        Some(_) => Err("0 at 8"),
        None => Err("refused 54 3"),
    }
}

// The same as `found`, by a plain reading of at most one frame.
fn plain(alloc: Global, bytes: &[u8]) -> Result<String, Fail> {
    let line = match behind_gate(bytes) {
        Ok(rest) => match plain_gate(alloc, rest)? {
            Some(place) => return Ok(format!(in alloc; "1 at {place}")?),
            None => "refused 54 3",
        },
        Err(line) => line,
    };
    Ok(line.to_string(alloc)?)
}

// The group is appended to a fresh segment.
fn is_appended(
    rt: &impl Abort,
    alloc: Global,
    disk: &mut MemDisk,
    group: &Group,
) -> Result<(), Fail> {
    holds(rt, disk.faults() == 0);
    let mut segment = Segment::fresh(disk, FIRST_FORMAT.version, 3)?;
    same(rt, &disk.bytes(3), &b"MVOL\x01\0\0\0\0".as_slice());
    if segment.file != 3 || group.prev().0 != 0 {
        return Err(Fail::from("another group"));
    }
    segment.write_body(alloc, disk, group)?;
    same(rt, &disk.bytes(3).get(8), &Some(&0));
    same(rt, &disk.bytes(3).get(9..), &SEGMENT.get(9..));
    segment.open_gate(disk)?;
    same(rt, &disk.bytes(3), &SEGMENT.as_slice());
    same(rt, &segment.gate, &62);
    Ok(())
}

#[test]
fn a_group_is_appended(rt: HostRuntime) -> Result<(), Fail> {
    let group = Group::decode(rt.alloc(), FIRST_FORMAT, &SEGMENT[13..62])?.ok_or("a group")?;
    let mut disk = MemDisk::new(rt.alloc())?;
    is_appended(&rt, rt.alloc(), &mut disk, &group)
}

// What is found of a segment is this line.
fn finds(
    rt: &impl Abort,
    alloc: Global,
    upto: u32,
    kind: Kind,
    bytes: &[u8],
    line: &str,
) -> Result<(), Fail> {
    same(rt, &found(alloc, upto, kind, bytes)?.as_str(), &line);
    Ok(())
}

#[test]
fn the_vector_is_read(rt: HostRuntime) -> Result<(), Fail> {
    let alloc = rt.alloc();
    let fresh = b"MVOL\x01\0\0\0\0";
    finds(
        &rt,
        alloc,
        FIRST_FORMAT.version,
        Kind::Last,
        &SEGMENT,
        "1 at 62",
    )?;
    finds(
        &rt,
        alloc,
        FIRST_FORMAT.version,
        Kind::Sealed,
        &SEGMENT,
        "1 at 62",
    )?;
    finds(
        &rt,
        alloc,
        FIRST_FORMAT.version,
        Kind::Last,
        fresh,
        "0 at 8",
    )?;
    finds(
        &rt,
        alloc,
        FIRST_FORMAT.version,
        Kind::Sealed,
        fresh,
        "refused 54 3",
    )
}

// What is found of a last segment is what a plain reading finds.
fn agrees(rt: &impl Abort, alloc: Global, bytes: &[u8]) -> Result<(), Fail> {
    let line = plain(alloc, bytes)?;
    finds(rt, alloc, FIRST_FORMAT.version, Kind::Last, bytes, &line)
}

// Cut at each length, and with each other value at each byte.
#[test]
fn each_change_is_found(rt: HostRuntime) -> Result<(), Fail> {
    let alloc = rt.alloc();
    for len in 0..SEGMENT.len() {
        agrees(&rt, alloc, &SEGMENT[..len])?;
    }
    for i in 0..SEGMENT.len() {
        for change in 1..=255 {
            agrees(&rt, alloc, &changed(alloc, &SEGMENT, i, change)?)?;
        }
    }
    Ok(())
}

// What is found of the first group, where its version allows so many bytes of data in a row. The
// put has table 0 and one byte.
fn first_group(alloc: Global, max_data_len: u16) -> Result<String, Fail> {
    let format = Format {
        version: FIRST_FORMAT.version,
        max_table: 0,
        max_data_len,
    };
    let found = match next_group(alloc, format, 3, 8, Stamp(0), &SEGMENT[8..]) {
        Ok(Some((group, rest))) => Ok((group.mark().0 as usize, rest.len())),
        Ok(None) => Ok((0, 0)),
        Err(refusal) => Err(refusal),
    };
    line_of(alloc, found)
}

#[test]
fn the_limits_are_those_of_the_version(rt: HostRuntime) -> Result<(), Fail> {
    let alloc = rt.alloc();
    same(&rt, &first_group(alloc, 1)?.as_str(), &"2 at 1");
    same(&rt, &first_group(alloc, 0)?.as_str(), &"refused 54 3");
    Ok(())
}

// A segment of a later version than is asked for.
#[test]
fn a_later_segment_is_not_read(rt: HostRuntime) -> Result<(), Fail> {
    let alloc = rt.alloc();
    let later = changed(alloc, &SEGMENT, 4, 3)?;
    finds(&rt, alloc, 1, Kind::Last, &later, "refused 55")?;
    finds(&rt, alloc, 2, Kind::Last, &later, "1 at 62")?;
    finds(&rt, alloc, 2, Kind::Last, &SEGMENT, "1 at 62")?;
    finds(&rt, alloc, 0, Kind::Last, &SEGMENT, "refused 55")
}
