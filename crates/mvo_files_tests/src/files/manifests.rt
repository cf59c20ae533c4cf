use crate::equal::{holds, same};
use crate::files::changes::changed;
use mvo_disk::{Disk, MemDisk};
use mvo_format::FIRST_FORMAT;
use mvo_manifest::{Manifest, Pair, close_slot, open_slot, pick, read_slot, write_slot};
use mvo_types::{Refusal, Stamp};
use std::alloc::Global;
use std::process::Abort;
use std::test::Fail;

// Slot 0 as it is formatted: generation 0, no pairs, segment 2.
const FRESH: [u8; 35] = [
    0xa5, 0x1e, 0, 0, 0, 0x4d, 0x56, 0x4f, 0x4d, 1, 0, 0, 0, 0, 0, 0, 0, 0, 0, 0, 0, 0, 0, 0, 0, 0,
    0, 0, 0, 0, 0, 1, 0, 2, 0,
];

// Slot 1 of generation 1: no pairs, segments 2 and 3.
const ROTATED: [u8; 37] = [
    0xa5, 0x20, 0, 0, 0, 0x4d, 0x56, 0x4f, 0x4d, 1, 0, 0, 0, 1, 0, 0, 0, 0, 0, 0, 0, 0, 0, 0, 0, 0,
    0, 0, 0, 0, 0, 2, 0, 2, 0, 3, 0,
];

// Slot 0 of generation 2: the pair (4, 5) over (0, 2] with one record, segment 3.
const PAIR: [u8; 63] = [
    0xa5, 0x3a, 0, 0, 0, 0x4d, 0x56, 0x4f, 0x4d, 1, 0, 0, 0, 2, 0, 0, 0, 0, 0, 0, 0, 2, 0, 0, 0, 0,
    0, 0, 0, 1, 0, 4, 0, 5, 0, 0, 0, 0, 0, 0, 0, 0, 0, 2, 0, 0, 0, 0, 0, 0, 0, 1, 0, 0, 0, 0, 0, 0,
    0, 1, 0, 3, 0,
];

// The manifest of generation 2.
fn of_pair(alloc: Global) -> Result<Manifest, Fail> {
    let mut pairs = Vec::new(alloc);
    pairs.push(Pair {
        data_file: 4,
        delta_file: 5,
        lo: Stamp(0),
        hi: Stamp(2),
        records: 1,
        entries: 0,
    })?;
    let mut segments = Vec::new(alloc);
    segments.push(3)?;
    Ok(Manifest::new(FIRST_FORMAT.version, 2, Stamp(2), pairs, segments)?.ok_or("a manifest")?)
}

// The generation of a manifest, that a slot is closed, or a refusal, as a line.
fn line_of(alloc: Global, found: Result<Option<u64>, Refusal>) -> Result<String, Fail> {
    match found {
        Ok(None) => Ok(format!(in alloc; "closed")?),
        Ok(Some(generation)) => Ok(format!(in alloc; "{generation}")?),
        Err(refusal) => Ok(format!(in alloc; "{refusal}")?),
    }
}

// What is found of slot 0, as such a line.
fn found(alloc: Global, bytes: &[u8]) -> Result<String, Fail> {
    let found = match read_slot(alloc, FIRST_FORMAT.version, 0, bytes) {
        Ok(None) => Ok(None),
        Ok(Some(manifest)) => Ok(Some(manifest.generation())),
        Err(refusal) => Err(refusal),
    };
    line_of(alloc, found)
}

// What is found of slot 0 is this line.
fn finds(rt: &impl Abort, alloc: Global, bytes: &[u8], line: &str) -> Result<(), Fail> {
    same(rt, &found(alloc, bytes)?.as_str(), &line);
    Ok(())
}

// The manifest that counts, of the bytes of both slots.
fn chosen_of(alloc: Global, first: &[u8], second: &[u8]) -> Result<Manifest, Refusal> {
    let first = read_slot(alloc, FIRST_FORMAT.version, 0, first)?;
    let second = read_slot(alloc, FIRST_FORMAT.version, 1, second)?;
    pick(first, second)
}

// What is found of both slots, as such a line.
fn chosen(alloc: Global, first: &[u8], second: &[u8]) -> Result<String, Fail> {
    let found = match chosen_of(alloc, first, second) {
        Ok(manifest) => Ok(Some(manifest.generation())),
        Err(refusal) => Err(refusal),
    };
    line_of(alloc, found)
}

// The manifest is encoded as what stands behind the gate of PAIR.
fn is_encoded(rt: &impl Abort, alloc: Global, manifest: &Manifest) -> Result<(), Fail> {
    let bytes = manifest.encode(alloc)?;
    same(rt, &Some(bytes.as_slice()), &PAIR.get(1..));
    Ok(())
}

#[test]
fn the_vectors_are_read(rt: HostRuntime) -> Result<(), Fail> {
    let alloc = rt.alloc();
    finds(&rt, alloc, &FRESH, "0")?;
    finds(&rt, alloc, &PAIR, "2")?;
    finds(&rt, alloc, &ROTATED, "refused 54 0")?;
    is_encoded(&rt, alloc, &of_pair(alloc)?)
}

// What is found of both slots is this line.
fn chooses(
    rt: &impl Abort,
    alloc: Global,
    first: &[u8],
    second: &[u8],
    line: &str,
) -> Result<(), Fail> {
    same(rt, &chosen(alloc, first, second)?.as_str(), &line);
    Ok(())
}

#[test]
fn both_slots_are_looked_at(rt: HostRuntime) -> Result<(), Fail> {
    let cases: [(&[u8], &[u8], &str); 6] = [
        (&[], &[0], "refused 53"),
        (&FRESH, &[], "0"),
        (&FRESH, &ROTATED, "1"),
        (&PAIR, &ROTATED, "2"),
        (&FRESH[..34], &ROTATED, "refused 54 0"),
        (&PAIR, &ROTATED[..36], "refused 54 1"),
    ];
    for (first, second, line) in cases {
        chooses(&rt, rt.alloc(), first, second, line)?;
    }
    Ok(())
}

// The version that is found of the manifest of slot 0, up to another, where its field is changed;
// or the refusal.
fn version_found(alloc: Global, upto: u32, change: u8) -> Result<String, Fail> {
    let bytes = changed(alloc, &PAIR, 9, change)?;
    let found = match read_slot(alloc, upto, 0, &bytes) {
        Ok(None) => Ok(None),
        Ok(Some(manifest)) => Ok(Some(u64::from(manifest.version()))),
        Err(refusal) => Err(refusal),
    };
    line_of(alloc, found)
}

#[test]
fn a_manifest_has_its_own_version(rt: HostRuntime) -> Result<(), Fail> {
    let cases: [(u32, u8, &str); 6] = [
        (1, 0, "1"),
        (2, 0, "1"),
        (2, 3, "2"),
        (1, 3, "refused 55"),
        (2, 2, "refused 55"),
        (2, 1, "refused 55"),
    ];
    for (upto, change, line) in cases {
        same(
            &rt,
            &version_found(rt.alloc(), upto, change)?.as_str(),
            &line,
        );
    }
    Ok(())
}

#[test]
fn a_manifest_is_installed(rt: HostRuntime) -> Result<(), Fail> {
    let alloc = rt.alloc();
    let mut disk = MemDisk::new(alloc)?;
    let count = disk.faults();
    same(&rt, &count, &0);
    let manifest = of_pair(alloc)?;
    let slot = manifest.slot();
    if slot != 0 || manifest.generation() != 2 {
        return Err(Fail::from("slot 0"));
    }
    close_slot(&mut disk, 0)?;
    same(&rt, &disk.bytes(0), &[0].as_slice());
    write_slot(alloc, &mut disk, &manifest)?;
    same(&rt, &disk.bytes(0).get(1..), &PAIR.get(1..));
    open_slot(&mut disk, 0)?;
    same(&rt, &disk.bytes(0), &PAIR.as_slice());
    Ok(())
}

// Cut at each length nothing is left of it, and a changed byte leaves the manifest, another
// generation, a closed slot, another version, or nothing that is read.
fn plain(at: usize, change: u8) -> &'static str {
    match at {
        0 => "closed",
        9..13 => "refused 55",
        13 if change % 2 == 1 => "refused 54 0",
        13..21 => "another",
        _ => "refused 54 0",
    }
}

// A number of two bytes at a place.
fn two(bytes: &[u8], at: usize) -> usize {
    let low = bytes.get(at).copied().unwrap_or(0) as usize;
    let high = bytes.get(at.saturating_add(1)).copied().unwrap_or(0) as usize;
    low + 256 * high
}

// Whether the fields from the pair on keep their rules, where those before are as in PAIR.
fn is_plain(bytes: &[u8]) -> bool {
    let a = two(bytes, 31);
    let b = two(bytes, 33);
    let c = two(bytes, 61);
    let records = two(bytes, 53)
        .saturating_mul(65_536)
        .saturating_add(two(bytes, 51));
    let are_files = 2 <= a.min(b).min(c) && a.max(b).max(c) <= 1023;
    let are_different = a != b && b != c && a != c;
    let rises = bytes.get(35..51) == PAIR.get(35..51);
    are_files && are_different && rises && records <= 4_194_304 && two(bytes, 59) == 1
}

// What is found of these bytes goes by the rules of the fields from the pair on.
fn is_found_by_rules(rt: &impl Abort, alloc: Global, bytes: &[u8]) -> Result<(), Fail> {
    let expected = if is_plain(bytes) { "2" } else { "refused 54 0" };
    finds(rt, alloc, bytes, expected)
}

#[test]
fn each_change_behind_is_found(rt: HostRuntime) -> Result<(), Fail> {
    let alloc = rt.alloc();
    for i in 31..PAIR.len() {
        for change in 1..=255u8 {
            is_found_by_rules(&rt, alloc, &changed(alloc, &PAIR, i, change)?)?;
        }
    }
    Ok(())
}

// What is found of PAIR with such a change goes by the place.
fn is_found_by_place(rt: &impl Abort, alloc: Global, at: usize, change: u8) -> Result<(), Fail> {
    let line = found(alloc, &changed(alloc, &PAIR, at, change)?)?;
    let expected = plain(at, change);
    holds(
        rt,
        line.as_str() == expected || expected == "another" && !line.starts_with("r"),
    );
    Ok(())
}

#[test]
fn each_change_is_found(rt: HostRuntime) -> Result<(), Fail> {
    let alloc = rt.alloc();
    finds(&rt, alloc, &PAIR[..0], "closed")?;
    for len in 1..PAIR.len() {
        finds(&rt, alloc, &PAIR[..len], "refused 54 0")?;
    }
    for i in 0..31usize {
        for change in 1..=255u8 {
            is_found_by_place(&rt, alloc, i, change)?;
        }
    }
    Ok(())
}
