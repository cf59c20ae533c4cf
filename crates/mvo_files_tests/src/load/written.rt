//! Images that the writers of manifests, pairs and segments wrote.
use crate::load::image::{
    DATA, DELTA, INSERTED, LATER_DATA, NAMED, bytes, finds, places, put, put_all,
};
use mvo_disk::{Disk, MemDisk};
use mvo_format::FIRST_FORMAT;
use mvo_frame::Segment;
use mvo_group::Group;
use mvo_manifest::{Manifest, Pair};
use mvo_types::Stamp;
use std::alloc::Global;
use std::process::Abort;
use std::test::Fail;
use std::thread::Threads;

/// The manifest of generation 0 with these pairs, and segment 2.
fn manifest_of(alloc: Global, pairs: &[Pair]) -> Result<Manifest, Fail> {
    let mark = pairs.last().map_or(Stamp(0), |pair| pair.hi);
    let segments = vec![in alloc; 2]?;
    let manifest = Manifest::new(
        FIRST_FORMAT.version,
        0,
        mark,
        pairs.to_vec(alloc)?,
        segments,
    )?;
    Ok(manifest.ok_or("a manifest")?)
}

/// The bytes of its slot.
fn slot_of(alloc: Global, manifest: &Manifest) -> Result<Vec<u8>, Fail> {
    let mut slot = vec![in alloc; 0xa5]?;
    slot.extend_from_slice(&manifest.encode(alloc)?)?;
    Ok(slot)
}

/// Writes that manifest to slot 0.
fn install(alloc: Global, disk: &mut MemDisk, pairs: &[Pair]) -> Result<(), Fail> {
    let slot = slot_of(alloc, &manifest_of(alloc, pairs)?)?;
    put(disk, 0, &slot)
}

/// The pair (0, 2] in files 4 and 5.
fn earlier(entries: u32) -> Pair {
    Pair {
        data_file: 4,
        delta_file: 5,
        lo: Stamp(0),
        hi: Stamp(2),
        records: 1,
        entries,
    }
}

/// The pair (2, 4] in files 6 and 7.
fn later() -> Pair {
    Pair {
        data_file: 6,
        delta_file: 7,
        lo: Stamp(2),
        hi: Stamp(4),
        records: 1,
        entries: 0,
    }
}

const FILES: [(u16, &str); 4] = [(4, DATA), (5, NAMED), (6, LATER_DATA), (7, DELTA)];

/// The files of both pairs, and a segment without frames.
fn put_pairs(alloc: Global, disk: &mut MemDisk) -> Result<(), Fail> {
    put_all(alloc, disk, &FILES)?;
    if disk.faults() > 0 {
        return Err(Fail::from("a fault"));
    }
    let _segment = Segment::fresh(disk, FIRST_FORMAT.version, 2)?;
    Ok(())
}

/// A disk with them.
fn disk_of_pairs(alloc: Global) -> Result<MemDisk, Fail> {
    let mut disk = MemDisk::new(alloc)?;
    put_pairs(alloc, &mut disk)?;
    Ok(disk)
}

/// Once the manifest has these pairs and these files are emptied, what is found is the line.
fn installed_finds(
    rt: &(impl Abort + Threads + Sync),
    alloc: Global,
    disk: &mut MemDisk,
    pairs: &[Pair],
    emptied: &[u16],
    line: &str,
) -> Result<(), Fail> {
    install(alloc, disk, pairs)?;
    for file in emptied {
        put(disk, *file, &[])?;
    }
    finds(rt, alloc, disk, line)
}

fn stands_once(
    rt: &(impl Abort + Threads + Sync),
    alloc: Global,
    disk: &mut MemDisk,
) -> Result<(), Fail> {
    let cases: [(&[Pair], &[u16], &str); 4] = [
        // The record of the earlier pair is named, so that only the later one is live.
        (&[earlier(1), later()], &[], "0, 4, 8, 1: 50 62"),
        // Both are live: the file of the second one is named.
        (&[earlier(0), later()], &[], "refused 54 6"),
        // Which is looked at before the next file.
        (&[earlier(0), later()], &[2], "refused 54 6"),
        (&[earlier(0)], &[6], "refused 54 2"),
    ];
    for (pairs, emptied, line) in cases {
        installed_finds(rt, alloc, disk, pairs, emptied, line)?;
    }
    Ok(())
}

#[test]
fn a_live_key_stands_once(rt: HostRuntime) -> Result<(), Fail> {
    let mut disk = disk_of_pairs(rt.alloc())?;
    stands_once(&rt, rt.alloc(), &mut disk)
}

/// What a data file begins with.
const DATA_HEADER: &str = "4d564f44 01000000";

/// A data file with two records of one key, at 2 and at 4.
fn both_records(alloc: Global) -> Result<Vec<u8>, Fail> {
    let second = bytes(alloc, LATER_DATA)?;
    let mut data = bytes(alloc, DATA)?;
    data.extend_from_slice(second.get(8..).ok_or("a record")?)?;
    Ok(data)
}

fn stands_once_within(
    rt: &(impl Abort + Threads + Sync),
    alloc: Global,
    disk: &mut MemDisk,
) -> Result<(), Fail> {
    put(disk, 4, &both_records(alloc)?)?;
    let cases = [(0, DELTA, "refused 54 4"), (1, NAMED, "0, 4, 8, 1: 50 62")];
    for (entries, delta, line) in cases {
        put_all(alloc, disk, &[(5, delta)])?;
        let pair = Pair {
            hi: Stamp(4),
            records: 2,
            ..earlier(entries)
        };
        installed_finds(rt, alloc, disk, &[pair], &[], line)?;
    }
    Ok(())
}

#[test]
fn a_key_stands_once_within_a_pair(rt: HostRuntime) -> Result<(), Fail> {
    let mut disk = disk_of_pairs(rt.alloc())?;
    stands_once_within(&rt, rt.alloc(), &mut disk)
}

/// Adds a record of table 0 with sort 50 and data 61.
fn add_record(data: &mut Vec<u8>, stamp: u64, key: u64) -> Result<(), Fail> {
    data.extend_from_slice(&stamp.to_le_bytes())?;
    data.push(0)?;
    data.extend_from_slice(&key.to_le_bytes())?;
    data.extend_from_slice(&50u64.to_le_bytes())?;
    data.extend_from_slice(&[1, 0, 0x61])?;
    Ok(())
}

/// A data file with so many records, from timestamp 1 and key 0 on. The last one has this key.
fn records(alloc: Global, count: u32, last: u64) -> Result<Vec<u8>, Fail> {
    let mut data = bytes(alloc, DATA_HEADER)?;
    for stamp in 1..count {
        add_record(&mut data, stamp as u64, stamp as u64 - 1)?;
    }
    add_record(&mut data, count as u64, last)?;
    Ok(data)
}

/// How many records a pair has, the key of the last one, what is found, and where key 5 lies. From
/// the second count on pairs are read in threads.
const COUNTS: [(u32, u64, &str, &str); 4] = [
    (8_191, 8_190, "0, 8191, 8, 8191: 50 61", "4 5"),
    (8_192, 8_191, "0, 8192, 8, 8192: 50 61", "4 5"),
    (8_191, 5, "refused 54 4", "refused 54 4"),
    (8_192, 5, "refused 54 4", "refused 54 4"),
];

fn are_found_alike(
    rt: &(impl Abort + Threads + Sync),
    alloc: Global,
    disk: &mut MemDisk,
) -> Result<(), Fail> {
    put_all(alloc, disk, &[(5, DELTA)])?;
    for (count, last, line, place) in COUNTS {
        put(disk, 4, &records(alloc, count, last)?)?;
        let pair = Pair {
            hi: Stamp(count as u64),
            records: count,
            ..earlier(0)
        };
        installed_finds(rt, alloc, disk, &[pair], &[], line)?;
        places(rt, alloc, disk, place)?;
    }
    Ok(())
}

#[test]
fn few_and_many_records_are_found_alike(rt: HostRuntime) -> Result<(), Fail> {
    let mut disk = disk_of_pairs(rt.alloc())?;
    are_found_alike(&rt, rt.alloc(), &mut disk)
}

/// The group of the segment.
fn inserted(alloc: Global) -> Result<Group, Fail> {
    let segment = bytes(alloc, INSERTED)?;
    let body = segment.get(13..62).ok_or("a body")?;
    Ok(Group::decode(alloc, FIRST_FORMAT, body)?.ok_or("a group")?)
}

/// Appends the group to a fresh segment.
fn append(alloc: Global, disk: &mut MemDisk, group: &Group) -> Result<(), Fail> {
    if disk.faults() > 0 || group.prev().0 != 0 {
        return Err(Fail::from("a fault, or another group"));
    }
    let mut segment = Segment::fresh(disk, FIRST_FORMAT.version, 2)?;
    segment.write_body(alloc, disk, group)?;
    segment.open_gate(disk)?;
    Ok(())
}

fn are_found(
    rt: &(impl Abort + Threads + Sync),
    alloc: Global,
    disk: &mut MemDisk,
) -> Result<(), Fail> {
    install(alloc, disk, &[])?;
    append(alloc, disk, &inserted(alloc)?)?;
    finds(rt, alloc, disk, "0, 2, 62, 1: 50 61")
}

#[test]
fn appended_groups_are_found(rt: HostRuntime) -> Result<(), Fail> {
    let mut disk = MemDisk::new(rt.alloc())?;
    are_found(&rt, rt.alloc(), &mut disk)
}
