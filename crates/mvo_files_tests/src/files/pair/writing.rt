//! The files on a disk.
use crate::equal::same;
use crate::files::pair::vectors::{DATA, DELTA, NAMED, count, pair};
use mvo_disk::{Disk, MemDisk};
use mvo_pair::{
    DataRecord, FIRST_FORMAT, Pair, append_delta, are_entries, write_data, write_delta,
};
use mvo_types::{Refusal, Row, RowKey, Stamp};
use std::alloc::{AllocError, Global};
use std::process::Abort;
use std::test::Fail;

/// The record of the vectors with this begin and this byte of data.
fn entry(alloc: Global, begin: u64, byte: u8) -> Result<DataRecord, AllocError> {
    Ok(DataRecord {
        begin: Stamp(begin),
        row: Row::new(RowKey { table: 0, key: 5 }, 50, [byte].to_vec(alloc)?)?,
    })
}

/// Writes these records, and no numbers.
fn write_pair(
    alloc: Global,
    disk: &mut MemDisk,
    pair: Pair,
    entries: &[DataRecord],
) -> Result<(), Fail> {
    if pair.data_file >= 1024 || pair.delta_file >= 1024 || disk.faults() != 0 {
        return Err(Fail::from("files"));
    }
    if !are_entries(FIRST_FORMAT, pair, entries) {
        return Err(Fail::from("no records of the pair"));
    }
    write_data(alloc, disk, FIRST_FORMAT, pair, entries)?;
    if disk.faults() != 0 {
        return Err(Fail::from("a fault"));
    }
    write_delta(alloc, disk, FIRST_FORMAT, pair, &[])?;
    Ok(())
}

/// Writes such a record, and no numbers.
fn write_one(
    alloc: Global,
    disk: &mut MemDisk,
    pair: Pair,
    begin: u64,
    byte: u8,
) -> Result<(), Fail> {
    let mut entries = Vec::new(alloc);
    entries.push(entry(alloc, begin, byte)?)?;
    write_pair(alloc, disk, pair, &entries)
}

/// A disk with one such record, and no numbers.
fn written(alloc: Global, pair: Pair, begin: u64, byte: u8) -> Result<MemDisk, Fail> {
    let mut disk = MemDisk::new(alloc)?;
    write_one(alloc, &mut disk, pair, begin, byte)?;
    Ok(disk)
}

fn writes_data(rt: &impl Abort, alloc: Global) -> Result<(), Fail> {
    let disk = written(alloc, pair(1, 0), 2, 0x61)?;
    same(rt, &disk.bytes(4), &DATA.as_slice());
    same(rt, &disk.bytes(5), &DELTA.as_slice());
    Ok(())
}

fn writes_merged_data(rt: &impl Abort, alloc: Global) -> Result<(), Fail> {
    let merged = Pair {
        data_file: 3,
        delta_file: 8,
        hi: Stamp(4),
        ..pair(1, 0)
    };
    let disk = written(alloc, merged, 4, 0x62)?;
    let mut data = DATA;
    data[8] = 4;
    data[35] = 0x62;
    same(rt, &disk.bytes(3), &data.as_slice());
    same(rt, &disk.bytes(8), &DELTA.as_slice());
    Ok(())
}

#[test]
fn the_vectors_are_written(rt: HostRuntime) -> Result<(), Fail> {
    writes_data(&rt, rt.alloc())?;
    writes_merged_data(&rt, rt.alloc())
}

/// Whether records with these begins may be those of the pair (0, 2].
fn may_be(alloc: Global, begins: &[u64]) -> Result<bool, AllocError> {
    let mut entries = Vec::new(alloc);
    for begin in begins {
        entries.push(entry(alloc, *begin, 0x61)?)?;
    }
    Ok(are_entries(FIRST_FORMAT, pair(0, 0), &entries))
}

#[test]
fn records_are_those_of_the_pair(rt: HostRuntime) -> Result<(), Fail> {
    let cases: [(&[u64], bool); 6] = [
        (&[], true),
        (&[1, 2], true),
        (&[0], false),
        (&[3], false),
        (&[2, 2], false),
        (&[2, 1], false),
    ];
    for (begins, may) in cases {
        same(&rt, &may_be(rt.alloc(), begins)?, &may);
    }
    Ok(())
}

/// Appends numbers behind so many counted ones of a delta file with these bytes.
fn append_numbers(
    alloc: Global,
    disk: &mut MemDisk,
    bytes: &[u8],
    counted: u32,
    numbers: &[u32],
) -> Result<(), Fail> {
    if disk.faults() != 0 || !disk.bytes(5).is_empty() {
        return Err(Fail::from("a new disk"));
    }
    disk.write_at(5, 0, bytes)?;
    if disk.faults() != 0 {
        return Err(Fail::from("a fault"));
    }
    disk.sync(5)?;
    if disk.faults() != 0 || disk.bytes(5).len() < 8 + 4 * counted as usize {
        return Err(Fail::from("too short a file"));
    }
    let pair = Pair {
        data_file: 4,
        delta_file: 5,
        lo: Stamp(0),
        hi: Stamp(2),
        records: 1,
        entries: counted,
    };
    append_delta(alloc, disk, pair, numbers)?;
    Ok(())
}

/// The delta file with these bytes becomes the wanted one by such numbers.
fn becomes(
    rt: &impl Abort,
    alloc: Global,
    bytes: &[u8],
    counted: u32,
    numbers: &[u32],
    wanted: &[u8],
) -> Result<(), Fail> {
    let mut disk = MemDisk::new(alloc)?;
    append_numbers(alloc, &mut disk, bytes, counted, numbers)?;
    same(rt, &disk.bytes(5), &wanted);
    Ok(())
}

#[test]
fn numbers_go_behind_the_counted_ones(rt: HostRuntime) -> Result<(), Fail> {
    let alloc = rt.alloc();
    becomes(&rt, alloc, &DELTA, 0, &[0], &NAMED)?;
    // Over what stands there, and in order.
    let old = b"MVOE\x01\0\0\0\x07\0\0\0\x08\0\0\0\x09";
    let wanted = b"MVOE\x01\0\0\0\x07\0\0\0\x03\0\0\0\x02\0\0\0";
    becomes(&rt, alloc, old, 1, &[3, 2], wanted)?;
    let wanted = b"MVOE\x01\0\0\0\x03\0\0\0\x08\0\0\0\x09";
    becomes(&rt, alloc, old, 0, &[3], wanted)
}

/// So many records of the pair are live in the vectors and on the disk, or they are refused so.
fn is_read(
    rt: &impl Abort,
    alloc: Global,
    disk: &MemDisk,
    pair: Pair,
    wanted: Result<usize, Refusal>,
) -> Result<(), Fail> {
    same(rt, &count(alloc, pair, &DATA, &DELTA), &wanted);
    if pair.data_file >= 1024 || pair.delta_file >= 1024 {
        return Err(Fail::from("files"));
    }
    let (data, delta) = (disk.bytes(pair.data_file), disk.bytes(pair.delta_file));
    same(rt, &count(alloc, pair, data, delta), &wanted);
    Ok(())
}

#[test]
fn a_pair_is_read_from_its_disk(rt: HostRuntime) -> Result<(), Fail> {
    let alloc = rt.alloc();
    let disk = written(alloc, pair(1, 0), 2, 0x61)?;
    is_read(&rt, alloc, &disk, pair(1, 0), Ok(1))?;
    is_read(&rt, alloc, &disk, pair(1, 1), Err(Refusal::Corrupt(5)))
}
