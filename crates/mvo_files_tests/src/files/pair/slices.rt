//! A data file that is written in slices.
use crate::equal::same;
use crate::files::pair::vectors::pair;
use mvo_disk::{Disk, MemDisk};
use mvo_format::LAST_FORMAT;
use mvo_pair::{DataRecord, are_entries, write_data, write_slice};
use mvo_types::{Row, RowKey, Stamp};
use std::alloc::{AllocError, Global};
use std::process::Abort;
use std::test::Fail;

/// How many records: three more than fit into a slice.
pub const COUNT: u32 = 66;

/// Records of as much data as there may be.
pub fn long_records(alloc: Global) -> Result<Vec<DataRecord>, AllocError> {
    let mut records = Vec::new(alloc);
    for key in 0..u64::from(COUNT) {
        let data = vec![in alloc; (key % 256) as u8; 4_096]?;
        records.push(DataRecord {
            begin: Stamp(2),
            row: Row::new(RowKey { table: 0, key }, key, data)?,
        })?;
    }
    Ok(records)
}

/// A disk with the records in one piece.
pub fn in_one(alloc: Global, records: &[DataRecord]) -> Result<MemDisk, Fail> {
    let mut disk = MemDisk::new(alloc)?;
    let pair = pair(COUNT, 0);
    if pair.data_file >= 1024 || !are_entries(LAST_FORMAT, pair, records) {
        return Err(Fail::from("no records of the pair"));
    }
    if disk.faults() == 0 {
        write_data(alloc, &mut disk, LAST_FORMAT, pair, records)?;
    }
    Ok(disk)
}

/// Writes two slices, and answers how many records the file holds behind each.
fn two_slices(
    alloc: Global,
    disk: &mut MemDisk,
    records: &[DataRecord],
) -> Result<(usize, usize), Fail> {
    let pair = pair(COUNT, 0);
    if pair.data_file >= 1024 || disk.faults() != 0 {
        return Err(Fail::from("files"));
    }
    if !are_entries(LAST_FORMAT, pair, records) {
        return Err(Fail::from("no records of the pair"));
    }
    let first = write_slice(alloc, disk, LAST_FORMAT, pair, records, 0)?;
    let second = write_slice(alloc, disk, LAST_FORMAT, pair, records, first)?;
    Ok((first, second))
}

#[test]
fn slices_make_up_the_file(rt: HostRuntime) -> Result<(), Fail> {
    let alloc = rt.alloc();
    let records = long_records(alloc)?;
    let whole = in_one(alloc, &records)?;
    let mut disk = MemDisk::new(alloc)?;
    same(&rt, &two_slices(alloc, &mut disk, &records)?, &(63, 66));
    same(&rt, &disk.bytes(4).len(), &whole.bytes(4).len());
    same(&rt, &(disk.bytes(4) == whole.bytes(4)), &true);
    Ok(())
}
