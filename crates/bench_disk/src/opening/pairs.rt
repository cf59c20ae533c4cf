use super::opened::{Opened, open};
use super::writer::sort_of;
use anyhow::{Result, bail};
use mvo_disk::{Disk, MemDisk};
use mvo_format::LAST_FORMAT;
use mvo_manifest::Manifest;
use mvo_pair::{DataRecord, Pair, are_entries, write_data, write_delta};
use mvo_store::format;
use mvo_types::{Row, RowKey, Rows, Stamp};
use std::alloc::{AllocError, Global};
use std::rt::Clock;
use std::thread::Threads;

/// How many pairs hold the rows.
pub const PAIRS: u64 = 4;

// The key of the record of a number, in another order.
fn key_of(number: u64) -> RowKey {
    RowKey {
        table: 0,
        key: number.wrapping_mul(0x9e37_79b9_7f4a_7c15),
    }
}

fn entry(alloc: Global, number: u64) -> Result<DataRecord, AllocError> {
    let bytes = vec![in alloc; number.to_le_bytes()[0]; 100]?;
    Ok(DataRecord {
        begin: Stamp(number),
        row: Row::new(key_of(number), sort_of(number), bytes)?,
    })
}

fn entries(alloc: Global, lo: u64, hi: u64) -> Result<Vec<DataRecord>, AllocError> {
    let mut entries = Vec::new(alloc);
    for number in lo..hi {
        entries.push(entry(alloc, number.wrapping_add(1))?)?;
    }
    Ok(entries)
}

// The pair of two files, of which the records have the numbers above lo and up to hi.
fn pair(data_file: u16, lo: u64, hi: u64) -> Pair {
    Pair {
        data_file,
        delta_file: data_file.wrapping_add(1),
        lo: Stamp(lo),
        hi: Stamp(hi),
        records: u32::try_from(hi.wrapping_sub(lo)).unwrap_or(u32::MAX),
        entries: 0,
    }
}

// Writes the two files of a pair.
fn write_pair(alloc: Global, disk: &mut MemDisk, pair: Pair) -> Result<()> {
    let entries = entries(alloc, pair.lo.0, pair.hi.0)?;
    if !are_entries(LAST_FORMAT, pair, &entries) || pair.data_file >= 1000 {
        bail!("the records of a pair");
    }
    if pair.delta_file >= 1000 || disk.faults() != 0 {
        bail!("a disk without a fault");
    }
    write_data(alloc, disk, LAST_FORMAT, pair, &entries)?;
    if disk.faults() != 0 {
        bail!("a disk without a fault");
    }
    write_delta(alloc, disk, LAST_FORMAT, pair, &[])?;
    Ok(())
}

// Puts a manifest with an open gate into slot 1, which is empty but for its gate.
fn write_manifest(alloc: Global, disk: &mut MemDisk, manifest: &Manifest) -> Result<()> {
    let mut bytes = vec![in alloc; 0xa5u8]?;
    bytes.extend_from_slice(&manifest.encode(alloc)?)?;
    if disk.faults() != 0 {
        bail!("a disk without a fault");
    }
    if disk.write_at(1, 0, &bytes).is_err() {
        bail!("the manifest isn't written");
    }
    Ok(())
}

/// The pair of a number from 0 on, where the pairs hold so many rows.
pub fn pair_of(number: u16, count: u64) -> Pair {
    let each = count / PAIRS;
    let lo = u64::from(number).wrapping_mul(each);
    let file = number.wrapping_mul(2).wrapping_add(3);
    pair(file, lo, lo.wrapping_add(each))
}

// Writes the pairs, and answers them.
fn write_pairs(alloc: Global, disk: &mut MemDisk, count: u64) -> Result<Vec<Pair>> {
    let mut pairs = Vec::new(alloc);
    for number in 0..PAIRS as u16 {
        let pair = pair_of(number, count);
        write_pair(alloc, disk, pair)?;
        pairs.push(pair)?;
    }
    Ok(pairs)
}

// The manifest of the pairs and of a segment without groups.
fn manifest(alloc: Global, pairs: Vec<Pair>, count: u64) -> Result<Manifest> {
    let mark = Stamp((count / PAIRS).wrapping_mul(PAIRS));
    let segments = vec![in alloc; 2u16]?;
    match Manifest::new(LAST_FORMAT.version, 1, mark, pairs, segments)? {
        Some(manifest) => Ok(manifest),
        None => bail!("the pairs and the segment make a manifest"),
    }
}

/// A disk with a store that holds so many rows in its pairs, and none in its log.
pub fn written(alloc: Global, count: u64) -> Result<MemDisk> {
    let Ok(mut disk) = format(alloc, MemDisk::new(alloc)?) else {
        bail!("the disk isn't formatted");
    };
    let pairs = write_pairs(alloc, &mut disk, count)?;
    write_manifest(alloc, &mut disk, &manifest(alloc, pairs, count)?)?;
    Ok(disk)
}

// The time of opening a store that holds so many rows in its pairs.
pub fn run<R>(rt: &R, count: u64) -> Result<()>
where
    R: AllocGlobal + Clock + Eprint + Print + Threads + Sync,
{
    let opened = open(rt, written(rt.alloc(), count)?)?;
    tell(rt, count, &opened)
}

fn tell<R: Eprint + Print>(rt: &R, count: u64, opened: &Opened) -> Result<()> {
    eprintln!(rt; "{count} rows from {PAIRS} pairs: {} ms", opened.millis)?;
    let sum = sum_of(&opened.rows, count)?;
    let (rows, mark) = (opened.rows.len(), opened.mark);
    println!(rt; "rows {rows} mark {mark} pairs {PAIRS} sum {sum}")?;
    Ok(())
}

/// The sum of the sorts of all rows.
pub fn sum_of(rows: &Rows, count: u64) -> Result<u64> {
    let mut sum = 0u64;
    for number in 0..count {
        if let Some(row) = rows.get(key_of(number.wrapping_add(1)))? {
            sum = sum.wrapping_add(row.sort);
        }
    }
    Ok(sum)
}
