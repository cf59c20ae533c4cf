use super::steps::{MemStore, append_body, append_open, install, rotate_write, take};
use anyhow::{Result, bail};
use mvo_disk::{Disk, MemDisk};
use mvo_group::{Group, Record, Write};
use mvo_store::{Store, format};
use mvo_types::{Refusal, Row, RowKey, Stamp};
use std::alloc::{AllocError, Global};
use std::thread::Threads;

// How many rows a transaction puts, and how many transactions a group has.
const WRITES: u64 = 100;

const RECORDS: u64 = 300;

// The seed of the stores' tables.
pub const SEED: u64 = 7;

// The sort of a row, well mixed.
pub fn sort_of(key: u64) -> u64 {
    let a = key.wrapping_add(1).wrapping_mul(0x9e37_79b9_7f4a_7c15);
    a ^ (a >> 29)
}

fn put(alloc: Global, key: u64) -> Result<Write, AllocError> {
    let bytes = vec![in alloc; key.to_le_bytes()[0]; 100]?;
    Ok(Write::Put(Row::new(RowKey { table: 0, key }, sort_of(key), bytes)?))
}

// The transaction with an end, which puts the rows from a key on.
fn record(alloc: Global, end: u64, first: u64, last: u64) -> Result<Record, AllocError> {
    let mut writes = Vec::with_capacity(alloc, WRITES as usize)?;
    for key in first..last {
        writes.push(put(alloc, key)?)?;
    }
    Ok(Record {
        end: Stamp(end),
        writes,
    })
}

// The transactions behind a mark, which put the rows from a key on.
fn records(alloc: Global, prev: u64, first: u64, last: u64) -> Result<Vec<Record>, AllocError> {
    let mut records = Vec::with_capacity(alloc, RECORDS as usize)?;
    for number in 0..RECORDS {
        let key = first.wrapping_add(number.wrapping_mul(WRITES));
        if key >= last {
            break;
        }
        let end = prev.wrapping_add(number).wrapping_add(1);
        records.push(record(alloc, end, key, last.min(key.wrapping_add(WRITES)))?)?;
    }
    Ok(records)
}

// The group of them.
fn group(alloc: Global, prev: u64, first: u64, last: u64) -> Result<Group> {
    let records = records(alloc, prev, first, last)?;
    let mark = prev.wrapping_add(records.len() as u64);
    match Group::new(Stamp(prev), Stamp(mark), records) {
        Some(group) => Ok(group),
        None => bail!("the records are no group"),
    }
}

pub fn rotate(store: &mut MemStore) -> Result<(), Refusal> {
    rotate_write(store)?;
    install(store)
}

// Appends the body of the group that was taken; a segment that is full or old is rotated first.
fn append_behind(store: &mut MemStore) -> Result<(), Refusal> {
    match append_body(store) {
        Err(Refusal::SegmentFull | Refusal::OldSegment) => {
            rotate(store)?;
            append_body(store)
        }
        appended => appended,
    }
}

fn append(store: &mut MemStore, group: Group) -> Result<()> {
    take(store, group)?;
    append_behind(store)?;
    append_open(store)?;
    Ok(())
}

// Appends so many rows, group by group.
fn append_all(store: &mut MemStore, alloc: Global, count: u64) -> Result<()> {
    for number in 0..count {
        let key = number.wrapping_mul(WRITES * RECORDS);
        if key >= count {
            break;
        }
        let next = count.min(key.wrapping_add(WRITES * RECORDS));
        append(store, group(alloc, store.mark().0, key, next)?)?;
    }
    Ok(())
}

// A disk with a store that holds so many rows in its log.
pub fn written(rt: &(impl Threads + Sync), alloc: Global, count: u64) -> Result<MemDisk> {
    let Ok(disk) = format(alloc, MemDisk::new(alloc)?) else {
        bail!("the disk isn't formatted");
    };
    let Ok((mut store, _, _)) = Store::open(rt, alloc, SEED, disk) else {
        bail!("the new store isn't opened");
    };
    append_all(&mut store, alloc, count)?;
    Ok(store.into_disk())
}
