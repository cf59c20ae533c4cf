use crate::watch::{mixed, pick, tell};
use anyhow::Result;
use mvo_range::{RangeIndex, SortPlace};
use std::alloc::{AllocError, Global};
use std::collections::BTreeMap;
use std::rt::Clock;
use std::time::Instant;

const WALKS: u64 = 20_000;

const STEPS: usize = 100;

const LAST: SortPlace = SortPlace {
    table: 3,
    sort: u64::MAX,
    key: u64::MAX,
};

fn place_of(index: u64) -> SortPlace {
    let number = mixed(index);
    SortPlace {
        table: 3,
        sort: number >> 8,
        key: number,
    }
}

pub fn run<R: AllocGlobal + Clock + Eprint + Print>(rt: &R, count: u64) -> Result<()> {
    let ours = index(rt, count)?;
    let theirs = standard(rt, count)?;
    println!(rt; "ranges {count}: {ours} {theirs}")?;
    Ok(())
}

fn index<R: AllocGlobal + Clock + Eprint>(rt: &R, count: u64) -> Result<u64> {
    let mut index = RangeIndex::new(rt.alloc());
    time_index(rt, &mut index, count)
}

fn time_index<R: AllocGlobal + Clock + Eprint>(
    rt: &R,
    index: &mut RangeIndex,
    count: u64,
) -> Result<u64> {
    let start = Instant::now(rt)?;
    add_all(index, count)?;
    tell(rt, start, "ordered index: add", count, count)?;
    let start = Instant::now(rt)?;
    let walked = walk_all(index, count);
    tell(rt, start, "ordered index: walk 100", count, WALKS)?;
    let built = build(rt, index, count)?;
    let start = Instant::now(rt)?;
    let removed = remove_all(index, count);
    tell(rt, start, "ordered index: remove", count, count)?;
    Ok(walked.wrapping_add(built).wrapping_add(removed))
}

fn add_all(index: &mut RangeIndex, count: u64) -> Result<(), AllocError> {
    for at in 0..count {
        index.add(place_of(at), (at & 0xFFFF) as u32)?;
    }
    Ok(())
}

// The sum of the numbers that walks meet.
fn walk_all(index: &RangeIndex, count: u64) -> u64 {
    let mut sum = 0u64;
    for at in 0..WALKS {
        let from = place_of(pick(at, count));
        for (_, number) in index.between(3, from.sort, u64::MAX).take(STEPS) {
            sum = sum.wrapping_add(number as u64);
        }
    }
    sum
}

// Builds another index of the same entries, and answers how many it has.
fn build<R: AllocGlobal + Clock + Eprint>(rt: &R, index: &RangeIndex, count: u64) -> Result<u64> {
    let entries = entries_of(rt.alloc(), index)?;
    let start = Instant::now(rt)?;
    let len = len_of_built(rt.alloc(), entries)?;
    tell(
        rt,
        start,
        "ordered index: build in one go, an entry",
        count,
        count,
    )?;
    Ok(len)
}

fn entries_of(alloc: Global, index: &RangeIndex) -> Result<Vec<(SortPlace, u32)>, AllocError> {
    let mut entries = Vec::new(alloc);
    for entry in index.between(3, 0, u64::MAX) {
        entries.push(entry)?;
    }
    Ok(entries)
}

fn len_of_built(alloc: Global, entries: Vec<(SortPlace, u32)>) -> Result<u64, AllocError> {
    let built = RangeIndex::from_entries(alloc, entries)?;
    Ok(built.len() as u64)
}

fn remove_all(index: &mut RangeIndex, count: u64) -> u64 {
    let mut sum = 0u64;
    for at in 0..count {
        if let Some(number) = index.remove(place_of(at)) {
            sum = sum.wrapping_add(number as u64);
        }
    }
    sum
}

fn standard<R: AllocGlobal + Clock + Eprint>(rt: &R, count: u64) -> Result<u64> {
    let mut index: BTreeMap<SortPlace, u32> = BTreeMap::new(rt.alloc());
    time_standard(rt, &mut index, count)
}

fn time_standard<R: Clock + Eprint>(
    rt: &R,
    index: &mut BTreeMap<SortPlace, u32>,
    count: u64,
) -> Result<u64> {
    let start = Instant::now(rt)?;
    insert_all(index, count)?;
    tell(rt, start, "std BTreeMap: add", count, count)?;
    let start = Instant::now(rt)?;
    let walked = walk_all_standard(index, count);
    tell(rt, start, "std BTreeMap: walk 100", count, WALKS)?;
    let len = index.len() as u64;
    let start = Instant::now(rt)?;
    let removed = remove_all_standard(index, count);
    tell(rt, start, "std BTreeMap: remove", count, count)?;
    Ok(walked.wrapping_add(len).wrapping_add(removed))
}

fn insert_all(index: &mut BTreeMap<SortPlace, u32>, count: u64) -> Result<(), AllocError> {
    for at in 0..count {
        index.insert(place_of(at), (at & 0xFFFF) as u32)?;
    }
    Ok(())
}

fn walk_all_standard(index: &BTreeMap<SortPlace, u32>, count: u64) -> u64 {
    let mut sum = 0u64;
    for at in 0..WALKS {
        let from = SortPlace {
            key: 0,
            ..place_of(pick(at, count))
        };
        if from <= LAST {
            for (_, number) in index.range(from..=LAST).take(STEPS) {
                sum = sum.wrapping_add(*number as u64);
            }
        }
    }
    sum
}

fn remove_all_standard(index: &mut BTreeMap<SortPlace, u32>, count: u64) -> u64 {
    let mut sum = 0u64;
    for at in 0..count {
        if let Some(number) = index.remove(&place_of(at)) {
            sum = sum.wrapping_add(number as u64);
        }
    }
    sum
}
