use crate::watch::{mixed, pick, tell};
use anyhow::Result;
use mvo_hash::Heads;
use mvo_types::RowKey;
use std::alloc::AllocError;
use std::collections::HashMap;
use std::rt::Clock;
use std::time::Instant;

const LOOKS: u64 = 1_000_000;

pub fn key_of(index: u64) -> RowKey {
    RowKey {
        table: 3,
        key: mixed(index),
    }
}

pub fn run<R: AllocGlobal + Clock + Eprint + Print>(rt: &R, count: u64) -> Result<()> {
    let ours = heads(rt, count)?;
    let theirs = standard(rt, count)?;
    println!(rt; "keys {count}: {ours} {theirs}")?;
    Ok(())
}

fn heads<R: AllocGlobal + Clock + Eprint>(rt: &R, count: u64) -> Result<u64> {
    let mut index = Heads::new(rt.alloc(), mixed(count));
    time_heads(rt, &mut index, count)
}

fn time_heads<R: Clock + Eprint>(rt: &R, index: &mut Heads, count: u64) -> Result<u64> {
    let start = Instant::now(rt)?;
    put_all(index, count)?;
    tell(rt, start, "key index: add", count, count)?;
    let start = Instant::now(rt)?;
    let found = look_up(index, count);
    tell(rt, start, "key index: look up", count, LOOKS)?;
    let start = Instant::now(rt)?;
    let lacking = look_up_others(index, count);
    tell(
        rt,
        start,
        "key index: look up what isn't there",
        count,
        LOOKS,
    )?;
    let start = Instant::now(rt)?;
    let removed = remove_all(index, count);
    tell(rt, start, "key index: remove", count, count)?;
    Ok(found.wrapping_add(lacking).wrapping_add(removed))
}

fn put_all(index: &mut Heads, count: u64) -> Result<(), AllocError> {
    for at in 0..count {
        index.put(key_of(at), (at & 0xFFFF) as u32)?;
    }
    Ok(())
}

// The sum of the numbers that are found.
fn look_up(index: &Heads, count: u64) -> u64 {
    let mut sum = 0u64;
    for at in 0..LOOKS {
        if let Some(number) = index.get(key_of(pick(at, count))) {
            sum = sum.wrapping_add(number as u64);
        }
    }
    sum
}

// How many of other keys aren't there.
fn look_up_others(index: &Heads, count: u64) -> u64 {
    let mut sum = 0u64;
    for at in 0..LOOKS {
        if index.get(key_of(at.wrapping_add(count))).is_none() {
            sum = sum.wrapping_add(1);
        }
    }
    sum
}

fn remove_all(index: &mut Heads, count: u64) -> u64 {
    let mut sum = 0u64;
    for at in 0..count {
        if let Some(number) = index.remove(key_of(at)) {
            sum = sum.wrapping_add(number as u64);
        }
    }
    sum
}

fn standard<R: AllocGlobal + Clock + Eprint>(rt: &R, count: u64) -> Result<u64> {
    let mut index: HashMap<RowKey, u32> = HashMap::new(rt.alloc());
    time_standard(rt, &mut index, count)
}

fn time_standard<R: Clock + Eprint>(
    rt: &R,
    index: &mut HashMap<RowKey, u32>,
    count: u64,
) -> Result<u64> {
    let start = Instant::now(rt)?;
    insert_all(index, count)?;
    tell(rt, start, "std HashMap: add", count, count)?;
    let start = Instant::now(rt)?;
    let found = look_up_standard(index, count);
    tell(rt, start, "std HashMap: look up", count, LOOKS)?;
    let start = Instant::now(rt)?;
    let lacking = look_up_others_standard(index, count);
    tell(
        rt,
        start,
        "std HashMap: look up what isn't there",
        count,
        LOOKS,
    )?;
    let start = Instant::now(rt)?;
    let removed = remove_all_standard(index, count);
    tell(rt, start, "std HashMap: remove", count, count)?;
    Ok(found.wrapping_add(lacking).wrapping_add(removed))
}

fn insert_all(index: &mut HashMap<RowKey, u32>, count: u64) -> Result<(), AllocError> {
    for at in 0..count {
        index.insert(key_of(at), (at & 0xFFFF) as u32)?;
    }
    Ok(())
}

fn look_up_standard(index: &HashMap<RowKey, u32>, count: u64) -> u64 {
    let mut sum = 0u64;
    for at in 0..LOOKS {
        if let Some(number) = index.get(&key_of(pick(at, count))) {
            sum = sum.wrapping_add(*number as u64);
        }
    }
    sum
}

fn look_up_others_standard(index: &HashMap<RowKey, u32>, count: u64) -> u64 {
    let mut sum = 0u64;
    for at in 0..LOOKS {
        if index.get(&key_of(at.wrapping_add(count))).is_none() {
            sum = sum.wrapping_add(1);
        }
    }
    sum
}

fn remove_all_standard(index: &mut HashMap<RowKey, u32>, count: u64) -> u64 {
    let mut sum = 0u64;
    for at in 0..count {
        if let Some(number) = index.remove(&key_of(at)) {
            sum = sum.wrapping_add(number as u64);
        }
    }
    sum
}
