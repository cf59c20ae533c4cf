use crate::keys::key_of;
use crate::watch::{mixed, pick, tell};
use anyhow::Result;
use mvo_chain::VersionNo;
use mvo_hash::HashIndex;
use mvo_types::RowKey;
use std::alloc::{AllocError, Global};
use std::collections::HashMap;
use std::rt::Clock;
use std::time::Instant;

const WALKS: u64 = 100_000;

// How many versions a key has.
const EACH: u64 = 10;

pub fn run<R: AllocGlobal + Clock + Eprint + Print>(rt: &R, count: u64) -> Result<()> {
    let ours = linked(rt, count)?;
    let theirs = standard(rt, count)?;
    println!(rt; "versions {count}: {ours} {theirs}")?;
    Ok(())
}

fn owner(at: u64, count: u64) -> RowKey {
    key_of(at % (count / EACH).max(1))
}

fn linked<R: AllocGlobal + Clock + Eprint>(rt: &R, count: u64) -> Result<u64> {
    let mut index = HashIndex::new(rt.alloc(), mixed(count));
    time_linked(rt, &mut index, count)
}

fn time_linked<R: Clock + Eprint>(rt: &R, index: &mut HashIndex, count: u64) -> Result<u64> {
    let start = Instant::now(rt)?;
    add_all(index, count)?;
    tell(rt, start, "versions of keys: add", count, count)?;
    let start = Instant::now(rt)?;
    let walked = walk_all(index, count);
    tell(rt, start, "versions of keys: walk 10", count, WALKS)?;
    let start = Instant::now(rt)?;
    let sum = remove_all(index, count, walked);
    tell(rt, start, "versions of keys: remove", count, count)?;
    Ok(sum)
}

fn add_all(index: &mut HashIndex, count: u64) -> Result<(), AllocError> {
    for at in 0..count {
        let version = VersionNo((at & 0xFFFF_FFFF) as u32);
        if !index.is_held(version) {
            index.add(owner(at, count), version)?;
        }
    }
    Ok(())
}

// Takes a number into a checksum of those before.
fn taken(sum: u64, number: u64) -> u64 {
    sum.rotate_left(1).wrapping_add(number)
}

fn walk_all(index: &HashIndex, count: u64) -> u64 {
    let mut sum = 0u64;
    for at in 0..WALKS {
        sum = walk(index, owner(pick(at, count), count), sum);
    }
    sum
}

fn walk(index: &HashIndex, key: RowKey, before: u64) -> u64 {
    let mut sum = before;
    let mut next = index.newest(key);
    for _ in 0..EACH {
        let Some(version) = next else { break };
        sum = taken(sum, version.0 as u64);
        next = if index.is_held(version) {
            index.older(version)
        } else {
            None
        };
    }
    sum
}

fn remove_all(index: &mut HashIndex, count: u64, before: u64) -> u64 {
    let mut sum = before;
    for at in 0..count {
        sum = taken(sum, remove_newest(index, owner(at, count)));
    }
    sum
}

fn remove_newest(index: &mut HashIndex, key: RowKey) -> u64 {
    match index.newest(key) {
        Some(version) => {
            index.remove(key, version);
            version.0 as u64
        }
        None => 0,
    }
}

fn standard<R: AllocGlobal + Clock + Eprint>(rt: &R, count: u64) -> Result<u64> {
    let mut index: HashMap<RowKey, Vec<u32>> = HashMap::new(rt.alloc());
    time_standard(rt, &mut index, count)
}

fn time_standard<R: AllocGlobal + Clock + Eprint>(
    rt: &R,
    index: &mut HashMap<RowKey, Vec<u32>>,
    count: u64,
) -> Result<u64> {
    let start = Instant::now(rt)?;
    push_all(rt.alloc(), index, count)?;
    tell(rt, start, "std HashMap of Vec: add", count, count)?;
    let start = Instant::now(rt)?;
    let walked = walk_all_standard(index, count);
    tell(rt, start, "std HashMap of Vec: walk 10", count, WALKS)?;
    let start = Instant::now(rt)?;
    let sum = pop_all(index, count, walked);
    tell(rt, start, "std HashMap of Vec: remove", count, count)?;
    Ok(sum)
}

fn push_all(
    alloc: Global,
    index: &mut HashMap<RowKey, Vec<u32>>,
    count: u64,
) -> Result<(), AllocError> {
    for at in 0..count {
        let version = (at & 0xFFFF_FFFF) as u32;
        let key = owner(at, count);
        match index.get_mut(&key) {
            Some(versions) => versions.push(version)?,
            None => {
                index.insert(key, one(alloc, version)?)?;
            }
        }
    }
    Ok(())
}

fn one(alloc: Global, version: u32) -> Result<Vec<u32>, AllocError> {
    let mut versions = Vec::new(alloc);
    versions.push(version)?;
    Ok(versions)
}

fn walk_all_standard(index: &HashMap<RowKey, Vec<u32>>, count: u64) -> u64 {
    let mut sum = 0u64;
    for at in 0..WALKS {
        if let Some(versions) = index.get(&owner(pick(at, count), count)) {
            for version in versions.iter().rev() {
                sum = taken(sum, *version as u64);
            }
        }
    }
    sum
}

fn pop_all(index: &mut HashMap<RowKey, Vec<u32>>, count: u64, before: u64) -> u64 {
    let mut sum = before;
    for at in 0..count {
        let last = match index.get_mut(&owner(at, count)) {
            Some(versions) => versions.pop(),
            None => None,
        };
        sum = taken(sum, last.unwrap_or(0) as u64);
    }
    sum
}
