use crate::watch::tell;
use anyhow::Result;
use mvo_chain::VersionNo;
use mvo_types::{Row, RowKey, Rows, Stamp, TxId};
use mvo_versions::Versions;
use std::alloc::{AllocError, Global};
use std::rt::Clock;
use std::thread::Threads;
use std::time::Instant;

const SIZES: [u64; 3] = [2_000, 4_000, 8_000];

const ROUNDS: u64 = 20;

const HOT: RowKey = RowKey { table: 3, key: 7 };

/// Versions of one key, put newest last and taken out oldest first, whose sort stays, is one of two
/// in turn, or changes with each.
pub fn run<R: AllocGlobal + Clock + Eprint + Print + Threads + Sync>(rt: &R) -> Result<()> {
    for count in SIZES {
        let stays = hot(rt, "sort stays", count, 1)?;
        let turns = hot(rt, "sort of two in turn", count, 2)?;
        let changes = hot(rt, "sort changes", count, u64::MAX)?;
        println!(rt; "sorts {count}: {stays} {turns} {changes}")?;
    }
    Ok(())
}

fn hot<R: AllocGlobal + Clock + Eprint + Threads + Sync>(
    rt: &R,
    name: &str,
    count: u64,
    sorts: u64,
) -> Result<u64> {
    let alloc = rt.alloc();
    let mut versions = Versions::load(rt, alloc, 1, Rows::new(alloc), Stamp(1))?;
    let mut numbers = Vec::new(alloc);
    let mut sum = 0u64;
    let mut taking = 0u128;
    let start = Instant::now(rt)?;
    for _ in 0..ROUNDS {
        put_all(alloc, &mut versions, &mut numbers, count, sorts)?;
        let taken = Instant::now(rt)?;
        sum = sum.wrapping_add(take_all(&mut versions, &numbers));
        taking = taking.saturating_add(taken.elapsed(rt)?.as_nanos());
        numbers.clear();
    }
    tell(rt, start, name, count, ROUNDS.wrapping_mul(count))?;
    tell_taking(rt, taking, count)?;
    Ok(sum.wrapping_add(left(&versions)))
}

// Prints how many of these nanoseconds it took to take one out.
fn tell_taking<R: Eprint>(rt: &R, nanos: u128, count: u64) -> Result<()> {
    let versions = u128::from(ROUNDS.wrapping_mul(count).max(1));
    let each = if versions == 0 { 0 } else { nanos / versions };
    eprintln!(rt; "{count:>8}     of these, taking out {each:>26} ns")?;
    Ok(())
}

fn put_all(
    alloc: Global,
    versions: &mut Versions,
    numbers: &mut Vec<VersionNo>,
    count: u64,
    sorts: u64,
) -> Result<(), AllocError> {
    for at in 0..count {
        let sort = if sorts == 0 { 0 } else { at % sorts };
        let row = Row::from_slice(alloc, HOT, sort, &[1])?;
        let number = versions.put(row, TxId(3), numbers.last().copied())?;
        numbers.push(number)?;
    }
    Ok(())
}

// The sum of the sorts of those that were there.
fn take_all(versions: &mut Versions, numbers: &[VersionNo]) -> u64 {
    let mut sum = 0u64;
    for number in numbers {
        if versions.get(*number).is_some() {
            sum = sum.wrapping_add(versions.take_out(*number).sort);
        }
    }
    sum
}

// How many places are left.
fn left(versions: &Versions) -> u64 {
    let mut count = 0u64;
    for _ in versions.between(HOT.table, 0, u64::MAX) {
        count = count.saturating_add(1);
    }
    count
}
