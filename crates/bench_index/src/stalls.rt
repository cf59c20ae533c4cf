//! The longest single call, as each table grows to so many entries.
use crate::keys::key_of;
use crate::watch::mixed;
use anyhow::Result;
use mvo_chain::{Chains, VersionNo};
use mvo_hash::{HashIndex, Heads};
use mvo_types::{Row, Stamp};
use mvo_word::Word;
use std::rt::Clock;
use std::time::Instant;

// Each call is made in so many rounds, and the least of its times counts, since other programs stop
// a call too, but seldom the same one.
const ROUNDS: usize = 5;

pub fn run<R: AllocGlobal + Clock + Eprint + Print>(rt: &R, count: usize) -> Result<()> {
    let mut puts = vec![in rt.alloc(); u128::MAX; count]?;
    run_with(rt, count, puts.as_mut_slice())?;
    println!(rt; "stalls {count}")?;
    Ok(())
}

fn run_with<R: AllocGlobal + Clock + Eprint>(
    rt: &R,
    count: usize,
    puts: &mut [u128],
) -> Result<()> {
    let mut adds = vec![in rt.alloc(); u128::MAX; count]?;
    run_with_both(rt, count, puts, adds.as_mut_slice())
}

fn run_with_both<R: AllocGlobal + Clock + Eprint>(
    rt: &R,
    count: usize,
    puts: &mut [u128],
    adds: &mut [u128],
) -> Result<()> {
    let mut slots = vec![in rt.alloc(); u128::MAX; count]?;
    run_rounds(rt, puts, adds, slots.as_mut_slice())
}

fn run_rounds<R: AllocGlobal + Clock + Eprint>(
    rt: &R,
    puts: &mut [u128],
    adds: &mut [u128],
    slots: &mut [u128],
) -> Result<()> {
    for round in 1..=ROUNDS {
        time_puts(rt, puts)?;
        time_adds(rt, adds)?;
        time_slots(rt, slots)?;
        if round == 1 || round == ROUNDS {
            tell_longest(rt, "longest put of a key", round, puts)?;
            tell_longest(rt, "longest add of a version to its key", round, adds)?;
            tell_longest(rt, "longest add of a version to its slot", round, slots)?;
        }
    }
    Ok(())
}

fn tell_longest<R: Eprint>(rt: &R, name: &str, rounds: usize, times: &[u128]) -> Result<()> {
    let (count, longest) = (times.len(), times.iter().copied().max().unwrap_or(0));
    eprintln!(rt;
        "{{\"name\": \"{name}\", \"entries\": {count}, \"rounds\": {rounds}, \"ns\": {longest}}}"
    )?;
    Ok(())
}

// Nanoseconds of each put of a key, with no room reserved.
fn time_puts<R: AllocGlobal + Clock>(rt: &R, times: &mut [u128]) -> Result<()> {
    let mut index = Heads::new(rt.alloc(), mixed(1));
    put_all(rt, &mut index, times)
}

fn put_all<R: Clock>(rt: &R, index: &mut Heads, times: &mut [u128]) -> Result<()> {
    let mut at = 0u64;
    for time in times {
        let start = Instant::now(rt)?;
        index.put(key_of(at), (at & 0xFFFF) as u32)?;
        *time = (*time).min(start.elapsed(rt)?.as_nanos());
        at = at.wrapping_add(1);
    }
    Ok(())
}

// The same of the first version of a key.
fn time_adds<R: AllocGlobal + Clock>(rt: &R, times: &mut [u128]) -> Result<()> {
    let mut index = HashIndex::new(rt.alloc(), mixed(1));
    add_all(rt, &mut index, times)
}

fn add_all<R: Clock>(rt: &R, index: &mut HashIndex, times: &mut [u128]) -> Result<()> {
    let mut at = 0u64;
    for time in times {
        let version = VersionNo((at & 0xFFFF_FFFF) as u32);
        if !index.is_held(version) {
            let start = Instant::now(rt)?;
            index.add(key_of(at), version)?;
            *time = (*time).min(start.elapsed(rt)?.as_nanos());
        }
        at = at.wrapping_add(1);
    }
    Ok(())
}

// The same of a version, in its slot by number.
fn time_slots<R: AllocGlobal + Clock>(rt: &R, times: &mut [u128]) -> Result<()> {
    let mut chains = Chains::new(rt.alloc());
    fill_slots(rt, &mut chains, times)
}

fn fill_slots<R: AllocGlobal + Clock>(
    rt: &R,
    chains: &mut Chains,
    times: &mut [u128],
) -> Result<()> {
    let mut at = 0u64;
    for time in times {
        let row = Row::new(key_of(at), at, Vec::new(rt.alloc()))?;
        let spent = time_slot(rt, chains, row)?;
        *time = (*time).min(spent);
        at = at.wrapping_add(1);
    }
    Ok(())
}

fn time_slot<R: Clock>(rt: &R, chains: &mut Chains, row: Row) -> Result<u128> {
    let begin = Word::stamp(Stamp(1));
    let start = Instant::now(rt)?;
    chains.add(row, begin)?;
    Ok(start.elapsed(rt)?.as_nanos())
}
