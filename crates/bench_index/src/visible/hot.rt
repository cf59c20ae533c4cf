use super::least::Least;
use super::rows::{Rows, key_of, stamped};
use anyhow::Result;
use mvo_types::{Entry, MAX_STAMP, Stamp, TxId};
use mvo_validate::{Check, check_entry};
use mvo_visible::shown;
use std::rt::Clock;
use std::time::Instant;

const ROUNDS: u64 = 5;

const CALLS: u64 = 20_000;

const WALKS: u64 = 5;

const HOT: u64 = 0;

const COLD: u64 = 1;

/// Times with a key of so many versions, beside one of two. Between two versions of the hot key
/// stand so many of other keys.
pub fn run<R: AllocGlobal + Clock + Eprint + Print>(
    rt: &R,
    length: u64,
    between: u64,
) -> Result<()> {
    let mut rows = Rows::new(rt.alloc(), length)?;
    chain(&mut rows, COLD, 2, 0)?;
    chain(&mut rows, HOT, length, between)?;
    time(rt, &rows, length, between)
}

// Times of readers, and of walks.
fn time<R: Clock + Eprint + Print>(rt: &R, rows: &Rows, length: u64, between: u64) -> Result<()> {
    eprintln!(rt; "a chain of {length}, with {between} of other keys between two versions")?;
    let begin = length.saturating_add(9);
    let mut sum = read(rt, rows, COLD, begin, "new reader, a chain of 2")?;
    sum = sum.wrapping_add(read(rt, rows, HOT, begin, "new reader, the chain")?);
    sum = sum.wrapping_add(walk(rt, rows, length)?);
    println!(rt; "chain {length}, between {between}: {sum}")?;
    Ok(())
}

// Times of a reader that is shown the newest version.
fn read<R: Clock + Eprint>(rt: &R, rows: &Rows, key: u64, begin: u64, name: &str) -> Result<u64> {
    let mut sum = 0u64;
    let mut least = Least::new();
    for _ in 0..ROUNDS {
        let start = Instant::now(rt)?;
        for _ in 0..CALLS {
            sum = sum.wrapping_add(found(rows, key, begin));
        }
        least.note(rt, start)?;
    }
    least.tell(rt, name, CALLS)?;
    Ok(sum)
}

// Times of one that walks the whole chain.
fn walk<R: Clock + Eprint>(rt: &R, rows: &Rows, length: u64) -> Result<u64> {
    let mut sum = 0u64;
    let mut shown = Least::new();
    let mut checks = Least::new();
    for _ in 0..ROUNDS {
        let start = Instant::now(rt)?;
        for at in 0..WALKS {
            sum = sum.wrapping_add(found(rows, HOT, 2 + at % 2));
        }
        shown.note(rt, start)?;
        let start = Instant::now(rt)?;
        for at in 0..WALKS {
            sum = sum.wrapping_add(checked(rows, HOT, 2 + at % 2));
        }
        checks.note(rt, start)?;
    }
    let versions = WALKS.saturating_mul(length);
    shown.tell(rt, "old reader, the chain, a version", versions)?;
    checks.tell(rt, "old check, the chain, a version", versions)?;
    Ok(sum)
}

// Puts so many versions of a key, the newest of which isn't ended.
fn chain(rows: &mut Rows, index: u64, length: u64, between: u64) -> Result<()> {
    let mut last = None;
    for at in 0..length {
        let word = stamped(at + 1);
        let number = rows.put(index, word)?;
        if let Some(before) = last {
            rows.end(before, word);
        }
        last = Some(number);
        for other in 0..between {
            rows.put(other.saturating_add(2), word)?;
        }
    }
    Ok(())
}

// What one with a begin is shown.
fn found(rows: &Rows, index: u64, begin: u64) -> u64 {
    let (at, reader) = (Stamp(begin), TxId(MAX_STAMP));
    let (chains, keys, table) = (&rows.chains, &rows.index, &rows.table);
    match shown(chains, keys, table, at, reader, key_of(index)).version {
        Some(version) => version.0 as u64,
        None => 1,
    }
}

fn checked(rows: &Rows, index: u64, begin: u64) -> u64 {
    let (begin, end) = (Stamp(begin), Stamp(MAX_STAMP));
    let entry = Entry::Key(key_of(index));
    let (chains, keys, ranges) = (&rows.chains, &rows.index, &rows.ranges);
    match check_entry(chains, keys, ranges, &rows.table, begin, end, entry) {
        Check::Same => 1,
        Check::Differs(stamp) => stamp.0,
    }
}
