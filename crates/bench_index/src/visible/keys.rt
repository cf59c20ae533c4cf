use super::least::Least;
use super::rows::{Rows, key_of, sort_of, stamped};
use crate::watch::pick;
use anyhow::Result;
use mvo_types::{Entry, MAX_STAMP, Stamp, TxId};
use mvo_validate::{Check, check_entry};
use mvo_visible::shown;
use std::rt::Clock;
use std::time::Instant;

const UNFINISHED: [u64; 3] = [1, 32, 1_000];

const ROUNDS: u64 = 5;

const CALLS: u64 = 20_000;

// About so many places stand in the range of a check.
const PLACES: u64 = 10;

#[derive(Clone, Copy)]
enum Call {
    Shown,
    CheckKey,
    CheckRange,
    State,
}

const ALL: [(Call, &str); 4] = [
    (Call::Shown, "shown"),
    (Call::CheckKey, "check of a key"),
    (Call::CheckRange, "check of a range of about 10"),
    (Call::State, "state"),
];

/// Times with so many keys of one version each, and with few and many unfinished transactions.
pub fn run<R: AllocGlobal + Clock + Eprint + Print>(rt: &R, count: u64) -> Result<()> {
    let mut rows = Rows::new(rt.alloc(), count)?;
    run_with(rt, &mut rows, count)
}

fn run_with<R: Clock + Eprint + Print>(rt: &R, rows: &mut Rows, count: u64) -> Result<()> {
    for at in 0..count {
        rows.put(at, stamped(at + 1))?;
    }
    for unfinished in UNFINISHED {
        let more = unfinished.saturating_sub(rows.table.len() as u64);
        for at in 1..more {
            rows.write(pick(at, count), at % 2 == 0)?;
        }
        let reader = rows.table.begin(0)?;
        let sum = time_all(rt, rows, reader, count, unfinished)?;
        println!(rt; "keys {count}, unfinished {unfinished}: {sum}")?;
    }
    Ok(())
}

// Times each kind of call.
fn time_all<R: Clock + Eprint>(
    rt: &R,
    rows: &Rows,
    reader: TxId,
    count: u64,
    unfinished: u64,
) -> Result<u64> {
    let mut sum = 0u64;
    for (call, name) in ALL {
        let mut least = Least::new();
        for _ in 0..ROUNDS {
            let start = Instant::now(rt)?;
            sum = sum.wrapping_add(calls(rows, call, reader, count));
            least.note(rt, start)?;
        }
        eprint!(rt; "{count:>8} keys {unfinished:>5} unfinished: ")?;
        least.tell(rt, name, CALLS)?;
    }
    Ok(sum)
}

fn calls(rows: &Rows, call: Call, reader: TxId, count: u64) -> u64 {
    match call {
        Call::Shown => shown_sum(rows, reader, count),
        Call::CheckKey => check_sum(rows, reader, count),
        Call::CheckRange => range_sum(rows, reader, count),
        Call::State => state_sum(rows, reader),
    }
}

fn shown_sum(rows: &Rows, reader: TxId, count: u64) -> u64 {
    let mut sum = 0u64;
    let begin = Stamp(reader.0);
    for at in 0..CALLS {
        let key = key_of(pick(at, count));
        let found = shown(&rows.chains, &rows.index, &rows.table, begin, reader, key);
        if let Some(version) = found.version {
            sum = sum.wrapping_add(version.0 as u64);
        }
        if let Some(id) = found.depends_on {
            sum = sum.rotate_left(1).wrapping_add(id.0);
        }
    }
    sum
}

fn check_sum(rows: &Rows, reader: TxId, count: u64) -> u64 {
    let mut sum = 0u64;
    for at in 0..CALLS {
        sum = sum
            .rotate_left(1)
            .wrapping_add(checked(rows, reader, Entry::Key(key_of(pick(at, count)))));
    }
    sum
}

fn range_sum(rows: &Rows, reader: TxId, count: u64) -> u64 {
    let mut sum = 0u64;
    let width = (u64::MAX >> 8).checked_div(count).unwrap_or(0);
    for at in 0..CALLS {
        let from = sort_of(pick(at, count));
        let to = from.saturating_add(width.saturating_mul(PLACES));
        sum = sum
            .rotate_left(1)
            .wrapping_add(checked(rows, reader, Entry::Range(3, from, to)));
    }
    sum
}

// What a check of all that is later than half of the rows answers.
fn checked(rows: &Rows, reader: TxId, entry: Entry) -> u64 {
    let (begin, end) = (Stamp(reader.0 / 2), Stamp(MAX_STAMP));
    let (chains, index, ranges) = (&rows.chains, &rows.index, &rows.ranges);
    match check_entry(chains, index, ranges, &rows.table, begin, end, entry) {
        Check::Same => 1,
        Check::Differs(stamp) => stamp.0,
    }
}

// Looks up the latest ids.
fn state_sum(rows: &Rows, reader: TxId) -> u64 {
    let mut sum = 0u64;
    for at in 0..CALLS {
        let id = reader.0.saturating_sub(pick(at, 1_024));
        if rows.table.state(TxId(id)).is_some() {
            sum = sum.wrapping_add(id);
        }
    }
    sum
}
