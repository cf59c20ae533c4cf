//! A session that reads all rows by ranges in one transaction, and adds up what they say.
use crate::meanwhile::{Counts, Meanwhile};
use crate::rows::{TABLE, amount_of};
use crate::stopped::Stopped;
use crate::threads::{nanos_since, now};
use mvo_disk::Disk;
use mvo_engine::{OpenGate, Run, Session};
use mvo_types::{Answer, Refusal, Row};
use std::rt::Clock;
use std::sync::Wait;
use std::thread;

/// So many rows about stand in a range.
const PLACES: u64 = 250;

/// No more ranges than a transaction may read.
const MOST_RANGES: u64 = 4_000;

/// All sorts are below this.
const SORTS: u64 = 1 << 62;

/// What a report came to: the sum of what all rows say, the nanoseconds up to its commit and those
/// of its commit, and what the other session did beside its reads.
#[derive(Clone, Copy)]
pub struct Added {
    pub sum: u64,
    pub reads: u128,
    pub commit: u128,
    pub meanwhile: Counts,
}

/// A report in a read-only transaction, which commits at its begin.
pub fn add_up<L: Run, D: Disk, R: Clock + Wait>(
    rt: &R,
    session: &mut Session<'_, L, D, OpenGate>,
    rows: u64,
    notes: &Meanwhile,
) -> Result<Added, Stopped> {
    let start = now(rt)?;
    notes.read();
    let begin = session.begin_read_only(rt)?;
    let before = notes.counts();
    let sum = read_all(rt, session, rows)?;
    await_moves(rt, notes, before)?;
    let meanwhile = notes.counts().since(before);
    let reads = nanos_since(rt, start)?;
    let start = now(rt)?;
    notes.settle();
    let end = session.commit_tx(rt)?;
    notes.leave();
    let commit = nanos_since(rt, start)?;
    if end.0 != begin.0 {
        return Err(Stopped::Unexpected);
    }
    Ok(Added {
        sum,
        reads,
        commit,
        meanwhile,
    })
}

/// The same in a transaction that may write. Whether its commit is refused for what was written
/// since.
pub fn is_refused<L: Run, D: Disk, R: Wait>(
    rt: &R,
    session: &mut Session<'_, L, D, OpenGate>,
    rows: u64,
    notes: &Meanwhile,
) -> Result<bool, Stopped> {
    session.begin_tx(rt)?;
    let before = notes.counts();
    read_all(rt, session, rows)?;
    await_moves(rt, notes, before)?;
    match session.commit_tx(rt) {
        Ok(_) => Ok(false),
        Err(Refusal::ValidationFailed(_)) => Ok(true),
        Err(refusal) => Err(Stopped::Refused(refusal)),
    }
}

/// The sum over all rows.
fn read_all<L: Run, D: Disk, R: Wait>(
    rt: &R,
    session: &mut Session<'_, L, D, OpenGate>,
    rows: u64,
) -> Result<u64, Stopped> {
    let ranges = (rows / PLACES).max(1).min(MOST_RANGES);
    let width = SORTS.checked_div(ranges).unwrap_or(0);
    let mut found = 0u64;
    let mut sum = 0u64;
    for at in 0..ranges {
        let low = at.wrapping_mul(width.wrapping_add(1));
        let high = low.saturating_add(width);
        let (count, part) = sum_of(session.scan(rt, TABLE, low, high)?);
        found = found.saturating_add(count);
        sum = sum.wrapping_add(part);
    }
    if found == rows {
        Ok(sum)
    } else {
        Err(Stopped::Unexpected)
    }
}

/// How many rows were read, and the sum of what they say.
fn sum_of(answer: Answer) -> (u64, u64) {
    match answer {
        Answer::Rows(rows) => (rows.len() as u64, sum_of_rows(&rows)),
        _ => (0, 0),
    }
}

fn sum_of_rows(rows: &[Row]) -> u64 {
    let mut sum = 0u64;
    for row in rows {
        sum = sum.wrapping_add(row.key.key).wrapping_add(amount_of(row));
    }
    sum
}

/// Waits until there are two moves more: the second began behind what was counted.
fn await_moves<R: Wait>(rt: &R, notes: &Meanwhile, before: Counts) -> Result<(), Stopped> {
    for _ in rt.forever() {
        if notes.counts().since(before).moves >= 2 {
            return Ok(());
        }
        if notes.has_ended() {
            return Err(Stopped::Unexpected);
        }
        thread::yield_now();
    }
    unreachable!()
}
