//! A day of six threads: three sessions move between rows, the tale is trimmed, three more go on.
//! What all were told is what is stored above the start, each once, and what was trimmed besides.
ghost use Rattle.std.specs.Prelude.{IfOk};
ghost use Rattle.mvo_engine_tests.specs.Days.{IsDay};

use super::trial::{Meeting, Trial, tried_anew};
use crate::equal::same;
use mvo_disk::Disk;
use mvo_engine::{CoreGuard, Engine, Gate, Gathered, OpenGate, Receipt, Run, Session, gather};
use mvo_types::{Answer, Refusal, Row, RowKey};
use std::alloc::{AllocError, Global};
use std::process::Abort;
use std::sync::Wait;
use std::test::*;
use std::thread::{Threads, map_indices, yield_now};

/// How many sessions work before the trim, and as many behind it.
const WORKERS: usize = 3;

/// So many times each moves.
const ROUNDS: u64 = 8;

/// How many rows there are.
const ROWS: u64 = 4;

/// How much stands in each row at first.
const START: u64 = 100;

/// How often a move is tried at most.
const TIMES: u32 = 1_000_000;

/// The row of this number. What stands in it is its sort.
fn row_of(alloc: Global, number: u64, amount: u64) -> Result<Row, AllocError> {
    Row::new(key_of(number), amount, Vec::new(alloc))
}

fn key_of(number: u64) -> RowKey {
    RowKey {
        table: 0,
        key: number,
    }
}

fn amount_in(answer: &Answer) -> u64 {
    match answer {
        Answer::Found(Some(row)) => row.sort,
        _ => 0,
    }
}

/// Makes the rows.
fn begin<L: Run, D: Disk, G: Gate + Drop, R: Wait>(
    rt: &R,
    alloc: Global,
    session: &mut Session<'_, L, D, G>,
) -> Result<(), Refusal> {
    session.begin_tx(rt)?;
    for number in 0..ROWS {
        session.insert(rt, row_of(alloc, number, START)?)?;
    }
    session.commit_tx(rt)?;
    Ok(())
}

/// What stands in the row.
fn amount_at<L: Run, D: Disk, G: Gate + Drop, R: Wait>(
    rt: &R,
    session: &mut Session<'_, L, D, G>,
    number: u64,
) -> Result<u64, Refusal> {
    match session.read(rt, key_of(number)) {
        Ok(answer) => Ok(amount_in(&answer)),
        Err(refusal) => Err(refusal),
    }
}

/// Lets the amount stand in the row.
fn set_amount<L: Run, D: Disk, G: Gate + Drop, R: Wait>(
    rt: &R,
    alloc: Global,
    session: &mut Session<'_, L, D, G>,
    number: u64,
    amount: u64,
) -> Result<(), Refusal> {
    session.update(rt, row_of(alloc, number, amount)?)?;
    Ok(())
}

/// Moves 1 from one row to the other.
fn step<L: Run, D: Disk, G: Gate + Drop, R: Wait>(
    rt: &R,
    alloc: Global,
    session: &mut Session<'_, L, D, G>,
    from: u64,
    to: u64,
) -> Result<(), Refusal> {
    session.begin_tx(rt)?;
    let left = amount_at(rt, session, from)?.saturating_sub(1);
    let more = amount_at(rt, session, to)?.saturating_add(1);
    set_amount(rt, alloc, session, from, left)?;
    set_amount(rt, alloc, session, to, more)?;
    session.commit_tx(rt)?;
    Ok(())
}

/// So it does, again where another transaction was in its way.
fn step_at_last<L: Run, D: Disk, G: Gate + Drop, R: Wait>(
    rt: &R,
    alloc: Global,
    session: &mut Session<'_, L, D, G>,
    from: u64,
    to: u64,
) -> Result<(), Refusal> {
    for _ in 0..TIMES {
        match step(rt, alloc, session, from, to) {
            Err(refusal) if is_in_the_way(refusal) => yield_now(),
            result => return result,
        }
    }
    Err(Refusal::Busy)
}

fn is_in_the_way(refusal: Refusal) -> bool {
    matches!(
        refusal,
        Refusal::WriteConflict(_) | Refusal::ValidationFailed(_) | Refusal::DependencyAborted(_)
    )
}

/// A session that has made the rows.
fn session_that_begins<'e, L: Run, D: Disk, G: Gate + Drop, R: Wait>(
    rt: &R,
    alloc: Global,
    engine: &'e Engine<L, D, G>,
) -> Result<Session<'e, L, D, G>, Refusal> {
    let mut session = engine.session(rt)?;
    match begin(rt, alloc, &mut session) {
        Ok(()) => Ok(session),
        Err(refusal) => Err(refusal),
    }
}

/// A session that has moved in each round.
fn work<'e, L: Run, D: Disk, G: Gate + Drop, R: Wait>(
    rt: &R,
    alloc: Global,
    engine: &'e Engine<L, D, G>,
    worker: u64,
) -> Result<Session<'e, L, D, G>, Refusal> {
    let mut session = engine.session(rt)?;
    match work_rounds(rt, alloc, &mut session, worker) {
        Ok(()) => Ok(session),
        Err(refusal) => Err(refusal),
    }
}

fn work_rounds<L: Run, D: Disk, G: Gate + Drop, R: Wait>(
    rt: &R,
    alloc: Global,
    session: &mut Session<'_, L, D, G>,
    worker: u64,
) -> Result<(), Refusal> {
    for round in 0..ROUNDS {
        let from = worker.wrapping_add(round) % ROWS;
        let to = from.wrapping_add(1) % ROWS;
        step_at_last(rt, alloc, session, from, to)?;
    }
    Ok(())
}

/// Adds the sessions that were made to those before, if all of them were.
pub fn push_all<'e, L: Run, D: Disk, G: Gate + Drop>(
    sessions: &mut Vec<Session<'e, L, D, G>>,
    made: Vec<Result<Session<'e, L, D, G>, Refusal>>,
) -> Result<(), Refusal> {
    for session in made {
        push_one(sessions, session)?;
    }
    Ok(())
}

/// Adds a session, if it was made.
pub fn push_one<'e, L: Run, D: Disk, G: Gate + Drop>(
    sessions: &mut Vec<Session<'e, L, D, G>>,
    session: Result<Session<'e, L, D, G>, Refusal>,
) -> Result<(), Refusal> {
    match session {
        Ok(session) => Ok(sessions.push(session)?),
        Err(refusal) => Err(refusal),
    }
}

/// The sessions of some workers, each in a thread of its own, beside those before.
fn work_all<
    'e,
    L: Run + Send + Sync,
    D: Disk + Send,
    G: Gate + Drop + Send + Sync,
    R: Threads + Wait + Sync,
>(
    rt: &R,
    alloc: Global,
    engine: &'e Engine<L, D, G>,
    sessions: &mut Vec<Session<'e, L, D, G>>,
) -> Result<(), Refusal> {
    let made = map_indices(
        rt,
        alloc,
        WORKERS,
        &|worker| work(rt, alloc, engine, worker as u64),
    );
    push_all(sessions, made?)
}

/// Makes durable what was committed, and trims the tale up to its mark.
fn trim<L: Run, D: Disk, G: Gate + Drop, R: Wait>(
    rt: &R,
    engine: &Engine<L, D, G>,
) -> Result<(), Refusal> {
    let mark = engine.flush(rt)?;
    engine.lock_core(rt).trim_tale(mark)
}

/// The sessions of a day: one that begins it, those before the trim, and those behind it.
fn work_by_day<
    'e,
    L: Run + Send + Sync,
    D: Disk + Send,
    G: Gate + Drop + Send + Sync,
    R: Threads + Wait + Sync,
>(
    rt: &R,
    alloc: Global,
    engine: &'e Engine<L, D, G>,
    sessions: &mut Vec<Session<'e, L, D, G>>,
) -> Result<(), Refusal> {
    push_one(sessions, session_that_begins(rt, alloc, engine))?;
    work_all(rt, alloc, engine, sessions)?;
    trim(rt, engine)?;
    work_all(rt, alloc, engine, sessions)
}

/// The receipts of all sessions. Any receipt that ends above the start of the tale is as often
/// among them as among the stored commits, which are legal from the rows at the start.
pub fn compare<L: Run, D: Disk + Drop, G: Gate + Drop>(
    alloc: Global,
    core: &mut CoreGuard<'_, L>,
    sessions: Vec<Session<'_, L, D, G>>,
) -> Result<Vec<Receipt>, Refusal>
    ensures day { IfOk result (λ receipts. IsDay L.watched core.old.core receipts.items) }
{
    let _ = core.clock();
    let _ = core.tale();
    match gather(core, alloc, sessions) {
        Ok(Gathered::All(receipts)) => Ok(receipts),
        Ok(Gathered::Missing(_)) => Err(Refusal::Busy),
        Err((refusal, _)) => Err(refusal),
    }
}

/// How many receipts end above the start of the tale, and how many of them are stored there.
fn above_start<L: Run>(core: &CoreGuard<'_, L>, receipts: &[Receipt]) -> (u64, u64) {
    let start = core.tale_start();
    let mut above = 0u64;
    let mut stored = 0u64;
    for receipt in receipts {
        if start < receipt.end {
            above = above.wrapping_add(1);
            stored = stored.wrapping_add(times_stored(core, receipt));
        }
    }
    (above, stored)
}

/// How often the receipt is stored.
pub fn times_stored<L: Run>(core: &CoreGuard<'_, L>, receipt: &Receipt) -> u64 {
    let tale = core.tale();
    let mut times = 0u64;
    for place in 0..tale.len() {
        if let Some(entry) = tale.get(place) {
            if entry.id == receipt.id && entry.end == receipt.end {
                times = times.wrapping_add(1);
            }
        }
    }
    times
}

/// The day is told as it is stored: so many receipts there are, so many end above the start, and
/// so often these are stored.
pub fn spend_day<
    L: Run + Send + Sync,
    D: Disk + Drop + Send,
    G: Gate + Drop + Send + Sync,
    R: Abort + Threads + Wait + Sync,
>(rt: &R, alloc: Global, engine: &Engine<L, D, G>) -> Result<(), Refusal> {
    let mut sessions = Vec::new(alloc);
    match work_by_day(rt, alloc, engine, &mut sessions) {
        Ok(()) => see(rt, alloc, engine, sessions),
        Err(refusal) => Err(refusal),
    }
}

fn see<L: Run, D: Disk + Drop, G: Gate + Drop, R: Abort + Wait>(
    rt: &R,
    alloc: Global,
    engine: &Engine<L, D, G>,
    sessions: Vec<Session<'_, L, D, G>>,
) -> Result<(), Refusal> {
    let mut core = engine.lock_core(rt);
    see_under(rt, alloc, &mut core, sessions)
}

fn see_under<L: Run, D: Disk + Drop, G: Gate + Drop, R: Abort>(
    rt: &R,
    alloc: Global,
    core: &mut CoreGuard<'_, L>,
    sessions: Vec<Session<'_, L, D, G>>,
) -> Result<(), Refusal> {
    let receipts = compare(alloc, core, sessions)?;
    same(rt, &receipts.len(), &49);
    same(rt, &above_start(core, &receipts), &(24, 24));
    Ok(())
}

#[test]
fn a_day_is_told_as_it_is_stored(rt: HostRuntime) -> Result<(), Fail> {
    tried_anew(&rt, rt.alloc(), OpenGate, Trial::Threads(Meeting::Day))?;
    Ok(())
}
