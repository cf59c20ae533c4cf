//! Sessions that last: they let go of receipts as the tale is trimmed, and one that is given back
//! makes room for another.

use super::asking::Ask::{Begin, Change, Many, Put, Rollback};
use super::day::{compare, push_all, times_stored};
use super::steps::CoreStep::Trim;
use super::steps::Line;
use super::steps::Step::{Core, Flush, LetGo, One, Receipts};
use super::told::Told::{Done, Number};
use super::trial::{Alone, Meeting, Trial, tried_anew};
use crate::equal::{holds, same};
use mvo_disk::Disk;
use mvo_engine::{CoreGuard, Engine, Gate, OpenGate, Receipt, Run, Session};
use mvo_types::{Refusal, Row, RowKey, Stamp};
use std::alloc::{AllocError, Global};
use std::process::Abort;
use std::sync::Wait;
use std::test::*;
use std::thread::{Threads, map_indices};

/// So many sessions a day has, each in a thread.
const WORKERS: usize = 8;

/// So many transactions each commits, and so many behind one trim.
const ROUNDS: u64 = 24;

const A_TRIM: u64 = 4;

/// Almost twice as many sessions as there may be at a time.
const MADE: u32 = 2_000_000;

/// A begin forgets up to 64 receipts, and none above the start of the tale.
const BEGINS: [Line; 13] = [
    (One(Put(1)), Number(2)),
    (One(Many(99, 1)), Number(200)),
    (Receipts, Number(100)),
    (LetGo, Number(0)),
    (Flush, Number(200)),
    (Core(Trim(200)), Done),
    (One(Begin), Number(201)),
    (Receipts, Number(36)),
    (One(Rollback), Done),
    (LetGo, Number(36)),
    (One(Change(1)), Number(203)),
    (LetGo, Number(0)),
    (Receipts, Number(1)),
];

/// A row with this number as its key.
fn row(alloc: Global, number: u64, sort: u64) -> Result<Row, AllocError> {
    let key = RowKey {
        table: 0,
        key: number,
    };
    Row::new(key, sort, Vec::new(alloc))
}

/// A transaction that puts the row with this number where it isn't there, and changes it.
fn step<L: Run, D: Disk, G: Gate + Drop, R: Wait>(
    rt: &R,
    alloc: Global,
    session: &mut Session<'_, L, D, G>,
    number: u64,
) -> Result<Stamp, Refusal> {
    session.begin_tx(rt)?;
    session.insert(rt, row(alloc, number, 1)?)?;
    session.update(rt, row(alloc, number, 2)?)?;
    session.commit_tx(rt)
}

/// Makes durable what was committed, and trims the tale up to its mark, where no open transaction
/// began before it.
fn trim<L: Run, D: Disk, G: Gate + Drop, R: Wait>(
    rt: &R,
    engine: &Engine<L, D, G>,
) -> Result<(), Refusal> {
    let mark = engine.flush(rt)?;
    match engine.lock_core(rt).trim_tale(mark) {
        Ok(()) | Err(Refusal::NothingToDo) => Ok(()),
        Err(refusal) => Err(refusal),
    }
}

/// Lets go of what it may, and answers how many receipts these were.
pub fn forget<L: Run, D: Disk, G: Gate + Drop, R: Wait>(
    rt: &R,
    engine: &Engine<L, D, G>,
    session: &mut Session<'_, L, D, G>,
) -> usize {
    session.forget(&mut engine.lock_core(rt))
}

/// How many sessions there are.
fn made<L: Run, D: Disk, G: Gate + Drop, R: Wait>(rt: &R, engine: &Engine<L, D, G>) -> u32 {
    engine.lock_core(rt).made()
}

/// The steps of one session, with a trim and a forgetting behind each few.
fn work_rounds<L: Run, D: Disk, G: Gate + Drop, R: Wait>(
    rt: &R,
    alloc: Global,
    engine: &Engine<L, D, G>,
    session: &mut Session<'_, L, D, G>,
    worker: u64,
) -> Result<(), Refusal> {
    for round in 1..=ROUNDS {
        step(rt, alloc, session, worker)?;
        if round % A_TRIM == 0 {
            trim(rt, engine)?;
            forget(rt, engine, session);
        }
    }
    Ok(())
}

/// What one thread of a day does, and its session.
fn work<'e, L: Run, D: Disk, G: Gate + Drop, R: Wait>(
    rt: &R,
    alloc: Global,
    engine: &'e Engine<L, D, G>,
    worker: u64,
) -> Result<Session<'e, L, D, G>, Refusal> {
    let mut session = engine.session(rt)?;
    match work_rounds(rt, alloc, engine, &mut session, worker) {
        Ok(()) => Ok(session),
        Err(refusal) => Err(refusal),
    }
}

/// The sessions of all threads.
fn work_all<
    'e,
    L: Run + Send + Sync,
    D: Disk + Send,
    G: Gate + Drop + Send + Sync,
    R: Threads + Wait + Sync,
>(
    rt: &R,
    alloc: Global,
    engine: &'e Engine<L, D, G>,
    sessions: &mut Vec<Session<'e, L, D, G>>,
) -> Result<(), Refusal> {
    let made = map_indices(
        rt,
        alloc,
        WORKERS,
        &|worker| work(rt, alloc, engine, worker as u64),
    );
    push_all(sessions, made?)
}

/// Two more commits of each session.
fn go_on<L: Run, D: Disk, G: Gate + Drop, R: Wait>(
    rt: &R,
    alloc: Global,
    sessions: &mut Vec<Session<'_, L, D, G>>,
) -> Result<(), Refusal> {
    for session in sessions {
        step(rt, alloc, session, 100)?;
        step(rt, alloc, session, 101)?;
    }
    Ok(())
}

/// Whether each session lets go of all its receipts.
fn forget_all<L: Run, D: Disk, G: Gate + Drop, R: Wait>(
    rt: &R,
    engine: &Engine<L, D, G>,
    sessions: &mut Vec<Session<'_, L, D, G>>,
) -> bool {
    let mut right = true;
    for session in sessions {
        let before = session.receipts().len();
        let gone = forget(rt, engine, session);
        right &= before == gone && session.receipts().is_empty();
    }
    right
}

/// Whether the last of these sessions is taken back.
fn retire_last<L: Run, D: Disk, G: Gate + Drop, R: Wait>(
    rt: &R,
    engine: &Engine<L, D, G>,
    sessions: &mut Vec<Session<'_, L, D, G>>,
) -> bool {
    match sessions.pop() {
        Some(session) => engine.retire(rt, session).is_ok(),
        None => false,
    }
}

/// How many of the receipts are stored, each once.
fn stored_once<L: Run>(core: &CoreGuard<'_, L>, receipts: &[Receipt]) -> usize {
    let mut count = 0usize;
    for receipt in receipts {
        if times_stored(core, receipt) == 1 {
            count = count.wrapping_add(1);
        }
    }
    count
}

/// How many commits are stored above the start of the tale.
fn stored_above_start<L: Run>(core: &CoreGuard<'_, L>) -> usize {
    let start = core.tale_start();
    let tale = core.tale();
    let mut count = 0usize;
    for place in 0..tale.len() {
        if let Some(entry) = tale.get(place) {
            if start < entry.end {
                count = count.wrapping_add(1);
            }
        }
    }
    count
}

/// What sessions have left of a day are the stored commits. One of them is given back before.
pub fn last_a_day<
    L: Run + Send + Sync,
    D: Disk + Drop + Send,
    G: Gate + Drop + Send + Sync,
    R: Abort + Threads + Wait + Sync,
>(rt: &R, alloc: Global, engine: &Engine<L, D, G>) -> Result<(), Refusal> {
    let mut sessions = Vec::new(alloc);
    match work_and_forget(rt, alloc, engine, &mut sessions) {
        Ok(()) => see(rt, alloc, engine, sessions),
        Err(refusal) => Err(refusal),
    }
}

fn work_and_forget<
    'e,
    L: Run + Send + Sync,
    D: Disk + Send,
    G: Gate + Drop + Send + Sync,
    R: Abort + Threads + Wait + Sync,
>(
    rt: &R,
    alloc: Global,
    engine: &'e Engine<L, D, G>,
    sessions: &mut Vec<Session<'e, L, D, G>>,
) -> Result<(), Refusal> {
    work_all(rt, alloc, engine, sessions)?;
    trim(rt, engine)?;
    holds(rt, forget_all(rt, engine, sessions));
    holds(rt, retire_last(rt, engine, sessions));
    go_on(rt, alloc, sessions)
}

fn see<L: Run, D: Disk + Drop, G: Gate + Drop, R: Abort + Wait>(
    rt: &R,
    alloc: Global,
    engine: &Engine<L, D, G>,
    sessions: Vec<Session<'_, L, D, G>>,
) -> Result<(), Refusal> {
    let mut core = engine.lock_core(rt);
    see_under(rt, alloc, &mut core, sessions)
}

/// The receipts of these sessions are all that is stored above the start of the tale, each once.
fn see_under<L: Run, D: Disk + Drop, G: Gate + Drop, R: Abort>(
    rt: &R,
    alloc: Global,
    core: &mut CoreGuard<'_, L>,
    sessions: Vec<Session<'_, L, D, G>>,
) -> Result<(), Refusal> {
    let receipts = compare(alloc, core, sessions)?;
    same(rt, &receipts.len(), &14);
    same(rt, &stored_above_start(core), &14);
    same(rt, &stored_once(core, &receipts), &14);
    Ok(())
}

/// Each session is taken back, so there may be another.
pub fn make_many<L: Run, D: Disk, G: Gate + Drop, R: Abort + Wait>(
    rt: &R,
    engine: &Engine<L, D, G>,
) -> Result<(), Refusal> {
    let mut all = true;
    for _ in 0..MADE {
        let session = engine.session(rt)?;
        all &= engine.retire(rt, session).is_ok();
    }
    holds(rt, all);
    same(rt, &made(rt, engine), &0);
    Ok(())
}

/// The session back, which isn't taken.
fn kept<'e, L: Run, D: Disk, G: Gate + Drop, R: Wait>(
    rt: &R,
    engine: &Engine<L, D, G>,
    session: Session<'e, L, D, G>,
) -> Result<Session<'e, L, D, G>, Refusal> {
    match engine.retire(rt, session) {
        Err((Refusal::Busy, session)) => Ok(session),
        Err((refusal, _session)) => Err(refusal),
        Ok(()) => Err(Refusal::NothingToDo),
    }
}

/// A session that is in a transaction isn't taken back.
fn stay_in_tx<'e, L: Run, D: Disk, G: Gate + Drop, R: Wait>(
    rt: &R,
    engine: &'e Engine<L, D, G>,
) -> Result<Session<'e, L, D, G>, Refusal> {
    let mut session = engine.session(rt)?;
    match session.begin_tx(rt) {
        Ok(_) => kept(rt, engine, session),
        Err(refusal) => Err(refusal),
    }
}

/// Ends the transaction, and commits another. Where that ends.
fn end_and_commit<L: Run, D: Disk, G: Gate + Drop, R: Wait>(
    rt: &R,
    alloc: Global,
    session: &mut Session<'_, L, D, G>,
) -> Result<Stamp, Refusal> {
    session.rollback_tx(rt)?;
    step(rt, alloc, session, 1)
}

/// The session, which isn't taken back with a receipt above the start of the tale, and where it is.
fn stay_with_receipt<'e, L: Run, D: Disk, G: Gate + Drop, R: Wait>(
    rt: &R,
    alloc: Global,
    engine: &'e Engine<L, D, G>,
) -> Result<(Session<'e, L, D, G>, Stamp), Refusal> {
    let mut session = stay_in_tx(rt, engine)?;
    match end_and_commit(rt, alloc, &mut session) {
        Ok(end) => Ok((kept(rt, engine, session)?, end)),
        Err(refusal) => Err(refusal),
    }
}

/// A session isn't taken back in a transaction, nor with a receipt above the start of the tale.
pub fn stay<L: Run, D: Disk, G: Gate + Drop, R: Abort + Wait>(
    rt: &R,
    alloc: Global,
    engine: &Engine<L, D, G>,
) -> Result<(), Refusal> {
    let (session, end) = stay_with_receipt(rt, alloc, engine)?;
    same(rt, &session.receipts().len(), &1);
    same(rt, &made(rt, engine), &1);
    match trim_up_to(rt, engine, end) {
        Ok(()) => holds(rt, engine.retire(rt, session).is_ok()),
        Err(refusal) => return Err(refusal),
    }
    same(rt, &made(rt, engine), &0);
    Ok(())
}

fn trim_up_to<L: Run, D: Disk, G: Gate + Drop, R: Wait>(
    rt: &R,
    engine: &Engine<L, D, G>,
    end: Stamp,
) -> Result<(), Refusal> {
    engine.flush(rt)?;
    engine.lock_core(rt).trim_tale(end)
}

#[test]
fn what_sessions_have_left_is_stored(rt: HostRuntime) -> Result<(), Fail> {
    tried_anew(
        &rt,
        rt.alloc(),
        OpenGate,
        Trial::Threads(Meeting::LastingDay),
    )?;
    Ok(())
}

#[test]
fn begins_forget_some(rt: HostRuntime) -> Result<(), Fail> {
    tried_anew(&rt, rt.alloc(), OpenGate, Trial::Steps(&BEGINS))?;
    Ok(())
}

#[test]
fn sessions_are_made_and_retired(rt: HostRuntime) -> Result<(), Fail> {
    tried_anew(&rt, rt.alloc(), OpenGate, Trial::Alone(Alone::Retiring))?;
    Ok(())
}

#[test]
fn busy_sessions_stay(rt: HostRuntime) -> Result<(), Fail> {
    tried_anew(&rt, rt.alloc(), OpenGate, Trial::Alone(Alone::Staying))?;
    Ok(())
}
