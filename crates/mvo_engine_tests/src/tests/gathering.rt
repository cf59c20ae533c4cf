//! What the sessions of four threads were told is what is stored, each commit once.

use super::day::{compare, push_all};
use super::rows::byte_in;
use super::trial::{Meeting, Trial, tried_anew};
use crate::equal::same;
use mvo_core::Tale;
use mvo_disk::Disk;
use mvo_engine::{CoreGuard, Engine, Gate, Gathered, OpenGate, Receipt, Run, Session, gather};
use mvo_types::{Answer, Op, Refusal, Row, RowKey, Stamp};
use std::alloc::{AllocError, Global};
use std::process::Abort;
use std::sync::Wait;
use std::test::*;
use std::thread::{Threads, map_indices};

const WORKERS: usize = 4;

/// So many transactions each worker commits that write, with a report behind each.
const ROUNDS: u8 = 8;

/// So many commits there are, of all workers.
const COMMITS: u64 = 64;

fn key_of(worker: usize) -> RowKey {
    RowKey {
        table: 0,
        key: worker as u64,
    }
}

/// A row of the worker.
fn row_of(alloc: Global, worker: usize, byte: u8) -> Result<Row, AllocError> {
    Row::new(key_of(worker), 50, [byte].to_vec(alloc)?)
}

/// One worker puts a row of its own, and then reads and changes it.
fn work<'e, L: Run, D: Disk, G: Gate + Drop, R: Wait>(
    rt: &R,
    alloc: Global,
    engine: &'e Engine<L, D, G>,
    worker: usize,
) -> Result<Session<'e, L, D, G>, Refusal> {
    let mut session = engine.session(rt)?;
    match work_rounds(rt, alloc, &mut session, worker) {
        Ok(()) => Ok(session),
        Err(refusal) => Err(refusal),
    }
}

fn work_rounds<L: Run, D: Disk, G: Gate + Drop, R: Wait>(
    rt: &R,
    alloc: Global,
    session: &mut Session<'_, L, D, G>,
    worker: usize,
) -> Result<(), Refusal> {
    for round in 0..ROUNDS {
        session.begin_tx(rt)?;
        session.insert(rt, row_of(alloc, worker, round)?)?;
        session.update(rt, row_of(alloc, worker, round)?)?;
        session.read(rt, key_of(worker))?;
        session.commit_tx(rt)?;
        report(rt, session)?;
    }
    Ok(())
}

/// Reads the rows of all workers.
fn report<L: Run, D: Disk, G: Gate + Drop, R: Wait>(
    rt: &R,
    session: &mut Session<'_, L, D, G>,
) -> Result<Stamp, Refusal> {
    session.begin_read_only(rt)?;
    session.scan(rt, 0, 0, 100)?;
    session.commit_tx(rt)
}

/// The sessions of all workers, each in a thread of its own.
fn work_all<
    'e,
    L: Run + Send + Sync,
    D: Disk + Send,
    G: Gate + Drop + Send + Sync,
    R: Threads + Wait + Sync,
>(
    rt: &R,
    alloc: Global,
    engine: &'e Engine<L, D, G>,
    sessions: &mut Vec<Session<'e, L, D, G>>,
) -> Result<(), Refusal> {
    let made = map_indices(
        rt,
        alloc,
        WORKERS,
        &|worker| work(rt, alloc, engine, worker),
    );
    push_all(sessions, made?)
}

/// How often the receipt is told of the commit in the tale.
fn times_told(tale: &Tale, place: usize, receipts: &[Receipt]) -> u64 {
    let Some(entry) = tale.get(place) else {
        return 0;
    };
    let mut times = 0u64;
    for receipt in receipts {
        let is_it = receipt.id == entry.id && receipt.end == entry.end;
        if is_it && are_alike(&receipt.operations, &entry.operations) {
            times = times.wrapping_add(1);
        }
    }
    times
}

fn are_alike(left: &[(Op, Answer)], right: &[(Op, Answer)]) -> bool {
    let mut alike = left.len() == right.len();
    for (one, other) in left.iter().zip(right) {
        alike &= byte_in(&one.1) == byte_in(&other.1);
    }
    alike
}

/// How many commits are in the tale of which one receipt is told.
fn told_once(tale: &Tale, receipts: &[Receipt]) -> u64 {
    let mut count = 0u64;
    for place in 0..tale.len() {
        if times_told(tale, place, receipts) == 1 {
            count = count.wrapping_add(1);
        }
    }
    count
}

/// With one session kept back all others come back.
fn gather_but_one<'e, L: Run, D: Disk + Drop, G: Gate + Drop>(
    alloc: Global,
    core: &mut CoreGuard<'_, L>,
    sessions: Vec<Session<'e, L, D, G>>,
) -> Result<Vec<Session<'e, L, D, G>>, Refusal> {
    match gather(core, alloc, sessions) {
        Ok(Gathered::Missing(sessions)) => Ok(sessions),
        Ok(Gathered::All(_receipts)) => Err(Refusal::Busy),
        Err((refusal, _sessions)) => Err(refusal),
    }
}

/// The receipts of these sessions, which are gathered without the last one first.
fn gather_twice<L: Run, D: Disk + Drop, G: Gate + Drop, R: Abort>(
    rt: &R,
    alloc: Global,
    core: &mut CoreGuard<'_, L>,
    mut sessions: Vec<Session<'_, L, D, G>>,
) -> Result<Vec<Receipt>, Refusal> {
    match sessions.pop() {
        Some(kept_back) => gather_with(rt, alloc, core, sessions, kept_back),
        None => Err(Refusal::NothingToDo),
    }
}

fn gather_with<'e, L: Run, D: Disk + Drop, G: Gate + Drop, R: Abort>(
    rt: &R,
    alloc: Global,
    core: &mut CoreGuard<'_, L>,
    sessions: Vec<Session<'e, L, D, G>>,
    kept_back: Session<'e, L, D, G>,
) -> Result<Vec<Receipt>, Refusal> {
    let mut back = gather_but_one(alloc, core, sessions)?;
    same(rt, &back.len(), &3);
    back.push(kept_back)?;
    compare(alloc, core, back)
}

/// All sessions are told of all commits.
pub fn gather_all<
    L: Run + Send + Sync,
    D: Disk + Drop + Send,
    G: Gate + Drop + Send + Sync,
    R: Abort + Threads + Wait + Sync,
>(rt: &R, alloc: Global, engine: &Engine<L, D, G>) -> Result<(), Refusal> {
    let mut sessions = Vec::new(alloc);
    match work_and_flush(rt, alloc, engine, &mut sessions) {
        Ok(()) => see_once(rt, alloc, engine, sessions),
        Err(refusal) => Err(refusal),
    }
}

fn work_and_flush<
    'e,
    L: Run + Send + Sync,
    D: Disk + Send,
    G: Gate + Drop + Send + Sync,
    R: Threads + Wait + Sync,
>(
    rt: &R,
    alloc: Global,
    engine: &'e Engine<L, D, G>,
    sessions: &mut Vec<Session<'e, L, D, G>>,
) -> Result<(), Refusal> {
    work_all(rt, alloc, engine, sessions)?;
    engine.flush(rt)?;
    Ok(())
}

fn see_once<L: Run, D: Disk + Drop, G: Gate + Drop, R: Abort + Wait>(
    rt: &R,
    alloc: Global,
    engine: &Engine<L, D, G>,
    sessions: Vec<Session<'_, L, D, G>>,
) -> Result<(), Refusal> {
    let mut core = engine.lock_core(rt);
    see_under(rt, alloc, engine, &mut core, sessions)
}

fn see_under<L: Run, D: Disk + Drop, G: Gate + Drop, R: Abort + Wait>(
    rt: &R,
    alloc: Global,
    engine: &Engine<L, D, G>,
    core: &mut CoreGuard<'_, L>,
    sessions: Vec<Session<'_, L, D, G>>,
) -> Result<(), Refusal> {
    let receipts = gather_twice(rt, alloc, core, sessions)?;
    audit_all(rt, engine, core, &receipts);
    Ok(())
}

fn audit_all<L: Run, D: Disk, G: Gate + Drop, R: Abort + Wait>(
    rt: &R,
    engine: &Engine<L, D, G>,
    core: &mut CoreGuard<'_, L>,
    receipts: &[Receipt],
) {
    let mut store = engine.lock_store(rt);
    engine.audit(core, &mut store);
    same(rt, &(receipts.len() as u64), &COMMITS);
    same(rt, &told_once(core.tale(), receipts), &COMMITS);
}

#[test]
fn receipts_are_the_stored_commits(rt: HostRuntime) -> Result<(), Fail> {
    tried_anew(
        &rt,
        rt.alloc(),
        OpenGate,
        Trial::Threads(Meeting::Gathering),
    )?;
    Ok(())
}
