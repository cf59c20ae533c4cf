//! Sessions that make their own commits durable: how many syncs that takes, and what those who
//! wait together are told.
ghost use Rattle.mvo_engine.specs.Opened.{IsNamedBy};

use super::counted_disk::Counted;
use super::turns::has_come;
use super::{SEED, formatted};
use crate::equal::{holds, same};
use mvo_disk::{Disk, MemDisk};
use mvo_engine::{Engine, Fresh, OpenGate, Run, Session};
use mvo_types::{Refusal, Row, RowKey, Stamp};
use std::alloc::{AllocError, Global};
use std::marker::Brand;
use std::process::Abort;
use std::sync::Wait;
use std::sync::atomic::{AtomicU64, Ordering};
use std::test::*;
use std::thread::{Threads, map_indices};

/// So many sessions wait together, each in a thread.
const WAITERS: usize = 8;

/// So many commits one session makes durable, one by one.
const COMMITS: u64 = 100;

/// So many commits each of several sessions makes durable beside the jobs.
const BESIDE: u64 = 20;

/// So many rows at a time fill the log, at keys above these.
const SOME: u64 = 250;

const FIRST: u64 = 1000;

/// A key far above the others.
const LAST: u64 = 1_000_000;

/// What is done with an engine.
#[derive(Clone, Copy)]
enum What {
    /// One session makes each of its commits durable.
    OneByOne,
    /// All have committed before the first leads.
    Together,
    /// The same, and the disk meets a fault.
    Fault,
    /// Several commit and wait, again and again, beside rotations and checkpoints.
    Jobs,
    /// A stamp above the clock.
    Above,
    /// The log has as many segments as may be.
    Full,
}

/// Puts the row with this number in a transaction of its own. Where that ends.
fn commit<L: Run, D: Disk, R: Wait>(
    rt: &R,
    alloc: Global,
    session: &mut Session<'_, L, D, OpenGate>,
    number: u64,
    bytes: usize,
) -> Result<Stamp, Refusal> {
    session.begin_tx(rt)?;
    session.insert(rt, row(alloc, number, bytes)?)?;
    session.commit_tx(rt)
}

/// A row with this number as its key, with so many bytes of data.
fn row(alloc: Global, number: u64, bytes: usize) -> Result<Row, AllocError> {
    let key = RowKey {
        table: 0,
        key: number,
    };
    Row::new(key, number, vec![in alloc; 0x5au8; bytes]?)
}

/// A hundred commits of one session, each durable before the next: two syncs each.
fn one_by_one<L: Run, D: Disk, R: Abort + Wait>(
    rt: &R,
    alloc: Global,
    session: &mut Session<'_, L, D, OpenGate>,
    syncs: &AtomicU64,
) -> Result<(), Refusal> {
    syncs.store(0, Ordering::SeqCst);
    for number in 0..COMMITS {
        let end = commit(rt, alloc, session, number, 1)?;
        session.make_durable(rt, end)?;
        session.make_durable(rt, end)?;
    }
    same(rt, &syncs.load(Ordering::SeqCst), &200);
    Ok(())
}

/// Commits in a thread of its own, waits until all have, and makes it durable.
fn meet<L: Run, D: Disk, R: Wait>(
    rt: &R,
    alloc: Global,
    engine: &Engine<L, D, OpenGate>,
    number: u64,
    come: &AtomicU64,
) -> Result<(), Refusal> {
    let mut session = engine.session(rt)?;
    let ended = commit(rt, alloc, &mut session, number, 1);
    come.fetch_add(1, Ordering::SeqCst);
    has_come(come, WAITERS as u64);
    session.make_durable(rt, ended?)
}

/// What all were told who committed before the first led.
fn meet_all<L: Run + Send + Sync, D: Disk + Send, R: Threads + Wait + Sync>(
    rt: &R,
    alloc: Global,
    engine: &Engine<L, D, OpenGate>,
) -> Result<Vec<Result<(), Refusal>>, Refusal> {
    let come = AtomicU64::new(0);
    let told = map_indices(
        rt,
        alloc,
        WAITERS,
        &|worker| { meet(rt, alloc, engine, worker as u64, &come) },
    )?;
    Ok(told)
}

/// One group, and two syncs.
fn together<L: Run + Send + Sync, D: Disk + Send, R: Abort + Threads + Wait + Sync>(
    rt: &R,
    alloc: Global,
    engine: &Engine<L, D, OpenGate>,
    syncs: &AtomicU64,
) -> Result<(), Refusal> {
    syncs.store(0, Ordering::SeqCst);
    for told in meet_all(rt, alloc, engine)? {
        told?;
    }
    same(rt, &syncs.load(Ordering::SeqCst), &2);
    Ok(())
}

/// Each is told of the fault, or that the store is down; none goes on waiting. Whether one was.
fn fault<L: Run + Send + Sync, D: Disk + Send, R: Abort + Threads + Wait + Sync>(
    rt: &R,
    alloc: Global,
    engine: &Engine<L, D, OpenGate>,
) -> Result<(), Refusal> {
    let mut faults = 0u64;
    for told in meet_all(rt, alloc, engine)? {
        match told {
            Err(Refusal::DiskFault) => faults = faults.wrapping_add(1),
            Err(Refusal::Down) => {}
            Err(refusal) => return Err(refusal),
            Ok(()) => return Err(Refusal::NothingToDo),
        }
    }
    same(rt, &faults, &1);
    Ok(())
}

/// Commits and makes them durable, one by one, beside the jobs of another thread.
fn beside<L: Run, D: Disk, R: Wait>(
    rt: &R,
    alloc: Global,
    engine: &Engine<L, D, OpenGate>,
    worker: u64,
    ended: &AtomicU64,
) -> Result<(), Refusal> {
    let done = commit_beside(rt, alloc, engine, worker);
    ended.fetch_add(1, Ordering::SeqCst);
    done
}

fn commit_beside<L: Run, D: Disk, R: Wait>(
    rt: &R,
    alloc: Global,
    engine: &Engine<L, D, OpenGate>,
    worker: u64,
) -> Result<(), Refusal> {
    let mut session = engine.session(rt)?;
    for number in 0..BESIDE {
        let key = worker.wrapping_mul(BESIDE).wrapping_add(number);
        let end = commit(rt, alloc, &mut session, key, 100)?;
        session.make_durable(rt, end)?;
    }
    Ok(())
}

/// Rotates and makes checkpoints until all sessions have ended.
fn keep_up<L: Run, D: Disk, R: Wait>(
    rt: &R,
    engine: &Engine<L, D, OpenGate>,
    ended: &AtomicU64,
) -> Result<(), Refusal> {
    for _ in rt.forever() {
        if ended.load(Ordering::SeqCst) >= WAITERS as u64 {
            return Ok(());
        }
        was_due(engine.rotate(rt))?;
        was_due(engine.checkpoint(rt))?;
        was_due(engine.merge(rt, 0))?;
    }
    unreachable!()
}

fn was_due<T: Drop>(came: Result<T, Refusal>) -> Result<(), Refusal> {
    match came {
        Ok(_) | Err(Refusal::NothingToDo | Refusal::Busy) => Ok(()),
        Err(refusal) => Err(refusal),
    }
}

/// All end, beside the jobs.
fn jobs<L: Run + Send + Sync, D: Disk + Send, R: Threads + Wait + Sync>(
    rt: &R,
    alloc: Global,
    engine: &Engine<L, D, OpenGate>,
) -> Result<(), Refusal> {
    let ended = AtomicU64::new(0);
    for told in map_indices(
        rt,
        alloc,
        WAITERS + 1,
        &|worker| {
            if worker < WAITERS {
                beside(rt, alloc, engine, worker as u64, &ended)
            } else {
                keep_up(rt, engine, &ended)
            }
        },
    )? {
        told?;
    }
    Ok(())
}

/// Nobody has committed there.
fn above<L: Run, D: Disk, R: Abort + Wait>(
    rt: &R,
    alloc: Global,
    session: &mut Session<'_, L, D, OpenGate>,
) -> Result<(), Refusal> {
    let end = commit(rt, alloc, session, 1, 1)?;
    let later = Stamp(end.0.wrapping_add(1));
    same(
        rt,
        &session.make_durable(rt, later),
        &Err(Refusal::NothingToDo),
    );
    same(rt, &session.poll_durable(end), &false);
    same(rt, &session.make_durable(rt, end), &Ok(()));
    same(rt, &session.poll_durable(end), &true);
    same(rt, &session.wait_durable(rt, end), &Ok(()));
    Ok(())
}

/// Rotates the log until no more segments may be.
fn fill_log<L: Run, D: Disk, R: Wait>(
    rt: &R,
    alloc: Global,
    engine: &Engine<L, D, OpenGate>,
    session: &mut Session<'_, L, D, OpenGate>,
) -> Result<(), Refusal> {
    for number in FIRST..FIRST + 100 {
        let end = commit(rt, alloc, session, number, 1)?;
        session.make_durable(rt, end)?;
        match engine.rotate(rt) {
            Ok(_) => {}
            Err(Refusal::SegmentsFull) => return Ok(()),
            Err(refusal) => return Err(refusal),
        }
    }
    Err(Refusal::NothingToDo)
}

/// So many rows in one transaction, which fill a quarter of a megabyte of the log.
fn commit_some<L: Run, D: Disk, R: Wait>(
    rt: &R,
    alloc: Global,
    session: &mut Session<'_, L, D, OpenGate>,
    first: u64,
) -> Result<Stamp, Refusal> {
    session.begin_tx(rt)?;
    for number in first..first.saturating_add(SOME) {
        session.insert(rt, row(alloc, number, 1024)?)?;
    }
    session.commit_tx(rt)
}

/// Fills the last segment too.
fn fill_segment<L: Run, D: Disk, R: Wait>(
    rt: &R,
    alloc: Global,
    session: &mut Session<'_, L, D, OpenGate>,
) -> Result<(), Refusal> {
    for turn in 8..400u64 {
        let end = commit_some(rt, alloc, session, turn * SOME)?;
        match session.make_durable(rt, end) {
            Ok(()) => {}
            Err(Refusal::SegmentsFull) => return Ok(()),
            Err(refusal) => return Err(refusal),
        }
    }
    Err(Refusal::NothingToDo)
}

/// Each who waits is told that the log is full, and so is who leaves the flushes to others.
fn full<L: Run + Send + Sync, D: Disk + Send, R: Abort + Threads + Wait + Sync>(
    rt: &R,
    alloc: Global,
    engine: &Engine<L, D, OpenGate>,
) -> Result<(), Refusal> {
    let mut session = engine.session(rt)?;
    fill_log(rt, alloc, engine, &mut session)?;
    fill_segment(rt, alloc, &mut session)?;
    for told in meet_all(rt, alloc, engine)? {
        same(rt, &told, &Err(Refusal::SegmentsFull));
    }
    let end = commit(rt, alloc, &mut session, LAST, 1)?;
    same(
        rt,
        &session.wait_durable(rt, end),
        &Err(Refusal::SegmentsFull),
    );
    Ok(())
}

fn go<L: Run + Send + Sync, D: Disk + Drop + Send, R: Abort + Threads + Wait + Sync>(
    rt: &R,
    alloc: Global,
    engine: &Engine<L, D, OpenGate>,
    syncs: &AtomicU64,
    what: What,
) -> Result<(), Refusal> {
    match what {
        What::OneByOne => one_by_one(rt, alloc, &mut engine.session(rt)?, syncs),
        What::Together => together(rt, alloc, engine, syncs),
        What::Fault => fault(rt, alloc, engine),
        What::Jobs => jobs(rt, alloc, engine),
        What::Above => above(rt, alloc, &mut engine.session(rt)?),
        What::Full => full(rt, alloc, engine),
    }
}

fn run_made<L: Run + Send + Sync, D: Disk + Drop + Send, R: Abort + Threads + Wait + Sync>(
    rt: &R,
    alloc: Global,
    fresh: Fresh<D>,
    syncs: &AtomicU64,
    what: What,
) -> Result<(), Refusal>
    requires { IsNamedBy D.Disk L.opening L.marks L.ring L.name L.parts fresh }
{
    let engine = Engine::<L, D, OpenGate>::new(fresh, OpenGate);
    go(rt, alloc, &engine, syncs, what)
}

/// Does it with an engine over what is on the disk.
fn made_over<D: Disk + Drop + Send, R: Abort + Threads + Wait + Sync>(
    rt: &R,
    alloc: Global,
    disk: D,
    syncs: &AtomicU64,
    what: What,
) -> Result<(), Refusal> {
    match Fresh::open(rt, alloc, SEED, disk) {
        Ok(fresh) => run_made::<Brand, D, R>(rt, alloc, fresh, syncs, what),
        Err((refusal, _)) => Err(refusal),
    }
}

fn made<R: Abort + Threads + Wait + Sync>(
    rt: &R,
    alloc: Global,
    disk: MemDisk,
    what: What,
) -> Result<(), Refusal> {
    let syncs = AtomicU64::new(0);
    let disk = Counted {
        disk,
        syncs: &syncs,
    };
    made_over(rt, alloc, disk, &syncs, what)
}

#[test]
fn a_commit_costs_two_syncs(rt: HostRuntime) -> Result<(), Fail> {
    Ok(made(&rt, rt.alloc(), formatted(rt.alloc())?, What::OneByOne)?)
}

#[test]
fn who_waits_shares_a_group(rt: HostRuntime) -> Result<(), Fail> {
    for _ in 0..20 {
        made(&rt, rt.alloc(), formatted(rt.alloc())?, What::Together)?;
    }
    Ok(())
}

#[test]
fn a_fault_is_told_to_all_who_wait(rt: HostRuntime) -> Result<(), Fail> {
    let mut told = 0u64;
    for calls in 0..2000 {
        let mut disk = formatted(rt.alloc())?;
        disk.fail_at(calls);
        match made(&rt, rt.alloc(), disk, What::Fault) {
            Ok(()) => told = told.wrapping_add(1),
            // The opening met it, or no call did.
            Err(Refusal::DiskFault) => {}
            Err(Refusal::NothingToDo) => break,
            Err(refusal) => return Err(Fail::from(refusal)),
        }
    }
    holds(&rt, told > 3);
    Ok(())
}

#[test]
fn commits_go_on_beside_jobs(rt: HostRuntime) -> Result<(), Fail> {
    Ok(made(&rt, rt.alloc(), formatted(rt.alloc())?, What::Jobs)?)
}

#[test]
fn no_commit_above_the_clock_is_durable(rt: HostRuntime) -> Result<(), Fail> {
    Ok(made(&rt, rt.alloc(), formatted(rt.alloc())?, What::Above)?)
}

#[test]
fn a_full_log_is_told_to_all_who_wait(rt: HostRuntime) -> Result<(), Fail> {
    Ok(made(&rt, rt.alloc(), formatted(rt.alloc())?, What::Full)?)
}
