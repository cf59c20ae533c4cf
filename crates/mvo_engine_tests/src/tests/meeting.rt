//! Two sessions are in transactions at once.

use super::rows::{put, row};
use super::trial::{Meeting, Trial, tried_anew};
use super::turns::has_come;
use crate::equal::{holds, same};
use mvo_disk::Disk;
use mvo_engine::{Engine, Gate, OpenGate, Run, Session};
use mvo_types::{Cause, Refusal, TxId};
use std::alloc::Global;
use std::process::Abort;
use std::sync::Wait;
use std::sync::atomic::{AtomicU64, Ordering};
use std::test::*;
use std::thread::{Threads, join};

/// The first session updates the key and rolls back once the second one was refused for it.
pub fn meet_for_a_key<
    L: Run + Send + Sync,
    D: Disk + Send,
    G: Gate + Drop + Send + Sync,
    R: Abort + Threads + Wait + Sync,
>(rt: &R, alloc: Global, engine: &Engine<L, D, G>) -> Result<(), Refusal> {
    let mut one = engine.session(rt)?;
    let mut two = engine.session(rt)?;
    put_and_meet(rt, alloc, &mut one, &mut two)?;
    let totals = engine.totals();
    same(rt, &(totals.commits, totals.write_conflicts), &(1, 1));
    Ok(())
}

fn put_and_meet<
    L: Run + Send + Sync,
    D: Disk + Send,
    G: Gate + Drop + Send + Sync,
    R: Abort + Threads + Wait + Sync,
>(
    rt: &R,
    alloc: Global,
    one: &mut Session<'_, L, D, G>,
    two: &mut Session<'_, L, D, G>,
) -> Result<(), Refusal> {
    put(rt, alloc, one, 0x61)?;
    let (first, second) = meet_in_threads(rt, alloc, one, two);
    second?;
    holds(rt, first?);
    Ok(())
}

fn meet_in_threads<
    L: Run + Send + Sync,
    D: Disk + Send,
    G: Gate + Drop + Send + Sync,
    R: Threads + Wait + Sync,
>(
    rt: &R,
    alloc: Global,
    one: &mut Session<'_, L, D, G>,
    two: &mut Session<'_, L, D, G>,
) -> (Result<bool, Refusal>, Result<(), Refusal>) {
    let holder = AtomicU64::new(0);
    let met = AtomicU64::new(0);
    join(
        rt,
        || hold(rt, alloc, one, &holder, &met),
        || meet(rt, alloc, two, &holder, &met),
    )
}

// Updates the key, and waits until the other was refused. Whether it was.
fn hold<L: Run, D: Disk, G: Gate + Drop, R: Wait>(
    rt: &R,
    alloc: Global,
    session: &mut Session<'_, L, D, G>,
    holder: &AtomicU64,
    met: &AtomicU64,
) -> Result<bool, Refusal> {
    let tx = session.begin_tx(rt)?;
    session.update(rt, row(alloc, 1)?)?;
    holder.store(tx.0, Ordering::SeqCst);
    let was = has_come(met, 1);
    session.rollback_tx(rt)?;
    Ok(was)
}

// Waits until the other has updated the key, and is refused for it.
fn meet<L: Run, D: Disk, G: Gate + Drop, R: Wait>(
    rt: &R,
    alloc: Global,
    session: &mut Session<'_, L, D, G>,
    holder: &AtomicU64,
    met: &AtomicU64,
) -> Result<(), Refusal> {
    has_come(holder, 1);
    session.begin_tx(rt)?;
    let other = TxId(holder.load(Ordering::SeqCst));
    let refused = session.update(rt, row(alloc, 2)?);
    if let Err(Refusal::WriteConflict(Cause::Active(id))) = refused {
        if id == other {
            met.store(1, Ordering::SeqCst);
        }
    }
    Ok(())
}

#[test]
fn two_sessions_meet(rt: HostRuntime) -> Result<(), Fail> {
    tried_anew(&rt, rt.alloc(), OpenGate, Trial::Threads(Meeting::ForAKey))?;
    Ok(())
}
