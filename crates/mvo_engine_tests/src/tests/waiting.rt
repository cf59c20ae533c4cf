//! Two flushes wait for the store at once, and a session waits for the disk.

use super::counting::Counting;
use super::rows::{change, put};
use super::trial::{Meeting, Trial, tried_anew};
use super::turns::has_come;
use crate::equal::{holds, same};
use mvo_disk::Disk;
use mvo_engine::{Engine, Gate, Place, Run, Session};
use mvo_types::{Refusal, Stamp};
use std::alloc::Global;
use std::process::Abort;
use std::sync::Wait;
use std::sync::atomic::{AtomicU64, Ordering};
use std::test::*;
use std::thread::{Threads, join};

/// How often threads have come to the lock of the store, and 1 once it is held.
#[derive(Drop)]
pub struct Words {
    passes: AtomicU64,
    holds: AtomicU64,
}

impl Words {
    fn new() -> Words {
        Words {
            passes: AtomicU64::new(0),
            holds: AtomicU64::new(0),
        }
    }

    fn gate(&self) -> Counting<'_> {
        Counting {
            passes: &self.passes,
            at: Place::Store,
        }
    }
}

type Marks = (Result<Stamp, Refusal>, Result<Stamp, Refusal>);

/// Both flushes wait for the store with a group in the ring, until another thread, which holds the
/// store, lets it go.
pub fn flush_both<
    L: Run + Send + Sync,
    D: Disk + Send,
    G: Gate + Drop + Send + Sync,
    R: Abort + Threads + Wait + Sync,
>(rt: &R, alloc: Global, engine: &Engine<L, D, G>, words: &Words) -> Result<(), Refusal> {
    let mut one = engine.session(rt)?;
    let mut two = engine.session(rt)?;
    flush_while_held(rt, alloc, engine, &mut one, &mut two, words)
}

fn flush_while_held<
    L: Run + Send + Sync,
    D: Disk + Send,
    G: Gate + Drop + Send + Sync,
    R: Abort + Threads + Wait + Sync,
>(
    rt: &R,
    alloc: Global,
    engine: &Engine<L, D, G>,
    one: &mut Session<'_, L, D, G>,
    two: &mut Session<'_, L, D, G>,
    words: &Words,
) -> Result<(), Refusal> {
    let (in_time, (first, second)) = hold_and_flush(rt, alloc, engine, one, two, words);
    holds(rt, in_time);
    same(rt, &first?, &Stamp(4));
    same(rt, &second?, &Stamp(4));
    Ok(())
}

fn hold_and_flush<
    L: Run + Send + Sync,
    D: Disk + Send,
    G: Gate + Drop + Send + Sync,
    R: Threads + Wait + Sync,
>(
    rt: &R,
    alloc: Global,
    engine: &Engine<L, D, G>,
    one: &mut Session<'_, L, D, G>,
    two: &mut Session<'_, L, D, G>,
    words: &Words,
) -> (bool, Marks) {
    join(
        rt,
        || hold(rt, engine, words),
        || flush_twice(rt, alloc, engine, one, two, words),
    )
}

// Holds the store until both others have come to its lock. Whether they have, and nothing is
// durable by then.
fn hold<L: Run, D: Disk, G: Gate + Drop, R: Wait>(
    rt: &R,
    engine: &Engine<L, D, G>,
    words: &Words,
) -> bool {
    let store = engine.lock_store(rt);
    words.holds.store(1, Ordering::SeqCst);
    let in_time = has_come(&words.passes, 3);
    in_time && store.mark() == Stamp(0)
}

fn flush_twice<
    L: Run + Send + Sync,
    D: Disk + Send,
    G: Gate + Drop + Send + Sync,
    R: Threads + Wait + Sync,
>(
    rt: &R,
    alloc: Global,
    engine: &Engine<L, D, G>,
    one: &mut Session<'_, L, D, G>,
    two: &mut Session<'_, L, D, G>,
    words: &Words,
) -> Marks {
    join(
        rt,
        || put_and_flush(rt, alloc, engine, one, &words.holds),
        || change_and_flush(rt, alloc, engine, two, &words.passes),
    )
}

// Puts the row once the store is held, and flushes.
fn put_and_flush<L: Run, D: Disk, G: Gate + Drop, R: Wait>(
    rt: &R,
    alloc: Global,
    engine: &Engine<L, D, G>,
    session: &mut Session<'_, L, D, G>,
    holds: &AtomicU64,
) -> Result<Stamp, Refusal> {
    has_come(holds, 1);
    put(rt, alloc, session, 1)?;
    engine.flush(rt)
}

// Changes the row once the other has come to the store, and flushes.
fn change_and_flush<L: Run, D: Disk, G: Gate + Drop, R: Wait>(
    rt: &R,
    alloc: Global,
    engine: &Engine<L, D, G>,
    session: &mut Session<'_, L, D, G>,
    passes: &AtomicU64,
) -> Result<Stamp, Refusal> {
    has_come(passes, 2);
    change(rt, alloc, session, 2)?;
    engine.flush(rt)
}

/// One session waits until its commit is durable. Meanwhile the other commits, and flushes.
pub fn wait_and_flush<
    L: Run + Send + Sync,
    D: Disk + Send,
    G: Gate + Drop + Send + Sync,
    R: Abort + Threads + Wait + Sync,
>(rt: &R, alloc: Global, engine: &Engine<L, D, G>, words: &Words) -> Result<(), Refusal> {
    let mut one = engine.session(rt)?;
    let mut two = engine.session(rt)?;
    wait_beside(rt, alloc, engine, &mut one, &mut two, words)
}

fn wait_beside<
    L: Run + Send + Sync,
    D: Disk + Send,
    G: Gate + Drop + Send + Sync,
    R: Abort + Threads + Wait + Sync,
>(
    rt: &R,
    alloc: Global,
    engine: &Engine<L, D, G>,
    one: &mut Session<'_, L, D, G>,
    two: &mut Session<'_, L, D, G>,
    words: &Words,
) -> Result<(), Refusal> {
    let end = put(rt, alloc, one, 1)?;
    let (waited, flushed) = wait_for_flush(rt, alloc, engine, one, two, words, end);
    holds(rt, waited.is_ok());
    same(rt, &flushed?, &Stamp(4));
    Ok(())
}

fn wait_for_flush<
    L: Run + Send + Sync,
    D: Disk + Send,
    G: Gate + Drop + Send + Sync,
    R: Threads + Wait + Sync,
>(
    rt: &R,
    alloc: Global,
    engine: &Engine<L, D, G>,
    one: &mut Session<'_, L, D, G>,
    two: &mut Session<'_, L, D, G>,
    words: &Words,
    end: Stamp,
) -> (Result<(), Refusal>, Result<Stamp, Refusal>) {
    join(
        rt,
        || one.wait_durable(rt, end),
        || change_and_flush(rt, alloc, engine, two, &words.passes),
    )
}

#[test]
fn each_flush_answers_for_all_groups(rt: HostRuntime) -> Result<(), Fail> {
    let words = Words::new();
    let trial = Trial::Threads(Meeting::Flushes(&words));
    tried_anew(&rt, rt.alloc(), words.gate(), trial)?;
    Ok(())
}

#[test]
fn who_waits_for_the_disk_holds_no_lock(rt: HostRuntime) -> Result<(), Fail> {
    let words = Words::new();
    let trial = Trial::Threads(Meeting::Waits(&words));
    tried_anew(&rt, rt.alloc(), words.gate(), trial)?;
    Ok(())
}
