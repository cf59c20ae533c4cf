//! A commit waits for another, which goes on meanwhile.

use super::rows::{read, row};
use super::trial::{Meeting, Trial, tried_anew};
use super::turns::has_come;
use crate::equal::same;
use mvo_disk::Disk;
use mvo_engine::{Engine, Gate, Place, Run, Session};
use mvo_types::{Refusal, Stamp};
use std::alloc::Global;
use std::process::Abort;
use std::sync::Wait;
use std::sync::atomic::{AtomicU64, Ordering};
use std::test::*;
use std::thread::{Threads, join};

/// Where threads come to the lock of the core, by number from 0 on: which of them is held, and at
/// which it may go on.
#[derive(Drop)]
pub struct Passes {
    count: AtomicU64,
    held_at: AtomicU64,
    /// 1 once a thread is held.
    held: AtomicU64,
    free_at: AtomicU64,
    /// 1 from when it may go on.
    free: AtomicU64,
    /// 1 if it went on without that.
    late: AtomicU64,
}

impl Passes {
    fn new() -> Passes {
        Passes {
            count: AtomicU64::new(0),
            held_at: AtomicU64::new(u64::MAX),
            held: AtomicU64::new(0),
            free_at: AtomicU64::new(u64::MAX),
            free: AtomicU64::new(0),
            late: AtomicU64::new(0),
        }
    }

    // The number of a pass so many from now on.
    fn behind(&self, more: u64) -> u64 {
        self.count.load(Ordering::SeqCst).saturating_add(more)
    }

    fn come(&self) {
        let number = self.count.fetch_add(1, Ordering::SeqCst);
        if number >= self.free_at.load(Ordering::SeqCst) {
            self.free.store(1, Ordering::SeqCst);
        }
        if number == self.held_at.load(Ordering::SeqCst) {
            self.held.store(1, Ordering::SeqCst);
            if !has_come(&self.free, 1) {
                self.late.store(1, Ordering::SeqCst);
            }
        }
    }
}

/// A gate that holds one thread.
#[derive(Drop)]
struct Holding<'p> {
    passes: &'p Passes,
}

impl<'p> Gate for Holding<'p> {
    fn pass(&self, place: Place) {
        if matches!(place, Place::Core) {
            self.passes.come();
        }
    }
}

/// Where the first transaction ended; how many were rolled back meanwhile, what the second read,
/// and where it ended.
type Ended = (
    Result<Stamp, Refusal>,
    Result<(u64, Option<u8>, Stamp), Refusal>,
);

/// The first transaction puts the row and is held between its end and its first check. Those before
/// any stamp are rolled back, but not this one, which is Preparing. The second reads the row, and
/// waits for the first with its commit.
pub fn depend<
    L: Run + Send + Sync,
    D: Disk + Send,
    G: Gate + Drop + Send + Sync,
    R: Abort + Threads + Wait + Sync,
>(rt: &R, alloc: Global, engine: &Engine<L, D, G>, passes: &Passes) -> Result<(), Refusal> {
    let mut one = engine.session(rt)?;
    let mut two = engine.session(rt)?;
    commit_both(rt, alloc, engine, &mut one, &mut two, passes)
}

fn commit_both<
    L: Run + Send + Sync,
    D: Disk + Send,
    G: Gate + Drop + Send + Sync,
    R: Abort + Threads + Wait + Sync,
>(
    rt: &R,
    alloc: Global,
    engine: &Engine<L, D, G>,
    one: &mut Session<'_, L, D, G>,
    two: &mut Session<'_, L, D, G>,
    passes: &Passes,
) -> Result<(), Refusal> {
    one.begin_tx(rt)?;
    one.insert(rt, row(alloc, 7)?)?;
    passes.held_at.store(passes.behind(1), Ordering::SeqCst);
    let (first, second) = in_threads(rt, engine, one, two, passes);
    same(rt, &first?, &Stamp(2));
    same(rt, &second?, &(0, Some(7), Stamp(4)));
    Ok(())
}

fn in_threads<
    L: Run + Send + Sync,
    D: Disk + Send,
    G: Gate + Drop + Send + Sync,
    R: Threads + Wait + Sync,
>(
    rt: &R,
    engine: &Engine<L, D, G>,
    one: &mut Session<'_, L, D, G>,
    two: &mut Session<'_, L, D, G>,
    passes: &Passes,
) -> Ended {
    join(
        rt,
        || one.commit_tx(rt),
        || read_and_commit(rt, engine, two, passes),
    )
}

// Rolls back who is old once the other is held, reads the row, and commits. The other may go on
// once this one has come to the lock six times more: for its end, its check, and to settle.
fn read_and_commit<L: Run, D: Disk, G: Gate + Drop, R: Wait>(
    rt: &R,
    engine: &Engine<L, D, G>,
    session: &mut Session<'_, L, D, G>,
    passes: &Passes,
) -> Result<(u64, Option<u8>, Stamp), Refusal> {
    has_come(&passes.held, 1);
    let gone = engine.roll_back_older(rt, Stamp(100));
    session.begin_tx(rt)?;
    let byte = read(rt, session)?;
    passes.free_at.store(passes.behind(5), Ordering::SeqCst);
    let end = session.commit_tx(rt)?;
    Ok((gone, byte, end))
}

#[test]
fn a_commit_waits_for_another(rt: HostRuntime) -> Result<(), Fail> {
    let passes = Passes::new();
    let gate = Holding { passes: &passes };
    let trial = Trial::Threads(Meeting::Depending(&passes));
    tried_anew(&rt, rt.alloc(), gate, trial)?;
    same(&rt, &passes.held.load(Ordering::SeqCst), &1);
    same(&rt, &passes.late.load(Ordering::SeqCst), &0);
    Ok(())
}
