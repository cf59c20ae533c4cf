//! Each of several sessions makes a commit durable between any two steps of a job, which waits
//! there for them, over a disk whose syncs take a while.
ghost use Rattle.mvo_engine.specs.Opened.{IsNamedBy};

use super::turns::has_come;
use super::{SEED, formatted};
use crate::equal::holds;
use mvo_disk::{Disk, DiskFault};
use mvo_engine::{Engine, Fresh, Gate, Place, Run, Session};
use mvo_types::{Refusal, Row, RowKey, Stamp};
use std::alloc::{AllocError, Global};
use std::marker::Brand;
use std::process::Abort;
use std::sync::Wait;
use std::sync::atomic::{AtomicU64, Ordering};
use std::test::*;
use std::thread::{Threads, map_indices, yield_now};

/// So many sessions commit, each in a thread.
const SESSIONS: usize = 4;

/// So many rotations and checkpoints are made beside them: at least ten steps each time.
const JOBS: u64 = 1;

/// How often a sync yields.
const YIELDS: u32 = 10;

/// What the sessions and the thread of the jobs tell one another.
#[derive(Drop)]
struct Notes {
    /// How many commits of each session were made durable.
    made: [AtomicU64; SESSIONS],
    /// Before how many steps of jobs the thread waited for the sessions, and how often in vain.
    steps: AtomicU64,
    vain: AtomicU64,
    /// 1 once all jobs are made.
    ended: AtomicU64,
}

impl Notes {
    fn new() -> Notes {
        Notes {
            made: [
                AtomicU64::new(0),
                AtomicU64::new(0),
                AtomicU64::new(0),
                AtomicU64::new(0),
            ],
            steps: AtomicU64::new(0),
            vain: AtomicU64::new(0),
            ended: AtomicU64::new(0),
        }
    }

    /// A commit of this session is durable.
    fn count(&self, worker: usize) {
        if let Some(made) = self.made.get(worker) {
            made.fetch_add(1, Ordering::SeqCst);
        }
    }

    /// Waits until each session has made another two of its commits durable: the second one, from
    /// its begin on, while this waits. Where one doesn't come, nothing is waited for any more.
    fn await_all(&self) {
        self.steps.fetch_add(1, Ordering::SeqCst);
        for made in &self.made {
            if self.vain.load(Ordering::SeqCst) == 0 {
                let wanted = made.load(Ordering::SeqCst).saturating_add(2);
                if !has_come(made, wanted) {
                    self.vain.fetch_add(1, Ordering::SeqCst);
                }
            }
        }
    }
}

/// Holds the thread of a job before each step until all sessions have committed.
#[derive(Drop)]
struct Holding<'n> {
    notes: &'n Notes,
}

impl<'n> Gate for Holding<'n> {
    fn pass(&self, place: Place) {
        if place == Place::Turn {
            self.notes.await_all();
        }
    }
}

/// A disk whose syncs take a while, so that sessions sleep while another flushes.
#[derive(Drop)]
struct Slow<D: Disk> {
    disk: D,
}

impl<D: Disk> Disk for Slow<D> {
    ghost content = { λ d. D.content d.disk };

    ghost may_leave = { λ d. D.may_leave d.disk };

    ghost moment = { λ d. D.moment d.disk };

    ghost left_since = { λ d. D.left_since d.disk };

    ghost fault_count = { λ d. D.fault_count d.disk };

    ghost content_may_stay = { λ d n. D.content_may_stay d.disk n };

    ghost counts_now = { λ d t image le all. D.counts_now d.disk t image le all };

    ghost only_now = { λ d image left. D.only_now d.disk image left };

    ghost counts_later = { λ d t u image le left. D.counts_later d.disk t u image le left };

    fn len(&mut self, file: u16) -> Result<usize, DiskFault> {
        self.disk.len(file)
    }

    fn read_at(&mut self, file: u16, at: usize, into: &mut [u8]) -> Result<(), DiskFault> {
        self.disk.read_at(file, at, into)
    }

    fn write_at(&mut self, file: u16, at: usize, bytes: &[u8]) -> Result<(), DiskFault> {
        self.disk.write_at(file, at, bytes)
    }

    fn cut(&mut self, file: u16, len: usize) -> Result<(), DiskFault> {
        self.disk.cut(file, len)
    }

    fn sync(&mut self, file: u16) -> Result<(), DiskFault> {
        for _ in 0..YIELDS {
            yield_now();
        }
        self.disk.sync(file)
    }

    fn faults(&self) -> u64 {
        self.disk.faults()
    }
}

fn row(alloc: Global, number: u64) -> Result<Row, AllocError> {
    let key = RowKey {
        table: 0,
        key: number,
    };
    Row::new(key, number, Vec::new(alloc))
}

fn commit<L: Run, D: Disk, G: Gate + Drop, R: Wait>(
    rt: &R,
    alloc: Global,
    session: &mut Session<'_, L, D, G>,
    number: u64,
) -> Result<Stamp, Refusal> {
    session.begin_tx(rt)?;
    session.insert(rt, row(alloc, number)?)?;
    session.commit_tx(rt)
}

/// Commits, and makes each commit durable, until all jobs are made.
fn commit_all<L: Run, D: Disk, G: Gate + Drop, R: Wait>(
    rt: &R,
    alloc: Global,
    session: &mut Session<'_, L, D, G>,
    worker: usize,
    notes: &Notes,
) -> Result<(), Refusal> {
    let first = (worker as u64) << 32;
    for number in 0..u64::MAX {
        if notes.ended.load(Ordering::SeqCst) != 0 {
            return Ok(());
        }
        let end = commit(rt, alloc, session, first.wrapping_add(number))?;
        session.make_durable(rt, end)?;
        notes.count(worker);
    }
    Ok(())
}

/// Rotates and makes checkpoints beside the sessions.
fn make_jobs<L: Run, D: Disk, G: Gate + Drop, R: Wait>(
    rt: &R,
    engine: &Engine<L, D, G>,
) -> Result<(), Refusal> {
    for _ in 0..JOBS {
        engine.rotate(rt)?;
        engine.checkpoint(rt)?;
    }
    Ok(())
}

/// What one thread does: the last one makes the jobs.
fn work<L: Run, D: Disk, G: Gate + Drop, R: Wait>(
    rt: &R,
    alloc: Global,
    engine: &Engine<L, D, G>,
    worker: usize,
    notes: &Notes,
) -> Result<(), Refusal> {
    if worker < SESSIONS {
        let mut session = engine.session(rt)?;
        return commit_all(rt, alloc, &mut session, worker, notes);
    }
    let made = make_jobs(rt, engine);
    notes.ended.store(1, Ordering::SeqCst);
    made
}

fn run_beside<L: Run + Send + Sync, D: Disk + Drop + Send, R: Threads + Wait + Sync>(
    rt: &R,
    alloc: Global,
    fresh: Fresh<D>,
    notes: &Notes,
) -> Result<(), Refusal>
    requires { IsNamedBy D.Disk L.opening L.marks L.ring L.name L.parts fresh }
{
    let engine = Engine::<L, D, Holding<'_>>::new(fresh, Holding { notes });
    for came in map_indices(
        rt,
        alloc,
        SESSIONS + 1,
        &|worker| { work(rt, alloc, &engine, worker, notes) },
    )? {
        came?;
    }
    Ok(())
}

/// Does it with an engine over what is on the disk.
fn beside<D: Disk + Drop + Send, R: Threads + Wait + Sync>(
    rt: &R,
    alloc: Global,
    disk: D,
    notes: &Notes,
) -> Result<(), Refusal> {
    match Fresh::open(rt, alloc, SEED, disk) {
        Ok(fresh) => run_beside::<Brand, D, R>(rt, alloc, fresh, notes),
        Err((refusal, _)) => Err(refusal),
    }
}

// A step that kept the turn, or the store, would be waited for in vain.
#[test]
fn commits_come_between_the_steps_of_jobs(rt: HostRuntime) -> Result<(), Fail> {
    let notes = Notes::new();
    let disk = Slow {
        disk: formatted(rt.alloc())?,
    };
    beside(&rt, rt.alloc(), disk, &notes)?;
    holds(&rt, notes.steps.load(Ordering::SeqCst) >= 10 * JOBS);
    holds(&rt, notes.vain.load(Ordering::SeqCst) == 0);
    Ok(())
}
