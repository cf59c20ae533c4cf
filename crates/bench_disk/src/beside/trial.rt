//! Sessions that make each of their commits durable, a job, or both at once.
ghost use Rattle.mvo_engine.specs.Opened.{IsNamedBy};

use crate::beside::job::Job;
use crate::rows::{SEED, key_of, next_drawn, replace_one, row_of};
use crate::times::Times;
use anyhow::{Result, bail};
use mvo_disk::Disk;
use mvo_engine::{Engine, Fresh, Gate, Run, TimedGate};
use mvo_types::Refusal;
use std::alloc::Global;
use std::marker::Brand;
use std::sync::Wait;
use std::sync::atomic::{AtomicU64, Ordering};
use std::thread;
use std::thread::Threads;
use std::time::{Clock, Duration};

/// For how many milliseconds sessions commit where there is no job.
const ALONE: u64 = 5_000;

/// So many sessions over so many rows commit until the job is made; where there is none, for a
/// while.
#[derive(Clone, Copy)]
pub struct Trial {
    pub sessions: u64,
    pub rows: u64,
    pub job: Option<Job>,
}

/// What a trial came to.
#[derive(Drop)]
pub struct Told {
    /// How long each commit took, from the begin of its transaction until it was durable.
    pub waits: Times,
    /// How many nanoseconds all took: the job's own time, where there is one.
    pub nanos: u64,
    /// For how many nanoseconds the lock of the store was held at most.
    pub hold: u64,
}

/// A trial over the store on the disk.
pub fn run<D: Disk + Drop + Send, R: Clock + Threads + Wait + Sync>(
    rt: &R,
    alloc: Global,
    disk: D,
    trial: Trial,
) -> Result<Told> {
    let told = match Fresh::open(rt, alloc, SEED, disk) {
        Ok(fresh) => run_in::<Brand, D, R>(rt, alloc, fresh, trial),
        Err((refusal, _disk)) => Err(refusal),
    };
    match told {
        Ok(told) => Ok(told),
        Err(refusal) => bail!("the sessions or the job are stopped: {refusal}"),
    }
}

/// The same of every run, which its parts name.
fn run_in<L: Run + Send + Sync, D: Disk + Drop + Send, R: Clock + Threads + Wait + Sync>(
    rt: &R,
    alloc: Global,
    fresh: Fresh<D>,
    trial: Trial,
) -> Result<Told, Refusal>
    requires { IsNamedBy D.Disk L.opening L.marks L.ring L.name L.parts fresh }
{
    let engine = Engine::<L, D, TimedGate<'_, R>>::new(fresh, TimedGate::new(rt));
    try_engine(rt, alloc, &engine, trial)
}

/// The job in this thread, and the sessions in others.
fn try_engine<L, D, G, R>(
    rt: &R,
    alloc: Global,
    engine: &Engine<L, D, G>,
    trial: Trial,
) -> Result<Told, Refusal>
where
    L: Run + Send + Sync,
    D: Disk + Drop + Send,
    G: Gate + Drop + Sync,
    R: Clock + Threads + Wait + Sync,
{
    let over = AtomicU64::new(0);
    let (nanos, waits) = thread::join(
        rt,
        || {
            let nanos = time_job(rt, engine, trial.job);
            over.store(1, Ordering::SeqCst);
            nanos
        },
        || commit_in_all(rt, alloc, engine, trial, &over),
    );
    Ok(Told {
        waits: Times::of(waits?),
        nanos: nanos?,
        hold: engine.totals().longest_hold,
    })
}

/// Makes the job, or lets a while go by. Answers how many nanoseconds that took.
fn time_job<L: Run, D: Disk, G: Gate + Drop, R: Clock + Wait>(
    rt: &R,
    engine: &Engine<L, D, G>,
    job: Option<Job>,
) -> Result<u64, Refusal> {
    let clock = TimedGate::new(rt);
    let since = clock.nanos();
    match job {
        None => thread::sleep(rt, Duration::from_millis(ALONE)),
        Some(job) => make(rt, engine, job)?,
    }
    Ok(clock.nanos().saturating_sub(since))
}

/// Makes the job.
fn make<L: Run, D: Disk, G: Gate + Drop, R: Wait>(
    rt: &R,
    engine: &Engine<L, D, G>,
    job: Job,
) -> Result<(), Refusal> {
    let made = match job {
        Job::Checkpoint => engine.checkpoint(rt),
        Job::Merge => engine.merge(rt, 0),
    };
    match made {
        Ok(_) => Ok(()),
        Err(refusal) => Err(refusal),
    }
}

/// The sessions, side by side, until the flag is raised. Answers how many nanoseconds each commit
/// took.
fn commit_in_all<L, D, G, R>(
    rt: &R,
    alloc: Global,
    engine: &Engine<L, D, G>,
    trial: Trial,
    over: &AtomicU64,
) -> Result<Vec<u64>, Refusal>
where
    L: Run + Send + Sync,
    D: Disk + Drop + Send,
    G: Gate + Drop + Sync,
    R: Clock + Threads + Wait + Sync,
{
    let mut all = Vec::new(alloc);
    for waits in thread::map_indices(
        rt,
        alloc,
        trial.sessions as usize,
        &|number| commit_all(rt, alloc, engine, number as u64, trial, over),
    )? {
        all.extend_from_slice(&waits?)?;
    }
    Ok(all)
}

/// The commits of one session.
fn commit_all<L: Run, D: Disk, G: Gate + Drop, R: Clock + Wait>(
    rt: &R,
    alloc: Global,
    engine: &Engine<L, D, G>,
    number: u64,
    trial: Trial,
    over: &AtomicU64,
) -> Result<Vec<u64>, Refusal> {
    let clock = TimedGate::new(rt);
    let mut session = engine.session(rt)?;
    let mut waits = Vec::new(alloc);
    let mut drawn = number;
    for round in 0..u64::MAX {
        if over.load(Ordering::SeqCst) != 0 {
            break;
        }
        drawn = next_drawn(drawn);
        let key = key_of(trial.rows, trial.sessions, number, drawn);
        let since = clock.nanos();
        replace_one(rt, &mut session, row_of(alloc, key, round)?)?;
        waits.push(clock.nanos().saturating_sub(since))?;
    }
    Ok(waits)
}
