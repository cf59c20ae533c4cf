//! An engine over a disk, for what a test does with it.
ghost use Rattle.mvo_engine.specs.Opened.{IsNamedBy};

use super::beside::{merge_in_threads, merge_waits};
use super::day::spend_day;
use super::depending::{Passes, depend};
use super::down::go_down;
use super::gathering::gather_all;
use super::held_disk::Hold;
use super::holds::{hold, hold_timed};
use super::jobs::do_jobs;
use super::kept::{keep_alone, keep_beside};
use super::lasting::{last_a_day, make_many, stay};
use super::meeting::meet_for_a_key;
use super::older::give_way;
use super::reads_free::flush_and_read;
use super::sessions::{ask_sessions, make_all};
use super::steps::{Line, follow_new};
use super::through::put_and_find;
use super::upkeep::keep_up;
use super::waiting::{Words, flush_both, wait_and_flush};
use super::{SEED, formatted};
use mvo_disk::{Disk, MemDisk};
use mvo_engine::{Engine, Fresh, Gate, Run};
use mvo_types::Refusal;
use std::alloc::Global;
use std::marker::Brand;
use std::process::Abort;
use std::sync::Wait;
use std::sync::atomic::AtomicU64;
use std::test::Fail;
use std::thread::Threads;

/// What is done with an engine.
#[derive(Clone, Copy)]
pub enum Trial<'t> {
    /// These steps, by two sessions.
    Steps(&'t [Line]),
    /// What one thread does.
    Alone(Alone<'t>),
    /// What several threads do.
    Threads(Meeting<'t>),
}

/// What one thread does. The words count how often it comes to a lock.
#[derive(Clone, Copy)]
pub enum Alone<'t> {
    Sessions,
    AllSessions,
    Upkeep(&'t AtomicU64),
    Jobs(&'t AtomicU64),
    Kept,
    MergeWaits,
    Down,
    /// Sessions are made and given back, one at a time.
    Retiring,
    /// A session isn't taken back.
    Staying,
    /// Old transactions are rolled back.
    Older,
    /// The lock of the store is held, by a clock that says what it is to say.
    Held,
    /// The same, by the system's clock.
    Timed,
}

/// What several threads do, and the words between them.
#[derive(Clone, Copy)]
pub enum Meeting<'t> {
    Through,
    ReadsFree(&'t Hold),
    ForAKey,
    Depending(&'t Passes),
    Flushes(&'t Words),
    Waits(&'t Words),
    MergeBesideCheckpoint,
    Keeping,
    Gathering,
    Day,
    /// A day of sessions that forget, with trims between.
    LastingDay,
}

fn go<
    L: Run + Send + Sync,
    D: Disk + Drop + Send,
    G: Gate + Drop + Send + Sync,
    R: Abort + Threads + Wait + Sync,
>(rt: &R, alloc: Global, engine: &Engine<L, D, G>, trial: Trial<'_>) -> Result<(), Refusal> {
    match trial {
        Trial::Steps(lines) => follow_new(rt, alloc, engine, lines),
        Trial::Alone(alone) => go_alone(rt, alloc, engine, alone),
        Trial::Threads(meeting) => go_in_threads(rt, alloc, engine, meeting),
    }
}

fn go_alone<L: Run, D: Disk, G: Gate + Drop, R: Abort + Wait>(
    rt: &R,
    alloc: Global,
    engine: &Engine<L, D, G>,
    alone: Alone<'_>,
) -> Result<(), Refusal> {
    match alone {
        Alone::Sessions => ask_sessions(rt, alloc, engine),
        Alone::AllSessions => make_all(rt, alloc, engine),
        Alone::Upkeep(passes) => keep_up(rt, alloc, engine, passes),
        Alone::Jobs(passes) => do_jobs(rt, alloc, engine, passes),
        Alone::Kept => keep_alone(rt, alloc, engine),
        Alone::MergeWaits => merge_waits(rt, alloc, engine),
        Alone::Down => go_down(rt, alloc, engine),
        Alone::Retiring => make_many(rt, engine),
        Alone::Staying => stay(rt, alloc, engine),
        Alone::Older => give_way(rt, alloc, engine),
        Alone::Held => hold(rt, alloc, engine),
        Alone::Timed => hold_timed(rt, alloc, engine),
    }
}

fn go_in_threads<
    L: Run + Send + Sync,
    D: Disk + Drop + Send,
    G: Gate + Drop + Send + Sync,
    R: Abort + Threads + Wait + Sync,
>(rt: &R, alloc: Global, engine: &Engine<L, D, G>, meeting: Meeting<'_>) -> Result<(), Refusal> {
    match meeting {
        Meeting::Through => put_and_find(rt, alloc, engine),
        Meeting::ReadsFree(hold) => flush_and_read(rt, alloc, engine, hold),
        Meeting::ForAKey => meet_for_a_key(rt, alloc, engine),
        Meeting::Depending(passes) => depend(rt, alloc, engine, passes),
        Meeting::Flushes(words) => flush_both(rt, alloc, engine, words),
        Meeting::Waits(words) => wait_and_flush(rt, alloc, engine, words),
        Meeting::MergeBesideCheckpoint => merge_in_threads(rt, alloc, engine),
        Meeting::Keeping => keep_beside(rt, alloc, engine),
        Meeting::Gathering => gather_all(rt, alloc, engine),
        Meeting::Day => spend_day(rt, alloc, engine),
        Meeting::LastingDay => last_a_day(rt, alloc, engine),
    }
}

/// Does it with an engine over what is on the disk, which comes back.
pub fn tried<D: Disk + Drop + Send, G: Gate + Drop + Send + Sync, R: Abort + Threads + Wait + Sync>(
    rt: &R,
    alloc: Global,
    disk: D,
    gate: G,
    trial: Trial<'_>,
) -> Result<D, Refusal> {
    match Fresh::open(rt, alloc, SEED, disk) {
        Ok(fresh) => run_tried::<Brand, D, G, R>(rt, alloc, fresh, gate, trial),
        Err((refusal, _)) => Err(refusal),
    }
}

fn run_tried<
    L: Run + Send + Sync,
    D: Disk + Drop + Send,
    G: Gate + Drop + Send + Sync,
    R: Abort + Threads + Wait + Sync,
>(rt: &R, alloc: Global, fresh: Fresh<D>, gate: G, trial: Trial<'_>) -> Result<D, Refusal>
    requires { IsNamedBy D.Disk L.opening L.marks L.ring L.name L.parts fresh }
{
    let engine = Engine::<L, D, G>::new(fresh, gate);
    go(rt, alloc, &engine, trial)?;
    Ok(engine.into_disk(Vec::new(alloc)))
}

/// Does it with an engine over a new disk, which comes back.
pub fn tried_anew<G: Gate + Drop + Send + Sync, R: Abort + Threads + Wait + Sync>(
    rt: &R,
    alloc: Global,
    gate: G,
    trial: Trial<'_>,
) -> Result<MemDisk, Fail> {
    let disk = formatted(alloc)?;
    Ok(tried(rt, alloc, disk, gate, trial)?)
}
