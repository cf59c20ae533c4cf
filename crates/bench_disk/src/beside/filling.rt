//! Stores with a sealed segment, or with two pairs.
ghost use Rattle.mvo_engine.specs.Opened.{IsNamedBy};

use crate::beside::job::Job;
use crate::rows::{SEED, load_rows};
use anyhow::{Result, bail};
use mvo_disk::Disk;
use mvo_engine::{Engine, Fresh, OpenGate, Run};
use mvo_types::{MAX_PAIRS, Refusal};
use std::alloc::Global;
use std::marker::Brand;
use std::sync::Wait;
use std::thread::Threads;

/// Fills the store on the disk, so that there is something to do for the job: with so many rows in
/// one sealed segment, or so many in each of two pairs.
pub fn fill<D: Disk + Drop + Send, R: Threads + Wait + Sync>(
    rt: &R,
    alloc: Global,
    disk: D,
    job: Job,
    rows: u64,
) -> Result<()> {
    let filled = match Fresh::open(rt, alloc, SEED, disk) {
        Ok(fresh) => fill_in::<Brand, D, R>(rt, alloc, fresh, job, rows),
        Err((refusal, _disk)) => Err(refusal),
    };
    match filled {
        Ok(()) => Ok(()),
        Err(refusal) => bail!("the store isn't filled: {refusal}"),
    }
}

/// The same of every run, which its parts name.
fn fill_in<L: Run + Send + Sync, D: Disk + Drop + Send, R: Threads + Wait + Sync>(
    rt: &R,
    alloc: Global,
    fresh: Fresh<D>,
    job: Job,
    rows: u64,
) -> Result<(), Refusal>
    requires { IsNamedBy D.Disk L.opening L.marks L.ring L.name L.parts fresh }
{
    let engine = Engine::<L, D, OpenGate>::new(fresh, OpenGate);
    match job {
        Job::Checkpoint => fill_segments(rt, alloc, &engine, 0, rows),
        Job::Merge => fill_pairs(rt, alloc, &engine, rows),
    }
}

/// Brings rows with these keys into the log, and seals its last segment.
fn fill_segments<L: Run, D: Disk, R: Wait>(
    rt: &R,
    alloc: Global,
    engine: &Engine<L, D, OpenGate>,
    from: u64,
    below: u64,
) -> Result<(), Refusal> {
    load_rows(rt, alloc, engine, from, below)?;
    engine.rotate(rt)?;
    Ok(())
}

/// Two pairs of so many rows each.
fn fill_pairs<L: Run, D: Disk, R: Wait>(
    rt: &R,
    alloc: Global,
    engine: &Engine<L, D, OpenGate>,
    rows: u64,
) -> Result<(), Refusal> {
    for place in 0..2usize {
        let from = rows.wrapping_mul(place as u64);
        fill_segments(rt, alloc, engine, from, from.wrapping_add(rows))?;
        checkpoint_all(rt, engine)?;
        merge_all(rt, engine, place)?;
    }
    Ok(())
}

/// Makes checkpoints until no segment is sealed.
fn checkpoint_all<L: Run, D: Disk, R: Wait>(
    rt: &R,
    engine: &Engine<L, D, OpenGate>,
) -> Result<(), Refusal> {
    for _ in 0..MAX_PAIRS {
        match engine.checkpoint(rt) {
            Ok(_) => {}
            Err(Refusal::NothingToDo) => break,
            Err(refusal) => return Err(refusal),
        }
    }
    Ok(())
}

/// Makes one pair of those from a place on.
fn merge_all<L: Run, D: Disk, R: Wait>(
    rt: &R,
    engine: &Engine<L, D, OpenGate>,
    place: usize,
) -> Result<(), Refusal> {
    for _ in 0..MAX_PAIRS {
        match engine.merge(rt, place) {
            Ok(_) => {}
            Err(Refusal::NothingToDo) => break,
            Err(refusal) => return Err(refusal),
        }
    }
    Ok(())
}
