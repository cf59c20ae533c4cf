//! What is on the disk of an engine that was shut down.
ghost use Rattle.mvo_disk.specs.Disk.{IsHonest};
ghost use Rattle.mvo_engine.specs.Opened.{IsNamedBy};
ghost use Rattle.mvo_engine.specs.Opening.{WasFormatted};
ghost use Rattle.mvo_engine_tests.specs.Ends.{HasAll};

use super::rows::{change, put};
use super::through::FOUND;
use super::trial::{Trial, tried};
use super::{SEED, formatted};
use mvo_disk::Disk;
use mvo_engine::{Engine, Fresh, OpenGate, Run, SeenDurable, Session};
use mvo_types::Refusal;
use std::alloc::Global;
use std::marker::Brand;
use std::sync::Wait;
use std::test::*;
use std::thread::Threads;

/// Puts the row, waits until that is on the disk, and changes it without waiting. What two sessions
/// have seen to be durable then.
fn work<L: Run, D: Disk, R: Wait>(
    rt: &R,
    alloc: Global,
    engine: &Engine<L, D, OpenGate>,
) -> Result<Vec<SeenDurable<L>>, Refusal> {
    let mut session = engine.session(rt)?;
    let mut other = engine.session(rt)?;
    match wait_and_change(rt, alloc, engine, &mut session) {
        Ok(()) => seen_by(alloc, &mut session, &mut other),
        Err(refusal) => Err(refusal),
    }
}

fn wait_and_change<L: Run, D: Disk, R: Wait>(
    rt: &R,
    alloc: Global,
    engine: &Engine<L, D, OpenGate>,
    session: &mut Session<'_, L, D, OpenGate>,
) -> Result<(), Refusal> {
    let end = put(rt, alloc, session, 0x61)?;
    engine.flush(rt)?;
    session.wait_durable(rt, end)?;
    change(rt, alloc, session, 0x62)?;
    Ok(())
}

fn seen_by<L: Run, D: Disk>(
    alloc: Global,
    session: &mut Session<'_, L, D, OpenGate>,
    other: &mut Session<'_, L, D, OpenGate>,
) -> Result<Vec<SeenDurable<L>>, Refusal> {
    let mut seen = Vec::new(alloc);
    seen.push(session.seen())?;
    seen.push(other.seen())?;
    Ok(seen)
}

/// The disk, which has at least what each of these was told.
fn ended<L: Run, D: Disk + Drop>(engine: Engine<L, D, OpenGate>, seen: Vec<SeenDurable<L>>) -> D
    ensures { IsHonest (D.moment result) → WasFormatted L.opening →
        HasAll L.opening seen.items (D.content result) }
{
    engine.into_disk(seen)
}

/// An engine over what is on the disk.
fn ending<D: Disk + Drop + Send, R: Threads + Wait + Sync>(
    rt: &R,
    alloc: Global,
    disk: D,
) -> Result<D, Refusal> {
    match Fresh::open(rt, alloc, SEED, disk) {
        Ok(fresh) => run_ending::<Brand, D, R>(rt, alloc, fresh),
        Err((refusal, _)) => Err(refusal),
    }
}

fn run_ending<L: Run + Send + Sync, D: Disk + Drop + Send, R: Threads + Wait + Sync>(
    rt: &R,
    alloc: Global,
    fresh: Fresh<D>,
) -> Result<D, Refusal>
    requires { IsNamedBy D.Disk L.opening L.marks L.ring L.name L.parts fresh }
{
    let engine = Engine::<L, D, OpenGate>::new(fresh, OpenGate);
    let seen = work(rt, alloc, &engine)?;
    Ok(ended(engine, seen))
}

#[test]
fn what_was_told_durable_is_on_the_disk(rt: HostRuntime) -> Result<(), Fail> {
    let alloc = rt.alloc();
    let disk = ending(&rt, alloc, formatted(alloc)?)?;
    tried(&rt, alloc, disk, OpenGate, Trial::Steps(&FOUND))?;
    Ok(())
}
