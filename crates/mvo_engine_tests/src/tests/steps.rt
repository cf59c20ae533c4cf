//! The steps of a test, and what each is to be answered.

use super::asking::Ask;
use super::lasting::forget;
use super::told::{Told, called, done, installed, opened, said, sliced, stamped};
use crate::equal::same_at;
use mvo_core::Collection;
use mvo_disk::Disk;
use mvo_engine::{CoreGuard, Engine, Gate, Run, Session, Slice, StoreGuard};
use mvo_store::StoreCall;
use mvo_types::{Refusal, Stamp};
use std::alloc::Global;
use std::process::Abort;
use std::sync::Wait;

/// A step, and what it is to be answered.
pub type Line = (Step, Told);

#[derive(Clone, Copy)]
pub enum Step {
    /// One session is asked.
    One(Ask),
    /// The other session is.
    Other(Ask),
    Flush,
    /// All garbage is taken out of memory.
    Collect,
    /// Those that began before the stamp are rolled back: how many these are.
    RollBackOlder(u64),
    Rotate,
    Checkpoint,
    /// The pair at this place and the one behind it become one.
    Merge(usize),
    /// One session lets go of the receipts that it may: how many these are.
    LetGo,
    /// How many receipts it has.
    Receipts,
    /// Under the lock of the core.
    Core(CoreStep),
    /// Under the lock of the store.
    Store(StoreStep),
}

#[derive(Clone, Copy)]
pub enum CoreStep {
    Clock,
    /// Where the tale starts.
    Start,
    /// The tale is trimmed up to the stamp.
    Trim(u64),
    /// It is trimmed up to the clock.
    TrimAll,
    /// Whether a version is taken out of memory.
    CollectOne,
    /// Whether a commit is stored at the place.
    IsStored(usize),
}

#[derive(Clone, Copy)]
pub enum StoreStep {
    Take,
    FlushOne,
    Call(StoreCall),
    /// The next slice of a job.
    SliceOf(Slice),
    /// The last step of an install: the generation of the manifest.
    OpenInstalled,
    /// The generation of the installed manifest, and how many pairs and segments it names.
    Installed,
    Pairs,
    Segments,
}

impl Step {
    fn of<L: Run, D: Disk, G: Gate + Drop, R: Wait>(
        self,
        rt: &R,
        alloc: Global,
        engine: &Engine<L, D, G>,
        one: &mut Session<'_, L, D, G>,
        other: &mut Session<'_, L, D, G>,
    ) -> Told {
        match self {
            Step::One(ask) => ask.of(rt, alloc, one),
            Step::Other(ask) => ask.of(rt, alloc, other),
            Step::Flush => stamped(engine.flush(rt)),
            Step::Collect => Told::Number(engine.collect(rt)),
            Step::RollBackOlder(stamp) => Told::Number(engine.roll_back_older(rt, Stamp(stamp))),
            Step::Rotate => installed(engine.rotate(rt)),
            Step::Checkpoint => installed(engine.checkpoint(rt)),
            Step::Merge(place) => installed(engine.merge(rt, place)),
            Step::LetGo => Told::Number(forget(rt, engine, one) as u64),
            Step::Receipts => Told::Number(one.receipts().len() as u64),
            Step::Core(step) => step.of(&mut engine.lock_core(rt)),
            Step::Store(step) => step.of(&mut engine.lock_store(rt)),
        }
    }
}

impl CoreStep {
    fn of<L: Run>(self, core: &mut CoreGuard<'_, L>) -> Told {
        match self {
            CoreStep::Clock => Told::Number(core.clock().0),
            CoreStep::Start => Told::Number(core.tale_start().0),
            CoreStep::Trim(upto) => done(core.trim_tale(Stamp(upto))),
            CoreStep::TrimAll => trim_all(core),
            CoreStep::CollectOne => Told::Is(core.collect_one() == Collection::Collected),
            CoreStep::IsStored(place) => Told::Is(core.tale().get(place).is_some()),
        }
    }
}

// So it is where no transaction is unfinished.
fn trim_all<L: Run>(core: &mut CoreGuard<'_, L>) -> Told {
    let clock = core.clock();
    done(core.trim_tale(clock))
}

impl StoreStep {
    fn of<L: Run, D: Disk>(self, store: &mut StoreGuard<'_, L, D>) -> Told {
        match self {
            StoreStep::Take => done(store.take()),
            StoreStep::FlushOne => said(store.flush_one()),
            StoreStep::Call(call) => called(store.call(call)),
            StoreStep::SliceOf(slice) => sliced(store.slice(slice)),
            StoreStep::OpenInstalled => opened(store.open_installed()),
            StoreStep::Installed => Told::Number(store.manifest().generation()),
            StoreStep::Pairs => Told::Number(store.manifest().pairs().len() as u64),
            StoreStep::Segments => Told::Number(store.manifest().segments().len() as u64),
        }
    }
}

/// Each step is answered so, of these two sessions.
pub fn follow<L: Run, D: Disk, G: Gate + Drop, R: Abort + Wait>(
    rt: &R,
    alloc: Global,
    engine: &Engine<L, D, G>,
    one: &mut Session<'_, L, D, G>,
    other: &mut Session<'_, L, D, G>,
    lines: &[Line],
) {
    for (at, (step, told)) in lines.iter().enumerate() {
        same_at(rt, at, &step.of(rt, alloc, engine, one, other), told);
    }
}

/// Each step is answered so, of the session and a new one.
pub fn follow_beside<L: Run, D: Disk, G: Gate + Drop, R: Abort + Wait>(
    rt: &R,
    alloc: Global,
    engine: &Engine<L, D, G>,
    one: &mut Session<'_, L, D, G>,
    lines: &[Line],
) -> Result<(), Refusal> {
    let mut other = engine.session(rt)?;
    follow(rt, alloc, engine, one, &mut other, lines);
    Ok(())
}

/// Each step is answered so, of two new sessions.
pub fn follow_new<L: Run, D: Disk, G: Gate + Drop, R: Abort + Wait>(
    rt: &R,
    alloc: Global,
    engine: &Engine<L, D, G>,
    lines: &[Line],
) -> Result<(), Refusal> {
    let mut one = engine.session(rt)?;
    follow_beside(rt, alloc, engine, &mut one, lines)
}
