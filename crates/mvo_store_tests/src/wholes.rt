//! Whole jobs, over a caller that makes so many of their calls.
use crate::bodies::Body::{OnePut, Updated};
use crate::caller::{Caller, NO_MORE};
use crate::calls::{BODY, CLOSE, DATA, DELTA, MERGE_DATA, MERGE_DELTA, OPEN};
use crate::equal::{holds, same, same_at};
use crate::reply::Reply::{self, Installed, Marked};
use crate::step::Step::{self, Append, Checkpoint, Rotate};
use crate::stores::following;
use crate::told::{Told, told_of};
use mvo_store::StoreCall::{CheckpointRead, MergeRead, RotateWrite};
use mvo_store::{Done, Generation, StoreCall, run_checkpoint, run_merge, run_rotation};
use mvo_types::{Refusal, Stamp};
use std::alloc::Global;
use std::process::Abort;
use std::test::Fail;
use std::thread::Threads;

#[derive(Clone, Copy)]
enum Kind {
    Rotation,
    Checkpoint,
    Merge(usize),
}

impl Kind {
    fn run(self, caller: &mut Caller) -> Result<Done, Refusal> {
        match self {
            Kind::Rotation => run_rotation(caller),
            Kind::Checkpoint => run_checkpoint(caller),
            Kind::Merge(place) => run_merge(caller, place),
        }
    }
}

/// A whole job of a store.
#[derive(Clone, Copy)]
struct Whole {
    /// The steps up to it.
    before: &'static [(Step, Reply)],
    kind: Kind,
    /// All its calls, in their order.
    calls: &'static [StoreCall],
    /// The generation that it installs.
    generation: Generation,
}

/// What the job is told of whose calls so many are made, and which asks for these.
fn is_told(
    rt: &(impl Abort + Threads + Sync),
    alloc: Global,
    whole: Whole,
    made: usize,
    calls: &[StoreCall],
) -> Result<Told, Fail> {
    let store = following(rt, alloc, whole.before)?;
    let mut caller = Caller::new(alloc, store, made);
    let answer = told_of(whole.kind.run(&mut caller));
    same_at(rt, made, &caller.calls(), &calls);
    Ok(answer)
}

/// The first of its calls that is refused is the last that it asks for.
fn stops_at(
    rt: &(impl Abort + Threads + Sync),
    alloc: Global,
    whole: Whole,
    made: usize,
) -> Result<(), Fail> {
    holds(rt, made < whole.calls.len());
    let answer = is_told(rt, alloc, whole, made, &whole.calls[..made + 1])?;
    same_at(rt, made, &answer, &Told::Refused(NO_MORE));
    Ok(())
}

/// All its calls are made in their order, and where one is refused no later one.
fn makes_its_calls(
    rt: &(impl Abort + Threads + Sync),
    alloc: Global,
    whole: Whole,
) -> Result<(), Fail> {
    let answer = is_told(rt, alloc, whole, whole.calls.len(), whole.calls)?;
    same(rt, &answer, &Told::Installed(whole.generation));
    for made in 0..whole.calls.len() {
        stops_at(rt, alloc, whole, made)?;
    }
    Ok(())
}

const ROTATION: Whole = Whole {
    before: &[(Append(OnePut), Marked(Stamp(2)))],
    kind: Kind::Rotation,
    calls: &[RotateWrite, CLOSE, BODY, OPEN],
    generation: Generation(1),
};

#[test]
fn a_rotation_is_run(rt: HostRuntime) -> Result<(), Fail> {
    makes_its_calls(&rt, rt.alloc(), ROTATION)
}

// The pair's own delta file is its last, behind that of the first pair.
const CHECKPOINT: Whole = Whole {
    before: &[
        (Append(OnePut), Marked(Stamp(2))),
        (Rotate, Installed(Generation(1))),
        (Checkpoint, Installed(Generation(2))),
        (Append(Updated), Marked(Stamp(4))),
        (Rotate, Installed(Generation(3))),
    ],
    kind: Kind::Checkpoint,
    calls: &[CheckpointRead, DATA, DELTA, DELTA, CLOSE, BODY, OPEN],
    generation: Generation(4),
};

#[test]
fn a_checkpoint_is_run(rt: HostRuntime) -> Result<(), Fail> {
    makes_its_calls(&rt, rt.alloc(), CHECKPOINT)
}

const MERGE: Whole = Whole {
    before: &[
        (Append(OnePut), Marked(Stamp(2))),
        (Rotate, Installed(Generation(1))),
        (Checkpoint, Installed(Generation(2))),
        (Append(Updated), Marked(Stamp(4))),
        (Rotate, Installed(Generation(3))),
        (Checkpoint, Installed(Generation(4))),
    ],
    kind: Kind::Merge(0),
    calls: &[MergeRead(0), MERGE_DATA, MERGE_DELTA, CLOSE, BODY, OPEN],
    generation: Generation(5),
};

#[test]
fn a_merge_is_run(rt: HostRuntime) -> Result<(), Fail> {
    makes_its_calls(&rt, rt.alloc(), MERGE)
}
