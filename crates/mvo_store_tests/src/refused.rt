//! What each call is answered beside the jobs that run.
use crate::beside::TWO_PAIRS;
use crate::bodies::Body::{Round, Write};
use crate::equal::{holds, same, same_at};
use crate::reply::Reply::{self, Installed, Marked};
use crate::step::Step::{
    self, Append, CheckpointData, CheckpointDelta, CheckpointRead, InstallBody, InstallClose,
    InstallOpen, MergeBegin, MergeData, MergeDelta, MergeRead, MergeReadSlice, Rotate, RotateWrite,
};
use crate::stores::{follow, following};
use mvo_disk::MemDisk;
use mvo_store::{Generation, Store};
use mvo_types::{Refusal, Stamp};
use std::alloc::Global;
use std::process::Abort;
use std::test::Fail;
use std::thread::Threads;

/// Behind two pairs a segment is sealed whose checkpoint ends a record, and the last one has a
/// group: a rotation, a checkpoint and a merge may begin.
const ALL_MAY_BEGIN: [(Step, Reply); 3] = [
    (Append(Write(7, 4, None)), Marked(Stamp(14))),
    (Rotate, Installed(Generation(5))),
    (Append(Round(8)), Marked(Stamp(16))),
];

/// What a call of a job is answered.
#[derive(Clone, Copy, Debug, PartialEq, Eq)]
enum Answer {
    Accepted,
    Busy,
    NothingToDo,
    Other,
}

const A: Answer = Answer::Accepted;

const B: Answer = Answer::Busy;

const N: Answer = Answer::NothingToDo;

const CALLS: [Step; 10] = [
    RotateWrite,
    CheckpointRead,
    MergeRead(0),
    CheckpointData,
    CheckpointDelta,
    MergeData,
    MergeDelta,
    InstallClose,
    InstallBody,
    InstallOpen,
];

const ROTATION: [Step; 3] = [RotateWrite, InstallClose, InstallBody];

const CHECKPOINT: [Step; 6] = [
    CheckpointRead,
    CheckpointData,
    CheckpointDelta,
    CheckpointDelta,
    InstallClose,
    InstallBody,
];

const MERGE: [Step; 5] = [
    MergeRead(0),
    MergeData,
    MergeDelta,
    InstallClose,
    InstallBody,
];

/// A merge whose first pair is read in slices.
const READ_IN_SLICES: [Step; 2] = [MergeBegin(0), MergeReadSlice];

/// How many steps of a rotation, of a checkpoint and of a merge are made, and what each call is
/// answered then.
type State = (usize, usize, usize, [Answer; 10]);

const ONE_JOB: [State; 14] = [
    (0, 0, 0, [A, A, A, N, N, N, N, N, N, N]),
    (1, 0, 0, [B, B, B, N, N, N, N, A, N, N]),
    (2, 0, 0, [B, B, B, N, N, N, N, N, A, N]),
    (3, 0, 0, [B, B, B, N, N, N, N, N, N, A]),
    (0, 1, 0, [B, B, A, A, N, N, N, N, N, N]),
    (0, 2, 0, [B, B, A, N, A, N, N, N, N, N]),
    (0, 4, 0, [B, B, A, N, N, N, N, A, N, N]),
    (0, 5, 0, [B, B, A, N, N, N, N, N, A, N]),
    (0, 6, 0, [B, B, A, N, N, N, N, N, N, A]),
    (0, 0, 1, [B, A, B, N, N, A, N, N, N, N]),
    (0, 0, 2, [B, A, B, N, N, N, A, N, N, N]),
    (0, 0, 3, [B, B, B, N, N, N, N, A, N, N]),
    (0, 0, 4, [B, B, B, N, N, N, N, N, A, N]),
    (0, 0, 5, [B, B, B, N, N, N, N, N, N, A]),
];

const BOTH: [State; 10] = [
    (0, 1, 1, [B, B, B, A, N, A, N, N, N, N]),
    (0, 2, 1, [B, B, B, N, A, A, N, N, N, N]),
    (0, 4, 1, [B, B, B, N, N, A, N, A, N, N]),
    (0, 5, 1, [B, B, B, N, N, A, N, N, A, N]),
    (0, 6, 1, [B, B, B, N, N, A, N, N, N, A]),
    (0, 1, 2, [B, B, B, A, N, N, B, N, N, N]),
    (0, 2, 2, [B, B, B, N, A, N, B, N, N, N]),
    (0, 4, 2, [B, B, B, N, N, N, B, A, N, N]),
    (0, 5, 2, [B, B, B, N, N, N, B, N, A, N]),
    (0, 6, 2, [B, B, B, N, N, N, B, N, N, A]),
];

const WHILE_PAIRS_ARE_READ: [State; 7] = [
    (0, 0, 1, [B, A, B, N, N, N, N, N, N, N]),
    (0, 0, 2, [B, A, B, N, N, N, N, N, N, N]),
    (0, 1, 1, [B, B, B, A, N, N, N, N, N, N]),
    (0, 2, 2, [B, B, B, N, A, N, N, N, N, N]),
    (0, 4, 2, [B, B, B, N, N, N, N, A, N, N]),
    (0, 5, 2, [B, B, B, N, N, N, N, N, A, N]),
    (0, 6, 1, [B, B, B, N, N, N, N, N, N, A]),
];

fn answered(reply: Reply) -> Answer {
    match reply {
        Reply::Refused(Refusal::Busy) => Answer::Busy,
        Reply::Refused(Refusal::NothingToDo) => Answer::NothingToDo,
        Reply::Refused(_) => Answer::Other,
        _ => Answer::Accepted,
    }
}

/// Makes the steps, each of which is accepted.
fn make(
    rt: &impl Abort,
    alloc: Global,
    store: &mut Store<MemDisk>,
    steps: &[Step],
) -> Result<(), Fail> {
    for step in steps {
        let answer = answered(step.of(store, alloc)?);
        same(rt, &answer, &Answer::Accepted);
    }
    Ok(())
}

/// A store in the state, whose merge has these steps. It begins beside a checkpoint that is at its
/// stage.
fn store_in(
    rt: &(impl Abort + Threads + Sync),
    alloc: Global,
    merge: &[Step],
    state: &State,
) -> Result<Store<MemDisk>, Fail> {
    holds(rt, state.0 <= 3 && state.1 <= 6 && state.2 <= merge.len());
    let mut store = following(rt, alloc, &TWO_PAIRS)?;
    follow(rt, alloc, &mut store, &ALL_MAY_BEGIN)?;
    make(rt, alloc, &mut store, &ROTATION[..state.0])?;
    make(rt, alloc, &mut store, &CHECKPOINT[..state.1])?;
    make(rt, alloc, &mut store, &merge[..state.2])?;
    Ok(store)
}

/// In each of the states each call is answered so.
fn are_answered(
    rt: &(impl Abort + Threads + Sync),
    alloc: Global,
    merge: &[Step],
    states: &[State],
) -> Result<(), Fail> {
    for (at, state) in states.iter().enumerate() {
        for (call, wanted) in CALLS.iter().zip(&state.3) {
            let mut store = store_in(rt, alloc, merge, state)?;
            let answer = answered(call.of(&mut store, alloc)?);
            same_at(&rt, at, &answer, wanted);
        }
    }
    Ok(())
}

#[test]
fn one_job_keeps_others_out(rt: HostRuntime) -> Result<(), Fail> {
    are_answered(&rt, rt.alloc(), &MERGE, &ONE_JOB)
}

#[test]
fn two_jobs_keep_others_out(rt: HostRuntime) -> Result<(), Fail> {
    are_answered(&rt, rt.alloc(), &MERGE, &BOTH)
}

#[test]
fn pairs_that_are_read_keep_others_out(rt: HostRuntime) -> Result<(), Fail> {
    are_answered(&rt, rt.alloc(), &READ_IN_SLICES, &WHILE_PAIRS_ARE_READ)
}
