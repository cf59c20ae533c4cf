//! Checkpoints of the oldest sealed segment.
use crate::bodies::Body::{Deleted, OnePut, Round, Updated};
use crate::disks::{are_long, hold};
use crate::failing::Job;
use crate::reply::Reply::{self, Done, Emptied, Installed, Marked, Refused, Written};
use crate::step::Step::{
    self, Append, Checkpoint, CheckpointData, CheckpointDelta, CheckpointRead, InstallBody,
    InstallClose, InstallOpen, Reclaim, Rotate, RotateWrite,
};
use crate::stores::{follow, following, gives, has_row, names, rows_on, store_on};
use crate::vectors::{CHECKPOINTED, DATA, DELTA, ENDED};
use mvo_disk::MemDisk;
use mvo_store::{Generation, Progress, Reclaimed, Store};
use mvo_types::{Refusal, Stamp};
use std::alloc::Global;
use std::process::Abort;
use std::test::Fail;
use std::thread::Threads;

// The log has the group of one put in a sealed segment then.
const SEALED: [(Step, Reply); 2] = [
    (Append(OnePut), Marked(Stamp(2))),
    (Rotate, Installed(Generation(1))),
];

const FIRST_CHECKPOINT: [(Step, Reply); 6] = [
    (CheckpointRead, Done),
    (CheckpointData, Done),
    (CheckpointDelta, Written(Progress::Ready)),
    (InstallClose, Done),
    (InstallBody, Done),
    (InstallOpen, Installed(Generation(2))),
];

const ONE_IS_EMPTIED: [(Step, Reply); 2] = [
    (Reclaim, Emptied(Reclaimed::More)),
    (Reclaim, Emptied(Reclaimed::Done)),
];

// The oldest segment becomes a pair.
fn makes_a_pair(rt: &impl Abort, alloc: Global, store: &mut Store<MemDisk>) -> Result<(), Fail> {
    follow(rt, alloc, store, &FIRST_CHECKPOINT)?;
    names(rt, store, &[3]);
    follow(rt, alloc, store, &ONE_IS_EMPTIED)
}

// A disk whose oldest segment became a pair.
fn checkpointed(rt: &(impl Abort + Threads + Sync), alloc: Global) -> Result<MemDisk, Fail> {
    let mut store = following(rt, alloc, &SEALED)?;
    makes_a_pair(rt, alloc, &mut store)?;
    Ok(store.into_disk())
}

#[test]
fn a_checkpoint_is_installed(rt: HostRuntime) -> Result<(), Fail> {
    let disk = checkpointed(&rt, rt.alloc())?;
    hold(
        &rt,
        &disk,
        &[(0, &CHECKPOINTED), (2, &[]), (4, &DATA), (5, &DELTA)],
    );
    gives(&rt, rt.alloc(), disk, 2, &[(5, Some(1))])
}

const ONE_PAIR: [(Step, Reply); 3] = [
    (Append(OnePut), Marked(Stamp(2))),
    (Rotate, Installed(Generation(1))),
    (Checkpoint, Installed(Generation(2))),
];

const UPDATE: [(Step, Reply); 2] = [
    (Append(Updated), Marked(Stamp(4))),
    (Rotate, Installed(Generation(3))),
];

const SECOND_CHECKPOINT: [(Step, Reply); 7] = [
    (CheckpointRead, Done),
    (CheckpointData, Done),
    (CheckpointDelta, Written(Progress::More)),
    (CheckpointDelta, Written(Progress::Ready)),
    (InstallClose, Done),
    (InstallBody, Done),
    (InstallOpen, Installed(Generation(4))),
];

// The segment of an update becomes the second pair.
fn makes_a_second_pair(
    rt: &impl Abort,
    alloc: Global,
    store: &mut Store<MemDisk>,
) -> Result<(), Fail> {
    follow(rt, alloc, store, &UPDATE)?;
    names(rt, store, &[3, 2]);
    follow(rt, alloc, store, &SECOND_CHECKPOINT)?;
    names(rt, store, &[2]);
    Ok(())
}

// The disk with two pairs.
fn with_second_pair(
    rt: &impl Abort,
    alloc: Global,
    mut store: Store<MemDisk>,
) -> Result<MemDisk, Fail> {
    makes_a_second_pair(rt, alloc, &mut store)?;
    Ok(store.into_disk())
}

// A second checkpoint ends the record of the first pair, whether the store was opened again between
// the two or not.
fn second_pair(
    rt: &(impl Abort + Threads + Sync),
    alloc: Global,
    store: Store<MemDisk>,
) -> Result<(), Fail> {
    let disk = with_second_pair(rt, alloc, store)?;
    hold(rt, &disk, &[(5, &ENDED), (7, &DELTA)]);
    has_row(rt, &rows_on(rt, alloc, disk, 4)?, b"b")
}

#[test]
fn a_second_checkpoint_ends_a_record(rt: HostRuntime) -> Result<(), Fail> {
    let alloc = rt.alloc();
    second_pair(&rt, alloc, following(&rt, alloc, &ONE_PAIR)?)
}

#[test]
fn so_it_does_after_an_opening(rt: HostRuntime) -> Result<(), Fail> {
    let alloc = rt.alloc();
    let disk = following(&rt, alloc, &ONE_PAIR)?.into_disk();
    second_pair(&rt, alloc, store_on(&rt, alloc, disk)?)
}

const PAIR_WITHOUT_RECORDS: [(Step, Reply); 8] = [
    (Append(Deleted), Marked(Stamp(4))),
    (Rotate, Installed(Generation(3))),
    (Checkpoint, Installed(Generation(4))),
    (Append(Round(3)), Marked(Stamp(6))),
    (Rotate, Installed(Generation(5))),
    (CheckpointRead, Done),
    (CheckpointData, Done),
    (CheckpointDelta, Written(Progress::Ready)),
];

// A deleted key's record is ended, and the new pair holds no record. The next checkpoint ends
// nothing more.
#[test]
fn a_pair_may_hold_no_records(rt: HostRuntime) -> Result<(), Fail> {
    let alloc = rt.alloc();
    let mut store = following(&rt, alloc, &ONE_PAIR)?;
    follow(&rt, alloc, &mut store, &PAIR_WITHOUT_RECORDS)?;
    let disk = store.into_disk();
    hold(&rt, &disk, &[(5, &ENDED), (7, &DELTA)]);
    are_long(&rt, &disk, &[(6, 8)]);
    gives(&rt, alloc, disk, 6, &[(5, None), (3, Some(1))])
}

const NONE_IS_SEALED: [(Step, Reply); 3] = [
    (CheckpointRead, Refused(Refusal::NothingToDo)),
    (CheckpointData, Refused(Refusal::NothingToDo)),
    (CheckpointDelta, Refused(Refusal::NothingToDo)),
];

#[test]
fn no_segment_is_sealed_at_first(rt: HostRuntime) -> Result<(), Fail> {
    let _ = following(&rt, rt.alloc(), &NONE_IS_SEALED)?;
    Ok(())
}

const ONE_JOB: [(Step, Reply); 15] = [
    (CheckpointRead, Done),
    (CheckpointRead, Refused(Refusal::Busy)),
    (RotateWrite, Refused(Refusal::Busy)),
    (CheckpointDelta, Refused(Refusal::NothingToDo)),
    (InstallClose, Refused(Refusal::NothingToDo)),
    (Append(Round(2)), Marked(Stamp(4))),
    (CheckpointData, Done),
    (Append(Round(3)), Marked(Stamp(6))),
    (CheckpointData, Refused(Refusal::NothingToDo)),
    (CheckpointDelta, Written(Progress::Ready)),
    (CheckpointDelta, Refused(Refusal::NothingToDo)),
    (InstallClose, Done),
    (InstallBody, Done),
    (InstallOpen, Installed(Generation(2))),
    (Step::Mark, Marked(Stamp(6))),
];

// One checkpoint runs at a time, and its steps have an order. Appends go on beside it.
#[test]
fn a_checkpoint_runs_alone(rt: HostRuntime) -> Result<(), Fail> {
    let alloc = rt.alloc();
    let mut store = following(&rt, alloc, &SEALED)?;
    follow(&rt, alloc, &mut store, &ONE_JOB)?;
    gives(
        &rt,
        alloc,
        store.into_disk(),
        6,
        &[(5, Some(1)), (3, Some(1))],
    )
}

// ---- stops and faults

// Three rounds in three sealed segments.
const THREE_ROUNDS: [(Step, Reply); 6] = [
    (Append(Round(1)), Marked(Stamp(2))),
    (Rotate, Installed(Generation(1))),
    (Append(Round(2)), Marked(Stamp(4))),
    (Rotate, Installed(Generation(2))),
    (Append(Round(3)), Marked(Stamp(6))),
    (Rotate, Installed(Generation(3))),
];

const OF_THREE_SEGMENTS: Job = Job {
    before: &THREE_ROUNDS,
    whole: Checkpoint,
    generation: Generation(4),
    first: CheckpointRead,
    next: Checkpoint,
};

#[test]
fn a_checkpoint_may_fail_at_each_call(rt: HostRuntime) -> Result<(), Fail> {
    OF_THREE_SEGMENTS.may_fail_at_each_call(&rt, rt.alloc())
}

#[test]
fn a_checkpoint_may_stop_within_a_write(rt: HostRuntime) -> Result<(), Fail> {
    OF_THREE_SEGMENTS.may_stop_within_a_write(&rt, rt.alloc(), 20)
}
