//! Merges of neighbouring pairs.
use crate::bodies::Body::{OnePut, Round, Updated, Write};
use crate::disks::{begins, hold, stopped};
use crate::failing::Job;
use crate::reply::Reply::{self, Done, Emptied, Installed, Marked, Refused};
use crate::step::Step::{
    self, Append, Checkpoint, CheckpointData, CheckpointDelta, CheckpointRead, InstallBody,
    InstallClose, InstallOpen, Merge, MergeBegin, MergeData, MergeDelta, MergeInSlices, MergeRead,
    Reclaim, Rotate, RotateWrite,
};
use crate::stores::{follow, following, gives, has_row, rows_on, spans, store_on};
use crate::vectors::{DELTA, MERGED, MERGED_DATA, SECOND_ENDED};
use mvo_disk::MemDisk;
use mvo_store::{Generation, Reclaimed, Store};
use mvo_types::{Refusal, Stamp};
use std::alloc::Global;
use std::process::Abort;
use std::test::Fail;
use std::thread::Threads;

// The first pair's only record is ended by the second's.
const TWO_PAIRS: [(Step, Reply); 6] = [
    (Append(OnePut), Marked(Stamp(2))),
    (Rotate, Installed(Generation(1))),
    (Checkpoint, Installed(Generation(2))),
    (Append(Updated), Marked(Stamp(4))),
    (Rotate, Installed(Generation(3))),
    (Checkpoint, Installed(Generation(4))),
];

const TO_ONE: [(Step, Reply); 6] = [
    (MergeRead(0), Done),
    (MergeData, Done),
    (MergeDelta, Done),
    (InstallClose, Done),
    (InstallBody, Done),
    (InstallOpen, Installed(Generation(5))),
];

const FOUR_ARE_EMPTIED: [(Step, Reply); 5] = [
    (Reclaim, Emptied(Reclaimed::More)),
    (Reclaim, Emptied(Reclaimed::More)),
    (Reclaim, Emptied(Reclaimed::More)),
    (Reclaim, Emptied(Reclaimed::More)),
    (Reclaim, Emptied(Reclaimed::Done)),
];

// Two pairs become one, and their files are emptied.
fn becomes_one_pair(
    rt: &impl Abort,
    alloc: Global,
    store: &mut Store<MemDisk>,
) -> Result<(), Fail> {
    follow(rt, alloc, store, &TO_ONE)?;
    spans(rt, store, &[(0, 4)]);
    follow(rt, alloc, store, &FOUR_ARE_EMPTIED)
}

// A disk whose two pairs became one.
fn merged(rt: &(impl Abort + Threads + Sync), alloc: Global) -> Result<MemDisk, Fail> {
    let mut store = following(rt, alloc, &TWO_PAIRS)?;
    becomes_one_pair(rt, alloc, &mut store)?;
    Ok(store.into_disk())
}

// An older, longer body of the slot may have left bytes behind this one.
#[test]
fn a_merge_is_installed(rt: HostRuntime) -> Result<(), Fail> {
    let disk = merged(&rt, rt.alloc())?;
    begins(&rt, &disk, 1, &MERGED);
    hold(&rt, &disk, &[(3, &MERGED_DATA), (8, &DELTA)]);
    hold(&rt, &disk, &[(4, &[]), (5, &[]), (6, &[]), (7, &[])]);
    has_row(&rt, &rows_on(&rt, rt.alloc(), disk, 4)?, b"b")
}

const NO_PAIRS: [(Step, Reply); 3] = [
    (MergeRead(0), Refused(Refusal::NothingToDo)),
    (MergeData, Refused(Refusal::NothingToDo)),
    (MergeDelta, Refused(Refusal::NothingToDo)),
];

const NO_PAIR_BEHIND: [(Step, Reply); 3] = [
    (MergeRead(1), Refused(Refusal::NothingToDo)),
    (MergeRead(2), Refused(Refusal::NothingToDo)),
    (MergeRead(usize::MAX), Refused(Refusal::NothingToDo)),
];

#[test]
fn both_pairs_must_be_there(rt: HostRuntime) -> Result<(), Fail> {
    let alloc = rt.alloc();
    let _ = following(&rt, alloc, &NO_PAIRS)?;
    let mut store = following(&rt, alloc, &TWO_PAIRS)?;
    follow(&rt, alloc, &mut store, &NO_PAIR_BEHIND)
}

const ONE_SEALED: [(Step, Reply); 2] = [
    (Append(Round(3)), Marked(Stamp(6))),
    (Rotate, Installed(Generation(5))),
];

const ONE_MERGE: [(Step, Reply); 17] = [
    (MergeRead(0), Done),
    (MergeRead(0), Refused(Refusal::Busy)),
    (RotateWrite, Refused(Refusal::Busy)),
    (MergeDelta, Refused(Refusal::NothingToDo)),
    (CheckpointData, Refused(Refusal::NothingToDo)),
    (Append(Round(4)), Marked(Stamp(8))),
    (MergeData, Done),
    (MergeData, Refused(Refusal::NothingToDo)),
    (CheckpointDelta, Refused(Refusal::NothingToDo)),
    (InstallClose, Refused(Refusal::NothingToDo)),
    (MergeDelta, Done),
    (MergeDelta, Refused(Refusal::NothingToDo)),
    (CheckpointRead, Refused(Refusal::Busy)),
    (InstallClose, Done),
    (InstallBody, Done),
    (Append(Write(5, 1, Some(0x61))), Marked(Stamp(10))),
    (InstallOpen, Installed(Generation(6))),
];

// One merge runs at a time, and its steps have an order. Appends go on beside it, and no checkpoint
// begins once its files are written.
#[test]
fn a_merge_has_its_order(rt: HostRuntime) -> Result<(), Fail> {
    let alloc = rt.alloc();
    let mut store = following(&rt, alloc, &TWO_PAIRS)?;
    follow(&rt, alloc, &mut store, &ONE_SEALED)?;
    follow(&rt, alloc, &mut store, &ONE_MERGE)?;
    let rows = [(1, Some(1)), (3, Some(1)), (4, Some(1)), (5, Some(1))];
    gives(&rt, alloc, store.into_disk(), 10, &rows)
}

// ---- three pairs

const THREE_PAIRS: [(Step, Reply); 9] = [
    (Append(Round(1)), Marked(Stamp(2))),
    (Rotate, Installed(Generation(1))),
    (Checkpoint, Installed(Generation(2))),
    (Append(Round(2)), Marked(Stamp(4))),
    (Rotate, Installed(Generation(3))),
    (Checkpoint, Installed(Generation(4))),
    (Append(Round(3)), Marked(Stamp(6))),
    (Rotate, Installed(Generation(5))),
    (Checkpoint, Installed(Generation(6))),
];

// A disk with the records of three rounds in three pairs.
fn three_pairs(rt: &(impl Abort + Threads + Sync), alloc: Global) -> Result<MemDisk, Fail> {
    stopped(following(rt, alloc, &THREE_PAIRS)?.into_disk())
}

const KEY_2_AGAIN: [(Step, Reply); 3] = [
    (Append(Write(4, 2, Some(0x62))), Marked(Stamp(8))),
    (Rotate, Installed(Generation(9))),
    (Checkpoint, Installed(Generation(10))),
];

// Three pairs become one in files 6 and 7. Then a checkpoint of a group that wrote key 2 again.
fn merges_all(rt: &impl Abort, alloc: Global, store: &mut Store<MemDisk>) -> Result<(), Fail> {
    follow(rt, alloc, store, &[(Merge(1), Installed(Generation(7)))])?;
    spans(rt, store, &[(0, 2), (2, 6)]);
    follow(rt, alloc, store, &[(Merge(0), Installed(Generation(8)))])?;
    spans(rt, store, &[(0, 6)]);
    follow(rt, alloc, store, &KEY_2_AGAIN)
}

// The disk after these merges and that checkpoint.
fn all_merged(rt: &(impl Abort + Threads + Sync), alloc: Global) -> Result<MemDisk, Fail> {
    let mut store = store_on(rt, alloc, three_pairs(rt, alloc)?)?;
    merges_all(rt, alloc, &mut store)?;
    Ok(store.into_disk())
}

// A checkpoint ends the second record of a merged pair.
#[test]
fn merged_records_have_their_places(rt: HostRuntime) -> Result<(), Fail> {
    let alloc = rt.alloc();
    let disk = all_merged(&rt, alloc)?;
    hold(&rt, &disk, &[(7, &SECOND_ENDED)]);
    let rows = [(1, Some(1)), (2, Some(1)), (3, Some(1))];
    gives(&rt, alloc, disk, 8, &rows)
}

// ---- stops and faults

const OF_THREE_PAIRS: Job = Job {
    before: &THREE_PAIRS,
    whole: Merge(1),
    generation: Generation(7),
    first: MergeRead(0),
    next: Merge(0),
};

#[test]
fn a_merge_may_fail_at_each_call(rt: HostRuntime) -> Result<(), Fail> {
    OF_THREE_PAIRS.may_fail_at_each_call(&rt, rt.alloc())
}

#[test]
fn a_merge_may_stop_within_a_write(rt: HostRuntime) -> Result<(), Fail> {
    OF_THREE_PAIRS.may_stop_within_a_write(&rt, rt.alloc(), 30)
}

const READ_IN_SLICES: Job = Job {
    before: &THREE_PAIRS,
    whole: MergeInSlices(1),
    generation: Generation(7),
    first: MergeBegin(0),
    next: MergeInSlices(0),
};

#[test]
fn slices_of_two_pairs_may_fail_at_each_call(rt: HostRuntime) -> Result<(), Fail> {
    READ_IN_SLICES.may_fail_at_each_call(&rt, rt.alloc())
}
