//! A sealed segment that is read in slices, of which a checkpoint is made.
use crate::beside::TWO_PAIRS;
use crate::bodies::Body::Write;
use crate::disks::are_same;
use crate::reply::Reply::{self, Done, Installed, Marked, Refused, Written};
use crate::step::Step::{
    self, Append, CheckpointBegin, CheckpointData, CheckpointDelta, CheckpointForget,
    CheckpointRead, CheckpointReadSlice, InstallBody, InstallClose, InstallOpen, MergeBegin,
    MergeData, MergeDelta, MergeRead, MergeReadSlice, Rotate,
};
use crate::stores::{follow, following, names, spans};
use mvo_disk::MemDisk;
use mvo_store::{Generation, Progress};
use mvo_types::{Refusal, Stamp};
use std::alloc::Global;
use std::process::Abort;
use std::test::Fail;
use std::thread::Threads;

const NOT_YET: [(Step, Reply); 3] = [
    (CheckpointBegin, Refused(Refusal::NothingToDo)),
    (CheckpointReadSlice, Refused(Refusal::NothingToDo)),
    (CheckpointForget, Refused(Refusal::NothingToDo)),
];

// Behind the two pairs a segment that ends the fourth record of the first.
const ONE_SEALED: [(Step, Reply); 2] = [
    (Append(Write(7, 4, None)), Marked(Stamp(14))),
    (Rotate, Installed(Generation(5))),
];

const AT_ONCE: [(Step, Reply); 4] = [
    (Append(Write(8, 6, Some(0x61))), Marked(Stamp(16))),
    (MergeRead(0), Done),
    (CheckpointRead, Done),
    (Append(Write(9, 7, Some(0x61))), Marked(Stamp(18))),
];

// A slice of the checkpoint each: the frames, the turn to the pair, the writes, the numbers of each
// of the two pairs, the end, and the plan.
const IN_SLICES: [(Step, Reply); 26] = [
    (CheckpointBegin, Done),
    (CheckpointReadSlice, Written(Progress::More)),
    (CheckpointForget, Done),
    (CheckpointReadSlice, Refused(Refusal::NothingToDo)),
    (MergeBegin(0), Done),
    (CheckpointBegin, Done),
    (CheckpointBegin, Refused(Refusal::Busy)),
    (CheckpointRead, Refused(Refusal::Busy)),
    (Rotate, Refused(Refusal::Busy)),
    (CheckpointReadSlice, Written(Progress::More)),
    (Append(Write(8, 6, Some(0x61))), Marked(Stamp(16))),
    (MergeReadSlice, Written(Progress::More)),
    (CheckpointReadSlice, Written(Progress::More)),
    (MergeReadSlice, Written(Progress::More)),
    (CheckpointReadSlice, Written(Progress::More)),
    (MergeReadSlice, Written(Progress::More)),
    (CheckpointReadSlice, Written(Progress::More)),
    (MergeReadSlice, Written(Progress::Ready)),
    (MergeDelta, Refused(Refusal::NothingToDo)),
    (CheckpointReadSlice, Written(Progress::More)),
    (CheckpointReadSlice, Written(Progress::More)),
    (CheckpointData, Refused(Refusal::NothingToDo)),
    (CheckpointReadSlice, Written(Progress::Ready)),
    (CheckpointReadSlice, Refused(Refusal::NothingToDo)),
    (CheckpointForget, Refused(Refusal::NothingToDo)),
    (Append(Write(9, 7, Some(0x61))), Marked(Stamp(18))),
];

const THEN_WRITTEN: [(Step, Reply); 12] = [
    (MergeData, Done),
    (MergeDelta, Refused(Refusal::Busy)),
    (CheckpointData, Done),
    (CheckpointDelta, Written(Progress::More)),
    (CheckpointDelta, Written(Progress::Ready)),
    (InstallClose, Done),
    (InstallBody, Done),
    (InstallOpen, Installed(Generation(6))),
    (MergeDelta, Done),
    (InstallClose, Done),
    (InstallBody, Done),
    (InstallOpen, Installed(Generation(7))),
];

// The disk of a store whose checkpoint and merge were read by these steps.
fn read_by(
    rt: &(impl Abort + Threads + Sync),
    alloc: Global,
    steps: &[(Step, Reply)],
) -> Result<MemDisk, Fail> {
    let mut store = following(rt, alloc, &NOT_YET)?;
    follow(rt, alloc, &mut store, &TWO_PAIRS)?;
    follow(rt, alloc, &mut store, &ONE_SEALED)?;
    follow(rt, alloc, &mut store, steps)?;
    follow(rt, alloc, &mut store, &THEN_WRITTEN)?;
    spans(rt, &store, &[(0, 12), (12, 14)]);
    names(rt, &store, &[3]);
    Ok(store.into_disk())
}

#[test]
fn a_segment_is_read_by_slices(rt: HostRuntime) -> Result<(), Fail> {
    let alloc = rt.alloc();
    let slices = read_by(&rt, alloc, &IN_SLICES)?;
    let at_once = read_by(&rt, alloc, &AT_ONCE)?;
    are_same(&rt, &slices, &at_once);
    Ok(())
}
