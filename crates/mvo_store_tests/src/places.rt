//! Places that are put in slices.
use crate::bodies::Body::{OnePut, Updated};
use crate::disks::hold;
use crate::reply::Reply::{self, Done, Installed, Marked, Refused, Written};
use crate::step::Step::{
    self, Append, Checkpoint, CheckpointData, CheckpointDelta, CheckpointRead, InstallBody,
    InstallClose, InstallOpen, MergeData, MergeDelta, MergeRead, PlaceSlice, Rotate,
};
use crate::stores::{follow, following, has_row, rows_on};
use crate::vectors::MERGED_DATA;
use mvo_store::{Generation, Progress};
use mvo_types::{Refusal, Stamp};
use std::test::Fail;

// The record of the second checkpoint ends that of the first, whose place was put by a slice.
const PUT_BY_A_SLICE: [(Step, Reply); 12] = [
    (PlaceSlice, Refused(Refusal::NothingToDo)),
    (Append(OnePut), Marked(Stamp(2))),
    (Rotate, Installed(Generation(1))),
    (CheckpointRead, Done),
    (PlaceSlice, Written(Progress::Ready)),
    (PlaceSlice, Refused(Refusal::NothingToDo)),
    (CheckpointData, Done),
    (CheckpointDelta, Written(Progress::Ready)),
    (InstallClose, Done),
    (InstallBody, Done),
    (InstallOpen, Installed(Generation(2))),
    (PlaceSlice, Refused(Refusal::NothingToDo)),
];

const ENDED_AGAIN: [(Step, Reply); 3] = [
    (Append(Updated), Marked(Stamp(4))),
    (Rotate, Installed(Generation(3))),
    (Checkpoint, Installed(Generation(4))),
];

// The merge's places are put between two steps of its install.
const MOVED_BY_A_SLICE: [(Step, Reply); 9] = [
    (MergeRead(0), Done),
    (PlaceSlice, Refused(Refusal::NothingToDo)),
    (MergeData, Done),
    (MergeDelta, Done),
    (InstallClose, Done),
    (PlaceSlice, Written(Progress::Ready)),
    (PlaceSlice, Refused(Refusal::NothingToDo)),
    (InstallBody, Done),
    (InstallOpen, Installed(Generation(5))),
];

#[test]
fn places_are_put_by_slices(rt: HostRuntime) -> Result<(), Fail> {
    let mut store = following(&rt, rt.alloc(), &PUT_BY_A_SLICE)?;
    follow(&rt, rt.alloc(), &mut store, &ENDED_AGAIN)?;
    follow(&rt, rt.alloc(), &mut store, &MOVED_BY_A_SLICE)?;
    let disk = store.into_disk();
    hold(&rt, &disk, &[(3, &MERGED_DATA)]);
    has_row(&rt, &rows_on(&rt, rt.alloc(), disk, 4)?, b"b")
}
