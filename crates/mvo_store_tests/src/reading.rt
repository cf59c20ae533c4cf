//! Two pairs that are read in slices, to be merged.
use crate::bodies::Body::{OnePut, Updated};
use crate::disks::hold;
use crate::reply::Reply::{self, Done, Installed, Marked, Refused, Written};
use crate::step::Step::{
    self, Append, Checkpoint, InstallBody, InstallClose, InstallOpen, MergeBegin, MergeData,
    MergeDelta, MergeForget, MergeRead, MergeReadSlice, Rotate,
};
use crate::stores::{follow, following, has_row, rows_on, spans};
use crate::vectors::MERGED_DATA;
use mvo_store::{Generation, Progress};
use mvo_types::{Refusal, Stamp};
use std::test::Fail;

// The first pair's only record is ended by the second's. A slice each: the first pair's record, the
// beginning of the second, its record, and the plan.
const READ_IN_FOUR: [(Step, Reply); 20] = [
    (MergeBegin(0), Refused(Refusal::NothingToDo)),
    (MergeReadSlice, Refused(Refusal::NothingToDo)),
    (Append(OnePut), Marked(Stamp(2))),
    (Rotate, Installed(Generation(1))),
    (Checkpoint, Installed(Generation(2))),
    (Append(Updated), Marked(Stamp(4))),
    (Rotate, Installed(Generation(3))),
    (Checkpoint, Installed(Generation(4))),
    (MergeForget, Refused(Refusal::NothingToDo)),
    (MergeBegin(0), Done),
    (MergeReadSlice, Written(Progress::More)),
    (MergeForget, Done),
    (MergeReadSlice, Refused(Refusal::NothingToDo)),
    (MergeBegin(0), Done),
    (MergeRead(0), Refused(Refusal::Busy)),
    (MergeData, Refused(Refusal::NothingToDo)),
    (MergeReadSlice, Written(Progress::More)),
    (MergeReadSlice, Written(Progress::More)),
    (MergeReadSlice, Written(Progress::More)),
    (MergeReadSlice, Written(Progress::Ready)),
];

const THEN_WRITTEN: [(Step, Reply); 6] = [
    (MergeReadSlice, Refused(Refusal::NothingToDo)),
    (MergeData, Done),
    (MergeDelta, Done),
    (InstallClose, Done),
    (InstallBody, Done),
    (InstallOpen, Installed(Generation(5))),
];

#[test]
fn pairs_are_read_by_slices(rt: HostRuntime) -> Result<(), Fail> {
    let mut store = following(&rt, rt.alloc(), &READ_IN_FOUR)?;
    follow(&rt, rt.alloc(), &mut store, &THEN_WRITTEN)?;
    spans(&rt, &store, &[(0, 4)]);
    let disk = store.into_disk();
    hold(&rt, &disk, &[(3, &MERGED_DATA)]);
    has_row(&rt, &rows_on(&rt, rt.alloc(), disk, 4)?, b"b")
}
