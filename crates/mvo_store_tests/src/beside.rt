//! A merge beside checkpoints.
use crate::bodies::Body::Write;
use crate::disks::hold;
use crate::reply::Reply::{self, Done, Installed, Marked, Refused, Written};
use crate::step::Step::{
    self, Append, Checkpoint, CheckpointData, CheckpointDelta, CheckpointRead, InstallBody,
    InstallClose, InstallOpen, MergeBegin, MergeData, MergeDelta, MergeRead, MergeReadSlice,
    Rotate,
};
use crate::stores::{follow, following, gives, names, spans};
use mvo_disk::MemDisk;
use mvo_store::{Generation, Progress};
use mvo_types::{Refusal, Stamp};
use std::alloc::Global;
use std::process::Abort;
use std::test::Fail;
use std::thread::Threads;

/// Keys 1 to 4 are put, and then key 9, and key 2 is deleted. The pairs of the files 5 and 6, and 2
/// and 7: the second record of the first is ended.
pub(crate) const TWO_PAIRS: [(Step, Reply); 10] = [
    (Append(Write(1, 1, Some(0x61))), Marked(Stamp(2))),
    (Append(Write(2, 2, Some(0x61))), Marked(Stamp(4))),
    (Append(Write(3, 3, Some(0x61))), Marked(Stamp(6))),
    (Append(Write(4, 4, Some(0x61))), Marked(Stamp(8))),
    (Rotate, Installed(Generation(1))),
    (Append(Write(5, 9, Some(0x61))), Marked(Stamp(10))),
    (Append(Write(6, 2, None)), Marked(Stamp(12))),
    (Rotate, Installed(Generation(2))),
    (Checkpoint, Installed(Generation(3))),
    (Checkpoint, Installed(Generation(4))),
];

// The merge takes the files 8 and 9, and the checkpoint 10 and 11. It ends the fourth record of the
// first pair, which is the third of those that the merge saw.
const ONE_CHECKPOINT: [(Step, Reply); 19] = [
    (Append(Write(7, 4, None)), Marked(Stamp(14))),
    (Rotate, Installed(Generation(5))),
    (MergeRead(0), Done),
    (MergeData, Done),
    (CheckpointRead, Done),
    (MergeDelta, Refused(Refusal::Busy)),
    (CheckpointData, Done),
    (CheckpointDelta, Written(Progress::More)),
    (CheckpointDelta, Written(Progress::Ready)),
    (InstallClose, Done),
    (MergeDelta, Refused(Refusal::Busy)),
    (InstallBody, Done),
    (InstallOpen, Installed(Generation(6))),
    (MergeDelta, Done),
    (CheckpointRead, Refused(Refusal::Busy)),
    (InstallClose, Done),
    (InstallBody, Done),
    (CheckpointRead, Refused(Refusal::Busy)),
    (InstallOpen, Installed(Generation(7))),
];

/// A delta file with the number 2.
const THIRD_ENDED: [u8; 12] = [0x4d, 0x56, 0x4f, 0x45, 2, 0, 0, 0, 2, 0, 0, 0];

// A disk whose two pairs became one, beside a checkpoint.
fn merged_beside(rt: &(impl Abort + Threads + Sync), alloc: Global) -> Result<MemDisk, Fail> {
    let mut store = following(rt, alloc, &TWO_PAIRS)?;
    follow(rt, alloc, &mut store, &ONE_CHECKPOINT)?;
    spans(rt, &store, &[(0, 12), (12, 14)]);
    names(rt, &store, &[3]);
    Ok(store.into_disk())
}

#[test]
fn a_record_ended_meanwhile_stays_ended(rt: HostRuntime) -> Result<(), Fail> {
    let alloc = rt.alloc();
    let disk = merged_beside(&rt, alloc)?;
    hold(&rt, &disk, &[(9, &THIRD_ENDED)]);
    let rows = [
        (1, Some(1)),
        (2, None),
        (3, Some(1)),
        (4, None),
        (9, Some(1)),
    ];
    gives(&rt, alloc, disk, 14, &rows)
}

// The merge takes the files 9 and 10. The first checkpoint ends the fourth record of the first
// pair, and the second the first record of the second pair, which is the fourth that the merge saw.
const TWO_CHECKPOINTS: [(Step, Reply); 12] = [
    (Append(Write(7, 4, None)), Marked(Stamp(14))),
    (Rotate, Installed(Generation(5))),
    (Append(Write(8, 9, None)), Marked(Stamp(16))),
    (Rotate, Installed(Generation(6))),
    (MergeRead(0), Done),
    (Checkpoint, Installed(Generation(7))),
    (MergeData, Done),
    (Checkpoint, Installed(Generation(8))),
    (MergeDelta, Done),
    (InstallClose, Done),
    (InstallBody, Done),
    (InstallOpen, Installed(Generation(9))),
];

/// A delta file with the numbers 2 and 3.
const TWO_ENDED: [u8; 16] = [0x4d, 0x56, 0x4f, 0x45, 2, 0, 0, 0, 2, 0, 0, 0, 3, 0, 0, 0];

// Of both pairs numbers come late, each by a checkpoint of its own.
#[test]
fn two_checkpoints_end_records_meanwhile(rt: HostRuntime) -> Result<(), Fail> {
    let alloc = rt.alloc();
    let mut store = following(&rt, alloc, &TWO_PAIRS)?;
    follow(&rt, alloc, &mut store, &TWO_CHECKPOINTS)?;
    spans(&rt, &store, &[(0, 12), (12, 14), (14, 16)]);
    let disk = store.into_disk();
    hold(&rt, &disk, &[(10, &TWO_ENDED)]);
    let rows = [(1, Some(1)), (3, Some(1)), (4, None), (9, None)];
    gives(&rt, alloc, disk, 16, &rows)
}

// So it is where the two pairs are read in slices meanwhile.
const BESIDE_SLICES: [(Step, Reply); 17] = [
    (Append(Write(7, 4, None)), Marked(Stamp(14))),
    (Rotate, Installed(Generation(5))),
    (Append(Write(8, 9, None)), Marked(Stamp(16))),
    (Rotate, Installed(Generation(6))),
    (MergeBegin(0), Done),
    (Rotate, Refused(Refusal::Busy)),
    (Checkpoint, Installed(Generation(7))),
    (MergeReadSlice, Written(Progress::More)),
    (MergeReadSlice, Written(Progress::More)),
    (Checkpoint, Installed(Generation(8))),
    (MergeReadSlice, Written(Progress::More)),
    (MergeReadSlice, Written(Progress::Ready)),
    (MergeData, Done),
    (MergeDelta, Done),
    (InstallClose, Done),
    (InstallBody, Done),
    (InstallOpen, Installed(Generation(9))),
];

#[test]
fn checkpoints_end_records_that_are_read(rt: HostRuntime) -> Result<(), Fail> {
    let alloc = rt.alloc();
    let mut store = following(&rt, alloc, &TWO_PAIRS)?;
    follow(&rt, alloc, &mut store, &BESIDE_SLICES)?;
    spans(&rt, &store, &[(0, 12), (12, 14), (14, 16)]);
    let rows = [(1, Some(1)), (3, Some(1)), (4, None), (9, None)];
    gives(&rt, alloc, store.into_disk(), 16, &rows)
}

// A checkpoint behind the merge ends its second record.
const AFTERWARDS: [(Step, Reply); 3] = [
    (Append(Write(8, 3, None)), Marked(Stamp(16))),
    (Rotate, Installed(Generation(8))),
    (Checkpoint, Installed(Generation(9))),
];

/// A delta file with the numbers 2 and 1.
const NEXT_ENDED: [u8; 16] = [0x4d, 0x56, 0x4f, 0x45, 2, 0, 0, 0, 2, 0, 0, 0, 1, 0, 0, 0];

// The records of the merged pair have their places, whatever ended meanwhile.
#[test]
fn merged_records_end_in_their_places(rt: HostRuntime) -> Result<(), Fail> {
    let alloc = rt.alloc();
    let mut store = following(&rt, alloc, &TWO_PAIRS)?;
    follow(&rt, alloc, &mut store, &ONE_CHECKPOINT)?;
    follow(&rt, alloc, &mut store, &AFTERWARDS)?;
    let disk = store.into_disk();
    hold(&rt, &disk, &[(9, &NEXT_ENDED)]);
    let rows = [(1, Some(1)), (3, None), (4, None), (9, Some(1))];
    gives(&rt, alloc, disk, 16, &rows)
}
