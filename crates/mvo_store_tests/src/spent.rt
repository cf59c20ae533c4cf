//! What a job held whose manifest is installed.
use crate::bodies::Body::{OnePut, Updated};
use crate::disks::hold;
use crate::equal::same;
use crate::reply::Reply::{self, Done, Installed, Marked, Refused, Written};
use crate::step::Step::{
    self, Append, Checkpoint, CheckpointData, CheckpointDelta, CheckpointRead, InstallBody,
    InstallClose, InstallOpen, MergeData, MergeDelta, MergeRead, Rotate, RotateWrite,
};
use crate::stores::{follow, following, has_row, rows_on};
use crate::vectors::MERGED_DATA;
use mvo_disk::MemDisk;
use mvo_store::{Generation, Progress, Spent, Store};
use mvo_types::{Refusal, Stamp};
use std::process::Abort;
use std::test::Fail;

// How many records the job's pair has.
#[derive(Clone, Copy, Debug, PartialEq, Eq)]
enum Held {
    Nothing,
    Checkpoint(usize),
    Merge(usize),
}

fn kind_of(spent: &Spent) -> Held {
    match spent {
        Spent::Nothing => Held::Nothing,
        Spent::Checkpoint(made) => Held::Checkpoint(made.records.len()),
        Spent::Merge(made) => Held::Merge(made.records.len()),
    }
}

fn opens(
    rt: &impl Abort,
    store: &mut Store<MemDisk>,
    generation: u64,
    wanted: Held,
) -> Result<(), Fail> {
    let (installed, spent) = store.open_installed()?;
    same(rt, &installed, &Generation(generation));
    same(rt, &kind_of(&spent), &wanted);
    Ok(())
}

const A_ROTATION: [(Step, Reply); 4] = [
    (Append(OnePut), Marked(Stamp(2))),
    (RotateWrite, Done),
    (InstallClose, Done),
    (InstallBody, Done),
];

const A_CHECKPOINT: [(Step, Reply); 6] = [
    (InstallOpen, Refused(Refusal::NothingToDo)),
    (CheckpointRead, Done),
    (CheckpointData, Done),
    (CheckpointDelta, Written(Progress::Ready)),
    (InstallClose, Done),
    (InstallBody, Done),
];

const A_MERGE: [(Step, Reply); 8] = [
    (Append(Updated), Marked(Stamp(4))),
    (Rotate, Installed(Generation(3))),
    (Checkpoint, Installed(Generation(4))),
    (MergeRead(0), Done),
    (MergeData, Done),
    (MergeDelta, Done),
    (InstallClose, Done),
    (InstallBody, Done),
];

#[test]
fn what_a_job_held_is_answered(rt: HostRuntime) -> Result<(), Fail> {
    let mut store = following(&rt, rt.alloc(), &A_ROTATION)?;
    opens(&rt, &mut store, 1, Held::Nothing)?;
    follow(&rt, rt.alloc(), &mut store, &A_CHECKPOINT)?;
    opens(&rt, &mut store, 2, Held::Checkpoint(1))?;
    follow(&rt, rt.alloc(), &mut store, &A_MERGE)?;
    opens(&rt, &mut store, 5, Held::Merge(1))?;
    let disk = store.into_disk();
    hold(&rt, &disk, &[(3, &MERGED_DATA)]);
    has_row(&rt, &rows_on(&rt, rt.alloc(), disk, 4)?, b"b")
}
