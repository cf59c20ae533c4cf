//! Data files that are written in slices.
use crate::bodies::Body::{OnePut, Updated};
use crate::disks::{hold, stopped};
use crate::equal::same;
use crate::reply::Reply::{self, Done, Installed, Marked, Refused, Written};
use crate::step::Step::{
    self, Append, Checkpoint, CheckpointData, CheckpointDelta, CheckpointRead, CheckpointSlice,
    InstallBody, InstallClose, InstallOpen, MergeData, MergeDelta, MergeRead, MergeSlice, Rotate,
};
use crate::stores::{follow, following, has_row, new_store, rows_on};
use crate::vectors::{DATA, DELTA, MERGED_DATA};
use mvo_disk::MemDisk;
use mvo_group::{Group, Record, Write};
use mvo_store::{Generation, Progress, Store};
use mvo_types::{Refusal, Row, RowKey, Stamp};
use std::alloc::Global;
use std::process::Abort;
use std::test::Fail;
use std::thread::Threads;

// One slice is the whole file, and its step isn't due behind it.
const IN_ONE_SLICE: [(Step, Reply); 10] = [
    (CheckpointSlice, Refused(Refusal::NothingToDo)),
    (Append(OnePut), Marked(Stamp(2))),
    (Rotate, Installed(Generation(1))),
    (CheckpointRead, Done),
    (MergeSlice, Refused(Refusal::NothingToDo)),
    (CheckpointSlice, Written(Progress::Ready)),
    (CheckpointSlice, Refused(Refusal::NothingToDo)),
    (CheckpointData, Refused(Refusal::NothingToDo)),
    (CheckpointDelta, Written(Progress::Ready)),
    (InstallClose, Done),
];

const INSTALLED: [(Step, Reply); 2] = [
    (InstallBody, Done),
    (InstallOpen, Installed(Generation(2))),
];

#[test]
fn a_slice_is_a_small_data_file(rt: HostRuntime) -> Result<(), Fail> {
    let mut store = following(&rt, rt.alloc(), &IN_ONE_SLICE)?;
    follow(&rt, rt.alloc(), &mut store, &INSTALLED)?;
    hold(&rt, &store.into_disk(), &[(4, &DATA), (5, &DELTA)]);
    Ok(())
}

const MERGED_IN_ONE: [(Step, Reply); 15] = [
    (Append(OnePut), Marked(Stamp(2))),
    (Rotate, Installed(Generation(1))),
    (Checkpoint, Installed(Generation(2))),
    (Append(Updated), Marked(Stamp(4))),
    (Rotate, Installed(Generation(3))),
    (Checkpoint, Installed(Generation(4))),
    (MergeRead(0), Done),
    (CheckpointSlice, Refused(Refusal::NothingToDo)),
    (MergeSlice, Written(Progress::Ready)),
    (MergeSlice, Refused(Refusal::NothingToDo)),
    (MergeData, Refused(Refusal::NothingToDo)),
    (MergeDelta, Done),
    (InstallClose, Done),
    (InstallBody, Done),
    (InstallOpen, Installed(Generation(5))),
];

#[test]
fn a_merged_pair_is_written_in_a_slice(rt: HostRuntime) -> Result<(), Fail> {
    let disk = following(&rt, rt.alloc(), &MERGED_IN_ONE)?.into_disk();
    hold(&rt, &disk, &[(3, &MERGED_DATA)]);
    has_row(&rt, &rows_on(&rt, rt.alloc(), disk, 4)?, b"b")
}

/// How many rows each group puts: four groups have one more than fit into a slice.
const ROWS: u64 = 16;

/// The group of a round, from 0 on.
fn long_group(alloc: Global, round: u64) -> Result<Group, Fail> {
    let round = round.min(8);
    let mut writes = Vec::new(alloc);
    for key in round * ROWS..(round + 1) * ROWS {
        let data = vec![in alloc; 7u8; 4_096]?;
        writes.push(Write::Put(Row::new(RowKey { table: 0, key }, key, data)?))?;
    }
    let end = Stamp(2 * round + 2);
    let mut records = Vec::new(alloc);
    records.push(Record { end, writes })?;
    Ok(Group::new(Stamp(2 * round), end, records).ok_or("a group")?)
}

/// Makes the group of a round durable.
fn append(alloc: Global, store: &mut Store<MemDisk>, round: u64) -> Result<(), Fail> {
    let group = long_group(alloc, round)?;
    if group.prev().0 != store.mark().0 || store.take_group(group).is_err() {
        return Err(Fail::from("the group follows the mark"));
    }
    store.append_body()?;
    store.append_open()?;
    Ok(())
}

const FIRST_OF_TWO: [(Step, Reply); 4] = [
    (Rotate, Installed(Generation(1))),
    (CheckpointRead, Done),
    (CheckpointSlice, Written(Progress::More)),
    (CheckpointDelta, Refused(Refusal::NothingToDo)),
];

/// A store in the midst of a data file: the first of two slices is written.
fn between_slices(
    rt: &(impl Abort + Threads + Sync),
    alloc: Global,
) -> Result<Store<MemDisk>, Fail> {
    let mut store = new_store(rt, alloc)?;
    for round in 0..4 {
        append(alloc, &mut store, round)?;
    }
    follow(rt, alloc, &mut store, &FIRST_OF_TWO)?;
    Ok(store)
}

const TO_THE_END: [(Step, Reply); 6] = [
    (CheckpointSlice, Written(Progress::Ready)),
    (CheckpointData, Refused(Refusal::NothingToDo)),
    (CheckpointDelta, Written(Progress::Ready)),
    (InstallClose, Done),
    (InstallBody, Done),
    (InstallOpen, Installed(Generation(2))),
];

// A group becomes durable between two slices.
#[test]
fn two_slices_are_a_data_file(rt: HostRuntime) -> Result<(), Fail> {
    let alloc = rt.alloc();
    let mut store = between_slices(&rt, alloc)?;
    append(alloc, &mut store, 4)?;
    follow(&rt, alloc, &mut store, &TO_THE_END)?;
    let disk = store.into_disk();
    same(&rt, &disk.bytes(4).len(), &(8 + 64 * 4_123));
    same(&rt, &rows_on(&rt, alloc, disk, 10)?.len(), &80);
    Ok(())
}

#[test]
fn a_stop_between_slices_leaves_the_rows(rt: HostRuntime) -> Result<(), Fail> {
    let alloc = rt.alloc();
    let disk = stopped(between_slices(&rt, alloc)?.into_disk())?;
    same(&rt, &rows_on(&rt, alloc, disk, 8)?.len(), &64);
    Ok(())
}

const WHOLE_INSTEAD: [(Step, Reply); 4] = [
    (CheckpointData, Done),
    (CheckpointSlice, Refused(Refusal::NothingToDo)),
    (CheckpointDelta, Written(Progress::Ready)),
    (InstallClose, Done),
];

// The whole file may be written in place of the slices that are left.
#[test]
fn a_whole_file_comes_behind_a_slice(rt: HostRuntime) -> Result<(), Fail> {
    let alloc = rt.alloc();
    let mut store = between_slices(&rt, alloc)?;
    follow(&rt, alloc, &mut store, &WHOLE_INSTEAD)?;
    follow(&rt, alloc, &mut store, &INSTALLED)?;
    same(&rt, &rows_on(&rt, alloc, store.into_disk(), 8)?.len(), &64);
    Ok(())
}
