//! A fault of the disk while groups are appended.
use crate::bodies::Body::Round;
use crate::disks::new_disk;
use crate::reply::Reply::{self, Done, Marked, Refused};
use crate::step::Step::{self, Append, AppendBody, AppendOpen, CanTake, RotateWrite, Take};
use crate::stores::{follow, gives, store_on};
use mvo_disk::{DeviceWork, FileImage, MemDisk};
use mvo_store::Store;
use mvo_types::{Refusal, Stamp};
use std::alloc::Global;
use std::process::Abort;
use std::test::Fail;
use std::thread::Threads;

// A new disk of which the call behind so many fails.
fn failing(alloc: Global, calls: u64) -> Result<MemDisk, Fail> {
    let mut disk = new_disk(alloc)?;
    disk.fail_at(calls);
    Ok(disk)
}

const TO_THE_GATE: [(Step, Reply); 3] = [
    (Append(Round(1)), Marked(Stamp(2))),
    (Take(Round(2)), Done),
    (AppendBody, Done),
];

// Appends one group. Opening the gate of the next one is answered so.
fn append_two(
    rt: &impl Abort,
    alloc: Global,
    store: &mut Store<MemDisk>,
    answer: Reply,
) -> Result<(), Fail> {
    follow(rt, alloc, store, &TO_THE_GATE)?;
    follow(rt, alloc, store, &[(AppendOpen, answer)])
}

// A store with one durable group. Opening the gate of the next one is answered so.
fn two_groups(
    rt: &(impl Abort + Threads + Sync),
    alloc: Global,
    calls: u64,
    answer: Reply,
) -> Result<Store<MemDisk>, Fail> {
    let mut store = store_on(rt, alloc, failing(alloc, calls)?)?;
    append_two(rt, alloc, &mut store, answer)?;
    Ok(store)
}

// How many calls a disk was asked for, of which the last one is a sync.
fn calls_to_a_sync(disk: &MemDisk) -> Result<usize, Fail> {
    match disk.calls().last() {
        Some(call) if matches!(&call.work, DeviceWork::Sync) => Ok(disk.calls().len()),
        _ => Err(Fail::from("a sync comes last")),
    }
}

// How many calls are made before the last one, which syncs the gate.
fn calls_before_the_sync(rt: &(impl Abort + Threads + Sync), alloc: Global) -> Result<u64, Fail> {
    let before = failing(alloc, u64::MAX)?.calls().len();
    let store = two_groups(rt, alloc, u64::MAX, Marked(Stamp(4)))?;
    let after = calls_to_a_sync(&store.into_disk())?;
    Ok(after.saturating_sub(before).saturating_sub(1) as u64)
}

// The gate of the second group in the log's first segment.
const GATE: usize = 62;

// A stop that leaves this byte of the gate.
fn stopped_with(alloc: Global, mut disk: MemDisk, gate: u8) -> Result<MemDisk, Fail> {
    let mut bytes = disk.bytes(2).to_vec(alloc)?;
    if bytes.len() <= GATE {
        return Err(Fail::from("the gate is written"));
    }
    bytes[GATE] = gate;
    disk.stop(&[FileImage { file: 2, bytes }])?;
    Ok(disk)
}

// A disk after a stop that left this byte of the gate whose sync failed.
fn left(
    rt: &(impl Abort + Threads + Sync),
    alloc: Global,
    calls: u64,
    gate: u8,
) -> Result<MemDisk, Fail> {
    let store = two_groups(rt, alloc, calls, Refused(Refusal::DiskFault))?;
    stopped_with(alloc, store.into_disk(), gate)
}

const IS_DOWN: [(Step, Reply); 3] = [
    (CanTake, Refused(Refusal::Down)),
    (AppendBody, Refused(Refusal::Down)),
    (RotateWrite, Refused(Refusal::Down)),
];

#[test]
fn a_failing_sync_is_a_fault(rt: HostRuntime) -> Result<(), Fail> {
    let alloc = rt.alloc();
    let calls = calls_before_the_sync(&rt, alloc)?;
    let mut store = two_groups(&rt, alloc, calls, Refused(Refusal::DiskFault))?;
    follow(&rt, alloc, &mut store, &IS_DOWN)
}

// The byte that wasn't synced counts or doesn't. The first group is there either way.
#[test]
fn a_failing_sync_loses_no_durable_group(rt: HostRuntime) -> Result<(), Fail> {
    let alloc = rt.alloc();
    let calls = calls_before_the_sync(&rt, alloc)?;
    let disk = left(&rt, alloc, calls, 0xa5)?;
    gives(&rt, alloc, disk, 4, &[(1, Some(1)), (2, Some(1))])?;
    let disk = left(&rt, alloc, calls, 0)?;
    gives(&rt, alloc, disk, 2, &[(1, Some(1)), (2, None)])
}
