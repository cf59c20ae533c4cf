//! The disk meets a fault: the store is down, and groups wait for it in the ring.

use super::asking::Ask::{Await, Poll, Put};
use super::formatted;
use super::rows::change;
use super::steps::CoreStep::{IsStored, TrimAll};
use super::steps::Step::{Checkpoint, Core, Flush, Merge, One, Rotate, Store};
use super::steps::StoreStep::{Call, FlushOne, Take};
use super::steps::{Line, follow_new};
use super::told::Told::{Done, Is, Number};
use super::told::{DISK_FAULT, DOWN, stamped};
use super::trial::{Alone, Trial, tried};
use crate::equal::{holds, same, same_at};
use mvo_disk::{Disk, MemDisk};
use mvo_engine::{Engine, Gate, OpenGate, Run, Session};
use mvo_store::StoreCall::Reclaim;
use mvo_types::Refusal;
use std::alloc::Global;
use std::process::Abort;
use std::sync::Wait;
use std::test::*;
use std::thread::Threads;

/// The first call of the disk behind the opening fails.
const GONE_DOWN: [Line; 11] = [
    // The row is put by 2, and its flush meets the fault. It isn't durable, and who waits is told
    // so.
    (One(Put(0)), Number(2)),
    (Flush, DISK_FAULT),
    (One(Await(2)), DOWN),
    (One(Poll(2)), Is(false)),
    (One(Await(0)), Done),
    // Each step of the store is refused.
    (Rotate, DOWN),
    (Checkpoint, DOWN),
    (Merge(0), DOWN),
    (Store(FlushOne), DOWN),
    (Store(Take), DOWN),
    (Store(Call(Reclaim)), DOWN),
];

/// 64 groups wait in the ring, and the last commit is in none, so that it is still stored.
const RING_IS_FULL: [Line; 3] = [
    (Core(TrimAll), Done),
    (Core(IsStored(64)), Is(false)),
    (Core(IsStored(65)), Is(true)),
];

/// The store goes down, and its ring is filled.
pub fn go_down<L: Run, D: Disk, G: Gate + Drop, R: Abort + Wait>(
    rt: &R,
    alloc: Global,
    engine: &Engine<L, D, G>,
) -> Result<(), Refusal> {
    follow_new(rt, alloc, engine, &GONE_DOWN)?;
    fill_the_ring(rt, alloc, engine)?;
    follow_new(rt, alloc, engine, &RING_IS_FULL)?;
    same(rt, &engine.stats(rt).waiting_groups(), &64);
    Ok(())
}

fn fill_the_ring<L: Run, D: Disk, G: Gate + Drop, R: Abort + Wait>(
    rt: &R,
    alloc: Global,
    engine: &Engine<L, D, G>,
) -> Result<(), Refusal> {
    let mut session = engine.session(rt)?;
    change_and_flush(rt, alloc, engine, &mut session)
}

// Each flush closes a group and is then told that the store is down. The row is changed 65 times.
fn change_and_flush<L: Run, D: Disk, G: Gate + Drop, R: Abort + Wait>(
    rt: &R,
    alloc: Global,
    engine: &Engine<L, D, G>,
    session: &mut Session<'_, L, D, G>,
) -> Result<(), Refusal> {
    for byte in 1..=65 {
        change(rt, alloc, session, byte)?;
        same_at(rt, byte as usize, &stamped(engine.flush(rt)), &DOWN);
    }
    Ok(())
}

/// Whether it goes so over a disk on which so many calls go on, and not where the opening meets the
/// fault.
fn goes_down_behind<R: Abort + Threads + Wait + Sync>(
    rt: &R,
    alloc: Global,
    mut disk: MemDisk,
    calls: u64,
) -> Result<bool, Refusal> {
    disk.fail_at(calls);
    match tried(rt, alloc, disk, OpenGate, Trial::Alone(Alone::Down)) {
        Ok(_disk) => Ok(true),
        Err(Refusal::DiskFault) => Ok(false),
        Err(refusal) => Err(refusal),
    }
}

#[test]
fn a_fault_is_told_to_all(rt: HostRuntime) -> Result<(), Fail> {
    let alloc = rt.alloc();
    let mut was_told = false;
    for calls in 0..2000 {
        if goes_down_behind(&rt, alloc, formatted(alloc)?, calls)? {
            was_told = true;
            break;
        }
    }
    holds(&rt, was_told);
    Ok(())
}
