//! A merge beside a checkpoint, in one thread and in two.

use super::asking::Ask::{Change, Find, Put};
use super::calls::{BODY, CLOSE, DATA, DELTA, MERGE_DATA, MERGE_DELTA, OPEN};
use super::steps::Step::{Checkpoint, Flush, Merge, One, Rotate, Store};
use super::steps::StoreStep::{Call, Installed, Pairs, Segments};
use super::steps::{Line, follow_new};
use super::told::Told::{Byte, More, Number, Ready, Shut, Written};
use super::told::{BUSY, NOTHING_TO_DO};
use super::trial::{Alone, Meeting, Trial, tried_anew};
use mvo_disk::Disk;
use mvo_engine::{Engine, Gate, OpenGate, Run};
use mvo_store::StoreCall::CheckpointRead;
use mvo_store::{Generation, StoreCall};
use mvo_types::Refusal;
use std::alloc::Global;
use std::process::Abort;
use std::sync::Wait;
use std::test::*;
use std::thread::{Threads, join};

/// The row is put, changed, and changed again. The first two segments become pairs, and the third
/// is sealed.
const SEALED: [Line; 11] = [
    (One(Put(0x61)), Number(2)),
    (Flush, Number(2)),
    (Rotate, Number(1)),
    (Checkpoint, Number(2)),
    (One(Change(0x62)), Number(4)),
    (Flush, Number(4)),
    (Rotate, Number(3)),
    (Checkpoint, Number(4)),
    (One(Change(0x63)), Number(6)),
    (Flush, Number(6)),
    (Rotate, Number(5)),
];

/// A merge comes to its last file while a checkpoint runs.
const MERGE_WAITS: [Line; 18] = [
    (Store(Call(CheckpointRead)), More),
    // The merge is refused at its last file, and runs on: no other one begins, and no rotation.
    (Merge(0), BUSY),
    (Merge(0), BUSY),
    (Rotate, BUSY),
    (Store(Call(MERGE_DATA)), NOTHING_TO_DO),
    (Store(Call(MERGE_DELTA)), BUSY),
    // The delta file of the second pair gains a number behind the new pair's own.
    (Store(Call(DATA)), More),
    (Store(Call(DELTA)), More),
    (Store(Call(DELTA)), Ready),
    (Store(Call(CLOSE)), Shut),
    (Store(Call(BODY)), Written),
    (Store(Call(OPEN)), Number(6)),
    // The merge goes on, and no checkpoint begins until its manifest is installed.
    (Store(Call(MERGE_DELTA)), Ready),
    (Checkpoint, BUSY),
    (Store(Call(CLOSE)), Shut),
    (Store(Call(BODY)), Written),
    (Store(Call(OPEN)), Number(7)),
    (Store(Call(MERGE_DELTA)), NOTHING_TO_DO),
];

/// The two pairs are one, the segment is another, and the row is there.
const STANDS: [Line; 4] = [
    (Store(Installed), Number(7)),
    (Store(Pairs), Number(2)),
    (Store(Segments), Number(1)),
    (One(Find), Byte(Some(0x63))),
];

/// A merge waits in one thread.
pub fn merge_waits<L: Run, D: Disk, G: Gate + Drop, R: Abort + Wait>(
    rt: &R,
    alloc: Global,
    engine: &Engine<L, D, G>,
) -> Result<(), Refusal> {
    follow_new(rt, alloc, engine, &SEALED)?;
    follow_new(rt, alloc, engine, &MERGE_WAITS)?;
    follow_new(rt, alloc, engine, &STANDS)
}

/// A thread merges while another makes a checkpoint.
pub fn merge_in_threads<
    L: Run + Send + Sync,
    D: Disk + Send,
    G: Gate + Drop + Send + Sync,
    R: Abort + Threads + Wait + Sync,
>(rt: &R, alloc: Global, engine: &Engine<L, D, G>) -> Result<(), Refusal> {
    follow_new(rt, alloc, engine, &SEALED)?;
    let (merged, made) = in_two_threads(rt, engine);
    merge_ends(rt, engine, merged)?;
    checkpoint_is_made(rt, engine, made)?;
    follow_new(rt, alloc, engine, &STANDS)
}

fn in_two_threads<
    L: Run + Send + Sync,
    D: Disk + Send,
    G: Gate + Drop + Send + Sync,
    R: Threads + Wait + Sync,
>(rt: &R, engine: &Engine<L, D, G>) -> (Result<Generation, Refusal>, Result<Generation, Refusal>) {
    join(rt, || engine.merge(rt, 0), || engine.checkpoint(rt))
}

// Where a checkpoint ran when the last file was to be written, the merge goes on now.
fn merge_ends<L: Run, D: Disk, G: Gate + Drop, R: Wait>(
    rt: &R,
    engine: &Engine<L, D, G>,
    merged: Result<Generation, Refusal>,
) -> Result<(), Refusal> {
    match merged {
        Ok(_) => Ok(()),
        Err(Refusal::Busy) => last_of_merge(rt, engine),
        Err(refusal) => Err(refusal),
    }
}

fn last_of_merge<L: Run, D: Disk, G: Gate + Drop, R: Wait>(
    rt: &R,
    engine: &Engine<L, D, G>,
) -> Result<(), Refusal> {
    for call in [MERGE_DELTA, CLOSE, BODY, OPEN] {
        call_once(rt, engine, call)?;
    }
    Ok(())
}

fn call_once<L: Run, D: Disk, G: Gate + Drop, R: Wait>(
    rt: &R,
    engine: &Engine<L, D, G>,
    call: StoreCall,
) -> Result<(), Refusal> {
    engine.lock_store(rt).call(call)?;
    Ok(())
}

// Where the files of the merge were written, the checkpoint is made now.
fn checkpoint_is_made<L: Run, D: Disk, G: Gate + Drop, R: Wait>(
    rt: &R,
    engine: &Engine<L, D, G>,
    made: Result<Generation, Refusal>,
) -> Result<(), Refusal> {
    let made = match made {
        Err(Refusal::Busy) => engine.checkpoint(rt),
        made => made,
    };
    match made {
        Ok(_) => Ok(()),
        Err(refusal) => Err(refusal),
    }
}

#[test]
fn a_merge_waits_at_its_last_file(rt: HostRuntime) -> Result<(), Fail> {
    tried_anew(&rt, rt.alloc(), OpenGate, Trial::Alone(Alone::MergeWaits))?;
    Ok(())
}

#[test]
fn a_merge_and_a_checkpoint_meet(rt: HostRuntime) -> Result<(), Fail> {
    let trial = Trial::Threads(Meeting::MergeBesideCheckpoint);
    tried_anew(&rt, rt.alloc(), OpenGate, trial)?;
    Ok(())
}
