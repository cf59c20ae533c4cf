//! Rotations, checkpoints and merges of an engine, whole ones and step by step.

use super::asking::Ask::{Change, Find, Put};
use super::calls::{BODY, CLOSE, DATA, DELTA, MERGE_DATA, MERGE_DELTA, OPEN};
use super::counting::Counting;
use super::steps::Step::{Checkpoint, Flush, Merge, One, Rotate, Store};
use super::steps::StoreStep::{Call, Installed, OpenInstalled, Pairs, SliceOf};
use super::steps::{Line, follow_new};
use super::told::Told::{self, Byte, Done, More, Number, Ready, Shut, Written};
use super::told::{BUSY, NOTHING_TO_DO, called, installed};
use super::trial::{Alone, Trial, tried, tried_anew};
use crate::equal::{holds, same};
use mvo_disk::Disk;
use mvo_engine::{Engine, Gate, OpenGate, Place, Run, Slice};
use mvo_store::StoreCall::{CheckpointRead, MergeRead, Reclaim};
use mvo_types::Refusal;
use std::alloc::Global;
use std::process::Abort;
use std::sync::Wait;
use std::sync::atomic::{AtomicU64, Ordering};
use std::test::*;

const WHOLE: [Line; 15] = [
    // No group is in the log, no segment is sealed and there are no pairs.
    (Rotate, NOTHING_TO_DO),
    (Checkpoint, NOTHING_TO_DO),
    (Merge(0), NOTHING_TO_DO),
    // The row is put by 2 and changed by 4. Each goes into a pair, and the two pairs become one.
    (One(Put(0x61)), Number(2)),
    (Flush, Number(2)),
    (Rotate, Number(1)),
    (Checkpoint, Number(2)),
    (One(Change(0x62)), Number(4)),
    (Flush, Number(4)),
    (Rotate, Number(3)),
    (Checkpoint, Number(4)),
    (Merge(1), NOTHING_TO_DO),
    (Merge(0), Number(5)),
    // It is changed by 6.
    (One(Change(0x63)), Number(6)),
    (Flush, Number(6)),
];

/// Behind a rotation, so that the log has a sealed segment.
const BY_STEPS: [Line; 48] = [
    (Store(SliceOf(Slice::Places)), NOTHING_TO_DO),
    // No file is long that nobody names.
    (Store(SliceOf(Slice::Shorten)), Ready),
    // A segment is read by slices, of which a checkpoint is to be made, and what is read is
    // forgotten.
    (Store(SliceOf(Slice::CheckpointRead)), NOTHING_TO_DO),
    (Store(SliceOf(Slice::CheckpointForget)), NOTHING_TO_DO),
    (Store(SliceOf(Slice::CheckpointBegin)), More),
    (Rotate, BUSY),
    (Checkpoint, BUSY),
    (Store(SliceOf(Slice::CheckpointRead)), More),
    (Store(SliceOf(Slice::CheckpointForget)), Ready),
    (Store(SliceOf(Slice::CheckpointRead)), NOTHING_TO_DO),
    // A checkpoint runs, and no other job begins. It goes on by its steps: the merged pair's delta
    // file gains a number behind the new pair's own.
    (Store(Call(CheckpointRead)), More),
    (Rotate, BUSY),
    (Checkpoint, BUSY),
    (Merge(0), NOTHING_TO_DO),
    (Store(Call(MERGE_DATA)), NOTHING_TO_DO),
    (Store(SliceOf(Slice::Merge)), NOTHING_TO_DO),
    (Store(SliceOf(Slice::Checkpoint)), Ready),
    (Store(Call(DATA)), NOTHING_TO_DO),
    (Store(Call(DELTA)), More),
    (Store(Call(DELTA)), Ready),
    // The places of its records are put before its manifest is installed, and once.
    (Store(SliceOf(Slice::Places)), Ready),
    (Store(SliceOf(Slice::Places)), NOTHING_TO_DO),
    (Store(Call(CLOSE)), Shut),
    (Store(Call(BODY)), Written),
    (Store(Call(OPEN)), Number(7)),
    // Two pairs are read by slices, to be merged, and what is read is forgotten.
    (Store(SliceOf(Slice::MergeRead)), NOTHING_TO_DO),
    (Store(SliceOf(Slice::MergeForget)), NOTHING_TO_DO),
    (Store(SliceOf(Slice::MergeBegin(0))), More),
    (Rotate, BUSY),
    (Merge(0), BUSY),
    (Store(SliceOf(Slice::MergeRead)), More),
    (Store(SliceOf(Slice::MergeForget)), Ready),
    (Store(SliceOf(Slice::MergeRead)), NOTHING_TO_DO),
    // A merge.
    (Store(Call(MergeRead(0))), More),
    (Store(SliceOf(Slice::Merge)), Ready),
    (Store(Call(MERGE_DATA)), NOTHING_TO_DO),
    (Store(Call(CLOSE)), NOTHING_TO_DO),
    (Store(SliceOf(Slice::Places)), NOTHING_TO_DO),
    (Store(Call(MERGE_DELTA)), Ready),
    (Store(SliceOf(Slice::Places)), Ready),
    (Store(SliceOf(Slice::Places)), NOTHING_TO_DO),
    (Store(OpenInstalled), NOTHING_TO_DO),
    (Store(Call(CLOSE)), Shut),
    (Store(Call(BODY)), Written),
    (Store(OpenInstalled), Number(8)),
    (Store(Installed), Number(8)),
    (Store(Pairs), Number(1)),
    // The files that no manifest names any more are emptied, one a call.
    (Store(Call(Reclaim)), More),
];

const FOUND: [Line; 1] = [(One(Find), Byte(Some(0x63)))];

/// The jobs of a store, where `passes` counts the takes of its lock.
pub fn do_jobs<L: Run, D: Disk, G: Gate + Drop, R: Abort + Wait>(
    rt: &R,
    alloc: Global,
    engine: &Engine<L, D, G>,
    passes: &AtomicU64,
) -> Result<(), Refusal> {
    follow_new(rt, alloc, engine, &WHOLE)?;
    rotate_by_six(rt, engine, passes);
    follow_new(rt, alloc, engine, &BY_STEPS)?;
    reclaim_all(rt, engine);
    // Those that are made by hand aren't counted.
    same(rt, &engine.totals().merges, &1);
    Ok(())
}

// A rotation takes the lock of the store six times: once for each step, once for long files that
// nobody names, of which there is none, and once for the places, of which it puts none.
fn rotate_by_six<L: Run, D: Disk, G: Gate + Drop, R: Abort + Wait>(
    rt: &R,
    engine: &Engine<L, D, G>,
    passes: &AtomicU64,
) {
    passes.store(0, Ordering::SeqCst);
    same(rt, &installed(engine.rotate(rt)), &Number(6));
    same(rt, &passes.load(Ordering::SeqCst), &6);
}

// There is an end to what is emptied.
fn reclaim_all<L: Run, D: Disk, G: Gate + Drop, R: Abort + Wait>(rt: &R, engine: &Engine<L, D, G>) {
    let mut has_ended = false;
    for _ in 0..20 {
        if reclaim(rt, engine) == Done {
            has_ended = true;
            break;
        }
    }
    holds(rt, has_ended);
    same(rt, &reclaim(rt, engine), &Done);
}

fn reclaim<L: Run, D: Disk, G: Gate + Drop, R: Wait>(rt: &R, engine: &Engine<L, D, G>) -> Told {
    called(engine.lock_store(rt).call(Reclaim))
}

#[test]
fn jobs_are_done_whole_and_by_steps(rt: HostRuntime) -> Result<(), Fail> {
    let alloc = rt.alloc();
    let passes = AtomicU64::new(0);
    let gate = Counting {
        passes: &passes,
        at: Place::Store,
    };
    let disk = tried_anew(&rt, alloc, gate, Trial::Alone(Alone::Jobs(&passes)))?;
    tried(&rt, alloc, disk, OpenGate, Trial::Steps(&FOUND))?;
    Ok(())
}
