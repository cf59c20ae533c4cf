//! Trims and collections, beside a transaction that is open and behind it.

use super::asking::Ask::{Begin, Changes, Find, Many, Put, Read, Rollback};
use super::counting::Counting;
use super::steps::CoreStep::{CollectOne, IsStored, Start, Trim};
use super::steps::Step::{Collect, Core, Flush, One, Other};
use super::steps::{Line, follow_new};
use super::told::NOTHING_TO_DO;
use super::told::Told::{Byte, Done, Is, Number};
use super::trial::{Alone, Trial, tried_anew};
use crate::equal::same;
use mvo_disk::Disk;
use mvo_engine::{Engine, Gate, Place, Run};
use mvo_types::Refusal;
use std::alloc::Global;
use std::process::Abort;
use std::sync::Wait;
use std::sync::atomic::{AtomicU64, Ordering};
use std::test::*;

/// The first session writes, and the other reads.
const KEPT: [Line; 27] = [
    // The row is put by 2 and changed ten times, by 4 to 22. A reader begins at 23, and the row is
    // changed five times more, by 25 to 33.
    (One(Put(0)), Number(2)),
    (One(Changes(1, 10)), Number(22)),
    (Other(Begin), Number(23)),
    (One(Changes(11, 15)), Number(33)),
    // What is trimmed and collected while the reader is in its transaction. It goes on seeing its
    // row.
    (Other(Read), Byte(Some(10))),
    (Core(Trim(33)), NOTHING_TO_DO),
    (Core(Trim(24)), NOTHING_TO_DO),
    (Collect, Number(0)),
    (Core(Trim(23)), Done),
    (Core(Trim(23)), NOTHING_TO_DO),
    (Core(Start), Number(23)),
    (Core(CollectOne), Is(true)),
    (Collect, Number(9)),
    (Core(CollectOne), Is(false)),
    (Other(Read), Byte(Some(10))),
    (Other(Rollback), Done),
    // What is trimmed and collected once it is done. A commit stays until it is in a group.
    (Core(Trim(34)), NOTHING_TO_DO),
    (Core(Trim(33)), Done),
    (Collect, Number(5)),
    (Core(IsStored(0)), Is(true)),
    (Core(IsStored(15)), Is(true)),
    (Flush, Number(33)),
    (Core(IsStored(0)), Is(false)),
    (Core(IsStored(15)), Is(false)),
    (Other(Find), Byte(Some(15))),
    (One(Many(300, 16)), Number(635)),
    (Core(Trim(635)), Done),
];

/// `passes` counts the takes of the core's lock.
pub fn keep_up<L: Run, D: Disk, G: Gate + Drop, R: Abort + Wait>(
    rt: &R,
    alloc: Global,
    engine: &Engine<L, D, G>,
    passes: &AtomicU64,
) -> Result<(), Refusal> {
    follow_new(rt, alloc, engine, &KEPT)?;
    at_once(rt, engine, passes);
    Ok(())
}

// Three hundred versions are collected under three takes of the lock, and none under one.
fn at_once<L: Run, D: Disk, G: Gate + Drop, R: Abort + Wait>(
    rt: &R,
    engine: &Engine<L, D, G>,
    passes: &AtomicU64,
) {
    passes.store(0, Ordering::SeqCst);
    same(rt, &engine.collect(rt), &300);
    same(rt, &passes.load(Ordering::SeqCst), &3);
    same(rt, &engine.collect(rt), &0);
    same(rt, &passes.load(Ordering::SeqCst), &4);
}

#[test]
fn what_is_over_is_let_go(rt: HostRuntime) -> Result<(), Fail> {
    let passes = AtomicU64::new(0);
    let gate = Counting {
        passes: &passes,
        at: Place::Core,
    };
    let trial = Trial::Alone(Alone::Upkeep(&passes));
    tried_anew(&rt, rt.alloc(), gate, trial)?;
    Ok(())
}
