//! Old transactions are rolled back, so that they hold no trim up and no collection.

use super::asking::Ask::{Begin, Change, Commit, Put, Read, Rollback, Update};
use super::steps::CoreStep::Trim;
use super::steps::Step::{Collect, Core, Flush, One, Other, RollBackOlder};
use super::steps::{Line, follow_new};
use super::told::Told::{Byte, Done, Number, Updated};
use super::told::{NO_TRANSACTION, NOTHING_TO_DO};
use super::trial::{Alone, Trial, tried_anew};
use mvo_disk::Disk;
use mvo_engine::{Engine, Gate, OpenGate, Run};
use mvo_types::Refusal;
use std::alloc::Global;
use std::process::Abort;
use std::sync::Wait;
use std::test::*;

/// One that is left open holds up a trim, until it is rolled back. One that began at the stamp
/// stays. The session of the one that is gone may begin anew.
const LEFT_OPEN: [Line; 21] = [
    (One(Put(1)), Number(2)),
    (Other(Begin), Number(3)),
    (Other(Update(2)), Updated),
    (One(Begin), Number(4)),
    (One(Read), Byte(Some(1))),
    // Its mark is the clock: nothing is Preparing.
    (Flush, Number(4)),
    (Core(Trim(4)), NOTHING_TO_DO),
    (RollBackOlder(3), Number(0)),
    (Other(Read), Byte(Some(2))),
    (Collect, Number(0)),
    (RollBackOlder(4), Number(1)),
    (RollBackOlder(4), Number(0)),
    (Other(Read), NO_TRANSACTION),
    (Other(Begin), Number(5)),
    (Other(Rollback), Done),
    (Core(Trim(4)), Done),
    (Collect, Number(1)),
    (One(Read), Byte(Some(1))),
    (One(Commit), Number(6)),
    (RollBackOlder(100), Number(0)),
    (One(Commit), NO_TRANSACTION),
];

/// So it is told of a commit and of a rollback.
const ENDS: [Line; 10] = [
    (One(Begin), Number(7)),
    (Other(Begin), Number(8)),
    (RollBackOlder(100), Number(2)),
    (One(Commit), NO_TRANSACTION),
    (Other(Rollback), NO_TRANSACTION),
    (One(Change(3)), Number(10)),
    (Other(Begin), Number(11)),
    (Other(Read), Byte(Some(3))),
    (Other(Rollback), Done),
    (RollBackOlder(100), Number(0)),
];

/// A session is left inside a transaction.
const LEFT: [Line; 2] = [(Other(Begin), Number(12)), (Other(Update(4)), Updated)];

/// So it is once the session is dropped.
const DROPPED: [Line; 10] = [
    (One(Begin), Number(13)),
    (One(Rollback), Done),
    (Flush, Number(13)),
    (Core(Trim(13)), NOTHING_TO_DO),
    (RollBackOlder(13), Number(1)),
    (Core(Trim(13)), Done),
    (Collect, Number(2)),
    (One(Begin), Number(14)),
    (One(Read), Byte(Some(3))),
    (One(Commit), Number(15)),
];

/// Goes through them all. The sessions are dropped behind each.
pub fn give_way<L: Run, D: Disk, G: Gate + Drop, R: Abort + Wait>(
    rt: &R,
    alloc: Global,
    engine: &Engine<L, D, G>,
) -> Result<(), Refusal> {
    follow_new(rt, alloc, engine, &LEFT_OPEN)?;
    follow_new(rt, alloc, engine, &ENDS)?;
    follow_new(rt, alloc, engine, &LEFT)?;
    follow_new(rt, alloc, engine, &DROPPED)
}

#[test]
fn old_transactions_give_way(rt: HostRuntime) -> Result<(), Fail> {
    tried_anew(&rt, rt.alloc(), OpenGate, Trial::Alone(Alone::Older))?;
    Ok(())
}
