//! Reports: read-only transactions beside sessions that write.

use super::asking::Ask::{
    Begin, BeginReport, Change, Commit, Delete, InsertBeside, Put, Read, Rollback, Scan, Update,
};
use super::steps::CoreStep::{Clock, CollectOne, Start, Trim};
use super::steps::Line;
use super::steps::Step::{Collect, Core, Flush, LetGo, One, Other, Receipts};
use super::told::Told::{Byte, Done, Is, Number};
use super::told::{BUSY, NO_TRANSACTION, NOTHING_TO_DO, READ_ONLY, VALIDATION_FAILED};
use super::trial::{Trial, tried_anew};
use mvo_engine::OpenGate;
use std::test::*;

/// A report reads what was there at its begin, writes nothing, and ends at its begin however often
/// another has written since.
const BESIDE_A_WRITER: [Line; 20] = [
    (Other(Put(0x61)), Number(2)),
    (One(BeginReport), Number(3)),
    (One(BeginReport), BUSY),
    (One(Begin), BUSY),
    (One(Read), Byte(Some(0x61))),
    (Other(Change(0x62)), Number(5)),
    // Each write is refused, and it goes on.
    (One(InsertBeside(1)), READ_ONLY),
    (One(Update(1)), READ_ONLY),
    (One(Delete), READ_ONLY),
    (One(Read), Byte(Some(0x61))),
    (One(Scan(0, 100)), Number(1)),
    (One(Commit), Number(3)),
    (One(Commit), NO_TRANSACTION),
    (One(Rollback), NO_TRANSACTION),
    (One(Read), NO_TRANSACTION),
    (One(BeginReport), Number(6)),
    (One(Read), Byte(Some(0x62))),
    (One(Rollback), Done),
    (One(Begin), Number(7)),
    (One(Commit), Number(8)),
];

/// One that may write is refused in its place.
const AS_ANOTHER: [Line; 5] = [
    (Other(Put(0x61)), Number(2)),
    (One(Begin), Number(3)),
    (One(Read), Byte(Some(0x61))),
    (Other(Change(0x62)), Number(5)),
    (One(Commit), VALIDATION_FAILED),
];

/// It holds no group back, and the tale from its begin on alone, until it has ended. Its receipt is
/// let go of with those of others.
const WHAT_IT_HOLDS: [Line; 19] = [
    (Other(Put(0x61)), Number(2)),
    (One(BeginReport), Number(3)),
    (Other(Change(0x62)), Number(5)),
    (Other(Change(0x63)), Number(7)),
    (Flush, Number(7)),
    (Core(Trim(3)), NOTHING_TO_DO),
    (Core(Trim(5)), NOTHING_TO_DO),
    (Core(Trim(2)), Done),
    (Collect, Number(0)),
    (One(Read), Byte(Some(0x61))),
    (One(Commit), Number(3)),
    (One(BeginReport), Number(8)),
    (One(Rollback), Done),
    (Receipts, Number(1)),
    (Core(Trim(5)), Done),
    (Core(Start), Number(5)),
    (Core(CollectOne), Is(true)),
    (LetGo, Number(1)),
    (Core(Clock), Number(8)),
];

#[test]
fn a_report_ends_at_its_begin(rt: HostRuntime) -> Result<(), Fail> {
    let alloc = rt.alloc();
    for lines in [&BESIDE_A_WRITER[..], &AS_ANOTHER[..]] {
        tried_anew(&rt, alloc, OpenGate, Trial::Steps(lines))?;
    }
    Ok(())
}

#[test]
fn a_report_holds_the_tale_alone(rt: HostRuntime) -> Result<(), Fail> {
    tried_anew(&rt, rt.alloc(), OpenGate, Trial::Steps(&WHAT_IT_HOLDS))?;
    Ok(())
}
