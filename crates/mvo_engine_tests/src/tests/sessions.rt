//! What sessions are refused, and the guards.

use super::asking::Ask::{Begin, Commit, Delete, Insert, Put, Read, Rollback, Scan, Update};
use super::day::push_one;
use super::steps::Step::{One, Other};
use super::steps::{Line, follow_beside};
use super::told::Told::{Byte, Deleted, Done, Exists, Inserted, Number, Updated};
use super::told::{
    BUSY, NO_TRANSACTION, NOTHING_TO_DO, TABLE_FULL, WRITE_CONFLICT, called, done, made,
};
use super::trial::{Alone, Trial, tried_anew};
use crate::equal::{holds, same};
use mvo_disk::Disk;
use mvo_engine::{Engine, Gate, MAX_SESSIONS, OpenGate, Run, Session};
use mvo_store::StoreCall;
use mvo_types::{Refusal, Stamp};
use std::alloc::Global;
use std::process::Abort;
use std::sync::Wait;
use std::test::*;

const ASKED: [Line; 25] = [
    // Each call without a transaction is refused.
    (One(Read), NO_TRANSACTION),
    (One(Scan(0, 100)), NO_TRANSACTION),
    (One(Insert(1)), NO_TRANSACTION),
    (One(Update(1)), NO_TRANSACTION),
    (One(Delete), NO_TRANSACTION),
    (One(Commit), NO_TRANSACTION),
    (One(Rollback), NO_TRANSACTION),
    // The operations of a transaction, and one that is rolled back.
    (One(Begin), Number(1)),
    (One(Begin), BUSY),
    (One(Insert(1)), Inserted),
    (One(Insert(2)), Exists),
    (One(Update(3)), Updated),
    (One(Read), Byte(Some(3))),
    (One(Scan(50, 50)), Number(1)),
    (One(Delete), Deleted),
    (One(Rollback), Done),
    (One(Put(4)), Number(3)),
    // A write that conflicts ends the transaction, and the session may begin another.
    (One(Begin), Number(4)),
    (Other(Begin), Number(5)),
    (One(Update(5)), Updated),
    (Other(Update(6)), WRITE_CONFLICT),
    (Other(Read), NO_TRANSACTION),
    (Other(Begin), Number(6)),
    (Other(Rollback), Done),
    (One(Commit), Number(7)),
];

/// What was answered is what a commit finds: of a scan round the row's sort, and of a delete.
const COMMITTED: [Line; 9] = [
    (One(Begin), Number(8)),
    (One(Scan(49, 51)), Number(1)),
    (One(Commit), Number(9)),
    (One(Begin), Number(10)),
    (One(Delete), Deleted),
    (One(Commit), Number(11)),
    (One(Begin), Number(12)),
    (One(Read), Byte(None)),
    (One(Commit), Number(13)),
];

/// Goes through the refusals and answers of a session.
pub fn ask_sessions<L: Run, D: Disk, G: Gate + Drop, R: Abort + Wait>(
    rt: &R,
    alloc: Global,
    engine: &Engine<L, D, G>,
) -> Result<(), Refusal> {
    let mut session = engine.session(rt)?;
    ask_one(rt, alloc, engine, &mut session)
}

fn ask_one<L: Run, D: Disk, G: Gate + Drop, R: Abort + Wait>(
    rt: &R,
    alloc: Global,
    engine: &Engine<L, D, G>,
    session: &mut Session<'_, L, D, G>,
) -> Result<(), Refusal> {
    follow_beside(rt, alloc, engine, session, &ASKED)?;
    guards(rt, engine)?;
    follow_beside(rt, alloc, engine, session, &COMMITTED)
}

// What the guards lend. A session polls while the lock of the store is taken.
fn guards<L: Run, D: Disk, G: Gate + Drop, R: Abort + Wait>(
    rt: &R,
    engine: &Engine<L, D, G>,
) -> Result<(), Refusal> {
    let mut session = engine.session(rt)?;
    same(rt, &engine.lock_core(rt).clock(), &Stamp(7));
    under_the_store(rt, engine, &mut session);
    Ok(())
}

fn under_the_store<L: Run, D: Disk, G: Gate + Drop, R: Abort + Wait>(
    rt: &R,
    engine: &Engine<L, D, G>,
    session: &mut Session<'_, L, D, G>,
) {
    let mut store = engine.lock_store(rt);
    same(rt, &done(store.take()), &NOTHING_TO_DO);
    same(
        rt,
        &called(store.call(StoreCall::AppendBody)),
        &NOTHING_TO_DO,
    );
    same(
        rt,
        &called(store.call(StoreCall::AppendOpen)),
        &NOTHING_TO_DO,
    );
    same(rt, &store.mark(), &Stamp(0));
    holds(rt, session.poll_durable(Stamp(0)));
    store.confirm(session);
}

/// As many sessions as may be are made and kept, and then none.
pub fn make_all<L: Run, D: Disk, G: Gate + Drop, R: Abort + Wait>(
    rt: &R,
    alloc: Global,
    engine: &Engine<L, D, G>,
) -> Result<(), Refusal> {
    let mut sessions = Vec::new(alloc);
    make_each(rt, engine, &mut sessions)
}

fn make_each<'e, L: Run, D: Disk, G: Gate + Drop, R: Abort + Wait>(
    rt: &R,
    engine: &'e Engine<L, D, G>,
    sessions: &mut Vec<Session<'e, L, D, G>>,
) -> Result<(), Refusal> {
    for _ in 0..MAX_SESSIONS {
        push_one(sessions, engine.session(rt))?;
    }
    same(rt, &made(engine.session(rt)), &TABLE_FULL);
    Ok(())
}

#[test]
fn sessions_are_told(rt: HostRuntime) -> Result<(), Fail> {
    tried_anew(&rt, rt.alloc(), OpenGate, Trial::Alone(Alone::Sessions))?;
    Ok(())
}

#[test]
fn no_more_sessions_are_made_than_may_be(rt: HostRuntime) -> Result<(), Fail> {
    tried_anew(&rt, rt.alloc(), OpenGate, Trial::Alone(Alone::AllSessions))?;
    Ok(())
}
