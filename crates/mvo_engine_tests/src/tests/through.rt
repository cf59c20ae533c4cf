//! A row goes from one thread to another, and through a flush.

use super::asking::Ask::{Await, Begin, Find, Poll, Put, Rollback};
use super::rows::put;
use super::steps::Step::{Flush, One, Other};
use super::steps::{Line, follow};
use super::told::Told::{Byte, Done, Is, Number};
use super::trial::{Meeting, Trial, tried, tried_anew};
use crate::equal::{holds, same};
use mvo_disk::Disk;
use mvo_engine::{Engine, Gate, OpenGate, Run, Session};
use mvo_types::{Refusal, Stamp};
use std::alloc::Global;
use std::process::Abort;
use std::sync::Wait;
use std::test::*;
use std::thread::{Threads, join};

/// The other session finds the row, which isn't durable yet.
const FOUND_BESIDE: [Line; 4] = [
    (Other(Begin), Number(3)),
    (Other(Rollback), Done),
    (Other(Find), Byte(Some(0x61))),
    (Other(Poll(2)), Is(false)),
];

/// Finds the row, as an engine over what was flushed has it.
pub const FOUND: [Line; 1] = [(One(Find), Byte(Some(0x61)))];

/// A second session polls the mark that a flush answered.
const POLLED: [Line; 5] = [
    (One(Put(0x61)), Number(2)),
    (Flush, Number(2)),
    (Other(Await(2)), Done),
    (Other(Poll(2)), Is(true)),
    (Other(Poll(3)), Is(false)),
];

/// One thread puts the row, and another reads it. What was put is flushed at the end.
pub fn put_and_find<
    L: Run + Send + Sync,
    D: Disk + Send,
    G: Gate + Drop + Send + Sync,
    R: Abort + Threads + Wait + Sync,
>(rt: &R, alloc: Global, engine: &Engine<L, D, G>) -> Result<(), Refusal> {
    let mut one = engine.session(rt)?;
    let mut two = engine.session(rt)?;
    put_for_another(rt, alloc, engine, &mut one, &mut two)
}

fn put_for_another<
    L: Run + Send + Sync,
    D: Disk + Send,
    G: Gate + Drop + Send + Sync,
    R: Abort + Threads + Wait + Sync,
>(
    rt: &R,
    alloc: Global,
    engine: &Engine<L, D, G>,
    one: &mut Session<'_, L, D, G>,
    two: &mut Session<'_, L, D, G>,
) -> Result<(), Refusal> {
    let end = put_beside(rt, alloc, one)?;
    same(rt, &end, &Stamp(2));
    follow(rt, alloc, engine, one, two, &FOUND_BESIDE);
    let mark = engine.flush(rt)?;
    holds(rt, mark >= Stamp(2));
    holds(rt, one.poll_durable(mark));
    Ok(())
}

/// Puts the row in a thread of its own.
fn put_beside<
    L: Run + Send + Sync,
    D: Disk + Send,
    G: Gate + Drop + Send + Sync,
    R: Threads + Wait + Sync,
>(rt: &R, alloc: Global, session: &mut Session<'_, L, D, G>) -> Result<Stamp, Refusal> {
    let (end, ()) = join(rt, || put(rt, alloc, session, 0x61), || ());
    end
}

#[test]
fn a_row_goes_through(rt: HostRuntime) -> Result<(), Fail> {
    let alloc = rt.alloc();
    let disk = tried_anew(&rt, alloc, OpenGate, Trial::Threads(Meeting::Through))?;
    tried(&rt, alloc, disk, OpenGate, Trial::Steps(&FOUND))?;
    Ok(())
}

#[test]
fn fresh_seat_polls(rt: HostRuntime) -> Result<(), Fail> {
    tried_anew(&rt, rt.alloc(), OpenGate, Trial::Steps(&POLLED))?;
    Ok(())
}
