//! An engine in one call.

use super::{SEED, formatted};
use crate::equal::{holds, same};
use mvo_disk::MemDisk;
use mvo_engine::{Engine, OpenGate, Program, Run, SeenDurable, with_engine};
use mvo_types::{Refusal, Row, RowKey, Stamp};
use std::alloc::Global;
use std::sync::Wait;
use std::test::*;
use std::thread::Threads;

const KEY: RowKey = RowKey { table: 0, key: 5 };

/// Puts a row durably, and is refused behind that where it is told to be. Answers whether a row was
/// there before, and the end.
#[derive(Drop)]
struct Putting {
    alloc: Global,
    is_refused: bool,
}

impl Program<(bool, Stamp), MemDisk> for Putting {
    fn run<L: Run + Send + Sync, R: Threads + Wait + Sync>(
        &self,
        rt: &R,
        engine: &Engine<L, MemDisk, OpenGate>,
        seen: &mut Vec<SeenDurable<L>>,
    ) -> Result<(bool, Stamp), Refusal> {
        let mut session = engine.session(rt)?;
        session.begin_tx(rt)?;
        let was_there = session.put(rt, Row::from_slice(self.alloc, KEY, 50, &[1])?)?;
        let end = session.commit_tx(rt)?;
        engine.flush(rt)?;
        session.wait_durable(rt, end)?;
        seen.push(session.seen())?;
        if self.is_refused {
            return Err(Refusal::BadTable);
        }
        Ok((was_there, end))
    }
}

fn put(
    rt: &(impl Threads + Wait + Sync),
    alloc: Global,
    disk: MemDisk,
    is_refused: bool,
) -> Result<((bool, Stamp), MemDisk), (Refusal, MemDisk)> {
    let putting = Putting { alloc, is_refused };
    with_engine(rt, alloc, SEED, disk, &putting)
}

// What the program gave. The disk comes back.
fn put_once(
    rt: &(impl Threads + Wait + Sync),
    alloc: Global,
    disk: MemDisk,
) -> Result<((bool, Stamp), MemDisk), Fail> {
    match put(rt, alloc, disk, false) {
        Ok(given) => Ok(given),
        Err((refusal, _)) => Err(Fail::from(refusal)),
    }
}

// The refusal of a program that is refused. The disk comes back.
fn put_refused(
    rt: &(impl Threads + Wait + Sync),
    alloc: Global,
    disk: MemDisk,
) -> Result<(Refusal, MemDisk), Fail> {
    match put(rt, alloc, disk, true) {
        Ok(_) => Err(Fail::from(Refusal::NothingToDo)),
        Err(refused) => Ok(refused),
    }
}

/// What a program has made durable is on the disk that comes back, also behind a refusal.
#[test]
fn one_call_gives_the_disk_back(rt: HostRuntime) -> Result<(), Fail> {
    let alloc = rt.alloc();
    let ((was_there, end), disk) = put_once(&rt, alloc, formatted(alloc)?)?;
    holds(&rt, !was_there);
    same(&rt, &end, &Stamp(2));
    let (refusal, disk) = put_refused(&rt, alloc, disk)?;
    same(&rt, &refusal, &Refusal::BadTable);
    let ((was_there, end), _disk) = put_once(&rt, alloc, disk)?;
    holds(&rt, was_there);
    same(&rt, &end, &Stamp(6));
    Ok(())
}
