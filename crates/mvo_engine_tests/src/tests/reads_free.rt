//! A read is answered while the disk is waited for.

use super::formatted;
use super::held_disk::{HeldDisk, Hold};
use super::rows::{found, put};
use super::trial::{Meeting, Trial, tried};
use super::turns::has_come;
use crate::equal::same;
use mvo_disk::Disk;
use mvo_engine::{Engine, Gate, OpenGate, Run, Session};
use mvo_types::{Refusal, Stamp};
use std::alloc::Global;
use std::process::Abort;
use std::sync::Wait;
use std::sync::atomic::Ordering;
use std::test::*;
use std::thread::{Threads, join};

/// One thread flushes, and its sync is held until another's read is answered.
pub fn flush_and_read<
    L: Run + Send + Sync,
    D: Disk + Send,
    G: Gate + Drop + Send + Sync,
    R: Abort + Threads + Wait + Sync,
>(rt: &R, alloc: Global, engine: &Engine<L, D, G>, hold: &Hold) -> Result<(), Refusal> {
    let mut session = engine.session(rt)?;
    put_and_read(rt, alloc, engine, &mut session, hold)
}

// The clock is at 4 behind the flush, since the read's transaction draws two timestamps more.
fn put_and_read<
    L: Run + Send + Sync,
    D: Disk + Send,
    G: Gate + Drop + Send + Sync,
    R: Abort + Threads + Wait + Sync,
>(
    rt: &R,
    alloc: Global,
    engine: &Engine<L, D, G>,
    session: &mut Session<'_, L, D, G>,
    hold: &Hold,
) -> Result<(), Refusal> {
    put(rt, alloc, session, 0x61)?;
    hold.armed.store(1, Ordering::SeqCst);
    let (mark, byte) = read_beside(rt, engine, session, hold);
    same(rt, &mark?, &Stamp(2));
    same(rt, &byte?, &Some(0x61));
    Ok(())
}

fn read_beside<
    L: Run + Send + Sync,
    D: Disk + Send,
    G: Gate + Drop + Send + Sync,
    R: Threads + Wait + Sync,
>(
    rt: &R,
    engine: &Engine<L, D, G>,
    session: &mut Session<'_, L, D, G>,
    hold: &Hold,
) -> (Result<Stamp, Refusal>, Result<Option<u8>, Refusal>) {
    join(
        rt,
        || engine.flush(rt),
        || read_while_held(rt, session, hold),
    )
}

// Waits until a sync is held, reads, and lets it go.
fn read_while_held<L: Run, D: Disk, G: Gate + Drop, R: Wait>(
    rt: &R,
    session: &mut Session<'_, L, D, G>,
    hold: &Hold,
) -> Result<Option<u8>, Refusal> {
    has_come(&hold.held, 1);
    let byte = found(rt, session);
    hold.free.store(1, Ordering::SeqCst);
    byte
}

#[test]
fn disk_wait_leaves_reads_free(rt: HostRuntime) -> Result<(), Fail> {
    let alloc = rt.alloc();
    let hold = Hold::new();
    let disk = HeldDisk {
        disk: formatted(alloc)?,
        hold: &hold,
    };
    let trial = Trial::Threads(Meeting::ReadsFree(&hold));
    tried(&rt, alloc, disk, OpenGate, trial)?;
    same(&rt, &hold.held.load(Ordering::SeqCst), &1);
    same(&rt, &hold.late.load(Ordering::SeqCst), &0);
    Ok(())
}
