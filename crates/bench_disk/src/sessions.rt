//! Durable commits of many sessions of one engine, which flush themselves.
ghost use Rattle.mvo_engine.specs.Opened.{IsNamedBy};

use anyhow::{Result, bail};
use mvo_disk::Disk;
use mvo_engine::{Engine, Fresh, OpenGate, Run, Session};
use mvo_types::{Refusal, Row, RowKey, Stamp};
use std::alloc::{AllocError, Global};
use std::marker::Brand;
use std::sync::Wait;
use std::thread;
use std::thread::Threads;

/// The seed of the store's tables.
const SEED: u64 = 7;

/// So many sessions over the store on the disk, each of which commits a transaction of one row of
/// 100 bytes and makes it durable, so many times. Answers the mark at the end.
pub fn run<D: Disk + Drop + Send, R: Threads + Wait + Sync>(
    rt: &R,
    alloc: Global,
    disk: D,
    sessions: usize,
    commits: u64,
) -> Result<Stamp> {
    let told = match Fresh::open(rt, alloc, SEED, disk) {
        Ok(fresh) => run_in::<Brand, D, R>(rt, alloc, fresh, sessions, commits),
        Err((refusal, _disk)) => Err(refusal),
    };
    match told {
        Ok(mark) => Ok(mark),
        Err(refusal) => bail!("the sessions are stopped: {refusal}"),
    }
}

/// The same for every run, which its parts name.
fn run_in<L: Run + Send + Sync, D: Disk + Drop + Send, R: Threads + Wait + Sync>(
    rt: &R,
    alloc: Global,
    fresh: Fresh<D>,
    sessions: usize,
    commits: u64,
) -> Result<Stamp, Refusal>
    requires { IsNamedBy D.Disk L.opening L.marks L.ring L.name L.parts fresh }
{
    let engine = Engine::<L, D, OpenGate>::new(fresh, OpenGate);
    let shared = &engine;
    for one in thread::map_indices(
        rt,
        alloc,
        sessions,
        &|session| commit_all(rt, alloc, shared, session, commits),
    )? {
        one?;
    }
    engine.flush(rt)
}

/// The commits of one session.
fn commit_all<L: Run, D: Disk, R: Wait>(
    rt: &R,
    alloc: Global,
    engine: &Engine<L, D, OpenGate>,
    session: usize,
    commits: u64,
) -> Result<(), Refusal> {
    let first = (session as u64).wrapping_mul(commits);
    let mut session = engine.session(rt)?;
    for number in 0..commits {
        let end = commit_one(rt, alloc, &mut session, first.wrapping_add(number))?;
        session.make_durable(rt, end)?;
    }
    Ok(())
}

fn commit_one<L: Run, D: Disk, R: Wait>(
    rt: &R,
    alloc: Global,
    session: &mut Session<'_, L, D, OpenGate>,
    key: u64,
) -> Result<Stamp, Refusal> {
    session.begin_tx(rt)?;
    session.insert(rt, row_of(alloc, key)?)?;
    session.commit_tx(rt)
}

fn row_of(alloc: Global, key: u64) -> Result<Row, AllocError> {
    Row::new(RowKey { table: 0, key }, key, vec![in alloc; 0x5au8; 100]?)
}
