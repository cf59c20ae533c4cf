//! A report over all rows, beside a session that moves amounts between them and flushes without
//! pause.
ghost use Rattle.mvo_engine.specs.Opened.{IsNamedBy};

use crate::adding::{Added, add_up, is_refused};
use crate::checksum::Checksum;
use crate::config::Config;
use crate::figure::Figure;
use crate::filling::load;
use crate::keys::Keys;
use crate::meanwhile::{Counts, Meanwhile};
use crate::moving::Moving;
use crate::shared::Kind;
use crate::stopped::Stopped;
use crate::threads::{Task, formatted, nanos_since, now};
use anyhow::Result;
use mvo_disk::Disk;
use mvo_engine::{Engine, Fresh, OpenGate, Run, Session};
use std::alloc::Global;
use std::marker::Brand;
use std::rt::{Clock, Runtime};
use std::sync::Wait;
use std::thread;
use std::thread::Threads;

const SEED: u64 = 6;

/// So often the report is tried in a transaction that may write.
const ATTEMPTS: u64 = 3;

/// The one that moves, and the one that reports.
const THREADS: usize = 2;

const SECOND: u128 = 1_000_000_000;

/// What came of it: the nanoseconds of the moves alone, what the report came to, and how often it
/// was refused as a transaction that may write.
#[derive(Clone, Copy)]
struct Told {
    alone: u128,
    added: Added,
    refused: u64,
}

/// Adds up all rows in a read-only transaction, and then tries to as often in one that may write.
/// The checksum of the first is the sum of the keys and of the amounts, which no move changes; that
/// of the second is how often it was refused.
pub fn run<R: Runtime + Threads + Wait + Sync>(
    rt: &R,
    alloc: Global,
    config: &Config,
) -> Result<()> {
    let count = config.transactions.saturating_mul(2);
    let keys = Keys::uniform(alloc, config.rows, SEED, count)?;
    let task = Task {
        rows: config.rows,
        data: config.data,
        keys: &keys,
        kind: Kind::Updates,
        count: config.transactions,
        threads: THREADS,
        upkeep: config.upkeep,
        trims: true,
    };
    let notes = Meanwhile::new();
    let told = on_disk(rt, alloc, formatted(alloc)?, task, &notes)?;
    tell(rt, config, told, &notes)
}

fn tell(rt: &impl Runtime, config: &Config, told: Told, notes: &Meanwhile) -> Result<()> {
    let Told {
        alone,
        added,
        refused,
    } = told;
    let Counts { moves, marks } = added.meanwhile;
    let figure = Figure::start(rt, config, "report")?;
    figure.tell_sum(rt, Checksum(added.sum))?;
    Figure::start(rt, config, "report_refused")?.tell_sum(rt, Checksum(refused))?;
    for (what, number) in [
        ("reads_ns", added.reads),
        ("commit_ns", added.commit),
        ("moves_a_second", a_second(moves, added.reads)),
        ("moves_a_second_alone", a_second(config.transactions, alone)),
        ("longest_call_ns", u128::from(notes.longest_reading())),
        (
            "longest_call_beside_commit_ns",
            u128::from(notes.longest_settling()),
        ),
        ("marks", u128::from(marks)),
        ("attempts_refused", u128::from(refused)),
    ] {
        figure.tell_number(rt, what, number)?;
    }
    Ok(())
}

fn a_second(count: u64, nanos: u128) -> u128 {
    let all = u128::from(count).saturating_mul(SECOND);
    all.checked_div(nanos).unwrap_or(0)
}

/// Opens the disk, and runs the threads.
fn on_disk<D: Disk + Drop + Send, R: Clock + Threads + Wait + Sync>(
    rt: &R,
    alloc: Global,
    disk: D,
    task: Task<'_>,
    notes: &Meanwhile,
) -> Result<Told, Stopped> {
    match Fresh::open(rt, alloc, 7, disk) {
        Ok(fresh) => with_engine::<Brand, D, R>(rt, alloc, fresh, task, notes),
        Err((refusal, _)) => Err(Stopped::Refused(refusal)),
    }
}

/// Makes an engine, and runs the threads. It is written for every run, which the parts name.
fn with_engine<L: Run + Send + Sync, D: Disk + Drop + Send, R: Clock + Threads + Wait + Sync>(
    rt: &R,
    alloc: Global,
    fresh: Fresh<D>,
    task: Task<'_>,
    notes: &Meanwhile,
) -> Result<Told, Stopped>
    requires { IsNamedBy D.Disk L.opening L.marks L.ring L.name L.parts fresh }
{
    let engine = Engine::<L, D, OpenGate>::new(fresh, OpenGate);
    on_engine(rt, alloc, &engine, task, notes)
}

/// Loads the rows, and runs the moves alone and then both threads.
fn on_engine<L: Run + Send + Sync, D: Disk + Send, R: Clock + Threads + Wait + Sync>(
    rt: &R,
    alloc: Global,
    engine: &Engine<L, D, OpenGate>,
    task: Task<'_>,
    notes: &Meanwhile,
) -> Result<Told, Stopped> {
    load(rt, alloc, engine, task)?;
    let alone = move_alone(rt, alloc, engine, task, notes)?;
    let (added, refused) = both(rt, alloc, engine, task, notes)?;
    Ok(Told {
        alone,
        added,
        refused,
    })
}

/// The nanoseconds of so many moves while nobody else does anything.
fn move_alone<L: Run, D: Disk, R: Clock + Wait>(
    rt: &R,
    alloc: Global,
    engine: &Engine<L, D, OpenGate>,
    task: Task<'_>,
    notes: &Meanwhile,
) -> Result<u128, Stopped> {
    let mut moving = Moving::new(rt, alloc, engine, task.upkeep)?;
    time_moves(rt, &mut moving, task, notes)
}

/// By this session.
fn time_moves<L: Run, D: Disk, R: Clock + Wait>(
    rt: &R,
    moving: &mut Moving<'_, L, D>,
    task: Task<'_>,
    notes: &Meanwhile,
) -> Result<u128, Stopped> {
    let start = now(rt)?;
    moving.make(rt, task.keys, notes, task.count)?;
    nanos_since(rt, start)
}

/// The report in one thread, and the moves in the other.
fn both<L: Run + Send + Sync, D: Disk + Send, R: Clock + Threads + Wait + Sync>(
    rt: &R,
    alloc: Global,
    engine: &Engine<L, D, OpenGate>,
    task: Task<'_>,
    notes: &Meanwhile,
) -> Result<(Added, u64), Stopped> {
    let mut added = Err(Stopped::Unexpected);
    for told in thread::map_indices(
        rt,
        alloc,
        THREADS,
        &|worker| { one_thread(rt, alloc, engine, task, worker, notes) },
    )? {
        if let Some(one) = told? {
            added = Ok(one);
        }
    }
    added
}

/// What one thread does, until the report is over.
fn one_thread<L: Run, D: Disk, R: Clock + Wait>(
    rt: &R,
    alloc: Global,
    engine: &Engine<L, D, OpenGate>,
    task: Task<'_>,
    worker: usize,
    notes: &Meanwhile,
) -> Result<Option<(Added, u64)>, Stopped> {
    let told = if worker == 0 {
        move_on(rt, alloc, engine, task, notes)
    } else {
        report(rt, engine, task.rows, notes)
    };
    notes.end();
    told
}

fn move_on<L: Run, D: Disk, R: Clock + Wait>(
    rt: &R,
    alloc: Global,
    engine: &Engine<L, D, OpenGate>,
    task: Task<'_>,
    notes: &Meanwhile,
) -> Result<Option<(Added, u64)>, Stopped> {
    let mut moving = Moving::new(rt, alloc, engine, task.upkeep)?;
    moving.make_on(rt, task.keys, notes)?;
    Ok(None)
}

/// What the report came to, and how often it was refused where it might write.
fn report<L: Run, D: Disk, R: Clock + Wait>(
    rt: &R,
    engine: &Engine<L, D, OpenGate>,
    rows: u64,
    notes: &Meanwhile,
) -> Result<Option<(Added, u64)>, Stopped> {
    let mut session = engine.session(rt)?;
    Ok(Some(report_by(rt, &mut session, rows, notes)?))
}

/// Through this session.
fn report_by<L: Run, D: Disk, R: Clock + Wait>(
    rt: &R,
    session: &mut Session<'_, L, D, OpenGate>,
    rows: u64,
    notes: &Meanwhile,
) -> Result<(Added, u64), Stopped> {
    let added = add_up(rt, session, rows, notes)?;
    let mut refused = 0u64;
    for _ in 0..ATTEMPTS {
        if is_refused(rt, session, rows, notes)? {
            refused = refused.saturating_add(1);
        }
    }
    Ok((added, refused))
}
