//! Two sessions that update, beside a read-only transaction that is open and does nothing, and
//! without it, in turn. Nothing is trimmed in either case.
ghost use Rattle.mvo_engine.specs.Opened.{IsNamedBy};

use crate::checksum::Checksum;
use crate::config::Config;
use crate::figure::Figure;
use crate::filling::{load, total};
use crate::keys::Keys;
use crate::shared::Kind;
use crate::stopped::Stopped;
use crate::threads::{Task, all_threads, formatted, nanos_since, now, sum_of};
use anyhow::Result;
use mvo_disk::Disk;
use mvo_engine::{Engine, Fresh, OpenGate, Run, Session};
use mvo_types::TxId;
use std::alloc::Global;
use std::marker::Brand;
use std::rt::{Clock, Runtime};
use std::sync::Wait;
use std::thread::Threads;

const SEED: u64 = 2;

/// So often both are run.
const ROUNDS: u32 = 3;

const THREADS: usize = 2;

/// Prints in each round what a transaction takes either way, and how many thousandths of the first
/// the second is. The checksum is the sum of a number in all rows, which no transaction changes.
pub fn run<R: Runtime + Threads + Wait + Sync>(
    rt: &R,
    alloc: Global,
    config: &Config,
) -> Result<()> {
    let count = config.transactions.saturating_mul(2);
    let keys = Keys::uniform(alloc, config.rows, SEED, count)?;
    let task = Task {
        rows: config.rows,
        data: config.data,
        keys: &keys,
        kind: Kind::Updates,
        count: config.transactions,
        threads: THREADS,
        upkeep: config.upkeep,
        trims: false,
    };
    run_rounds(rt, alloc, config, task)
}

fn run_rounds<R: Runtime + Threads + Wait + Sync>(
    rt: &R,
    alloc: Global,
    config: &Config,
    task: Task<'_>,
) -> Result<()> {
    let mut sum = Checksum(0);
    for _ in 0..ROUNDS {
        let alone = run_one(rt, alloc, config, task, ("beside_nobody", false), &mut sum)?;
        let beside = run_one(rt, alloc, config, task, ("beside_reader", true), &mut sum)?;
        let thousandths = beside.saturating_mul(1_000).checked_div(alone).unwrap_or(0);
        Figure::start(rt, config, "beside_ratio")?.tell_number(rt, "thousandths", thousandths)?;
    }
    Figure::start(rt, config, "beside_reader")?.tell_sum(rt, sum)
}

/// The nanoseconds of all transactions, over rows of their own. Each time the checksum is added.
fn run_one<R: Runtime + Threads + Wait + Sync>(
    rt: &R,
    alloc: Global,
    config: &Config,
    task: Task<'_>,
    (name, is_beside): (&str, bool),
    sum: &mut Checksum,
) -> Result<u128> {
    let (one, nanos) = on_disk(rt, alloc, formatted(alloc)?, task, is_beside)?;
    *sum = one;
    let each = nanos.checked_div(u128::from(task.count)).unwrap_or(0);
    Figure::start(rt, config, name)?.tell_nanos(rt, task.count, each)?;
    Ok(nanos)
}

/// Opens the disk, and runs the threads.
fn on_disk<D: Disk + Drop + Send, R: Clock + Threads + Wait + Sync>(
    rt: &R,
    alloc: Global,
    disk: D,
    task: Task<'_>,
    is_beside: bool,
) -> Result<(Checksum, u128), Stopped> {
    match Fresh::open(rt, alloc, 7, disk) {
        Ok(fresh) => with_engine::<Brand, D, R>(rt, alloc, fresh, task, is_beside),
        Err((refusal, _)) => Err(Stopped::Refused(refusal)),
    }
}

/// Makes an engine, and runs the threads. It is written for every run, which the parts name.
fn with_engine<L: Run + Send + Sync, D: Disk + Drop + Send, R: Clock + Threads + Wait + Sync>(
    rt: &R,
    alloc: Global,
    fresh: Fresh<D>,
    task: Task<'_>,
    is_beside: bool,
) -> Result<(Checksum, u128), Stopped>
    requires { IsNamedBy D.Disk L.opening L.marks L.ring L.name L.parts fresh }
{
    let engine = Engine::<L, D, OpenGate>::new(fresh, OpenGate);
    on_engine(rt, alloc, &engine, task, is_beside)
}

/// Loads the rows, and runs the threads. The checksum, and the nanoseconds of all transactions.
fn on_engine<L: Run + Send + Sync, D: Disk + Send, R: Clock + Threads + Wait + Sync>(
    rt: &R,
    alloc: Global,
    engine: &Engine<L, D, OpenGate>,
    task: Task<'_>,
    is_beside: bool,
) -> Result<(Checksum, u128), Stopped> {
    load(rt, alloc, engine, task)?;
    let nanos = run_threads(rt, alloc, engine, task, is_beside)?;
    Ok((total(rt, engine, task.rows)?, nanos))
}

/// Times the transactions of all threads, beside an open one where that is asked for.
fn run_threads<L: Run + Send + Sync, D: Disk + Send, R: Clock + Threads + Wait + Sync>(
    rt: &R,
    alloc: Global,
    engine: &Engine<L, D, OpenGate>,
    task: Task<'_>,
    is_beside: bool,
) -> Result<u128, Stopped> {
    if !is_beside {
        return timed(rt, alloc, engine, task);
    }
    let mut reader = engine.session(rt)?;
    beside(rt, alloc, engine, &mut reader, task)
}

/// The same beside this session's.
fn beside<L: Run + Send + Sync, D: Disk + Send, R: Clock + Threads + Wait + Sync>(
    rt: &R,
    alloc: Global,
    engine: &Engine<L, D, OpenGate>,
    reader: &mut Session<'_, L, D, OpenGate>,
    task: Task<'_>,
) -> Result<u128, Stopped> {
    let begin = reader.begin_read_only(rt)?;
    let nanos = timed(rt, alloc, engine, task)?;
    end_reader(rt, engine, reader, begin)?;
    Ok(nanos)
}

fn timed<L: Run + Send + Sync, D: Disk + Send, R: Clock + Threads + Wait + Sync>(
    rt: &R,
    alloc: Global,
    engine: &Engine<L, D, OpenGate>,
    task: Task<'_>,
) -> Result<u128, Stopped> {
    let start = now(rt)?;
    let told = all_threads(rt, alloc, engine, task)?;
    let nanos = nanos_since(rt, start)?;
    sum_of(told)?;
    Ok(nanos)
}

/// Groups were closed beside the reader and are durable, far above its begin, where it ends.
fn end_reader<L: Run, D: Disk, R: Wait>(
    rt: &R,
    engine: &Engine<L, D, OpenGate>,
    reader: &mut Session<'_, L, D, OpenGate>,
    begin: TxId,
) -> Result<(), Stopped> {
    let mark = engine.flush(rt)?;
    let is_durable = mark.0 > begin.0 && reader.poll_durable(mark);
    let end = reader.commit_tx(rt)?;
    if is_durable && end.0 == begin.0 {
        Ok(())
    } else {
        Err(Stopped::Unexpected)
    }
}
