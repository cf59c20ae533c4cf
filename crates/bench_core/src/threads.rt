//! Reads, and two reads and two updates a transaction, through sessions of an engine in several
//! threads, with the upkeep in a thread of its own.
ghost use Rattle.mvo_engine.specs.Opened.{IsNamedBy};

use crate::checksum::Checksum;
use crate::config::Config;
use crate::figure::Figure;
use crate::filling::{load, total};
use crate::keeping::Keeping;
use crate::keys::Keys;
use crate::others::Others;
use crate::shared::{Kind, Work, transact};
use crate::stopped::Stopped;
use anyhow::{Result, bail};
use mvo_disk::{Disk, MemDisk};
use mvo_engine::{Engine, Fresh, OpenGate, Run, Session};
use mvo_store::format;
use mvo_types::Refusal;
use std::alloc::{AllocError, Global};
use std::marker::Brand;
use std::rt::{Clock, Runtime};
use std::sync::Wait;
use std::thread;
use std::thread::Threads;
use std::time::Instant;

const SEED: u64 = 2;

/// The names of the transactions' figure and of the sessions' end.
type Names = (&'static str, &'static str);

/// So many threads, with the names for reads of ten rows, of a hundred, and for updates.
const RUNS: [(usize, Names, Names, Names); 3] = [
    (
        1,
        ("threads_read10_1", "sessions_end_read10_1"),
        ("threads_read100_1", "sessions_end_read100_1"),
        ("threads_1", "sessions_end_1"),
    ),
    (
        2,
        ("threads_read10_2", "sessions_end_read10_2"),
        ("threads_read100_2", "sessions_end_read100_2"),
        ("threads_2", "sessions_end_2"),
    ),
    (
        4,
        ("threads_read10_4", "sessions_end_read10_4"),
        ("threads_read100_4", "sessions_end_read100_4"),
        ("threads_4", "sessions_end_4"),
    ),
];

/// What the threads do: so many transactions in all of that kind.
#[derive(Clone, Copy)]
pub struct Task<'a> {
    pub rows: u64,
    pub data: u64,
    pub keys: &'a Keys,
    pub kind: Kind,
    pub count: u64,
    pub threads: usize,
    pub upkeep: u64,
    pub trims: bool,
}

/// What came of it: the number of transactions, the checksum, the nanoseconds of all transactions,
/// and those in which the sessions let go of their receipts.
#[derive(Clone, Copy)]
struct Done {
    count: u64,
    sum: Checksum,
    nanos: u128,
    end: u128,
}

/// What came of the transactions of each kind.
#[derive(Clone, Copy)]
struct All {
    ten: Done,
    hundred: Done,
    updates: Done,
}

/// A thread's session behind its transactions, and the checksum of what they read. The one that
/// does the upkeep has none.
pub type Ended<'e, L, D> = (Checksum, Option<Session<'e, L, D, OpenGate>>);

/// Runs reads of ten rows and of a hundred a transaction and the transactions of `updates` with
/// one, two and four threads, each time over rows of its own, beside one thread that does the
/// upkeep. The checksum of reads is the sum of the threads' ones. One thread that updates is told
/// the same as the core without an engine, which the checksum shows; the checksum of several is the
/// sum of a number in all rows, which no transaction changes. A session lives as long as the
/// threads; what its end takes is told apart.
pub fn run<R: Runtime + Threads + Wait + Sync>(
    rt: &R,
    alloc: Global,
    config: &Config,
) -> Result<()> {
    let most = config.transactions.max(config.fewer.saturating_mul(50));
    let keys = Keys::uniform(alloc, config.rows, SEED, most.saturating_mul(2))?;
    run_all(rt, alloc, config, &keys)
}

fn run_all<R: Runtime + Threads + Wait + Sync>(
    rt: &R,
    alloc: Global,
    config: &Config,
    keys: &Keys,
) -> Result<()> {
    for (threads, ten, hundred, updates) in RUNS {
        let task = Task {
            rows: config.rows,
            data: config.data,
            keys,
            kind: Kind::Updates,
            count: config.transactions,
            threads,
            upkeep: config.upkeep,
            trims: true,
        };
        let all = on_disk(rt, alloc, formatted(alloc)?, task, config.fewer)?;
        tell(rt, config, ten, all.ten)?;
        tell(rt, config, hundred, all.hundred)?;
        tell(rt, config, updates, all.updates)?;
    }
    Ok(())
}

/// Prints what came of it, for the figures with these names.
fn tell(rt: &impl Runtime, config: &Config, (name, end): Names, done: Done) -> Result<()> {
    let count = done.count;
    let each = |nanos: u128| nanos.checked_div(u128::from(count)).unwrap_or(0);
    let figure = Figure::start(rt, config, name)?;
    figure.tell_sum(rt, done.sum)?;
    figure.tell_nanos(rt, count, each(done.nanos))?;
    Figure::start(rt, config, end)?.tell_nanos(rt, count, each(done.end))
}

/// A disk in memory with a store that has no rows.
pub fn formatted(alloc: Global) -> Result<MemDisk> {
    match format(alloc, new_disk(alloc)?) {
        Ok(disk) => Ok(disk),
        Err((refusal, _)) => bail!("no store is written: {refusal}"),
    }
}

fn new_disk(alloc: Global) -> Result<MemDisk, AllocError> {
    MemDisk::new(alloc)
}

/// Opens the disk, and runs the threads.
fn on_disk<D: Disk + Drop + Send, R: Clock + Threads + Wait + Sync>(
    rt: &R,
    alloc: Global,
    disk: D,
    task: Task<'_>,
    fewer: u64,
) -> Result<All, Stopped> {
    match Fresh::open(rt, alloc, 7, disk) {
        Ok(fresh) => with_engine::<Brand, D, R>(rt, alloc, fresh, task, fewer),
        Err((refusal, _)) => Err(Stopped::Refused(refusal)),
    }
}

/// Makes an engine, and runs the threads. It is written for every run, which the parts name.
fn with_engine<L: Run + Send + Sync, D: Disk + Drop + Send, R: Clock + Threads + Wait + Sync>(
    rt: &R,
    alloc: Global,
    fresh: Fresh<D>,
    task: Task<'_>,
    fewer: u64,
) -> Result<All, Stopped>
    requires { IsNamedBy D.Disk L.opening L.marks L.ring L.name L.parts fresh }
{
    let engine = Engine::<L, D, OpenGate>::new(fresh, OpenGate);
    on_engine(rt, alloc, &engine, task, fewer)
}

/// Loads the rows, and times the transactions of all threads, of each kind.
fn on_engine<L: Run + Send + Sync, D: Disk + Send, R: Clock + Threads + Wait + Sync>(
    rt: &R,
    alloc: Global,
    engine: &Engine<L, D, OpenGate>,
    task: Task<'_>,
    fewer: u64,
) -> Result<All, Stopped> {
    load(rt, alloc, engine, task)?;
    let ten = timed(rt, alloc, engine, task.reading(10, fewer))?;
    let hundred = timed(rt, alloc, engine, task.reading(100, fewer))?;
    let updates = timed(rt, alloc, engine, task)?;
    Ok(All {
        ten,
        hundred,
        updates,
    })
}

impl<'a> Task<'a> {
    /// So many transactions that read so many rows each.
    fn reading(self, rows: u64, count: u64) -> Task<'a> {
        Task {
            kind: Kind::Reads(rows),
            count,
            ..self
        }
    }
}

/// Times the transactions of all threads.
fn timed<L: Run + Send + Sync, D: Disk + Send, R: Clock + Threads + Wait + Sync>(
    rt: &R,
    alloc: Global,
    engine: &Engine<L, D, OpenGate>,
    task: Task<'_>,
) -> Result<Done, Stopped> {
    let start = now(rt)?;
    let told = all_threads(rt, alloc, engine, task)?;
    let nanos = nanos_since(rt, start)?;
    let start = now(rt)?;
    let read = sum_of(told)?;
    let end = nanos_since(rt, start)?;
    let sum = if task.kind == Kind::Updates && task.threads > 1 {
        total(rt, engine, task.rows)?
    } else {
        read
    };
    Ok(Done {
        count: task.count,
        sum,
        nanos,
        end,
    })
}

/// The time now.
pub fn now(rt: &impl Clock) -> Result<Instant, Stopped> {
    match Instant::now(rt) {
        Ok(now) => Ok(now),
        Err(_) => Err(Stopped::Unexpected),
    }
}

/// The nanoseconds since.
pub fn nanos_since(rt: &impl Clock, start: Instant) -> Result<u128, Stopped> {
    match start.elapsed(rt) {
        Ok(time) => Ok(time.as_nanos()),
        Err(_) => Err(Stopped::Unexpected),
    }
}

/// Ends the sessions. The sum of the checksums of all threads. Refused where one of them was.
pub fn sum_of<L: Run, D: Disk>(
    told: Vec<Result<Ended<'_, L, D>, Refusal>>,
) -> Result<Checksum, Refusal> {
    let mut all = 0u64;
    for one in told {
        let (sum, _) = one?;
        all = all.wrapping_add(sum.0);
    }
    Ok(Checksum(all))
}

/// The transactions of all threads, with the session of each one and the checksum of what it read,
/// beside the upkeep. That is the last call, which runs in the thread that there is, so that each
/// of the others takes memory as a thread that was made does.
pub fn all_threads<'e, L: Run + Send + Sync, D: Disk + Send, R: Threads + Wait + Sync>(
    rt: &R,
    alloc: Global,
    engine: &'e Engine<L, D, OpenGate>,
    task: Task<'_>,
) -> Result<Vec<Result<Ended<'e, L, D>, Refusal>>, AllocError> {
    let others = Others::new(task.threads);
    thread::map_indices(
        rt,
        alloc,
        task.threads.saturating_add(1),
        &|worker| { one_thread(rt, alloc, engine, task, worker, &others) },
    )
}

/// What one thread does: the last one the upkeep, and the others the transactions.
fn one_thread<'e, L: Run, D: Disk, R: Wait>(
    rt: &R,
    alloc: Global,
    engine: &'e Engine<L, D, OpenGate>,
    task: Task<'_>,
    worker: usize,
    others: &Others,
) -> Result<Ended<'e, L, D>, Refusal> {
    if worker == task.threads {
        Keeping::new(task.upkeep, task.trims).keep_on(rt, engine, others)?;
        return Ok((Checksum(0), None));
    }
    let ended = through_session(rt, alloc, engine, task, worker);
    others.leave();
    ended
}

/// The transactions of one thread through a session, which it answers.
fn through_session<'e, L: Run, D: Disk, R: Wait>(
    rt: &R,
    alloc: Global,
    engine: &'e Engine<L, D, OpenGate>,
    task: Task<'_>,
    worker: usize,
) -> Result<Ended<'e, L, D>, Refusal> {
    let work = Work {
        kind: task.kind,
        first: worker as u64,
        step: task.threads as u64,
        count: task.count,
    };
    let mut session = engine.session(rt)?;
    let sum = transact(rt, alloc, &mut session, task.keys, work)?;
    Ok((sum, Some(session)))
}
