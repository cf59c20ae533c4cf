//! A service: for a time many sessions replace rows and make each commit durable, of an engine that
//! is kept meanwhile, or isn't.
ghost use Rattle.mvo_engine.specs.Opened.{IsNamedBy};

use crate::rows::{SEED, key_of, load_rows, next_drawn, replace_one, row_of};
use anyhow::{Result, bail};
use mvo_disk::Disk;
use mvo_engine::{Engine, Fresh, OpenGate, Run, Stats, Totals};
use mvo_keep::Policy;
use mvo_types::{Refusal, Stamp};
use std::alloc::Global;
use std::marker::Brand;
use std::sync::Wait;
use std::sync::atomic::{AtomicU64, Ordering};
use std::thread;
use std::thread::Threads;
use std::time::Duration;

/// The first session looks how the engine stands behind so many commits.
const LOOK: u64 = 64;

/// A part of a second in milliseconds, and how many there are.
const PART: u64 = 100;

const PARTS: u64 = 10;

/// What a service does: so many sessions over so many rows commit for so many seconds, while the
/// engine is kept, or isn't.
#[derive(Clone, Copy)]
pub struct Service {
    pub sessions: u64,
    pub seconds: u64,
    pub rows: u64,
    pub keeps: bool,
}

/// What sessions came to: how many commits were made durable, and the most segments and pairs that
/// there were at a look.
#[derive(Clone, Copy)]
pub struct Served {
    pub commits: u64,
    pub segments: usize,
    pub pairs: usize,
}

/// What a service came to, and what its engine counted.
#[derive(Clone, Copy)]
pub struct Told {
    pub served: Served,
    pub totals: Totals,
    pub stats: Stats,
}

impl Served {
    /// No commits yet.
    fn none() -> Served {
        Served {
            commits: 0,
            segments: 0,
            pairs: 0,
        }
    }

    /// Looks how an engine stands.
    fn look(&mut self, stats: &Stats) {
        self.segments = self.segments.max(stats.store.segments);
        self.pairs = self.pairs.max(stats.store.pairs);
    }

    /// What another session came to, too.
    fn add(&mut self, other: Served) {
        self.commits = self.commits.saturating_add(other.commits);
        self.segments = self.segments.max(other.segments);
        self.pairs = self.pairs.max(other.pairs);
    }
}

/// A store on the disk with the rows of the service, in a pair. Answers the mark.
pub fn load<D: Disk + Drop + Send, R: Threads + Wait + Sync>(
    rt: &R,
    alloc: Global,
    disk: D,
    rows: u64,
) -> Result<Stamp> {
    let loaded = match Fresh::open(rt, alloc, SEED, disk) {
        Ok(fresh) => load_in::<Brand, D, R>(rt, alloc, fresh, rows),
        Err((refusal, _disk)) => Err(refusal),
    };
    match loaded {
        Ok(mark) => Ok(mark),
        Err(refusal) => bail!("the rows aren't loaded: {refusal}"),
    }
}

/// Serves over the store on the disk. Answers what that came to.
pub fn serve<D: Disk + Drop + Send, R: Threads + Wait + Sync>(
    rt: &R,
    alloc: Global,
    disk: D,
    service: Service,
) -> Result<Told> {
    let served = match Fresh::open(rt, alloc, SEED, disk) {
        Ok(fresh) => serve_in::<Brand, D, R>(rt, alloc, fresh, service),
        Err((refusal, _disk)) => Err(refusal),
    };
    match served {
        Ok(told) => Ok(told),
        Err(refusal) => bail!("the service is stopped: {refusal}"),
    }
}

/// The loading of every run, which its parts name.
fn load_in<L: Run + Send + Sync, D: Disk + Drop + Send, R: Threads + Wait + Sync>(
    rt: &R,
    alloc: Global,
    fresh: Fresh<D>,
    rows: u64,
) -> Result<Stamp, Refusal>
    requires { IsNamedBy D.Disk L.opening L.marks L.ring L.name L.parts fresh }
{
    let engine = Engine::<L, D, OpenGate>::new(fresh, OpenGate);
    load_rows(rt, alloc, &engine, 0, rows)?;
    engine.rotate(rt)?;
    engine.checkpoint(rt)?;
    engine.flush(rt)
}

/// The service of every run, which its parts name.
fn serve_in<L: Run + Send + Sync, D: Disk + Drop + Send, R: Threads + Wait + Sync>(
    rt: &R,
    alloc: Global,
    fresh: Fresh<D>,
    service: Service,
) -> Result<Told, Refusal>
    requires { IsNamedBy D.Disk L.opening L.marks L.ring L.name L.parts fresh }
{
    let engine = Engine::<L, D, OpenGate>::new(fresh, OpenGate);
    let served = if service.keeps {
        serve_kept(rt, alloc, &engine, service)?
    } else {
        serve_all(rt, alloc, &engine, service)?
    };
    Ok(Told {
        served,
        totals: engine.totals(),
        stats: engine.stats(rt),
    })
}

/// Serves, while one more thread keeps the engine. What stops that is answered, too.
fn serve_kept<L: Run + Send + Sync, D: Disk + Drop + Send, R: Threads + Wait + Sync>(
    rt: &R,
    alloc: Global,
    engine: &Engine<L, D, OpenGate>,
    service: Service,
) -> Result<Served, Refusal> {
    let policy = Policy::standard();
    let over = AtomicU64::new(0);
    let (kept, served) = thread::join(
        rt,
        || engine.keep_until(rt, &policy, &over),
        || {
            let served = serve_all(rt, alloc, engine, service);
            end(&over);
            served
        },
    );
    match kept {
        Ok(()) => served,
        Err(refusal) => Err(refusal),
    }
}

/// Raises a flag, and wakes who waits for it.
fn end(over: &AtomicU64) {
    over.store(1, Ordering::SeqCst);
    over.wake_all();
}

/// The sessions, side by side, until the time is over.
fn serve_all<L: Run + Send + Sync, D: Disk + Drop + Send, R: Threads + Wait + Sync>(
    rt: &R,
    alloc: Global,
    engine: &Engine<L, D, OpenGate>,
    service: Service,
) -> Result<Served, Refusal> {
    let over = AtomicU64::new(0);
    let mut served = Served::none();
    for one in thread::map_indices(
        rt,
        alloc,
        (service.sessions as usize).saturating_add(1),
        &|worker| one_thread(rt, alloc, engine, worker as u64, service, &over),
    )? {
        served.add(one?);
    }
    Ok(served)
}

/// What one thread does: the last one tells the others when the time is over.
fn one_thread<L: Run, D: Disk, R: Wait>(
    rt: &R,
    alloc: Global,
    engine: &Engine<L, D, OpenGate>,
    worker: u64,
    service: Service,
    over: &AtomicU64,
) -> Result<Served, Refusal> {
    if worker < service.sessions {
        return serve_one(rt, alloc, engine, worker, service, over);
    }
    let asleep = AtomicU64::new(0);
    for _ in 0..service.seconds.saturating_mul(PARTS) {
        asleep.park_timeout(rt, 0, Duration::from_millis(PART));
    }
    over.store(1, Ordering::SeqCst);
    Ok(Served::none())
}

/// The commits of one session, until the flag is raised.
fn serve_one<L: Run, D: Disk, R: Wait>(
    rt: &R,
    alloc: Global,
    engine: &Engine<L, D, OpenGate>,
    number: u64,
    service: Service,
    over: &AtomicU64,
) -> Result<Served, Refusal> {
    let mut served = Served::none();
    let mut session = engine.session(rt)?;
    let mut drawn = number;
    for round in 0..u64::MAX {
        if over.load(Ordering::SeqCst) != 0 {
            break;
        }
        drawn = next_drawn(drawn);
        let key = key_of(service.rows, service.sessions, number, drawn);
        replace_one(rt, &mut session, row_of(alloc, key, round)?)?;
        served.commits = round.saturating_add(1);
        if number == 0 && round % LOOK == 0 {
            served.look(&engine.stats(rt));
        }
    }
    Ok(served)
}
