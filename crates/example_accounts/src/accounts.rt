//! What is done with the engine: the accounts are made, eight threads transfer while another keeps
//! the memory and the log steady and a third one reports, and all is counted, gathered and audited,
//! and counted over the disk opened again.
ghost use Rattle.mvo_engine.specs.Opened.{IsNamedBy};

use crate::reports::report_all;
use crate::transfers::{ACCOUNTS, START, TIMES, Transfer, row_of, total_of};
use crate::upkeep::{is_let_go, keep_up};
use anyhow::bail;
use mvo_disk::{Disk, MemDisk};
use mvo_engine::{
    CoreGuard, Engine, Fresh, Gathered, OpenGate, Receipt, Run, SeenDurable, Session, gather,
};
use mvo_store::format;
use mvo_types::{Refusal, Stamp};
use std::alloc::{AllocError, Global};
use std::marker::Brand;
use std::sync::Wait;
use std::sync::atomic::{AtomicU64, Ordering};
use std::thread;
use std::thread::Threads;

/// How many threads transfer, and how often each does.
const WORKERS: usize = 8;

const TRANSFERS: u64 = 250;

/// What came of it.
#[derive(Drop)]
pub struct Told {
    pub transfers: usize,
    pub total: u64,
    /// What each report has added up; none where two differ.
    pub report: Option<u64>,
    pub durable: bool,
    /// Whether all that could be asked for only before is gone from memory and from the log.
    pub let_go: bool,
    /// Whether all sessions have as many receipts of what is stored as commits are stored.
    pub receipts: bool,
}

/// A disk in memory with a store that has no rows.
pub fn formatted(alloc: Global) -> Result<MemDisk, anyhow::Error> {
    match format(alloc, new_disk(alloc)?) {
        Ok(disk) => Ok(disk),
        Err((refusal, _)) => bail!("no store is written: {refusal}"),
    }
}

fn new_disk(alloc: Global) -> Result<MemDisk, AllocError> {
    MemDisk::new(alloc)
}

/// Opens the disk, and has all threads transfer. The disk comes back.
pub fn on_disk<D: Disk + Drop + Send, R: Threads + Wait + Sync>(
    rt: &R,
    alloc: Global,
    seed: u64,
    disk: D,
) -> Result<(Told, D), Refusal> {
    match Fresh::open(rt, alloc, seed, disk) {
        Ok(fresh) => run::<Brand, D, R>(rt, alloc, fresh),
        Err((refusal, _)) => Err(refusal),
    }
}

/// Opens the disk, and counts what all accounts have.
pub fn total_on_disk<D: Disk + Drop, R: Threads + Wait + Sync>(
    rt: &R,
    alloc: Global,
    seed: u64,
    disk: D,
) -> Result<u64, Refusal> {
    match Fresh::open(rt, alloc, seed, disk) {
        Ok(fresh) => run_total::<Brand, D, R>(rt, fresh),
        Err((refusal, _)) => Err(refusal),
    }
}

fn run_total<L: Run, D: Disk + Drop, R: Wait>(rt: &R, fresh: Fresh<D>) -> Result<u64, Refusal>
    requires { IsNamedBy D.Disk L.opening L.marks L.ring L.name L.parts fresh }
{
    let engine = Engine::<L, D, OpenGate>::new(fresh, OpenGate);
    let mut session = engine.session(rt)?;
    total(rt, &mut session)
}

/// Makes an engine and the accounts, has all threads transfer, and counts. It is written for every
/// run, which the parts name.
fn run<L: Run + Send + Sync, D: Disk + Drop + Send, R: Threads + Wait + Sync>(
    rt: &R,
    alloc: Global,
    fresh: Fresh<D>,
) -> Result<(Told, D), Refusal>
    requires { IsNamedBy D.Disk L.opening L.marks L.ring L.name L.parts fresh }
{
    let engine = Engine::<L, D, OpenGate>::new(fresh, OpenGate);
    let (told, seen) = go(rt, alloc, &engine)?;
    // No commit is missing on the disk that a session was told to be durable.
    Ok((told, engine.into_disk(seen)))
}

fn go<L: Run + Send + Sync, D: Disk + Drop + Send, R: Threads + Wait + Sync>(
    rt: &R,
    alloc: Global,
    engine: &Engine<L, D, OpenGate>,
) -> Result<(Told, Vec<SeenDurable<L>>), Refusal> {
    let mut session = engine.session(rt)?;
    open_accounts(rt, alloc, &mut session)?;
    let (worked, reported) = transfers(rt, alloc, engine)?;
    let mut sessions = Vec::new(alloc);
    let (transfers, durable) = ask_all(worked, &mut sessions)?;
    let (reporter, report) = reported;
    sessions.push(reporter)?;
    let total = total(rt, &mut session)?;
    sessions.push(session)?;
    let seen = seen_by(alloc, &mut sessions)?;
    let receipts = gather_all(rt, alloc, engine, sessions)?;
    let told = Told {
        transfers,
        total,
        report,
        durable,
        let_go: is_let_go(rt, engine)?,
        receipts,
    };
    Ok((told, seen))
}

/// How far each session has seen commits to be durable.
fn seen_by<L: Run, D: Disk>(
    alloc: Global,
    sessions: &mut [Session<'_, L, D, OpenGate>],
) -> Result<Vec<SeenDurable<L>>, AllocError> {
    let mut seen = Vec::new(alloc);
    for session in sessions {
        seen.push(session.seen())?;
    }
    Ok(seen)
}

/// The sessions of the threads that transferred, with how many each made, and where its last one
/// ended; and the session that reported, with what its reports added up.
type Worked<'e, L, D> = (
    Vec<(Session<'e, L, D, OpenGate>, usize, Stamp)>,
    (Session<'e, L, D, OpenGate>, Option<u64>),
);

/// The transfers of all threads. Meanwhile another thread makes checkpoints and merges, trims and
/// collects, and a third one reports.
fn transfers<'e, L: Run + Send + Sync, D: Disk + Send, R: Threads + Wait + Sync>(
    rt: &R,
    alloc: Global,
    engine: &'e Engine<L, D, OpenGate>,
) -> Result<Worked<'e, L, D>, Refusal> {
    let over = AtomicU64::new(0);
    let (worked, (kept_up, reported)) = thread::join(
        rt,
        || {
            let worked = work_all(rt, alloc, engine);
            over.store(1, Ordering::SeqCst);
            worked
        },
        || {
            thread::join(
                rt,
                || keep_up(rt, engine, &over),
                || report_all(rt, engine, &over),
            )
        },
    );
    kept_up?;
    Ok((worked?, reported?))
}

fn work_all<'e, L: Run + Send + Sync, D: Disk + Send, R: Threads + Wait + Sync>(
    rt: &R,
    alloc: Global,
    engine: &'e Engine<L, D, OpenGate>,
) -> Result<Vec<(Session<'e, L, D, OpenGate>, usize, Stamp)>, Refusal> {
    let all = thread::map_indices(
        rt,
        alloc,
        WORKERS,
        &|worker| work(rt, alloc, engine, worker as u64),
    )?;
    let mut worked = Vec::new(alloc);
    for one in all {
        worked.push(one?)?;
    }
    Ok(worked)
}

/// Makes the accounts, in one transaction.
fn open_accounts<L: Run, D: Disk, R: Wait>(
    rt: &R,
    alloc: Global,
    session: &mut Session<'_, L, D, OpenGate>,
) -> Result<Stamp, Refusal> {
    session.begin_tx(rt)?;
    for account in 0..ACCOUNTS {
        session.insert(rt, row_of(alloc, account, START)?)?;
    }
    session.commit_tx(rt)
}

/// The transfers of one thread, each durable before the next: its session, how many they are, and
/// where the last one ended.
fn work<'e, L: Run, D: Disk, R: Wait>(
    rt: &R,
    alloc: Global,
    engine: &'e Engine<L, D, OpenGate>,
    worker: u64,
) -> Result<(Session<'e, L, D, OpenGate>, usize, Stamp), Refusal> {
    let mut session = engine.session(rt)?;
    let mut made = 0usize;
    let mut last = Stamp(0);
    for number in 0..TRANSFERS {
        let transfer = choice(alloc, worker, number);
        if let Some(end) = session.transact(rt, TIMES, &transfer)?.end {
            session.make_durable(rt, end)?;
            made = made.saturating_add(1);
            last = end;
        }
    }
    Ok((session, made, last))
}

/// Which transfer a worker makes.
fn choice(alloc: Global, worker: u64, number: u64) -> Transfer {
    let from = (worker
        .wrapping_mul(31)
        .wrapping_add(number.wrapping_mul(17)))
        % ACCOUNTS;
    let to = (from
        .wrapping_add(1)
        .wrapping_add(number.wrapping_mul(7) % 98))
        % ACCOUNTS;
    Transfer {
        alloc,
        from,
        to,
        amount: number % 10,
    }
}

/// How many transfers these sessions have made, and whether all are durable. The sessions go into
/// the list.
fn ask_all<'e, L: Run, D: Disk>(
    worked: Vec<(Session<'e, L, D, OpenGate>, usize, Stamp)>,
    sessions: &mut Vec<Session<'e, L, D, OpenGate>>,
) -> Result<(usize, bool), Refusal> {
    let mut transfers = 0usize;
    let mut durable = true;
    for (session, made, last) in worked {
        let mut session = session;
        transfers = transfers.saturating_add(made);
        durable &= session.poll_durable(last);
        sessions.push(session)?;
    }
    Ok((transfers, durable))
}

/// What all accounts have, as one scan finds it. All is durable then.
fn total<L: Run, D: Disk, R: Wait>(
    rt: &R,
    session: &mut Session<'_, L, D, OpenGate>,
) -> Result<u64, Refusal> {
    session.begin_tx(rt)?;
    let total = total_of(&session.rows(rt, 0, 0, ACCOUNTS)?);
    let end = session.commit_tx(rt)?;
    session.make_durable(rt, end)?;
    Ok(total)
}

/// Whether all sessions have as many receipts of what is stored as commits are stored: they were
/// told of each once. Log and history agree.
fn gather_all<L: Run, D: Disk + Drop, R: Wait>(
    rt: &R,
    alloc: Global,
    engine: &Engine<L, D, OpenGate>,
    sessions: Vec<Session<'_, L, D, OpenGate>>,
) -> Result<bool, Refusal> {
    let mut core = engine.lock_core(rt);
    let gathered = match gather(&mut core, alloc, sessions) {
        Ok(Gathered::All(receipts)) => Ok(above_start(&core, &receipts) == stored(&core)),
        Ok(Gathered::Missing(_sessions)) => Ok(false),
        Err((refusal, _sessions)) => Err(refusal),
    };
    let mut store = engine.lock_store(rt);
    engine.audit(&mut core, &mut store);
    gathered
}

/// How many of the receipts end above the start of the tale: sessions forget the others.
fn above_start<L: Run>(core: &CoreGuard<'_, L>, receipts: &[Receipt]) -> u64 {
    let start = core.tale_start();
    let mut count = 0u64;
    for receipt in receipts {
        if start < receipt.end {
            count = count.wrapping_add(1);
        }
    }
    count
}

/// How many commits are stored there.
fn stored<L: Run>(core: &CoreGuard<'_, L>) -> u64 {
    let start = core.tale_start();
    let tale = core.tale();
    let mut count = 0u64;
    for place in 0..tale.len() {
        if let Some(entry) = tale.get(place) {
            if start < entry.end {
                count = count.wrapping_add(1);
            }
        }
    }
    count
}
