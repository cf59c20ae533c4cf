use crate::config::Config;
use crate::figure::Figure;
use crate::session::{MOST, Session};
use crate::times::Times;
use crate::upkeep::MOST as MOST_COLLECTED;
use anyhow::{Result, bail};
use mvo_types::{Row, TxId};
use std::thread::Threads;
use std::time::Instant;

/// Each call is made in so many rounds, and the least of its times counts: other programs stop a
/// call too, but seldom the same one.
const ROUNDS: usize = 5;

/// So many rows a transaction.
const EACH: u64 = 100;

/// The longest single call of the core while the rows are inserted into one that has none, those of
/// the upkeep among them.
pub fn run(rt: &HostRuntime, threads: &(impl Threads + Sync), config: &Config) -> Result<()> {
    let mut times = Times::new(rt.alloc());
    run_rounds(rt, threads, config, &mut times)
}

fn run_rounds(
    rt: &HostRuntime,
    threads: &(impl Threads + Sync),
    config: &Config,
    times: &mut Times,
) -> Result<()> {
    for _ in 0..ROUNDS {
        times.restart();
        run_round(rt, threads, config, times)?;
    }
    Figure::start(rt, config, "longest_call")?.tell_nanos(rt, times.calls(), times.longest())
}

/// Inserts the rows into a core of its own.
fn run_round(
    rt: &HostRuntime,
    threads: &(impl Threads + Sync),
    config: &Config,
    times: &mut Times,
) -> Result<()> {
    let mut session = Session::new(threads, rt.alloc(), config.upkeep)?;
    insert_all(rt, config, &mut session, times)
}

fn insert_all(
    rt: &HostRuntime,
    config: &Config,
    session: &mut Session,
    times: &mut Times,
) -> Result<()> {
    for batch in 0..config.rows / EACH {
        let from = batch.saturating_mul(EACH);
        let tx = begin(rt, session, times)?;
        for key in from..from.saturating_add(EACH) {
            let row = session.draft.loaded(key, config.data)?;
            insert(rt, session, times, tx, row)?;
        }
        commit(rt, session, times, tx)?;
        if session.is_due() {
            keep_up(rt, session, times)?;
        }
    }
    Ok(())
}

fn begin(rt: &HostRuntime, session: &mut Session, times: &mut Times) -> Result<TxId> {
    let start = Instant::now(rt)?;
    let tx = session.begin()?;
    times.note(start.elapsed(rt)?)?;
    Ok(tx)
}

fn insert(
    rt: &HostRuntime,
    session: &mut Session,
    times: &mut Times,
    tx: TxId,
    row: Row,
) -> Result<()> {
    let start = Instant::now(rt)?;
    session.insert(tx, row)?;
    times.note(start.elapsed(rt)?)
}

fn commit(rt: &HostRuntime, session: &mut Session, times: &mut Times, tx: TxId) -> Result<()> {
    let start = Instant::now(rt)?;
    session.precommit(tx)?;
    times.note(start.elapsed(rt)?)?;
    validate(rt, session, times, tx)?;
    let start = Instant::now(rt)?;
    session.settle(tx)?;
    times.note(start.elapsed(rt)?)?;
    finish(rt, session, times, tx)
}

fn validate(rt: &HostRuntime, session: &mut Session, times: &mut Times, tx: TxId) -> Result<()> {
    for _ in 0..MOST {
        if validate_one(rt, session, times, tx)? {
            return Ok(());
        }
    }
    bail!("a transaction has too many entries")
}

fn validate_one(
    rt: &HostRuntime,
    session: &mut Session,
    times: &mut Times,
    tx: TxId,
) -> Result<bool> {
    let start = Instant::now(rt)?;
    let is_valid = session.validate_one(tx)?;
    times.note(start.elapsed(rt)?)?;
    Ok(is_valid)
}

fn finish(rt: &HostRuntime, session: &mut Session, times: &mut Times, tx: TxId) -> Result<()> {
    for _ in 0..MOST {
        if finish_one(rt, session, times, tx)? {
            return Ok(());
        }
    }
    bail!("a transaction has too many words")
}

fn finish_one(
    rt: &HostRuntime,
    session: &mut Session,
    times: &mut Times,
    tx: TxId,
) -> Result<bool> {
    let start = Instant::now(rt)?;
    let is_done = session.finish_one(tx)?;
    times.note(start.elapsed(rt)?)?;
    Ok(is_done)
}

/// A turn of the upkeep, call by call.
fn keep_up(rt: &HostRuntime, session: &mut Session, times: &mut Times) -> Result<()> {
    let start = Instant::now(rt)?;
    session.close_group()?;
    times.note(start.elapsed(rt)?)?;
    let start = Instant::now(rt)?;
    session.trim()?;
    times.note(start.elapsed(rt)?)?;
    for _ in 0..MOST_COLLECTED {
        if !collect_one(rt, session, times)? {
            return Ok(());
        }
    }
    Ok(())
}

fn collect_one(rt: &HostRuntime, session: &mut Session, times: &mut Times) -> Result<bool> {
    let start = Instant::now(rt)?;
    let is_collected = session.collect_one();
    times.note(start.elapsed(rt)?)?;
    Ok(is_collected)
}
