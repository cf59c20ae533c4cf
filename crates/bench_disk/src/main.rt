//! Times of a store and its disk. Checksums go to standard output, times to standard error. The
//! first argument says what is timed; with none it's groups, and what opening a store takes.
//!
//! With `groups FOLDER ROUNDS`: durable groups of 1, 100 and 1,000 commits in a folder, beside one
//! raw append of as many bytes with its sync. FOLDER stands in place of one among the temporary
//! files, ROUNDS in place of 20, and neither has to be given.
//!
//! With `open ROWS WORK`: opening a store on a disk in memory. ROWS stands in place of 10,000, and
//! WORK is the one of log, checkpoints, pairs and turn that is to run in place of all; neither has
//! to be given.
//!
//! With `sessions N COMMITS FOLDER`: the durable commits a second of N sessions of an engine, each
//! of which commits so many small transactions one after another and makes each durable.
//!
//! With `kept N SECONDS FOLDER` and with `unkept N SECONDS FOLDER`: the same of N sessions that
//! replace 1,000,000 rows for a time, while one more thread keeps the engine, or none does.
//!
//! With `beside JOB ROWS FOLDER`: how long the durable commits of four sessions wait beside a job
//! of the store, and alone, and what the job takes beside them and alone. JOB is `checkpoint`, of a
//! segment of ROWS rows, or `merge`, of two pairs of ROWS records each. ROWS stands in place of
//! 510,000 and of 1,000,000, and FOLDER needn't be given either.
//!
//! With `through MEBIBYTES FOLDER`: about so many of log through a world over a folder that is kept
//! by a policy of small numbers; its rows are compared at the end.
#![tactic(auto)]

mod beside;
mod folder;
mod groups;
mod kept;
mod opening;
mod raw;
mod rows;
mod sessions;
mod through;
mod times;

use anyhow::{Context, Result, bail};
use beside::Job;
use folder::Scratch;
use kept::{Service, Told};
use mvo_store::format;
use opening::{WORKS, Work};
use std::env;
use std::rt::Clock;
use std::sync::Wait;
use std::thread::Threads;
use std::time::Instant;

const ROUNDS: u64 = 20;

const ROWS: u64 = 10_000;

/// How many rows a service has.
const SERVED_ROWS: u64 = 1_000_000;

fn main(rt: HostRuntime) -> Result<()> {
    let mut words = env::args(&rt)?.skip(1);
    let kind = words.next();
    let (first, second, third) = (words.next(), words.next(), words.next());
    match &kind {
        Some(kind) => run(&rt, &rt, kind.as_str(), (&first, &second, &third)),
        None => run_all(&rt, &rt),
    }
}

/// What the gate looks at.
fn run_all<R>(rt: &HostRuntime, threads: &R) -> Result<()>
where
    R: AllocGlobal + Clock + Eprint + Print + Threads + Sync,
{
    run_groups(rt, threads, &None, ROUNDS)?;
    open_all(threads, ROWS)
}

/// What has this name, with the words behind it.
fn run<R>(
    rt: &HostRuntime,
    threads: &R,
    kind: &str,
    (first, second, third): (&Option<String>, &Option<String>, &Option<String>),
) -> Result<()>
where
    R: AllocGlobal + Clock + Eprint + Print + Threads + Wait + Sync,
{
    match kind {
        "groups" => run_groups(rt, threads, first, number_or(second, ROUNDS)?),
        "open" => run_open(threads, number_or(first, ROWS)?, second),
        "sessions" => run_sessions(rt, threads, third, number(first)?, number(second)?),
        "beside" => run_beside(rt, threads, third, first, second),
        "through" => run_through(rt, threads, second, number(first)?),
        "kept" | "unkept" => {
            let service = Service {
                sessions: number(first)?,
                seconds: number(second)?,
                rows: SERVED_ROWS,
                keeps: kind == "kept",
            };
            run_service(rt, threads, third, service)
        }
        _ => bail!("nothing that is timed has this name"),
    }
}

/// The number that a word is.
fn number(word: &Option<String>) -> Result<u64> {
    let Some(word) = word else {
        bail!("a number is missing");
    };
    word.parse::<u64>().context("a number")
}

/// The same, or another where there is no word.
fn number_or(word: &Option<String>, other: u64) -> Result<u64> {
    match word {
        Some(_) => number(word),
        None => Ok(other),
    }
}

/// The folder for the benchmark's files, in this one or among the temporary files.
fn scratch_in(rt: &HostRuntime, folder: &Option<String>) -> Result<Scratch> {
    match folder {
        Some(folder) => Scratch::under(rt, folder.as_str()),
        None => Scratch::new(rt),
    }
}

/// Times groups of each size.
fn run_groups(
    rt: &HostRuntime,
    threads: &(impl Threads + Sync),
    folder: &Option<String>,
    rounds: u64,
) -> Result<()> {
    let scratch = scratch_in(rt, folder)?;
    let ran = groups_in(rt, threads, &scratch, rounds);
    scratch.remove(rt)?;
    ran
}

/// Each size in a folder of its own.
fn groups_in(
    rt: &HostRuntime,
    threads: &(impl Threads + Sync),
    scratch: &Scratch,
    rounds: u64,
) -> Result<()> {
    for commits in [1, 100, 1_000] {
        groups::run(rt, threads, scratch, rounds, commits)?;
    }
    Ok(())
}

/// Times the opening of stores with so many rows, in one way or in all.
fn run_open<R>(rt: &R, rows: u64, name: &Option<String>) -> Result<()>
where
    R: AllocGlobal + Clock + Eprint + Print + Threads + Sync,
{
    match name {
        Some(name) => opening::run(rt, Work::named(name.as_str())?, rows),
        None => open_all(rt, rows),
    }
}

fn open_all<R>(rt: &R, rows: u64) -> Result<()>
where
    R: AllocGlobal + Clock + Eprint + Print + Threads + Sync,
{
    for work in WORKS {
        opening::run(rt, work, rows)?;
    }
    Ok(())
}

/// Times the durable commits of so many sessions.
fn run_sessions(
    rt: &HostRuntime,
    threads: &(impl Threads + Wait + Sync),
    folder: &Option<String>,
    count: u64,
    commits: u64,
) -> Result<()> {
    let scratch = scratch_in(rt, folder)?;
    let ran = time_sessions(rt, threads, &scratch, count, commits);
    scratch.remove(rt)?;
    ran
}

fn time_sessions(
    rt: &HostRuntime,
    threads: &(impl Threads + Wait + Sync),
    scratch: &Scratch,
    count: u64,
    commits: u64,
) -> Result<()> {
    let Ok(disk) = format(rt.alloc(), scratch.disk(rt, "sessions")?) else {
        bail!("the store isn't made");
    };
    let start = Instant::now(rt)?;
    let mark = sessions::run(threads, rt.alloc(), disk, count as usize, commits)?;
    let nanos = start.elapsed(rt)?.as_nanos();
    println!(rt; "{count} sessions: mark {mark}")?;
    let all = u128::from(count.saturating_mul(commits)).saturating_mul(1_000_000_000);
    let rate = all.checked_div(nanos).unwrap_or(0);
    eprintln!(rt; "{count} sessions: {rate} durable commits a second")?;
    Ok(())
}

/// The durable commits of a service.
fn run_service(
    rt: &HostRuntime,
    threads: &(impl Threads + Wait + Sync),
    folder: &Option<String>,
    service: Service,
) -> Result<()> {
    let scratch = scratch_in(rt, folder)?;
    let ran = time_service(rt, threads, &scratch, service);
    scratch.remove(rt)?;
    ran
}

fn time_service(
    rt: &HostRuntime,
    threads: &(impl Threads + Wait + Sync),
    scratch: &Scratch,
    service: Service,
) -> Result<()> {
    let Ok(disk) = format(rt.alloc(), scratch.disk(rt, "service")?) else {
        bail!("the store isn't made");
    };
    kept::load(threads, rt.alloc(), disk, service.rows)?;
    eprintln!(rt; "loaded")?;
    let disk = scratch.disk(rt, "service")?;
    let told = kept::serve(threads, rt.alloc(), disk, service)?;
    tell_service(rt, service, &told)
}

fn tell_service(rt: &HostRuntime, service: Service, told: &Told) -> Result<()> {
    let (served, totals, store) = (&told.served, &told.totals, &told.stats.store);
    let rate = served.commits.checked_div(service.seconds).unwrap_or(0);
    println!(rt;
        "{} sessions: {rate} durable commits a second",
        service.sessions
    )?;
    println!(rt;
        "{} commits in {} groups, {} bytes of log",
        store.grouped, totals.groups, store.log_bytes
    )?;
    println!(rt;
        "{} rotations, {} checkpoints, {} merges; {} segments and {} pairs at most",
        totals.rotations, totals.checkpoints, totals.merges, served.segments, served.pairs
    )?;
    Ok(())
}

/// Times durable commits beside a job.
fn run_beside(
    rt: &HostRuntime,
    threads: &(impl Clock + Threads + Wait + Sync),
    folder: &Option<String>,
    name: &Option<String>,
    rows: &Option<String>,
) -> Result<()> {
    let Some(name) = name else {
        bail!("the name of a job is missing");
    };
    let job = Job::named(name.as_str())?;
    let rows = number_or(rows, job.rows())?;
    let scratch = scratch_in(rt, folder)?;
    let ran = beside::run(rt, threads, &scratch, job, rows);
    scratch.remove(rt)?;
    ran
}

/// Brings so much log through a kept world, and says what that came to.
fn run_through(
    rt: &HostRuntime,
    threads: &(impl Threads + Sync),
    folder: &Option<String>,
    mebibytes: u64,
) -> Result<()> {
    let scratch = scratch_in(rt, folder)?;
    let ran = bring_through(rt, threads, &scratch, mebibytes);
    scratch.remove(rt)?;
    ran
}

fn bring_through(
    rt: &HostRuntime,
    threads: &(impl Threads + Sync),
    scratch: &Scratch,
    mebibytes: u64,
) -> Result<()> {
    let Ok(disk) = format(rt.alloc(), scratch.disk(rt, "through")?) else {
        bail!("the store isn't made");
    };
    let through = through::run(threads, rt.alloc(), disk, mebibytes)?;
    println!(rt;
        "{} bytes of log, {} segments and {} pairs at most, {} checkpoints, {} merges",
        through.bytes, through.segments, through.pairs, through.checkpoints, through.merges
    )?;
    Ok(())
}
