//! How long durable commits wait beside a job of the store, and for how long its lock is held; and
//! the same of sessions alone, and of the job alone.
mod filling;
mod job;
mod trial;

use crate::folder::{HostDisk, Scratch};
use anyhow::{Result, bail};
use filling::fill;
pub use job::Job;
use mvo_store::format;
use std::rt::Clock;
use std::sync::Wait;
use std::thread::Threads;
use trial::{Told, Trial};

/// How many sessions commit.
const SESSIONS: u64 = 4;

/// Times the sessions and the job, each alone and both at once, where the segment, or each of the
/// two pairs, has so many rows.
pub fn run<R>(rt: &HostRuntime, threads: &R, scratch: &Scratch, job: Job, rows: u64) -> Result<()>
where
    R: Clock + Threads + Wait + Sync,
{
    time_alone(rt, threads, scratch, job, rows)?;
    time_both(rt, threads, scratch, job, rows)
}

/// The sessions, and then the job, over one store.
fn time_alone<R>(
    rt: &HostRuntime,
    threads: &R,
    scratch: &Scratch,
    job: Job,
    rows: u64,
) -> Result<()>
where
    R: Clock + Threads + Wait + Sync,
{
    let sessions = Trial {
        sessions: SESSIONS,
        rows: job.rows_in_all(rows),
        job: None,
    };
    let alone = Trial {
        sessions: 0,
        job: Some(job),
        ..sessions
    };
    fill_store(rt, threads, scratch.disk(rt, "alone")?, job, rows)?;
    tell_sessions(
        rt,
        "alone",
        &try_store(rt, threads, scratch.disk(rt, "alone")?, sessions)?,
    )?;
    tell_job(
        rt,
        job,
        "alone",
        &try_store(rt, threads, scratch.disk(rt, "alone")?, alone)?,
    )
}

/// The sessions beside the job, over another store.
fn time_both<R>(rt: &HostRuntime, threads: &R, scratch: &Scratch, job: Job, rows: u64) -> Result<()>
where
    R: Clock + Threads + Wait + Sync,
{
    let both = Trial {
        sessions: SESSIONS,
        rows: job.rows_in_all(rows),
        job: Some(job),
    };
    fill_store(rt, threads, scratch.disk(rt, "beside")?, job, rows)?;
    let told = try_store(rt, threads, scratch.disk(rt, "beside")?, both)?;
    tell_sessions(rt, "beside it", &told)?;
    tell_job(rt, job, "beside them", &told)
}

/// A new store on the disk, with what there is to do for the job.
fn fill_store<R>(rt: &HostRuntime, threads: &R, disk: HostDisk, job: Job, rows: u64) -> Result<()>
where
    R: Threads + Wait + Sync,
{
    let Ok(disk) = format(rt.alloc(), disk) else {
        bail!("the store isn't made");
    };
    fill(threads, rt.alloc(), disk, job, rows)
}

/// A trial over the store on the disk.
fn try_store<R>(rt: &HostRuntime, threads: &R, disk: HostDisk, trial: Trial) -> Result<Told>
where
    R: Clock + Threads + Wait + Sync,
{
    trial::run(threads, rt.alloc(), disk, trial)
}

/// Tells what the sessions came to.
fn tell_sessions(rt: &HostRuntime, place: &str, told: &Told) -> Result<()> {
    let commits = told.waits.len().saturating_mul(1_000_000_000);
    println!(rt;
        "sessions {place}: {} durable commits a second, 99 of 100 within {} us, each within {} us",
        commits.checked_div(told.nanos).unwrap_or(0),
        told.waits.within(99) / 1_000,
        told.waits.within(100) / 1_000
    )?;
    Ok(())
}

/// Tells what the job took.
fn tell_job(rt: &HostRuntime, job: Job, place: &str, told: &Told) -> Result<()> {
    println!(rt;
        "{} {place}: {} ms, the lock of the store held for {} us at most",
        job.title(),
        told.nanos / 1_000_000,
        told.hold / 1_000
    )?;
    Ok(())
}
