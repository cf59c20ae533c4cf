//! Times of the event core under the workloads that `bench/peers` gives other stores: the same
//! keys, rows and loops, so that the checksums on standard output are theirs. One line of JSON for
//! each figure goes to standard error. An argument is NAME=NUMBER or the name of a workload;
//! without a workload all of them run.
#![tactic(auto)]

mod adding;
mod beside;
mod checksum;
mod config;
mod crowd;
mod draft;
mod figure;
mod filling;
mod folder;
mod hot;
mod keeping;
mod keys;
mod lasting;
mod load;
mod meanwhile;
mod mixed;
mod moving;
mod others;
mod part;
mod parts;
mod power;
mod read_only;
mod reads;
mod report;
mod resident;
mod rows;
mod scans;
mod session;
mod shared;
mod stalls;
mod steady;
mod stopped;
mod threads;
mod times;
mod updates;
mod upkeep;
mod worn;
mod zipf;

use anyhow::Result;
use config::{Config, Work};
use part::PARTS;
use session::Session;
use std::rt::Runtime;
use std::sync::Wait;
use std::thread::Threads;

fn main(rt: HostRuntime) -> Result<()> {
    let config = Config::given(&rt)?;
    run(&rt, &rt, &config)
}

fn run<R: Runtime + Threads + Wait + Sync>(
    rt: &HostRuntime,
    threads: &R,
    config: &Config,
) -> Result<()> {
    if config.loads() {
        run_on(rt, threads, config)?;
    }
    run_apart(rt, threads, config)?;
    for part in PARTS {
        if config.has_part(part) {
            parts::run(rt, threads, config, part)?;
        }
    }
    Ok(())
}

/// What runs on one core, which is loaded first.
fn run_on(rt: &HostRuntime, threads: &(impl Threads + Sync), config: &Config) -> Result<()> {
    let mut session = Session::new(threads, rt.alloc(), config.upkeep)?;
    run_with(rt, config, &mut session)
}

fn run_with(rt: &HostRuntime, config: &Config, session: &mut Session) -> Result<()> {
    load::run(rt, config, session)?;
    run_plain(rt, config, session)?;
    run_beside_old(rt, config, session)
}

/// What loads rows of its own.
fn run_apart<R: Runtime + Threads + Wait + Sync>(
    rt: &HostRuntime,
    threads: &R,
    config: &Config,
) -> Result<()> {
    if config.has(Work::Stalls) {
        stalls::run(rt, threads, config)?;
    }
    if config.has(Work::Threads) {
        threads::run(threads, rt.alloc(), config)?;
    }
    if config.has(Work::BesideReader) {
        beside::run(threads, rt.alloc(), config)?;
    }
    if config.has(Work::Report) {
        report::run(threads, rt.alloc(), config)?;
    }
    if config.has(Work::Steady) {
        steady::run(rt, threads, config)?;
        lasting::run(rt, threads, config)?;
    }
    if config.has(Work::Worn) {
        worn::run(rt, threads, config)?;
    }
    Ok(())
}

/// One transaction at a time.
fn run_plain(rt: &HostRuntime, config: &Config, session: &mut Session) -> Result<()> {
    reads::run(rt, config, session)?;
    if config.has(Work::ReadOnlyReads) {
        read_only::run(rt, config, session)?;
    }
    if config.has(Work::Updates) {
        updates::run(rt, config, session)?;
    }
    if config.has(Work::Scans) {
        scans::run(rt, config, session)?;
    }
    if config.has(Work::Mixed) {
        mixed::run(rt, config, session)?;
    }
    Ok(())
}

/// Beside transactions that began before and stay open.
fn run_beside_old(rt: &HostRuntime, config: &Config, session: &mut Session) -> Result<()> {
    if config.has(Work::Hot) {
        hot::run(rt, config, session)?;
    }
    if config.has(Work::Crowd) {
        crowd::run(rt, config, session)?;
    }
    Ok(())
}
