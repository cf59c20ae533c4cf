//! Times of the key index and the ordered index beside std's maps, and of what transactions are
//! shown of the versions in them. Checksums go to standard output, times to standard error.
//! Arguments are numbers of keys in place of 10,000 for the latter; with them the indexes aren't
//! timed.
#![tactic(auto)]

mod keys;
mod ranges;
mod sorts;
mod stalls;
mod versions;
mod visible;
mod watch;

use anyhow::Result;
use std::env;
use std::rt::Clock;
use std::thread::Threads;

const SIZES: [u64; 3] = [10_000, 100_000, 1_000_000];

const KEYS: u64 = 10_000;

fn main(rt: HostRuntime) -> Result<()> {
    let mut given = false;
    for word in env::args(&rt)?.skip(1) {
        visible::run(&rt, word.parse::<u64>()?)?;
        given = true;
    }
    if !given {
        run_indexes(&rt)?;
        visible::run(&rt, KEYS)?;
    }
    visible::run_chains(&rt)
}

/// Times of the indexes.
fn run_indexes<R: AllocGlobal + Clock + Eprint + Print + Threads + Sync>(rt: &R) -> Result<()> {
    stalls::run(rt, 1_000_000)?;
    sorts::run(rt)?;
    for count in SIZES {
        keys::run(rt, count)?;
        versions::run(rt, count)?;
        ranges::run(rt, count)?;
    }
    Ok(())
}
