//! The time of opening a store from its log, from the pairs that checkpoints of that log made, and
//! from four pairs; and of reading the four pairs one after another: rows of 100 bytes, put in
//! transactions of 100 and groups of 300 transactions.
mod checkpoints;
mod in_turn;
mod log;
mod opened;
mod pairs;
mod steps;
mod writer;

use anyhow::{Result, bail};
use std::rt::Clock;
use std::thread::Threads;

/// What is timed.
#[derive(Clone, Copy, PartialEq, Eq)]
pub enum Work {
    Log,
    Checkpoints,
    Pairs,
    InTurn,
}

/// All of it, in this order.
pub const WORKS: [Work; 4] = [Work::Log, Work::Checkpoints, Work::Pairs, Work::InTurn];

impl Work {
    pub fn named(name: &str) -> Result<Work> {
        match name {
            "log" => Ok(Work::Log),
            "checkpoints" => Ok(Work::Checkpoints),
            "pairs" => Ok(Work::Pairs),
            "turn" => Ok(Work::InTurn),
            _ => bail!("nothing that is timed has this name"),
        }
    }
}

pub fn run<R>(rt: &R, work: Work, count: u64) -> Result<()>
where
    R: AllocGlobal + Clock + Eprint + Print + Threads + Sync,
{
    match work {
        Work::Log => log::run(rt, count),
        Work::Checkpoints => checkpoints::run(rt, count),
        Work::Pairs => pairs::run(rt, count),
        Work::InTurn => in_turn::run(rt, count),
    }
}
