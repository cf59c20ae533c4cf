//! Times of what transactions are shown, and of the checks of what they looked at, with few and
//! many keys and unfinished transactions, and with a long chain of versions.
mod hot;
mod keys;
mod least;
mod rows;

use anyhow::Result;
pub use keys::run;
use std::rt::Clock;

const CHAIN: u64 = 100_000;

// So many versions of other keys stand between two of the chain.
const BETWEEN: u64 = 4;

/// Times with a long chain, by itself and among versions of other keys.
pub fn run_chains<R: AllocGlobal + Clock + Eprint + Print>(rt: &R) -> Result<()> {
    hot::run(rt, CHAIN, 0)?;
    hot::run(rt, CHAIN, BETWEEN)
}
