//! The reads of one row and of ten in transactions that may write and in read-only ones, in turn.
use crate::checksum::Checksum;
use crate::config::Config;
use crate::figure::Figure;
use crate::keys::Keys;
use crate::reads::{SEED, read_each};
use crate::session::Session;
use crate::stopped::Stopped;
use anyhow::Result;

/// So often all is read both ways.
const ROUNDS: u32 = 3;

/// Prints in each round what a transaction takes either way, and how many thousandths of the first
/// the second is. The checksums are those of `reads` by the same keys.
pub fn run(rt: &HostRuntime, config: &Config, session: &mut Session) -> Result<()> {
    let count = config.transactions.max(config.fewer.saturating_mul(10));
    let keys = Keys::uniform(session.alloc(), config.rows, SEED, count)?;
    run_with(rt, config, session, &keys)
}

fn run_with(rt: &HostRuntime, config: &Config, session: &mut Session, keys: &Keys) -> Result<()> {
    let one = ("read1_may_write", "read1_read_only", "read1_ratio");
    run_rounds(rt, config, session, keys, one, (config.transactions, 1))?;
    let ten = ("read10_may_write", "read10_read_only", "read10_ratio");
    run_rounds(rt, config, session, keys, ten, (config.fewer, 10))
}

/// So many transactions, each of which reads so many rows, for the figures with these names.
fn run_rounds(
    rt: &HostRuntime,
    config: &Config,
    session: &mut Session,
    keys: &Keys,
    (plain, read_only, ratio): (&str, &str, &str),
    work: (u64, u64),
) -> Result<()> {
    let mut sum = Checksum(0);
    for _ in 0..ROUNDS {
        let (first, nanos) = run_one(rt, config, session, keys, (plain, false), work)?;
        let (second, others) = run_one(rt, config, session, keys, (read_only, true), work)?;
        sum = same(first, second)?;
        let thousandths = others.saturating_mul(1_000).checked_div(nanos).unwrap_or(0);
        Figure::start(rt, config, ratio)?.tell_number(rt, "thousandths", thousandths)?;
    }
    Figure::start(rt, config, read_only)?.tell_sum(rt, sum)
}

/// The checksum, and the nanoseconds of all transactions.
fn run_one(
    rt: &HostRuntime,
    config: &Config,
    session: &mut Session,
    keys: &Keys,
    (name, is_read_only): (&str, bool),
    (count, each): (u64, u64),
) -> Result<(Checksum, u128)> {
    let figure = Figure::start(rt, config, name)?;
    let sum = read_each(session, keys, (count, each), is_read_only)?;
    let nanos = figure.nanos(rt, 1)?;
    figure.tell_nanos(rt, count, nanos.checked_div(u128::from(count)).unwrap_or(0))?;
    Ok((sum, nanos))
}

/// Both were told the same.
fn same(first: Checksum, second: Checksum) -> Result<Checksum, Stopped> {
    if first == second {
        Ok(second)
    } else {
        Err(Stopped::Unexpected)
    }
}
