use crate::checksum::Checksum;
use crate::config::{Config, Work};
use crate::figure::Figure;
use crate::keys::Keys;
use crate::session::Session;
use crate::stopped::Stopped;
use anyhow::Result;
use mvo_types::TxId;

pub const SEED: u64 = 1;

/// Reads one row or ten in a transaction, by keys that are drawn evenly, by a zipf, or by both.
pub fn run(rt: &HostRuntime, config: &Config, session: &mut Session) -> Result<()> {
    let alloc = session.alloc();
    let count = config.transactions.max(config.fewer.saturating_mul(10));
    let both = config.has(Work::Reads);
    if both || config.has(Work::UniformReads) {
        let keys = Keys::uniform(alloc, config.rows, SEED, count)?;
        run_with(
            rt,
            config,
            session,
            &keys,
            ("read1_uniform", "read10_uniform"),
        )?;
    }
    if both || config.has(Work::ZipfReads) {
        let keys = Keys::zipf(alloc, config.rows, SEED, count)?;
        run_with(rt, config, session, &keys, ("read1_zipf", "read10_zipf"))?;
    }
    Ok(())
}

/// One row and ten with these keys, for the figures with these names.
fn run_with(
    rt: &HostRuntime,
    config: &Config,
    session: &mut Session,
    keys: &Keys,
    (one, ten): (&str, &str),
) -> Result<()> {
    let figure = Figure::start(rt, config, one)?;
    let sum = read_each(session, keys, (config.transactions, 1), false)?;
    figure.tell(rt, config.transactions, sum)?;
    let figure = Figure::start(rt, config, ten)?;
    let sum = read_each(session, keys, (config.fewer, 10), false)?;
    figure.tell(rt, config.fewer, sum)
}

/// So many transactions, each of which reads so many rows, and is read-only or may write.
pub fn read_each(
    session: &mut Session,
    keys: &Keys,
    (count, each): (u64, u64),
    is_read_only: bool,
) -> Result<Checksum, Stopped> {
    let mut sum = Checksum(0);
    for at in 0..count {
        let tx = begin(session, is_read_only)?;
        let first = at.wrapping_mul(each);
        for index in 0..each {
            let key = keys.at(first.wrapping_add(index));
            sum.add(&session.read(tx, key)?);
        }
        session.commit(tx)?;
    }
    Ok(sum)
}

#[inline(always)]
fn begin(session: &mut Session, is_read_only: bool) -> Result<TxId, Stopped> {
    if is_read_only {
        session.begin_read_only()
    } else {
        session.begin()
    }
}
