use crate::checksum::Checksum;
use crate::config::Config;
use crate::figure::Figure;
use crate::load::insert_all;
use crate::mixed::{read_one, update_one};
use crate::session::Session;
use crate::steady::KEYS;
use crate::stopped::Stopped;
use anyhow::Result;
use std::thread::Threads;

const KEY: u64 = 7;

/// Each is timed in so many rounds, and the least time counts, since other programs take time too.
const ROUNDS: u64 = 5;

/// What an update and a new read of a key and collecting one of its versions take, after none, a
/// tenth and all of so many of its versions were written and collected.
pub fn run(rt: &HostRuntime, threads: &(impl Threads + Sync), config: &Config) -> Result<()> {
    let mut session = Session::new(threads, rt.alloc(), config.upkeep)?;
    run_with(rt, config, &mut session)
}

fn run_with(rt: &HostRuntime, config: &Config, session: &mut Session) -> Result<()> {
    insert_all(session, KEYS, config.data)?;
    let mut written = 0;
    for upto in [0, config.steady / 10, config.steady] {
        update_all(session, upto.saturating_sub(written))?;
        written = upto;
        measure(rt, config, session, upto)?;
    }
    Ok(())
}

/// The least nanoseconds of an update, a read and a collection, and what was read.
#[derive(Clone, Copy)]
struct Least {
    update: u128,
    read: u128,
    collection: u128,
    sum: Checksum,
}

/// Times the rounds, and prints the least times.
fn measure(rt: &HostRuntime, config: &Config, session: &mut Session, upto: u64) -> Result<()> {
    let mut least = Least {
        update: u128::MAX,
        read: u128::MAX,
        collection: u128::MAX,
        sum: Checksum(0),
    };
    for _ in 0..ROUNDS {
        run_round(rt, config, session, &mut least)?;
    }
    tell(rt, config, "update", upto, least.update)?;
    tell(rt, config, "collection", upto, least.collection)?;
    tell_sum(rt, config, upto, least.sum)?;
    tell(rt, config, "read", upto, least.read)
}

/// Prints the nanoseconds of what has this name.
fn tell(rt: &HostRuntime, config: &Config, what: &str, upto: u64, nanos: u128) -> Result<()> {
    let name = format!(in rt.alloc(); "worn_{what}_after_{upto}")?;
    Figure::start(rt, config, name.as_str())?.tell_nanos(rt, config.hot, nanos)
}

/// Prints the checksum of what was read.
fn tell_sum(rt: &HostRuntime, config: &Config, upto: u64, sum: Checksum) -> Result<()> {
    let name = format!(in rt.alloc(); "worn_read_after_{upto}")?;
    Figure::start(rt, config, name.as_str())?.tell_sum(rt, sum)
}

/// Updates the key, reads it, and has as many of its versions come together as it then collects.
fn run_round(
    rt: &HostRuntime,
    config: &Config,
    session: &mut Session,
    least: &mut Least,
) -> Result<()> {
    let figure = Figure::start(rt, config, "worn")?;
    update_all(session, config.hot)?;
    least.update = least.update.min(figure.nanos(rt, config.hot)?);
    let figure = Figure::start(rt, config, "worn")?;
    for _ in 0..config.hot {
        read_one(session, KEY, &mut least.sum)?;
    }
    least.read = least.read.min(figure.nanos(rt, config.hot)?);
    session.collect(false);
    update_all(session, config.hot)?;
    session.close_group()?;
    session.trim()?;
    session.collect(true);
    let figure = Figure::start(rt, config, "worn")?;
    let count = collect_all(session);
    least.collection = least.collection.min(figure.nanos(rt, count)?);
    Ok(())
}

fn update_all(session: &mut Session, count: u64) -> Result<(), Stopped> {
    let mut sum = Checksum(0);
    for _ in 0..count {
        update_one(session, KEY, &mut sum)?;
    }
    Ok(())
}

/// Collects all that there is, and answers how many versions that was.
fn collect_all(session: &mut Session) -> u64 {
    for count in 0..u64::MAX {
        if !session.collect_one() {
            return count;
        }
    }
    u64::MAX
}
