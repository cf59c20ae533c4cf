use crate::checksum::Checksum;
use crate::config::Config;
use crate::figure::Figure;
use crate::keys::{Keys, mixed};
use crate::session::Session;
use crate::stopped::Stopped;
use anyhow::Result;

const SEED: u64 = 4;

/// One transaction of so many also updates.
const SHARE: u64 = 5;

/// Reads one row, and in every fifth transaction updates it; few rows come often.
pub fn run(rt: &HostRuntime, config: &Config, session: &mut Session) -> Result<()> {
    let count = config.transactions.max(config.fewer.saturating_mul(10));
    let keys = Keys::zipf(session.alloc(), config.rows, SEED, count)?;
    run_with(rt, config, session, &keys)
}

fn run_with(rt: &HostRuntime, config: &Config, session: &mut Session, keys: &Keys) -> Result<()> {
    let figure = Figure::start(rt, config, "mixed_zipf")?;
    let sum = run_all(session, keys, config.transactions)?;
    figure.tell(rt, config.transactions, sum)
}

fn run_all(session: &mut Session, keys: &Keys, count: u64) -> Result<Checksum, Stopped> {
    let mut sum = Checksum(0);
    for at in 0..count {
        if mixed(at) % SHARE == 0 {
            update_one(session, keys.at(at), &mut sum)?;
        } else {
            read_one(session, keys.at(at), &mut sum)?;
        }
    }
    Ok(sum)
}

/// Reads a row in a transaction.
pub fn read_one(session: &mut Session, key: u64, sum: &mut Checksum) -> Result<(), Stopped> {
    let tx = session.begin()?;
    sum.add(&session.read(tx, key)?);
    session.commit(tx)
}

/// Reads a row and updates it in a transaction.
pub fn update_one(session: &mut Session, key: u64, sum: &mut Checksum) -> Result<(), Stopped> {
    let tx = session.begin()?;
    let row = session.read(tx, key)?;
    sum.add(&row);
    let row = session.draft.changed(&row, 1)?;
    session.update(tx, row)?;
    session.commit(tx)
}
