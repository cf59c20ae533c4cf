use crate::checksum::Checksum;
use crate::config::Config;
use crate::figure::Figure;
use crate::keys::Keys;
use crate::session::Session;
use crate::stopped::Stopped;
use anyhow::Result;
use mvo_types::{Row, TxId};

const SEED: u64 = 2;

/// Reads two rows and updates both.
pub fn run(rt: &HostRuntime, config: &Config, session: &mut Session) -> Result<()> {
    let count = config.transactions.saturating_mul(2);
    let keys = Keys::uniform(session.alloc(), config.rows, SEED, count)?;
    run_named(rt, config, session, "read2_update2", &keys)
}

/// Does so with these keys, for the figure with this name.
pub fn run_named(
    rt: &HostRuntime,
    config: &Config,
    session: &mut Session,
    name: &str,
    keys: &Keys,
) -> Result<()> {
    let figure = Figure::start(rt, config, name)?;
    let sum = update_all(session, keys, config.transactions)?;
    figure.tell(rt, config.transactions, sum)
}

/// So many transactions.
fn update_all(session: &mut Session, keys: &Keys, count: u64) -> Result<Checksum, Stopped> {
    let mut sum = Checksum(0);
    for round in 0..count {
        let at = round.wrapping_mul(2);
        let (one, other) = (keys.at(at), keys.at(at.wrapping_add(1)));
        let other = if one == other { one ^ 1 } else { other };
        update_two(session, one, other, round, &mut sum)?;
    }
    Ok(sum)
}

fn update_two(
    session: &mut Session,
    one: u64,
    other: u64,
    round: u64,
    sum: &mut Checksum,
) -> Result<(), Stopped> {
    let tx = session.begin()?;
    let first = session.read(tx, one)?;
    let second = session.read(tx, other)?;
    sum.add(&first);
    sum.add(&second);
    write_two(session, tx, &first, &second, round)
}

/// Updates both rows and commits.
fn write_two(
    session: &mut Session,
    tx: TxId,
    first: &Row,
    second: &Row,
    round: u64,
) -> Result<(), Stopped> {
    let row = session.draft.changed_in(first, 1, round)?;
    session.update(tx, row)?;
    let row = session.draft.changed(second, u8::MAX)?;
    session.update(tx, row)?;
    session.commit(tx)
}
