use crate::checksum::Checksum;
use crate::config::Config;
use crate::figure::Figure;
use crate::resident::resident;
use crate::session::Session;
use crate::stopped::Stopped;
use anyhow::Result;

/// So many rows a transaction.
const EACH: u64 = 100;

/// Inserts the rows.
pub fn run(rt: &HostRuntime, config: &Config, session: &mut Session) -> Result<()> {
    let before = resident(rt);
    let figure = Figure::start(rt, config, "load")?;
    let sum = insert_all(session, config.rows, config.data)?;
    let bytes = resident(rt).saturating_sub(before);
    figure.tell_bytes(rt, bytes, sum)
}

/// Inserts so many rows with so many bytes of data.
pub fn insert_all(session: &mut Session, rows: u64, data: u64) -> Result<Checksum, Stopped> {
    let mut sum = Checksum(0);
    for batch in 0..rows.saturating_add(EACH - 1) / EACH {
        let from = batch.saturating_mul(EACH);
        let to = from.saturating_add(EACH).min(rows);
        insert(session, (from, to), data, &mut sum)?;
    }
    Ok(sum)
}

fn insert(
    session: &mut Session,
    (from, to): (u64, u64),
    data: u64,
    sum: &mut Checksum,
) -> Result<(), Stopped> {
    let tx = session.begin()?;
    for key in from..to {
        let row = session.draft.loaded(key, data)?;
        sum.add(&row);
        session.insert(tx, row)?;
    }
    session.commit(tx)
}
