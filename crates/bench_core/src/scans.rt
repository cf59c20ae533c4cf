use crate::checksum::Checksum;
use crate::config::Config;
use crate::figure::Figure;
use crate::keys::Keys;
use crate::rows::sort_of;
use crate::session::Session;
use crate::stopped::Stopped;
use anyhow::Result;

const SEED: u64 = 3;

/// So many rows about stand in a range.
const PLACES: u64 = 100;

/// Reads the rows of a range, by their sorts.
pub fn run(rt: &HostRuntime, config: &Config, session: &mut Session) -> Result<()> {
    let keys = Keys::uniform(session.alloc(), config.rows, SEED, config.fewer)?;
    run_with(rt, config, session, &keys)
}

fn run_with(rt: &HostRuntime, config: &Config, session: &mut Session, keys: &Keys) -> Result<()> {
    let width = (1_u64 << 62).checked_div(config.rows).unwrap_or(0);
    let width = width.saturating_mul(PLACES);
    let figure = Figure::start(rt, config, "scan100")?;
    let mut sum = Checksum(0);
    for at in 0..config.fewer {
        scan_one(session, sort_of(keys.at(at)), width, &mut sum)?;
    }
    figure.tell(rt, config.fewer, sum)
}

fn scan_one(
    session: &mut Session,
    low: u64,
    width: u64,
    sum: &mut Checksum,
) -> Result<(), Stopped> {
    let tx = session.begin()?;
    let rows = session.scan(tx, low, low.saturating_add(width))?;
    for row in &rows {
        sum.add(row);
    }
    session.commit(tx)
}
