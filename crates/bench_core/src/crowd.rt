use crate::config::Config;
use crate::keys::Keys;
use crate::session::Session;
use crate::stopped::Stopped;
use crate::updates::run_named;
use anyhow::Result;
use mvo_types::TxId;

const SEED: u64 = 5;

/// Reads two rows and updates both, beside many readers that stay open. They are rolled back at
/// the end.
pub fn run(rt: &HostRuntime, config: &Config, session: &mut Session) -> Result<()> {
    let mut open = Vec::new(session.alloc());
    begin_all(session, config.open, &mut open)?;
    run_beside(rt, config, session)?;
    Ok(end_all(session, &open)?)
}

fn run_beside(rt: &HostRuntime, config: &Config, session: &mut Session) -> Result<()> {
    let count = config.transactions.saturating_mul(2);
    let keys = Keys::uniform(session.alloc(), config.rows, SEED, count)?;
    run_named(rt, config, session, "open_read2_update2", &keys)
}

/// So many readers, each of which has read a row of its own.
fn begin_all(session: &mut Session, count: u64, open: &mut Vec<TxId>) -> Result<()> {
    for key in 0..count {
        let tx = session.begin()?;
        session.read(tx, key)?;
        open.push(tx)?;
    }
    Ok(())
}

fn end_all(session: &mut Session, open: &[TxId]) -> Result<(), Stopped> {
    for tx in open {
        session.roll_back(*tx)?;
    }
    Ok(())
}
