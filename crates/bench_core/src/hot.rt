use crate::checksum::Checksum;
use crate::config::Config;
use crate::figure::Figure;
use crate::mixed::{read_one, update_one};
use crate::session::Session;
use anyhow::Result;
use mvo_types::TxId;

const KEY: u64 = 7;

/// So many reads of the old reader, whose every one goes past all newer versions.
const OLD_READS: u64 = 100;

/// Updates one key again and again beside an old reader, which is rolled back at the end.
pub fn run(rt: &HostRuntime, config: &Config, session: &mut Session) -> Result<()> {
    let old = session.begin()?;
    session.read(old, KEY)?;
    update_hot(rt, config, session)?;
    read_old(rt, config, session, old)?;
    read_new(rt, config, session)?;
    session.roll_back(old)?;
    Ok(())
}

fn update_hot(rt: &HostRuntime, config: &Config, session: &mut Session) -> Result<()> {
    let figure = Figure::start(rt, config, "hot_update")?;
    let mut sum = Checksum(0);
    for _ in 0..config.hot {
        update_one(session, KEY, &mut sum)?;
    }
    figure.tell(rt, config.hot, sum)
}

fn read_old(rt: &HostRuntime, config: &Config, session: &mut Session, old: TxId) -> Result<()> {
    let figure = Figure::start(rt, config, "hot_old_read")?;
    let mut sum = Checksum(0);
    for _ in 0..OLD_READS {
        sum.add(&session.read(old, KEY)?);
    }
    figure.tell(rt, OLD_READS, sum)
}

fn read_new(rt: &HostRuntime, config: &Config, session: &mut Session) -> Result<()> {
    let figure = Figure::start(rt, config, "hot_new_read")?;
    let mut sum = Checksum(0);
    for _ in 0..config.hot {
        read_one(session, KEY, &mut sum)?;
    }
    figure.tell(rt, config.hot, sum)
}
