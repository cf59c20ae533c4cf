use crate::checksum::Checksum;
use crate::config::Config;
use crate::figure::Figure;
use crate::keys::mixed;
use crate::load::insert_all;
use crate::mixed::update_one;
use crate::resident::anonymous;
use crate::session::Session;
use anyhow::Result;
use std::thread::Threads;

/// So many rows, of which each update takes one.
pub const KEYS: u64 = 1_000;

/// The memory is looked at so many times.
pub const PARTS: u64 = 10;

/// Updates few rows again and again, and prints how much memory there is after each part: it is to
/// stay what it was after the first.
pub fn run(rt: &HostRuntime, threads: &(impl Threads + Sync), config: &Config) -> Result<()> {
    let mut session = Session::new(threads, rt.alloc(), config.upkeep)?;
    run_with(rt, config, &mut session)
}

fn run_with(rt: &HostRuntime, config: &Config, session: &mut Session) -> Result<()> {
    let mut sum = insert_all(session, KEYS, config.data)?;
    let figure = Figure::start(rt, config, "steady_update")?;
    let each = config.steady / PARTS;
    let mut first = 0;
    for part in 0..PARTS {
        let from = part.wrapping_mul(each);
        for at in from..from.saturating_add(each) {
            update_one(session, mixed(at) % KEYS, &mut sum)?;
        }
        let bytes = anonymous(rt);
        first = if part == 0 { bytes } else { first };
        figure.tell_memory(rt, from.saturating_add(each), bytes, first)?;
    }
    figure.tell(rt, each.saturating_mul(PARTS), sum)
}
