//! What a core answers past sizes that no test reaches: 65,536 versions, 200 keys of a transaction,
//! a scan of 100,000 rows, 1,000 that depend on one, 900 that are open, 1,000,000 commits. What
//! each line must say can be counted beforehand.
mod commits;
mod depending;
mod loading;
mod opened;
mod part;
mod session;
mod wrong;

use anyhow::Result;
use part::Part;
use session::Session;
use std::alloc::Global;
use std::thread::Threads;

const PARTS: [Part; 8] = [
    Part::Load,
    Part::Scan,
    Part::Settle,
    Part::Fall,
    Part::Open,
    Part::Collect,
    Part::Read,
    Part::Scan,
];

/// Asks a core that has no rows at first.
pub fn run(rt: &(impl Print + Threads + Sync), alloc: Global) -> Result<()> {
    let mut session = Session::new(rt, alloc)?;
    run_all(rt, &mut session)
}

/// All parts, with a line of what each one counted and of the stamp that was drawn last.
fn run_all(rt: &impl Print, session: &mut Session) -> Result<()> {
    for part in PARTS {
        let name = part.name();
        let count = part.run(session)?;
        let clock = session.clock();
        println!(rt; "{name} {count}, clock {clock}")?;
    }
    Ok(())
}
