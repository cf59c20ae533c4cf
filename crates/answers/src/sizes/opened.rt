use super::session::Session;
use super::wrong::Wrong;
use mvo_types::TxId;

/// So many are open at once.
const OPEN: u64 = 900;

/// Each replaces a row of its own, and then all commit. Counts them.
pub fn run(session: &mut Session) -> Result<u64, Wrong> {
    let mut open: Vec<TxId> = Vec::new(session.alloc());
    for key in 0..OPEN {
        let tx = session.begin()?;
        session.update(tx, key, 100)?;
        open.push(tx)?;
    }
    let mut count: u64 = 0;
    for tx in &open {
        session.commit(*tx)?;
        count = count.saturating_add(1);
    }
    Ok(count)
}
