use super::session::Session;
use super::wrong::Wrong;

/// So many commits one after another, of one row each, out of so many.
const ROUNDS: u64 = 1_000;

const KEYS: u64 = 1_000;

/// A million commits, with what is over collected after each thousand. Counts what was.
pub fn run(session: &mut Session) -> Result<u64, Wrong> {
    let mut collected: u64 = 0;
    for round in 0..ROUNDS {
        for key in 0..KEYS {
            replace(session, key, byte_of(round, key))?;
        }
        collected = collected.saturating_add(session.keep_up()?);
    }
    Ok(collected)
}

/// The byte that a round gives a key.
fn byte_of(round: u64, key: u64) -> u8 {
    (round.saturating_mul(KEYS).saturating_add(key) % 251) as u8
}

fn replace(session: &mut Session, key: u64, byte: u8) -> Result<(), Wrong> {
    let tx = session.begin()?;
    session.update(tx, key, byte)?;
    session.commit(tx)
}

/// The bytes of all these rows, added up.
pub fn read(session: &mut Session) -> Result<u64, Wrong> {
    let tx = session.begin()?;
    let mut sum: u64 = 0;
    for key in 0..KEYS {
        sum = sum.saturating_add(u64::from(session.read(tx, key)?));
    }
    session.commit(tx)?;
    Ok(sum)
}
