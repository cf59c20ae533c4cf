use super::session::Session;
use super::wrong::Wrong;
use mvo_types::Row;

/// So many transactions put so many rows each.
const TRANSACTIONS: u64 = 500;

const KEYS: u64 = 200;

/// Puts 100,000 rows, and counts them.
pub fn load(session: &mut Session) -> Result<u64, Wrong> {
    let mut key: u64 = 0;
    for _ in 0..TRANSACTIONS {
        let tx = session.begin()?;
        for _ in 0..KEYS {
            session.insert(tx, key, 97)?;
            key = key.saturating_add(1);
        }
        session.commit(tx)?;
    }
    Ok(key)
}

/// Scans all rows in one call, and adds up their keys.
pub fn scan(session: &mut Session) -> Result<u64, Wrong> {
    let tx = session.begin()?;
    let rows = session.scan(tx)?;
    session.commit(tx)?;
    if rows.len() as u64 != TRANSACTIONS * KEYS {
        return Err(Wrong::Answer);
    }
    sum_of(&rows)
}

/// The keys, which rise, added up.
fn sum_of(rows: &[Row]) -> Result<u64, Wrong> {
    let mut sum: u64 = 0;
    let mut least: u64 = 0;
    for row in rows {
        if row.key.key < least {
            return Err(Wrong::Answer);
        }
        least = row.key.key.saturating_add(1);
        sum = sum.saturating_add(row.key.key);
    }
    Ok(sum)
}
