use super::session::Session;
use super::wrong::Wrong;
use mvo_core::Settlement;
use mvo_types::{Refusal, TxId};

/// So many read what one has put that is Preparing.
const READERS: u64 = 1_000;

/// They wait for it, and are settled behind it. Counts those that committed then.
pub fn settle(session: &mut Session) -> Result<u64, Wrong> {
    let writer = put(session, 5, 98)?;
    let first = read_all(session, 5, 98)?;
    all_wait(session, first, writer)?;
    session.validate(writer)?;
    commit_one(session, writer)?;
    commit_all(session, first)
}

/// It is rolled back, and they fall with it. Counts those that did.
pub fn fall(session: &mut Session) -> Result<u64, Wrong> {
    let writer = put(session, 6, 99)?;
    let first = read_all(session, 6, 99)?;
    session.roll_back(writer)?;
    let mut count: u64 = 0;
    for place in 0..READERS {
        let tx = reader(first, place);
        if session.settle(tx) == Err(Refusal::DependencyAborted(writer)) {
            count = count.saturating_add(1);
        }
        session.finish(tx)?;
    }
    Ok(count)
}

/// One that replaces a row, and is Preparing then.
fn put(session: &mut Session, key: u64, byte: u8) -> Result<TxId, Wrong> {
    let tx = session.begin()?;
    session.update(tx, key, byte)?;
    session.precommit(tx)?;
    Ok(tx)
}

/// All readers begin, read the row and are checked, one after another. Answers the first one.
fn read_all(session: &mut Session, key: u64, byte: u8) -> Result<TxId, Wrong> {
    let clock = session.clock().0;
    for _ in 0..READERS {
        let tx = session.begin()?;
        if session.read(tx, key)? != byte {
            return Err(Wrong::Answer);
        }
        session.prepare(tx)?;
    }
    Ok(TxId(clock.saturating_add(1)))
}

/// The reader at a place: each draws two stamps.
fn reader(first: TxId, place: u64) -> TxId {
    TxId(first.0.saturating_add(place.saturating_mul(2)))
}

/// Each of them is told to wait for the writer.
fn all_wait(session: &mut Session, first: TxId, writer: TxId) -> Result<(), Wrong> {
    for place in 0..READERS {
        match session.settle(reader(first, place))? {
            Settlement::Waiting(id) if id == writer => {}
            _ => return Err(Wrong::Answer),
        }
    }
    Ok(())
}

fn commit_all(session: &mut Session, first: TxId) -> Result<u64, Wrong> {
    let mut count: u64 = 0;
    for place in 0..READERS {
        commit_one(session, reader(first, place))?;
        count = count.saturating_add(1);
    }
    Ok(count)
}

/// Settles and finishes one that waits for nobody.
fn commit_one(session: &mut Session, tx: TxId) -> Result<(), Wrong> {
    match session.settle(tx)? {
        Settlement::Committed(_) => session.finish(tx),
        Settlement::Waiting(_) => Err(Wrong::Answer),
    }
}
