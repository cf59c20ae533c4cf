//! The rows of the tests.

use mvo_disk::Disk;
use mvo_engine::{Gate, Run, Session};
use mvo_types::{Answer, Refusal, Row, RowKey, Stamp};
use std::alloc::{AllocError, Global};
use std::sync::Wait;

pub const KEY: RowKey = RowKey { table: 0, key: 5 };

pub const BESIDE: RowKey = RowKey { table: 0, key: 7 };

/// The row at the key, with a byte of data.
pub fn row(alloc: Global, byte: u8) -> Result<Row, AllocError> {
    Row::new(KEY, 50, [byte].to_vec(alloc)?)
}

/// The row at another key, with a byte of data.
pub fn beside(alloc: Global, byte: u8) -> Result<Row, AllocError> {
    Row::new(BESIDE, 60, [byte].to_vec(alloc)?)
}

/// Puts the row in a transaction of its own, and answers its end.
pub fn put<L: Run, D: Disk, G: Gate + Drop, R: Wait>(
    rt: &R,
    alloc: Global,
    session: &mut Session<'_, L, D, G>,
    byte: u8,
) -> Result<Stamp, Refusal> {
    session.begin_tx(rt)?;
    session.insert(rt, row(alloc, byte)?)?;
    session.commit_tx(rt)
}

/// Changes the row in a transaction of its own, and answers its end.
pub fn change<L: Run, D: Disk, G: Gate + Drop, R: Wait>(
    rt: &R,
    alloc: Global,
    session: &mut Session<'_, L, D, G>,
    byte: u8,
) -> Result<Stamp, Refusal> {
    session.begin_tx(rt)?;
    session.update(rt, row(alloc, byte)?)?;
    session.commit_tx(rt)
}

/// Changes the row to each of these bytes in turn, and answers the last end.
pub fn changes<L: Run, D: Disk, G: Gate + Drop, R: Wait>(
    rt: &R,
    alloc: Global,
    session: &mut Session<'_, L, D, G>,
    first: u8,
    last: u8,
) -> Result<Stamp, Refusal> {
    let mut end = Stamp(0);
    for byte in first..=last {
        end = change(rt, alloc, session, byte)?;
    }
    Ok(end)
}

/// Changes the row so many times, and answers the last end.
pub fn many<L: Run, D: Disk, G: Gate + Drop, R: Wait>(
    rt: &R,
    alloc: Global,
    session: &mut Session<'_, L, D, G>,
    times: u32,
    byte: u8,
) -> Result<Stamp, Refusal> {
    let mut end = Stamp(0);
    for _ in 0..times {
        end = change(rt, alloc, session, byte)?;
    }
    Ok(end)
}

/// The byte of the row's data, as a read in a transaction of its own finds it.
pub fn found<L: Run, D: Disk, G: Gate + Drop, R: Wait>(
    rt: &R,
    session: &mut Session<'_, L, D, G>,
) -> Result<Option<u8>, Refusal> {
    session.begin_tx(rt)?;
    let byte = read(rt, session)?;
    session.commit_tx(rt)?;
    Ok(byte)
}

/// The byte of the row's data, as the session's transaction reads it.
pub fn read<L: Run, D: Disk, G: Gate + Drop, R: Wait>(
    rt: &R,
    session: &mut Session<'_, L, D, G>,
) -> Result<Option<u8>, Refusal> {
    match session.read(rt, KEY) {
        Ok(answer) => Ok(byte_in(&answer)),
        Err(refusal) => Err(refusal),
    }
}

/// The byte of the data that was found.
pub fn byte_in(answer: &Answer) -> Option<u8> {
    match answer {
        Answer::Found(Some(row)) => row.bytes().first().copied(),
        _ => None,
    }
}
