//! The rows that sessions load and replace.

use mvo_disk::Disk;
use mvo_engine::{Engine, Gate, Run, Session};
use mvo_types::{Refusal, Row, RowKey};
use std::alloc::{AllocError, Global};
use std::sync::Wait;

/// The seed of the stores' tables.
pub const SEED: u64 = 7;

/// How many rows a transaction loads, and how many transactions come between two flushes.
const LOADED: u64 = 100;

const BETWEEN_FLUSHES: u64 = 100;

/// Commits rows with the keys from one on and below another, and makes them durable.
pub fn load_rows<L: Run, D: Disk, G: Gate + Drop, R: Wait>(
    rt: &R,
    alloc: Global,
    engine: &Engine<L, D, G>,
    from: u64,
    below: u64,
) -> Result<(), Refusal> {
    let mut session = engine.session(rt)?;
    let mut first = from;
    for number in 1..u64::MAX {
        if first >= below {
            break;
        }
        let end = below.min(first.saturating_add(LOADED));
        load_some(rt, alloc, &mut session, first, end)?;
        first = end;
        if number % BETWEEN_FLUSHES == 0 {
            engine.flush(rt)?;
        }
    }
    engine.flush(rt)?;
    Ok(())
}

/// Commits the rows with these keys.
fn load_some<L: Run, D: Disk, G: Gate + Drop, R: Wait>(
    rt: &R,
    alloc: Global,
    session: &mut Session<'_, L, D, G>,
    first: u64,
    end: u64,
) -> Result<(), Refusal> {
    session.begin_tx(rt)?;
    for key in first..end {
        session.insert(rt, row_of(alloc, key, 0)?)?;
    }
    session.commit_tx(rt)?;
    Ok(())
}

/// Replaces a row, and makes that durable.
pub fn replace_one<L: Run, D: Disk, G: Gate + Drop, R: Wait>(
    rt: &R,
    session: &mut Session<'_, L, D, G>,
    row: Row,
) -> Result<(), Refusal> {
    session.begin_tx(rt)?;
    session.update(rt, row)?;
    let end = session.commit_tx(rt)?;
    session.make_durable(rt, end)
}

/// A key among the rows that are the part of one of so many sessions, which no other one replaces.
pub fn key_of(rows: u64, sessions: u64, number: u64, drawn: u64) -> u64 {
    let own = rows.checked_div(sessions).unwrap_or(0);
    let place = (drawn >> 33).checked_rem(own).unwrap_or(0);
    own.wrapping_mul(number).wrapping_add(place)
}

/// The next number of a sequence that looks as if it were drawn.
pub fn next_drawn(drawn: u64) -> u64 {
    drawn
        .wrapping_mul(6_364_136_223_846_793_005)
        .wrapping_add(1_442_695_040_888_963_407)
}

/// A row of 100 bytes.
pub fn row_of(alloc: Global, key: u64, round: u64) -> Result<Row, AllocError> {
    let byte = round.to_le_bytes()[0];
    Row::new(RowKey { table: 0, key }, key, vec![in alloc; byte; 100]?)
}
