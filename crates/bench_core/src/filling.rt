//! All rows of a run, through a session of an engine.
use crate::checksum::Checksum;
use crate::draft::Draft;
use crate::keeping::Keeping;
use crate::shared::number_in;
use crate::threads::Task;
use mvo_disk::Disk;
use mvo_engine::{Engine, Gate, Run, Session};
use mvo_types::Refusal;
use std::alloc::Global;
use std::sync::Wait;

/// So many rows a transaction, where all are written or read.
pub const EACH: u64 = 100;

/// Puts all rows.
pub fn load<L: Run, D: Disk, G: Gate + Drop, R: Wait>(
    rt: &R,
    alloc: Global,
    engine: &Engine<L, D, G>,
    task: Task<'_>,
) -> Result<(), Refusal> {
    let mut session = engine.session(rt)?;
    load_by(rt, alloc, engine, &mut session, task)
}

/// Through this session.
fn load_by<L: Run, D: Disk, G: Gate + Drop, R: Wait>(
    rt: &R,
    alloc: Global,
    engine: &Engine<L, D, G>,
    session: &mut Session<'_, L, D, G>,
    task: Task<'_>,
) -> Result<(), Refusal> {
    let mut keeping = Keeping::new(task.upkeep, true);
    for batch in 0..task.rows.saturating_add(EACH - 1) / EACH {
        let from = batch.saturating_mul(EACH);
        let to = from.saturating_add(EACH).min(task.rows);
        put(rt, alloc, session, (from, to), task.data)?;
        keeping.count(rt, engine, EACH)?;
    }
    Ok(())
}

/// Puts the rows of these keys.
pub fn put<L: Run, D: Disk, G: Gate + Drop, R: Wait>(
    rt: &R,
    alloc: Global,
    session: &mut Session<'_, L, D, G>,
    (from, to): (u64, u64),
    data: u64,
) -> Result<(), Refusal> {
    let mut draft = Draft::new(alloc);
    session.begin_tx(rt)?;
    for key in from..to {
        session.insert(rt, draft.loaded(key, data)?)?;
    }
    session.commit_tx(rt)?;
    Ok(())
}

/// The sum of the number that updates change, over all rows: what one row gets another gives.
pub fn total<L: Run, D: Disk, G: Gate + Drop, R: Wait>(
    rt: &R,
    engine: &Engine<L, D, G>,
    rows: u64,
) -> Result<Checksum, Refusal> {
    let mut session = engine.session(rt)?;
    total_by(rt, &mut session, rows)
}

/// Through this session.
fn total_by<L: Run, D: Disk, G: Gate + Drop, R: Wait>(
    rt: &R,
    session: &mut Session<'_, L, D, G>,
    rows: u64,
) -> Result<Checksum, Refusal> {
    let mut sum = 0u8;
    for batch in 0..rows.saturating_add(EACH - 1) / EACH {
        let from = batch.saturating_mul(EACH);
        let to = from.saturating_add(EACH).min(rows);
        sum = sum.wrapping_add(total_of(rt, session, from, to)?);
    }
    Ok(Checksum(u64::from(sum)))
}

/// The sum over the rows of these keys.
fn total_of<L: Run, D: Disk, G: Gate + Drop, R: Wait>(
    rt: &R,
    session: &mut Session<'_, L, D, G>,
    from: u64,
    to: u64,
) -> Result<u8, Refusal> {
    session.begin_tx(rt)?;
    let mut sum = 0u8;
    for key in from..to {
        sum = sum.wrapping_add(number_in(rt, session, key)?);
    }
    session.commit_tx(rt)?;
    Ok(sum)
}
