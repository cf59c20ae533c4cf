//! What one thread does through a session.
use crate::checksum::Checksum;
use crate::draft::Draft;
use crate::keys::Keys;
use crate::rows::{key_of, number_of};
use mvo_disk::Disk;
use mvo_engine::{Gate, Run, Session};
use mvo_types::{Answer, Refusal, Row};
use std::alloc::Global;
use std::sync::Wait;

/// What a transaction does.
#[derive(Clone, Copy, PartialEq, Eq)]
pub enum Kind {
    /// Reads two rows and updates both.
    Updates,
    /// Reads so many rows.
    Reads(u64),
}

/// Which of so many transactions a thread runs: every `step`th one, from the first on.
#[derive(Clone, Copy)]
pub struct Work {
    pub kind: Kind,
    pub first: u64,
    pub step: u64,
    pub count: u64,
}

impl Work {
    /// How many the thread runs.
    fn rounds(&self) -> u64 {
        self.count.checked_div(self.step).unwrap_or(0)
    }

    /// The number of one of them among all.
    fn round(&self, index: u64) -> u64 {
        index.wrapping_mul(self.step).wrapping_add(self.first)
    }
}

/// The transactions of one thread, and the checksum of what they read.
pub fn transact<L: Run, D: Disk, G: Gate + Drop, R: Wait>(
    rt: &R,
    alloc: Global,
    session: &mut Session<'_, L, D, G>,
    keys: &Keys,
    work: Work,
) -> Result<Checksum, Refusal> {
    match work.kind {
        Kind::Updates => update_all(rt, alloc, session, keys, work),
        Kind::Reads(each) => read_all(rt, session, keys, work, each),
    }
}

fn update_all<L: Run, D: Disk, G: Gate + Drop, R: Wait>(
    rt: &R,
    alloc: Global,
    session: &mut Session<'_, L, D, G>,
    keys: &Keys,
    work: Work,
) -> Result<Checksum, Refusal> {
    let mut sum = Checksum(0);
    for index in 0..work.rounds() {
        let round = work.round(index);
        let at = round.wrapping_mul(2);
        let (one, other) = (keys.at(at), keys.at(at.wrapping_add(1)));
        let other = if one == other { one ^ 1 } else { other };
        let read = tried(rt, alloc, session, (one, other), round)?;
        sum.add(&read.0);
        sum.add(&read.1);
    }
    Ok(sum)
}

fn read_all<L: Run, D: Disk, G: Gate + Drop, R: Wait>(
    rt: &R,
    session: &mut Session<'_, L, D, G>,
    keys: &Keys,
    work: Work,
    each: u64,
) -> Result<Checksum, Refusal> {
    let mut sum = Checksum(0);
    for index in 0..work.rounds() {
        let first = work.round(index).wrapping_mul(each);
        read_some(rt, session, keys, (first, each), &mut sum)?;
    }
    Ok(sum)
}

/// Reads so many rows from the key with that index on, and commits.
fn read_some<L: Run, D: Disk, G: Gate + Drop, R: Wait>(
    rt: &R,
    session: &mut Session<'_, L, D, G>,
    keys: &Keys,
    (first, each): (u64, u64),
    sum: &mut Checksum,
) -> Result<(), Refusal> {
    session.begin_tx(rt)?;
    for at in 0..each {
        let row = found(session.read(rt, key_of(keys.at(first.wrapping_add(at))))?)?;
        sum.add(&row);
    }
    session.commit_tx(rt)?;
    Ok(())
}

/// Whether another transaction was in the way.
fn may_retry(refusal: Refusal) -> bool {
    matches!(
        refusal,
        Refusal::WriteConflict(_) | Refusal::ValidationFailed(_) | Refusal::DependencyAborted(_)
    )
}

/// Tries the transaction until no other is in its way. What it read then.
fn tried<L: Run, D: Disk, G: Gate + Drop, R: Wait>(
    rt: &R,
    alloc: Global,
    session: &mut Session<'_, L, D, G>,
    of: (u64, u64),
    round: u64,
) -> Result<(Row, Row), Refusal> {
    for _ in rt.forever() {
        match update_two(rt, alloc, session, of, round) {
            Err(refusal) if may_retry(refusal) => {}
            result => return result,
        }
    }
    unreachable!()
}

fn update_two<L: Run, D: Disk, G: Gate + Drop, R: Wait>(
    rt: &R,
    alloc: Global,
    session: &mut Session<'_, L, D, G>,
    of: (u64, u64),
    round: u64,
) -> Result<(Row, Row), Refusal> {
    session.begin_tx(rt)?;
    let first = found(session.read(rt, key_of(of.0))?)?;
    let second = found(session.read(rt, key_of(of.1))?)?;
    write_two(rt, alloc, session, (&first, &second), round)?;
    Ok((first, second))
}

/// Updates both rows and commits.
fn write_two<L: Run, D: Disk, G: Gate + Drop, R: Wait>(
    rt: &R,
    alloc: Global,
    session: &mut Session<'_, L, D, G>,
    (first, second): (&Row, &Row),
    round: u64,
) -> Result<(), Refusal> {
    let mut draft = Draft::new(alloc);
    session.update(rt, draft.changed_in(first, 1, round)?)?;
    session.update(rt, draft.changed(second, u8::MAX)?)?;
    session.commit_tx(rt)?;
    Ok(())
}

/// The number that updates change, of the row at a key.
pub fn number_in<L: Run, D: Disk, G: Gate + Drop, R: Wait>(
    rt: &R,
    session: &mut Session<'_, L, D, G>,
    key: u64,
) -> Result<u8, Refusal> {
    Ok(number_of(&found(session.read(rt, key_of(key))?)?))
}

/// The row that was found.
pub fn found(answer: Answer) -> Result<Row, Refusal> {
    match answer {
        Answer::Found(Some(row)) => Ok(row),
        _ => Err(Refusal::NothingToDo),
    }
}
