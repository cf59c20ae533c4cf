//! Operations that are answered of their kind.

use super::asking::Ask::{Begin, Changes, Commit, Find, InsertBeside, Of, Rollback};
use super::rows::{BESIDE, KEY, row};
use super::steps::Line;
use super::steps::Step::{One, Other};
use super::told::Told::{self, Byte, Done, Inserted, Is, Number};
use super::told::{
    BAD_TABLE, NO_TRANSACTION, TOO_MANY_READS, VALIDATION_FAILED, WRITE_CONFLICT, said,
};
use super::trial::{Trial, tried_anew};
use mvo_disk::Disk;
use mvo_engine::{Gate, OpenGate, Run, Session};
use mvo_types::{Refusal, Row, RowKey};
use std::alloc::Global;
use std::sync::Wait;
use std::test::*;

/// An operation of the session's transaction.
#[derive(Clone, Copy)]
pub enum Kind {
    Get,
    /// The rows with a sort from one to the other.
    Rows(u64, u64),
    Add(u8),
    Replace(u8),
    Remove,
    Put(u8),
    /// The rows at so many keys at once, the row's own and the other one's in turn.
    All(usize),
    /// The row, and behind it one of a table that there isn't.
    AllBeyond,
}

impl Kind {
    /// What the session is told.
    pub fn of<L: Run, D: Disk, G: Gate + Drop, R: Wait>(
        self,
        rt: &R,
        alloc: Global,
        session: &mut Session<'_, L, D, G>,
    ) -> Told {
        match self {
            Kind::Get => got(session.get(rt, KEY)),
            Kind::Rows(lo, hi) => counted(session.rows(rt, 0, lo, hi)),
            Kind::Remove => said(session.remove(rt, KEY)),
            Kind::All(count) => summed(all_of(rt, alloc, session, count)),
            Kind::AllBeyond => summed(session.read_all(rt, &[KEY, BEYOND, KEY])),
            _ => said(self.write(rt, alloc, session)),
        }
    }

    // Writes the row, and answers what is said of it.
    fn write<L: Run, D: Disk, G: Gate + Drop, R: Wait>(
        self,
        rt: &R,
        alloc: Global,
        session: &mut Session<'_, L, D, G>,
    ) -> Result<bool, Refusal> {
        match self {
            Kind::Add(byte) => session.add(rt, row(alloc, byte)?),
            Kind::Replace(byte) => session.replace(rt, row(alloc, byte)?),
            Kind::Put(byte) => session.put(rt, row(alloc, byte)?),
            _ => Err(Refusal::NothingToDo),
        }
    }
}

/// The byte of the row that was found.
fn got(answer: Result<Option<Row>, Refusal>) -> Told {
    match answer {
        Ok(Some(row)) => Told::Byte(row.bytes().first().copied()),
        Ok(None) => Told::Byte(None),
        Err(refusal) => Told::Refused(refusal.code()),
    }
}

/// A key of a table that there isn't.
const BEYOND: RowKey = RowKey { table: 64, key: 1 };

/// The rows at so many keys.
fn all_of<L: Run, D: Disk, G: Gate + Drop, R: Wait>(
    rt: &R,
    alloc: Global,
    session: &mut Session<'_, L, D, G>,
    count: usize,
) -> Result<Vec<Option<Row>>, Refusal> {
    let mut keys = Vec::new(alloc);
    for n in 0..count {
        keys.push(if n % 2 == 0 { KEY } else { BESIDE })?;
    }
    session.read_all(rt, &keys)
}

/// The bytes that were found, each times the number of its place, the first of which is 1.
fn summed(answer: Result<Vec<Option<Row>>, Refusal>) -> Told {
    match answer {
        Ok(rows) => Told::Number(sum_of(&rows)),
        Err(refusal) => Told::Refused(refusal.code()),
    }
}

fn sum_of(rows: &[Option<Row>]) -> u64 {
    let mut sum = 0u64;
    for (n, row) in rows.iter().enumerate() {
        let byte = match row {
            Some(row) => row.bytes().first().copied().unwrap_or(0),
            None => 0,
        };
        sum = sum.saturating_add((n as u64).saturating_add(1).saturating_mul(u64::from(byte)));
    }
    sum
}

/// How many rows were found.
fn counted(answer: Result<Vec<Row>, Refusal>) -> Told {
    match answer {
        Ok(rows) => Told::Number(rows.len() as u64),
        Err(refusal) => Told::Refused(refusal.code()),
    }
}

const OF_KIND: [Line; 30] = [
    // Each call without a transaction is refused.
    (One(Of(Kind::Get)), NO_TRANSACTION),
    (One(Of(Kind::Rows(0, 100))), NO_TRANSACTION),
    (One(Of(Kind::Add(1))), NO_TRANSACTION),
    (One(Of(Kind::Replace(1))), NO_TRANSACTION),
    (One(Of(Kind::Remove)), NO_TRANSACTION),
    (One(Of(Kind::Put(1))), NO_TRANSACTION),
    // Each is done, or there is nothing for it.
    (One(Begin), Number(1)),
    (One(Of(Kind::Get)), Byte(None)),
    (One(Of(Kind::Replace(1))), Is(false)),
    (One(Of(Kind::Remove)), Is(false)),
    (One(Of(Kind::Add(1))), Is(true)),
    (One(Of(Kind::Add(2))), Is(false)),
    (One(Of(Kind::Get)), Byte(Some(1))),
    (One(Of(Kind::Replace(3))), Is(true)),
    (One(Of(Kind::Rows(50, 50))), Number(1)),
    (One(Of(Kind::Rows(51, 60))), Number(0)),
    (One(Of(Kind::Put(4))), Is(true)),
    (One(Of(Kind::Remove)), Is(true)),
    (One(Of(Kind::Put(5))), Is(false)),
    (One(Of(Kind::Get)), Byte(Some(5))),
    // What was answered is what the core holds of it.
    (One(Commit), Number(2)),
    (One(Find), Byte(Some(5))),
    // A put that conflicts ends the transaction.
    (One(Begin), Number(5)),
    (Other(Begin), Number(6)),
    (One(Of(Kind::Put(6))), Is(true)),
    (Other(Of(Kind::Put(7))), WRITE_CONFLICT),
    (Other(Of(Kind::Put(7))), NO_TRANSACTION),
    (Other(Begin), Number(7)),
    (Other(Rollback), Done),
    (One(Commit), Number(8)),
];

const OF_MANY: [Line; 17] = [
    (One(Of(Kind::All(1))), NO_TRANSACTION),
    (One(Of(Kind::All(65))), NO_TRANSACTION),
    (One(Begin), Number(1)),
    (One(Of(Kind::All(0))), Number(0)),
    (One(Of(Kind::All(3))), Number(0)),
    (One(Of(Kind::Put(5))), Is(false)),
    (One(InsertBeside(7)), Inserted),
    // 1 x 5, 2 x 7, 3 x 5.
    (One(Of(Kind::All(3))), Number(34)),
    // As many as may be, and one more.
    (One(Of(Kind::All(64))), Number(12_512)),
    (One(Of(Kind::All(65))), TOO_MANY_READS),
    // The one before the one that is refused counts.
    (One(Of(Kind::AllBeyond)), BAD_TABLE),
    (One(Of(Kind::Get)), Byte(Some(5))),
    (One(Commit), Number(2)),
    // What was read is looked at again at the commit.
    (One(Begin), Number(3)),
    (One(Of(Kind::All(2))), Number(19)),
    (Other(Changes(6, 6)), Number(5)),
    (One(Commit), VALIDATION_FAILED),
];

#[test]
fn many_keys_are_read_at_once(rt: HostRuntime) -> Result<(), Fail> {
    tried_anew(&rt, rt.alloc(), OpenGate, Trial::Steps(&OF_MANY))?;
    Ok(())
}

#[test]
fn operations_are_answered_of_their_kind(rt: HostRuntime) -> Result<(), Fail> {
    tried_anew(&rt, rt.alloc(), OpenGate, Trial::Steps(&OF_KIND))?;
    Ok(())
}
