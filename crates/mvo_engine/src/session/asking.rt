//! The operations of a session's transaction, each answered of its kind.

ghost use Rattle.std.specs.Prelude.{◌≡◌, IfOk};
ghost use Rattle.mvo_types.specs.declared.answer.Answer.TheVariants.{Inserted, Exists};
ghost use Rattle.mvo_types.specs.declared.answer.Answer.TheVariants.{Updated, Deleted, Absent};
ghost use Rattle.mvo_engine.specs.Asking.{IsFinding, IsListOfRows, IsEither};
ghost use Rattle.mvo_engine.specs.Asking.{found_row, listed_rows, inserted, updated, deleted};

use super::Session;
use crate::gate::Gate;
use crate::run::Run;
use mvo_disk::Disk;
use mvo_types::{Answer, Op, Refusal, Row, RowKey};
use std::sync::Wait;

impl<'e, L: Run, D: Disk, G: Gate + Drop> Session<'e, L, D, G> {
    ghost use Rattle.std.specs.Prelude.{◌≡◌, IfOk};
    ghost use Rattle.mvo_types.specs.declared.op.Op.TheVariants as Op;
    ghost use Rattle.mvo_engine.specs.Asking.{IsOperation, IsOfKind, HasPut};
    ghost use Rattle.mvo_engine.specs.Asking.{found_row, listed_rows, inserted, updated, deleted};

    /// The row at a key, if one is shown there. Reads, and is refused as `operate` is.
    pub fn get<R: Wait>(&mut self, rt: &R, key: RowKey) -> Result<Option<Row>, Refusal>
        ensures asked { IsOperation L.opening self.old (Op.Read key) (found_row result) self.new }
        ensures receipts { self.new.receipts ≡ self.old.receipts }
    {
        row_of_read(self.ask(rt, Op::Read(key)))
    }

    /// The rows of a table with `lo <= sort <= hi`, by sort and then by key. Scans, and is refused
    /// as `operate` is.
    pub fn rows<R: Wait>(
        &mut self,
        rt: &R,
        table: u8,
        lo: u64,
        hi: u64,
    ) -> Result<Vec<Row>, Refusal>
        ensures asked { IsOperation L.opening self.old (Op.Scan table lo hi) (listed_rows result)
            self.new }
        ensures receipts { self.new.receipts ≡ self.old.receipts }
    {
        rows_of_scan(self.ask(rt, Op::Scan(table, lo, hi)))
    }

    /// Puts a row where none is shown, and says whether it did. Inserts, and is refused as
    /// `operate` is.
    pub fn add<R: Wait>(&mut self, rt: &R, row: Row) -> Result<bool, Refusal>
        ensures asked { IsOperation L.opening self.old (Op.Insert row) (inserted result) self.new }
        ensures receipts { self.new.receipts ≡ self.old.receipts }
    {
        was_inserted(self.ask(rt, Op::Insert(row)))
    }

    /// Replaces the row that is shown at the key, and says whether there was one. Updates, and is
    /// refused as `operate` is.
    pub fn replace<R: Wait>(&mut self, rt: &R, row: Row) -> Result<bool, Refusal>
        ensures asked { IsOperation L.opening self.old (Op.Update row) (updated result) self.new }
        ensures receipts { self.new.receipts ≡ self.old.receipts }
    {
        was_updated(self.ask(rt, Op::Update(row)))
    }

    /// Deletes the row that is shown at a key, and says whether there was one. Deletes, and is
    /// refused as `operate` is.
    pub fn remove<R: Wait>(&mut self, rt: &R, key: RowKey) -> Result<bool, Refusal>
        ensures asked { IsOperation L.opening self.old (Op.Delete key) (deleted result) self.new }
        ensures receipts { self.new.receipts ≡ self.old.receipts }
    {
        was_deleted(self.ask(rt, Op::Delete(key)))
    }

    /// Puts a row, whether one is shown at its key or not, and says whether it replaced one. It
    /// updates, and where no row is shown to that it inserts: the receipt has both.
    ///
    /// Refused as `operate` is; with OutOfMemory where a copy of the row is refused memory, which
    /// leaves all as it was; and with Busy where a row is shown to the insert and none was to the
    /// update, which no run meets.
    pub fn put<R: Wait>(&mut self, rt: &R, row: Row) -> Result<bool, Refusal>
        ensures put { HasPut L.opening self.old row result self.new }
        ensures receipts { self.new.receipts ≡ self.old.receipts }
    {
        let copy = row.copy()?;
        match self.replace(rt, copy) {
            Ok(true) => return Ok(true),
            Ok(false) => {}
            Err(refusal) => return Err(refusal),
        }
        match self.add(rt, row) {
            Ok(true) => Ok(false),
            Ok(false) => Err(Refusal::Busy),
            Err(refusal) => Err(refusal),
        }
    }

    // As `operate`, and that the answer is one to such an operation.
    fn ask<R: Wait>(&mut self, rt: &R, op: Op) -> Result<Answer, Refusal>
        ensures operation { IsOperation L.opening self.old op result self.new }
        ensures kind { IfOk result (IsOfKind op) }
        ensures receipts { self.new.receipts ≡ self.old.receipts }
    {
        self.operate(rt, op)
    }
}

/// The row that a read found.
fn row_of_read(answered: Result<Answer, Refusal>) -> Result<Option<Row>, Refusal>
    requires { IfOk answered IsFinding }
    ensures { found_row result ≡ answered }
{
    match answered {
        Ok(Answer::Found(row)) => Ok(row),
        Ok(_) => unreachable!(),
        Err(refusal) => Err(refusal),
    }
}

/// The rows that a scan found.
fn rows_of_scan(answered: Result<Answer, Refusal>) -> Result<Vec<Row>, Refusal>
    requires { IfOk answered IsListOfRows }
    ensures { listed_rows result ≡ answered }
{
    match answered {
        Ok(Answer::Rows(rows)) => Ok(rows),
        Ok(_) => unreachable!(),
        Err(refusal) => Err(refusal),
    }
}

/// Whether an insert put its row.
fn was_inserted(answered: Result<Answer, Refusal>) -> Result<bool, Refusal>
    requires { IfOk answered (IsEither Inserted Exists) }
    ensures { inserted result ≡ answered }
{
    match answered {
        Ok(Answer::Inserted) => Ok(true),
        Ok(Answer::Exists) => Ok(false),
        Ok(_) => unreachable!(),
        Err(refusal) => Err(refusal),
    }
}

/// Whether an update replaced a row.
fn was_updated(answered: Result<Answer, Refusal>) -> Result<bool, Refusal>
    requires { IfOk answered (IsEither Updated Absent) }
    ensures { updated result ≡ answered }
{
    match answered {
        Ok(Answer::Updated) => Ok(true),
        Ok(Answer::Absent) => Ok(false),
        Ok(_) => unreachable!(),
        Err(refusal) => Err(refusal),
    }
}

/// Whether a delete found a row.
fn was_deleted(answered: Result<Answer, Refusal>) -> Result<bool, Refusal>
    requires { IfOk answered (IsEither Deleted Absent) }
    ensures { deleted result ≡ answered }
{
    match answered {
        Ok(Answer::Deleted) => Ok(true),
        Ok(Answer::Absent) => Ok(false),
        Ok(_) => unreachable!(),
        Err(refusal) => Err(refusal),
    }
}
