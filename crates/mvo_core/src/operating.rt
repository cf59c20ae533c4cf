//! The operations on a key.
ghost use Rattle.std.specs.Prelude.{◌≡◌, ◌<◌, ◌^◌, IfOk, OnOk, OnErr, IsSome};
ghost use Rattle.std.specs.Option.{option_to_list};
ghost use Rattle.mvo_txn.specs.Txns.{state_of};
ghost use Rattle.mvo_deps.specs.Nodes.{after_register_all};
ghost use Rattle.mvo_deps.specs.Graph.{IsUnfinished};
ghost use Rattle.mvo_chain.specs.Slots.{version_at};
ghost use Rattle.mvo_versions.specs.Data.{AreIndexed};
ghost use Rattle.mvo_versions.specs.Changes.{IsPut};
ghost use Rattle.mvo_core.specs.Data.{own_of};
ghost use Rattle.mvo_core.specs.Inserting.{IsInserted};
ghost use Rattle.mvo_core.specs.Keeping.{IsWritten, HasWrittenAsMuch};
ghost use Rattle.mvo_core.specs.Ending.{IsRemoved, IsReplaced, IsLeft};
ghost use Rattle.mvo_core.specs.Looking.{row_shown, cause_at, HasSameVersions};

use crate::collecting::{has_open_end, owe_end};
use crate::depending::{depend, make_room, write};
use crate::event_core::Core;
use crate::kept_transaction::Table;
use crate::preparing::{Deleting, do_at_key, prepare, prepare_insert, prepare_update};
use crate::refusing::{not_looked, not_put, not_removed};
use mvo_chain::VersionNo;
use mvo_txn::Located;
use mvo_types::{Answer, Cause, Entry, MAX_STAMP, Op, Refusal, Row, RowKey, TxId};
use mvo_versions::Versions;
use mvo_visible::ended_by;
use mvo_work::WordPlace;
use std::alloc::AllocError;

impl Core {
    ghost use Rattle.std.specs.Prelude.{◌≡◌, IfOk};
    ghost use Rattle.mvo_theory.specs.Calls.Call.{Do};
    ghost use Rattle.mvo_core.specs.Steps.{IsStep, IsAnswered};
    ghost use Rattle.mvo_core.specs.WholeStanding.{IsWholeStep};
    ghost use Rattle.mvo_core.specs.WholeAnswers.{IsAnsweredWhole};
    ghost use Rattle.mvo_core.specs.Counting.{HasPutMore};

    /// Reads the row at a key. Refused: NoSuchTransaction, Ended, NotActive, DependencyAborted,
    /// BadTable, TooManyReads, OutOfMemory.
    pub fn read(&mut self, tx: TxId, key: RowKey) -> Result<Answer, Refusal>
        ensures step { IsStep self.old (Do tx.0 (Op.Read key)) result self.new }
        ensures answer { IfOk result (IsAnswered self.old tx.0 (Op.Read key)) }
        ensures whole { IsWholeStep self.old (Do tx.0 (Op.Read key)) result self.new }
        ensures whole_answer { IfOk result (IsAnsweredWhole self.old tx.0 (Op.Read key)) }
        ensures count { HasPutMore self.old result self.new }
    {
        let seat = self.table.seat_of(tx);
        let tx = Located { id: tx, seat };
        if let Some(refusal) = not_looked(
            &self.table,
            &self.works,
            tx,
            key.table,
            Entry::Key(key),
        ) {
            return Err(self.give_up(tx, refusal));
        }
        let seen = self.versions.shown(&self.table, tx.id, key);
        let answer = do_at_key(
            &mut self.works,
            &mut self.table,
            &self.versions,
            tx,
            Op::Read(key),
            seen.version,
            seen.depends_on,
        )?;
        Ok(answer)
    }

    /// Inserts a row, unless one is shown at its key. Refused: NoSuchTransaction, Ended, NotActive,
    /// DependencyAborted, BadTable, DataTooLong, TooManyReads, TooManyWrites, OutOfMemory.
    pub fn insert(&mut self, tx: TxId, row: Row) -> Result<Answer, Refusal>
        ensures step { IsStep self.old (Do tx.0 (Op.Insert row)) result self.new }
        ensures answer { IfOk result (IsAnswered self.old tx.0 (Op.Insert row)) }
        ensures whole { IsWholeStep self.old (Do tx.0 (Op.Insert row)) result self.new }
        ensures whole_answer { IfOk result (IsAnsweredWhole self.old tx.0 (Op.Insert row)) }
        ensures count { HasPutMore self.old result self.new }
    {
        let seat = self.table.seat_of(tx);
        let tx = Located { id: tx, seat };
        let key = row.row_key();
        if let Some(refusal) = not_put(&self.table, &self.works, tx, &row) {
            return Err(self.give_up(tx, refusal));
        }
        let found = self.versions.shown(&self.table, tx.id, key);
        let versions = &self.versions;
        let next = prepare_insert(&mut self.works, versions, tx.id, &row, found.version)?;
        if found.version.is_some() {
            depend(&mut self.table, tx, found.depends_on)?;
            self.works.tell(tx.id, next);
            return Ok(Answer::Exists);
        }
        let on = found.depends_on;
        self.waiting.make_room()?;
        insert_row(&mut self.versions, &mut self.table, tx, row, on)?;
        self.waiting.owe();
        self.works.tell(tx.id, next);
        Ok(Answer::Inserted)
    }

    /// Replaces the row at a key, if one is shown there. Refused: NoSuchTransaction, Ended,
    /// NotActive, DependencyAborted, BadTable, DataTooLong, TooManyReads, TooManyWrites,
    /// WriteConflict, OutOfMemory. After WriteConflict the transaction is Aborted.
    pub fn update(&mut self, tx: TxId, row: Row) -> Result<Answer, Refusal>
        ensures step { IsStep self.old (Do tx.0 (Op.Update row)) result self.new }
        ensures answer { IfOk result (IsAnswered self.old tx.0 (Op.Update row)) }
        ensures whole { IsWholeStep self.old (Do tx.0 (Op.Update row)) result self.new }
        ensures whole_answer { IfOk result (IsAnsweredWhole self.old tx.0 (Op.Update row)) }
        ensures count { HasPutMore self.old result self.new }
    {
        let seat = self.table.seat_of(tx);
        let tx = Located { id: tx, seat };
        let key = row.row_key();
        if let Some(refusal) = not_put(&self.table, &self.works, tx, &row) {
            return Err(self.give_up(tx, refusal));
        }
        let found = self.versions.shown(&self.table, tx.id, key);
        if let Some(cause) = in_the_way(&self.versions, &self.table, tx.id, found.version) {
            return Err(self.give_up(tx, Refusal::WriteConflict(cause)));
        }
        let versions = &self.versions;
        let next = prepare_update(&mut self.works, versions, tx.id, &row, found.version)?;
        let on = found.depends_on;
        let Some(old) = found.version else {
            depend(&mut self.table, tx, on)?;
            self.works.tell(tx.id, next);
            return Ok(Answer::Absent);
        };
        self.waiting.make_room()?;
        let is_open = has_open_end(&self.versions, old);
        put_instead(&mut self.versions, &mut self.table, tx, old, row, on)?;
        self.waiting.owe();
        owe_end(&mut self.waiting, is_open);
        self.works.tell(tx.id, next);
        Ok(Answer::Updated)
    }

    /// Deletes the row at a key, if one is shown there. Refused: NoSuchTransaction, Ended,
    /// NotActive, DependencyAborted, BadTable, TooManyReads, TooManyWrites, WriteConflict,
    /// OutOfMemory. After WriteConflict the transaction is Aborted.
    pub fn delete(&mut self, tx: TxId, key: RowKey) -> Result<Answer, Refusal>
        ensures step { IsStep self.old (Do tx.0 (Op.Delete key)) result self.new }
        ensures answer { IfOk result (IsAnswered self.old tx.0 (Op.Delete key)) }
        ensures whole { IsWholeStep self.old (Do tx.0 (Op.Delete key)) result self.new }
        ensures whole_answer { IfOk result (IsAnsweredWhole self.old tx.0 (Op.Delete key)) }
        ensures count { HasPutMore self.old result self.new }
    {
        let seat = self.table.seat_of(tx);
        let tx = Located { id: tx, seat };
        if let Some(refusal) = not_removed(&self.table, &self.works, tx, key) {
            return Err(self.give_up(tx, refusal));
        }
        let found = self.versions.shown(&self.table, tx.id, key);
        if let Some(cause) = in_the_way(&self.versions, &self.table, tx.id, found.version) {
            return Err(self.give_up(tx, Refusal::WriteConflict(cause)));
        }
        let versions = &self.versions;
        let next = prepare::<Deleting>(
            &mut self.works,
            versions,
            tx.id,
            Op::Delete(key),
            found.version,
        )?;
        let on = found.depends_on;
        let Some(old) = found.version else {
            depend(&mut self.table, tx, on)?;
            self.works.tell(tx.id, next);
            return Ok(Answer::Absent);
        };
        self.waiting.make_room()?;
        let is_open = has_open_end(&self.versions, old);
        remove(&mut self.versions, &mut self.table, tx, old, on)?;
        owe_end(&mut self.waiting, is_open);
        self.works.tell(tx.id, next);
        Ok(Answer::Deleted)
    }
}

/// Who has ended the version first, if there is one and somebody has.
fn in_the_way(
    versions: &Versions,
    table: &Table,
    tx: TxId,
    number: Option<VersionNo>,
) -> Option<Cause>
    ensures { result ≡ cause_at (state_of table.now) versions.now.slots tx.0 number }
{
    match versions.get(number?) {
        Some(version) => ended_by(table, version.end, tx),
        None => None,
    }
}

/// Puts a version of the row, and lets the transaction depend on the other, if there is one; or
/// does neither. Where the version `like` has the row's key and sort, no place is sought. Refused,
/// the places are still just those of the versions, as always.
fn put(
    versions: &mut Versions,
    table: &mut Table,
    tx: Located,
    row: Row,
    like: Option<VersionNo>,
    on: Option<TxId>,
) -> Result<VersionNo, AllocError>
    requires id { tx.id.0 < 2 ^ 63 }
    requires there { IsUnfinished table.old tx.id }
    ensures ok { IfOk result (λ n. IsPut versions.old versions.new row tx.id.0 n) }
    ensures depends { OnOk result
        (table.new ≡ after_register_all table.old tx.id (option_to_list on)) }
    ensures err { OnErr result (HasSameVersions versions.old versions.new) }
    ensures alone { OnErr result (table.new ≡ table.old) }
    ensures indexed { AreIndexed versions.old → AreIndexed versions.new }
{
    let number = versions.put(row, tx.id, like)?;
    let Ok(()) = depend(table, tx, on) else {
        let _ = versions.take_out(number);
        return Err(AllocError);
    };
    Ok(number)
}

/// Puts a version of the row by the transaction, and lets it depend on the other, if there is one;
/// or does neither.
fn insert_row(
    versions: &mut Versions,
    table: &mut Table,
    tx: Located,
    row: Row,
    on: Option<TxId>,
) -> Result<(), AllocError>
    requires { IsSome (own_of table.old tx.id.0) }
    ensures ok { OnOk result (IsInserted versions.old versions.new table.old table.new tx.id
        (option_to_list on) row) }
    ensures err { OnErr result (HasSameVersions versions.old versions.new) }
    ensures alone { OnErr result (IsWritten table.old table.new tx.id.0 HasWrittenAsMuch) }
    ensures indexed { AreIndexed versions.old → AreIndexed versions.new }
{
    let clock = table.clock();
    prove!(clock.0 <= MAX_STAMP);
    make_room(table, tx)?;
    let number = put(versions, table, tx, row, None, on)?;
    write(table, tx, WordPlace::Begin(number), None);
    Ok(())
}

/// Lets the transaction end the version, and depend on the other, if there is one; or does neither.
fn remove(
    versions: &mut Versions,
    table: &mut Table,
    tx: Located,
    number: VersionNo,
    on: Option<TxId>,
) -> Result<(), AllocError>
    requires there { IsSome (own_of table.old tx.id.0) }
    requires live { IsSome (version_at versions.old.slots number) }
    ensures ok { OnOk result (IsRemoved versions.old versions.new table.old table.new tx.id
        (option_to_list on) number) }
    ensures err { OnErr result (IsWritten table.old table.new tx.id.0 HasWrittenAsMuch) }
    ensures same { OnErr result (versions.new ≡ versions.old) }
{
    let clock = table.clock();
    prove!(clock.0 <= MAX_STAMP);
    make_room(table, tx)?;
    depend(table, tx, on)?;
    versions.end(number, tx.id);
    write(table, tx, WordPlace::End(number), None);
    Ok(())
}

/// Lets the transaction put the row in place of the version, and depend on the other, if there is
/// one; or does neither.
fn put_instead(
    versions: &mut Versions,
    table: &mut Table,
    tx: Located,
    number: VersionNo,
    row: Row,
    on: Option<TxId>,
) -> Result<(), AllocError>
    requires there { IsSome (own_of table.old tx.id.0) }
    requires live { IsSome (version_at versions.old.slots number) }
    ensures ok { OnOk result (IsReplaced versions.old versions.new table.old table.new tx.id
        (option_to_list on) number row) }
    ensures err { OnErr result (IsLeft versions.old versions.new table.old table.new tx.id) }
{
    let clock = table.clock();
    prove!(clock.0 <= MAX_STAMP);
    make_room(table, tx)?;
    let place = put(versions, table, tx, row, Some(number), on)?;
    versions.end(number, tx.id);
    let (end, begin) = (WordPlace::End(number), WordPlace::Begin(place));
    write(table, tx, end, Some(begin));
    Ok(())
}
