//! How a transaction ends.
ghost use Rattle.std.specs.Prelude.{◌≡◌, [], true, false, length, Some, IsSome, IfOk, IfErr, OnOk, OnErr};
ghost use Rattle.mvo_theory.specs.Entries.{entries, written_keys};
ghost use Rattle.mvo_theory.specs.Told.{history_told};
ghost use Rattle.mvo_theory.specs.Limits.{AreLimited};
ghost use Rattle.mvo_txn.specs.Txns.{state_of, spent_clock, IsPreparingState};
ghost use Rattle.mvo_txn.specs.Txns.{table_after_prepare, table_after_change};
ghost use Rattle.mvo_deps.specs.Data.{after_dependency_commit};
ghost use Rattle.mvo_deps.specs.Nodes.{data_of, IsReported};
ghost use Rattle.mvo_deps.specs.Graph.{KeepsGraphAtCommit};
ghost use Rattle.mvo_tale.specs.Slots.{ends, AreRising};
ghost use Rattle.mvo_core.specs.Data.{own_of};
ghost use Rattle.mvo_content.specs.Done.{work_in};
ghost use Rattle.mvo_content.specs.Works.{works_in, HasWorkFor};
ghost use Rattle.mvo_shared.specs.Held.{empty_work};
ghost use Rattle.mvo_core.specs.Own.{done_in, own_place, own_history, own_check};
ghost use Rattle.mvo_core.specs.Checking.{entries_to_check};
ghost use Rattle.mvo_core.specs.Keeping.{IsWritten, IsWrittenThen, IsPlacedInTale, IsCounted, HasHandedOver};
ghost use Rattle.mvo_core.specs.Keeping.{HasEndedIf, HasEndedAs, HasStartedChecks};
ghost use Rattle.mvo_core.specs.Aborting.{HasOpenPlace, tale_left, has_pending_place, has_reading_place};
ghost use Rattle.mvo_core.specs.Causes.{kind_kept, is_read_only as is_reader};

use crate::answers::{Settlement, Validation};
use crate::bringing::{bring_puts, draw_words};
use crate::event_core::Core;
use crate::kept_transaction::{KeptTransaction, Table, TransactionKind};
use crate::next_check::{NextCheck, check_next};
use crate::readiness::{Readiness, readiness_of};
use crate::refusing::{active, is_failure, is_read_only, not_undone};
use mvo_content::{TakenContent, WorkContent, Works};
use mvo_deps::{Node, report_abort, report_commit};
use mvo_tale::{Tale, TaleEntry};
use mvo_txn::{Located, TableSeat, TxState};
use mvo_types::{MAX_STAMP, Refusal, RowKey, Stamp, TxId};
use mvo_work::Operations;
use std::alloc::{AllocError, Global};

impl Core {
    ghost use Rattle.std.specs.Prelude.{◌≡◌, ◌+◌, None, Some, IfOk, IfErr};
    ghost use Rattle.mvo_theory.specs.Calls.Call.{Precommit, Validate, Settle, Rollback};
    ghost use Rattle.mvo_txn.specs.Txns.{state_of, IsUnended};
    ghost use Rattle.mvo_core.specs.Steps.{IsStep, IsValidation, IsSettlement};
    ghost use Rattle.mvo_core.specs.WholeStanding.{IsWholeStep};
    ghost use Rattle.mvo_core.specs.Settling.{IsReadyReader};
    ghost use Rattle.mvo_core.specs.WholeEnds.{IsEndWhole, IsValidationWhole, IsSettlementWhole};
    ghost use Rattle.mvo_core.specs.WholeEnds.{IsReaderSettled, reader_settled_as, end_drawn};
    ghost use Rattle.mvo_core.specs.Aborting.{MayGiveUp, IsGivenUp, IsAborted};
    ghost use Rattle.mvo_core.specs.Aborting.{IsReaderGivenUp, IsReaderAborted};
    ghost use Rattle.mvo_core.specs.Causes.{why_not_undo};
    ghost use Rattle.mvo_core.specs.Counting.{HasAsMany};

    /// Makes an Active transaction Preparing, with the next timestamp as its end, and takes all
    /// memory that its end needs. Refused: NoSuchTransaction, Ended, NotActive, DependencyAborted,
    /// ClockSpent, OutOfMemory.
    pub fn precommit(&mut self, tx: TxId) -> Result<Stamp, Refusal>
        ensures step { IsStep self.old (Precommit tx.0) result self.new }
        ensures end { IfOk result (λ e. e.0 ≡ end_drawn self.old tx.0) }
        ensures whole { IsWholeStep self.old (Precommit tx.0) result self.new }
        ensures whole_end { IfOk result (IsEndWhole self.old tx.0) }
        ensures count { HasAsMany self.old self.new }
    {
        let seat = self.table.seat_of(tx);
        let tx = Located { id: tx, seat };
        let (refusal, count, reads) = active(&self.table, tx);
        if let Some(refusal) = refusal {
            return Err(self.give_up(tx, refusal));
        }
        if reads {
            return Ok(start_checks(&mut self.table, tx));
        }
        let clock = self.table.clock().0;
        if clock >= MAX_STAMP {
            return Err(Refusal::ClockSpent);
        }
        let end = Stamp(clock + 1);
        let written = keys_written(self.alloc, &self.works, tx.id)?;
        self.waiting.make_room_for_ended(count)?;
        let place = self.tale.open(end)?;
        draw_words(
            &mut self.versions,
            &mut self.waiting,
            &self.table,
            tx,
            count,
            end,
        );
        let taken = take_out(&mut self.works, tx.id, written);
        prepare(&mut self.table, tx, place, end, taken)
    }

    /// Checks the next entry of a Preparing transaction, in the order of the first look. After
    /// Valid it answers Valid again. Refused: NoSuchTransaction, Ended, NotPreparing,
    /// DependencyAborted, ValidationFailed; after the last two the transaction is Aborted.
    pub fn validate_one(&mut self, tx: TxId) -> Result<Validation, Refusal>
        ensures step { IsStep self.old (Validate tx.0) result self.new }
        ensures answer { IfOk result (IsValidation self.old tx.0) }
        ensures whole { IsWholeStep self.old (Validate tx.0) result self.new }
        ensures whole_answer { IfOk result (IsValidationWhole self.old tx.0) }
        ensures count { HasAsMany self.old self.new }
    {
        let seat = self.table.seat_of(tx);
        let tx = Located { id: tx, seat };
        match check_next(&self.versions, &self.table, tx) {
            NextCheck::Refused(refusal) => Err(self.give_up(tx, refusal)),
            NextCheck::Valid => Ok(Validation::Valid),
            NextCheck::Differs(stamp) => Err(self.give_up(tx, Refusal::ValidationFailed(stamp))),
            NextCheck::Same => Ok(count_check(&mut self.table, &self.works, tx)),
        }
    }

    /// Makes a validated transaction Committed, unless it depends on one that isn't settled.
    /// Refused: NoSuchTransaction, Ended, NotPreparing, DependencyAborted, NotValidated.
    pub fn settle(&mut self, tx: TxId) -> Result<Settlement, Refusal>
        ensures step { IsStep self.old (Settle tx.0) result self.new }
        ensures answer { IfOk result (IsSettlement self.old tx.0) }
        ensures whole { IsWholeStep self.old (Settle tx.0) result self.new }
        ensures whole_answer { IfOk result (IsSettlementWhole self.old tx.0) }
        ensures count { HasAsMany self.old self.new }
    {
        let seat = self.table.seat_of(tx);
        let tx = Located { id: tx, seat };
        let has_dependents = match readiness_of(&self.table, tx) {
            Readiness::Refused(refusal) => return Err(self.give_up(tx, refusal)),
            Readiness::NotValidated => return Err(Refusal::NotValidated),
            Readiness::WaitsFor(other) => return Ok(Settlement::Waiting(other)),
            Readiness::ReadyReader => return Ok(self.settle_reader(tx)),
            Readiness::Ready(has_dependents) => has_dependents,
        };
        let (end, place, operations) = commit(&mut self.table, tx);
        report_settled(&mut self.table, tx, has_dependents);
        let Operations { told, written } = operations;
        let entry = TaleEntry {
            id: tx.id,
            begin: Stamp(tx.id.0),
            end,
            operations: told,
            written,
        };
        self.tale.settle(place, entry);
        Ok(Settlement::Committed(end))
    }

    /// Makes a read-only transaction that waits for none Committed at its begin, and stores its
    /// commit at the place that it has in the tale. For the others it is aborted.
    fn settle_reader(&mut self, reader: Located) -> Settlement
        requires { IsReadyReader self.old.table reader.id }
        ensures answer { result ≡ reader_settled_as reader.id.0 None }
        ensures settled { IsReaderSettled self.old reader.id.0 self.new }
        ensures count { HasAsMany self.old self.new }
    {
        // A look at the places: from it the proof knows that their ends rise.
        let _ = self.tale.len();
        self.table.abort(reader);
        report_abort(&mut self.table, reader);
        bring_puts(&mut self.versions, &self.table, reader);
        let place = commit_read(&mut self.table, reader);
        let content = self.works.take(reader.id);
        let entry = entry_read(self.alloc, reader.id, content);
        let end = Stamp(reader.id.0);
        self.tale.settle(place, entry);
        Settlement::Committed(end)
    }

    /// Makes an Active or Preparing transaction Aborted, also one that depends on an aborted one.
    /// Refused: NoSuchTransaction, Ended.
    pub fn rollback_tx(&mut self, tx: TxId) -> Result<(), Refusal>
        ensures step { IsStep self.old (Rollback tx.0) result self.new }
        ensures whole { IsWholeStep self.old (Rollback tx.0) result self.new }
        ensures cause { IfErr result (λ r.
            why_not_undo (state_of self.old.table tx.0) ≡ Some r) }
        ensures count { HasAsMany self.old self.new }
    {
        let seat = self.table.seat_of(tx);
        let tx = Located { id: tx, seat };
        if let Some(refusal) = not_undone(&self.table, tx) {
            return Err(refusal);
        }
        self.abort(tx);
        Ok(())
    }

    /// The refusal, by which the transaction is Aborted if it is a failure.
    pub(crate) fn give_up(&mut self, tx: Located, refusal: Refusal) -> Refusal
        requires { MayGiveUp self.old tx.id.0 refusal }
        ensures same { result ≡ refusal }
        ensures left { IsGivenUp self.old tx.id.0 refusal self.new }
        ensures reader { IsReaderGivenUp self.old tx.id.0 refusal self.new }
        ensures count { HasAsMany self.old self.new }
    {
        if is_failure(refusal) {
            self.abort(tx);
        }
        refusal
    }

    /// Aborts an Active or Preparing transaction: its words fall silent, those that depend on it
    /// are flagged, and what it put comes to the front.
    fn abort(&mut self, tx: Located)
        requires { IsUnended (state_of self.old.table tx.id.0) }
        ensures others { IsAborted self.old tx.id.0 self.new }
        ensures readers { IsReaderAborted self.old tx.id.0 self.new }
        ensures count { HasAsMany self.old self.new }
    {
        let reads = leave_tale(&mut self.tale, &self.table, tx);
        self.table.abort(tx);
        report_abort(&mut self.table, tx);
        bring_puts(&mut self.versions, &self.table, tx);
        end_reading(&mut self.table, tx, reads);
    }
}

/// Empties the place in the tale of a Preparing transaction, or of a read-only one that hasn't
/// ended, and says whether it is read-only.
fn leave_tale(tale: &mut Tale, table: &Table, tx: Located) -> bool
    requires { HasOpenPlace (state_of table.now tx.id.0) (kind_kept (own_of table.now tx.id.0))
        tale.old (own_place (own_of table.now tx.id.0)) }
    ensures left { tale.new ≡
        tale_left (state_of table.now tx.id.0) (kind_kept (own_of table.now tx.id.0)) tale.old
        (own_place (own_of table.now tx.id.0)) }
    ensures reads { result ≡ is_reader (own_of table.now tx.id.0) }
    ensures rising { AreRising (ends tale.old) }
{
    let _ = tale.len();
    let Some(seat) = table.get(tx) else {
        return false;
    };
    if has_pending_place(seat) {
        tale.leave(seat.kept.own.place);
    }
    is_read_only(seat.kept.own.kind)
}

/// Whether one has a place in the tale at which no commit is stored.
fn has_pending_place(seat: &TableSeat<Node<KeptTransaction>>) -> bool
    ensures { result ≡ has_pending_place (Some seat.now.state) seat.now.kept.own.kind }
{
    match seat.state {
        TxState::Active => has_reading_place(seat.kept.own.kind),
        TxState::Preparing(_) => true,
        TxState::Committed(_) => false,
        TxState::Aborted => false,
    }
}

/// Whether one of this kind is read-only and hasn't ended.
fn has_reading_place(kind: TransactionKind) -> bool
    ensures { result ≡ has_reading_place kind }
{
    match kind {
        TransactionKind::Reading => true,
        TransactionKind::Preparing => true,
        _ => false,
    }
}

/// One that is read-only is Aborted.
fn end_reading(table: &mut Table, tx: Located, reads: bool)
    requires { reads ≡ true → IsSome (own_of table.old tx.id.0) }
    ensures { HasEndedIf reads TransactionKind.Aborted table.old table.new tx.id.0 }
{
    if reads {
        end_as(table, tx, TransactionKind::Aborted);
    }
}

/// Writes how one that is read-only has ended.
fn end_as(table: &mut Table, tx: Located, kind: TransactionKind)
    requires { IsSome (own_of table.old tx.id.0) }
    ensures { IsWritten table.old table.new tx.id.0 (HasEndedAs kind) }
{
    match table.get_mut(tx) {
        Some(node) => node.own.end_as(kind),
        None => unreachable!(),
    }
}

/// The keys that the transaction wrote, in the order of the first write to each, in a list for its
/// settlement, which takes no memory.
fn keys_written(alloc: Global, works: &Works, id: TxId) -> Result<Vec<RowKey>, AllocError>
    ensures { IfOk result (λ keys. keys.items ≡ written_keys (done_in works.now id.0)) }
{
    match works.work(id) {
        Some(work) => work.keys_written(),
        None => Ok(Vec::new(alloc)),
    }
}

/// Takes out what the transaction did, which wrote these keys. It takes no memory.
fn take_out(works: &mut Works, id: TxId, written: Vec<RowKey>) -> TakenContent
    requires { written.items ≡ written_keys (done_in works.old id.0) }
    ensures taken { result.history ≡ done_in works.old id.0 }
    ensures left { HasWorkFor works.old works.new id.0 empty_work }
{
    TakenContent::new(works.take(id), written)
}

/// Makes an Active transaction Preparing by one look, with the next timestamp as its end, and keeps
/// its place in the tale and what was taken out of its work. None of its entries is checked yet.
fn prepare(
    table: &mut Table,
    tx: Located,
    place: usize,
    end: Stamp,
    taken: TakenContent,
) -> Result<Stamp, Refusal>
    requires { state_of table.old tx.id.0 ≡ Some TxState.Active }
    ensures end { IfOk result (λ drawn. drawn ≡ end) }
    ensures ok { OnOk result (IsWrittenThen table.old table.new tx.id.0
        (IsPlacedInTale place taken) (λ placed. table_after_prepare placed tx.id.0)) }
    ensures refused { IfErr result (λ why. spent_clock table.old.clock ≡ Some why) }
    ensures err { OnErr result (table.new ≡ table.old) }
{
    let node = table.prepare(tx)?;
    node.own.keep_place(place, taken);
    Ok(end)
}

/// Makes a read-only transaction Preparing, and answers its begin, which is its end.
fn start_checks(table: &mut Table, tx: Located) -> Stamp
    requires { IsSome (own_of table.old tx.id.0) }
    ensures end { result.0 ≡ tx.id.0 }
    ensures started { IsWritten table.old table.new tx.id.0 HasStartedChecks }
{
    begin_checks(table, tx);
    Stamp(tx.id.0)
}

/// Does so by one look. None of its entries is checked yet.
fn begin_checks(table: &mut Table, tx: Located)
    requires { IsSome (own_of table.old tx.id.0) }
    ensures { IsWritten table.old table.new tx.id.0 HasStartedChecks }
{
    match table.get_mut(tx) {
        Some(node) => node.own.start_checks(),
        None => unreachable!(),
    }
}

/// Counts a check, and says whether an entry is left.
fn count_check(table: &mut Table, works: &Works, tx: Located) -> Validation
    requires { IsSome (own_of table.old tx.id.0) }
    ensures counted { let own = own_of table.old tx.id.0 in
        IsWritten table.old table.new tx.id.0
        (IsCounted (entries_to_check (done_in works.now tx.id.0) own)) }
    ensures answer { let own = own_of table.old tx.id.0 in
        result ≡ own_check (entries_to_check (done_in works.now tx.id.0) own) own }
{
    match table.get_mut(tx) {
        Some(node) => {
            let count = entries_to_check(&node.own, works, tx.id);
            node.own.count_check(count)
        }
        None => unreachable!(),
    }
}

/// How many entries of the transaction are checked: where it is read-only, those of its work, out
/// of which its precommit takes nothing.
fn entries_to_check(own: &KeptTransaction, works: &Works, id: TxId) -> usize
    ensures { result ≡ entries_to_check (done_in works.now id.0) (Some own.now) }
{
    match is_read_only(own.kind) {
        true => entries_in_work(works, id),
        false => own.taken.entry_count(),
    }
}

/// How many entries the work of the transaction has.
fn entries_in_work(works: &Works, id: TxId) -> usize
    ensures { result ≡ length (entries (done_in works.now id.0)) }
{
    match works.work(id) {
        Some(work) => work.entry_count(),
        None => 0,
    }
}

/// Tells those that depend on the transaction that it is committed. Where nobody does, it isn't
/// looked up.
fn report_settled(table: &mut Table, tx: Located, has_dependents: bool)
    requires { has_dependents ≡ false → (data_of table.old tx.id).dependents ≡ [] }
    ensures told { IsReported after_dependency_commit table.old table.new tx.id }
    ensures graph { KeepsGraphAtCommit table.old table.new tx.id }
{
    if has_dependents {
        report_commit(table, tx);
    }
}

/// Settles a Preparing transaction by one look: answers its end and its place in the tale, with its
/// operations, which are taken out.
fn commit(table: &mut Table, tx: Located) -> (Stamp, usize, Operations)
    requires { IsPreparingState (state_of table.old tx.id.0) }
    ensures end { state_of table.old tx.id.0 ≡ Some (TxState.Preparing result.0) }
    ensures place { result.1 ≡ own_place (own_of table.old tx.id.0) }
    ensures told { history_told result.2.told.items ≡ own_history (own_of table.old tx.id.0) }
    ensures written { result.2.written.items ≡
        written_keys (own_history (own_of table.old tx.id.0)) }
    ensures limits { AreLimited (own_history (own_of table.old tx.id.0)) }
    ensures left { IsWrittenThen table.old table.new tx.id.0 HasHandedOver
        (λ handed. table_after_change handed tx.id.0 (TxState.Committed result.0)) }
{
    let (end, node) = table.commit(tx);
    (end, node.own.place, node.own.taken.take_operations())
}

/// Makes a read-only transaction Committed by one look, and answers its place in the tale.
fn commit_read(table: &mut Table, tx: Located) -> usize
    requires { IsSome (own_of table.old tx.id.0) }
    ensures place { result ≡ own_place (own_of table.old tx.id.0) }
    ensures left { IsWritten table.old table.new tx.id.0 (HasEndedAs TransactionKind.Committed) }
{
    match table.get_mut(tx) {
        Some(node) => {
            node.own.end_as(TransactionKind::Committed);
            node.own.place
        }
        None => unreachable!(),
    }
}

/// The commit of a read-only transaction, which wrote nothing, with what it did. It takes no
/// memory.
fn entry_read(alloc: Global, id: TxId, content: WorkContent) -> TaleEntry
    requires { written_keys content.history ≡ [] }
    ensures { result ≡ record { id = id.0; end = id.0; history = content.history } }
{
    let mut content = content;
    let begin = Stamp(id.0);
    TaleEntry {
        id,
        begin,
        end: begin,
        operations: content.take_operations(),
        written: Vec::new(alloc),
    }
}
