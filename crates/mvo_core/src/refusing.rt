//! Why a call is refused: the first of its refusals whose cause stands.
ghost use Rattle.std.specs.Prelude.{◌≡◌, Some, length};
ghost use Rattle.mvo_theory.specs.Causes.{is_failure, is_entry_too_many, is_write_too_many};
ghost use Rattle.mvo_core.specs.Causes.{why_not_active, why_not_look};
ghost use Rattle.mvo_core.specs.Causes.{why_not_put, why_not_remove, why_not_undo};
ghost use Rattle.mvo_core.specs.Causes.{why_not_write, flag_refusal};
ghost use Rattle.mvo_core.specs.Causes.{unless_active_as, unless_preparing_as};
ghost use Rattle.mvo_core.specs.Causes.{unless_reads, unless_checks, is_read_only_kind};
ghost use Rattle.mvo_core.specs.Causes.{is_read_only as is_reader};
ghost use Rattle.mvo_core.specs.Data.{own_of};
ghost use Rattle.mvo_core.specs.Own.{done_in};
ghost use Rattle.mvo_core.specs.Standing.{words_in};
ghost use Rattle.mvo_txn.specs.Txns.{state_of};

use crate::kept_transaction::{KeptTransaction, Table, TransactionKind};
use mvo_content::Works;
use mvo_deps::{Dependencies, Node};
use mvo_txn::{Located, TableSeat, TxState};
use mvo_types::{Entry, MAX_DATA_LEN, MAX_TABLE, Refusal, Row, RowKey, TxId};

/// The refusal by the flag, if it is set.
fn flagged(dependencies: &Dependencies) -> Option<Refusal>
    ensures { result ≡ flag_refusal dependencies.now.aborted }
{
    match dependencies.aborted() {
        Some(id) => Some(Refusal::DependencyAborted(id)),
        None => None,
    }
}

/// Why one that is Active for the table may not be called as an Active one: a read-only one may be
/// Preparing.
fn not_reading(node: &Node<KeptTransaction>) -> Option<Refusal>
    ensures { result ≡ unless_reads node.now.own.kind node.now.dependencies.aborted }
{
    match node.own.kind {
        TransactionKind::Preparing => Some(Refusal::NotActive),
        _ => flagged(&node.dependencies),
    }
}

/// Why one that is unfinished may not be called as an Active one.
fn not_active_in(seat: &TableSeat<Node<KeptTransaction>>) -> Option<Refusal>
    ensures { result ≡ unless_active_as (Some seat.now.state) seat.now.kept.own.kind
        seat.now.kept.dependencies.aborted }
{
    match seat.state {
        TxState::Active => not_reading(&seat.kept),
        TxState::Preparing(_) => Some(Refusal::NotActive),
        TxState::Committed(_) => Some(Refusal::Ended),
        TxState::Aborted => Some(Refusal::Ended),
    }
}

/// Why the transaction may not be called as an Active one, how many words its list has, and whether
/// it is read-only.
pub fn active(table: &Table, tx: Located) -> (Option<Refusal>, usize, bool)
    ensures refusal { result.0 ≡ why_not_active table.now tx.id.0 }
    ensures words { result.1 ≡ length (words_in table.now tx.id.0) }
    ensures reads { result.2 ≡ is_reader (own_of table.now tx.id.0) }
{
    match table.get(tx) {
        Some(seat) => {
            let own = &seat.kept.own;
            (
                not_active_in(seat),
                own.writes.word_count(),
                is_read_only(own.kind),
            )
        }
        None => (Some(Refusal::NoSuchTransaction), 0, false),
    }
}

/// Why one that is Active for the table may not be called as a Preparing one, which a read-only one
/// may be.
fn not_prepared(node: &Node<KeptTransaction>) -> Option<Refusal>
    ensures { result ≡ unless_checks node.now.own.kind node.now.dependencies.aborted }
{
    match node.own.kind {
        TransactionKind::Preparing => flagged(&node.dependencies),
        _ => Some(Refusal::NotPreparing),
    }
}

/// Why one that is unfinished may not be called as a Preparing one.
pub fn not_preparing_in(seat: &TableSeat<Node<KeptTransaction>>) -> Option<Refusal>
    ensures { result ≡ unless_preparing_as (Some seat.now.state) seat.now.kept.own.kind
        seat.now.kept.dependencies.aborted }
{
    match seat.state {
        TxState::Active => not_prepared(&seat.kept),
        TxState::Preparing(_) => flagged(&seat.kept.dependencies),
        TxState::Committed(_) => Some(Refusal::Ended),
        TxState::Aborted => Some(Refusal::Ended),
    }
}

/// Why the transaction may not be undone.
pub fn not_undone(table: &Table, tx: Located) -> Option<Refusal>
    ensures { result ≡ why_not_undo (state_of table.now tx.id.0) }
{
    let Some(seat) = table.get(tx) else {
        return Some(Refusal::NoSuchTransaction);
    };
    match seat.state {
        TxState::Active => None,
        TxState::Preparing(_) => None,
        TxState::Committed(_) => Some(Refusal::Ended),
        TxState::Aborted => Some(Refusal::Ended),
    }
}

/// Why the transaction may not look at the entry, which is of this table.
#[inline(always)]
pub fn not_looked(
    table: &Table,
    works: &Works,
    tx: Located,
    of: u8,
    entry: Entry,
) -> Option<Refusal>
    ensures { result ≡ why_not_look table.now (done_in works.now tx.id.0) tx.id.0 of entry }
{
    let Some(seat) = table.get(tx) else {
        return Some(Refusal::NoSuchTransaction);
    };
    if let Some(refusal) = not_active_in(seat) {
        return Some(refusal);
    }
    if of > MAX_TABLE {
        return Some(Refusal::BadTable);
    }
    if is_entry_too_many(works, tx.id, entry) {
        return Some(Refusal::TooManyReads);
    }
    None
}

/// Whether one of this kind is read-only.
pub fn is_read_only(kind: TransactionKind) -> bool
    ensures { result ≡ is_read_only_kind kind }
{
    match kind {
        TransactionKind::Other => false,
        _ => true,
    }
}

/// Whether the transaction has as many entries as may be, and this isn't one of them.
#[inline(always)]
fn is_entry_too_many(works: &Works, id: TxId, entry: Entry) -> bool
    ensures { result ≡ is_entry_too_many (done_in works.now id.0) entry }
{
    match works.work(id) {
        Some(work) => work.is_entry_too_many(entry),
        None => false,
    }
}

/// Whether the transaction has written as many keys as may be, and this isn't one of them.
#[inline(always)]
fn is_write_too_many(works: &Works, id: TxId, key: RowKey) -> bool
    ensures { result ≡ is_write_too_many (done_in works.now id.0) key }
{
    match works.work(id) {
        Some(work) => work.is_write_too_many(key),
        None => false,
    }
}

/// Why one that has done what its work has may not look at the key and write it.
#[inline(always)]
fn not_written(works: &Works, id: TxId, key: RowKey) -> Option<Refusal>
    ensures { result ≡ why_not_write (done_in works.now id.0) key }
{
    if is_entry_too_many(works, id, Entry::Key(key)) {
        return Some(Refusal::TooManyReads);
    }
    if is_write_too_many(works, id, key) {
        return Some(Refusal::TooManyWrites);
    }
    None
}

/// Why the transaction may not put the row, before it is looked who stands in the way.
pub fn not_put(table: &Table, works: &Works, tx: Located, row: &Row) -> Option<Refusal>
    ensures { result ≡ why_not_put table.now (done_in works.now tx.id.0) tx.id.0 row.now }
{
    let Some(seat) = table.get(tx) else {
        return Some(Refusal::NoSuchTransaction);
    };
    if let Some(refusal) = not_active_in(seat) {
        return Some(refusal);
    }
    let key = row.row_key();
    if is_read_only(seat.kept.own.kind) {
        return Some(Refusal::ReadOnly);
    }
    if key.table > MAX_TABLE {
        return Some(Refusal::BadTable);
    }
    if row.data_len() > MAX_DATA_LEN {
        return Some(Refusal::DataTooLong);
    }
    not_written(works, tx.id, key)
}

/// Why the transaction may not remove the key's row, before it is looked who stands in the way.
pub fn not_removed(table: &Table, works: &Works, tx: Located, key: RowKey) -> Option<Refusal>
    ensures { result ≡ why_not_remove table.now (done_in works.now tx.id.0) tx.id.0 key }
{
    let Some(seat) = table.get(tx) else {
        return Some(Refusal::NoSuchTransaction);
    };
    if let Some(refusal) = not_active_in(seat) {
        return Some(refusal);
    }
    let own = &seat.kept.own;
    if is_read_only(own.kind) {
        return Some(Refusal::ReadOnly);
    }
    if key.table > MAX_TABLE {
        return Some(Refusal::BadTable);
    }
    not_written(works, tx.id, key)
}

/// Whether the transaction is Aborted by the refusal.
pub fn is_failure(refusal: Refusal) -> bool
    ensures { result ≡ is_failure refusal }
{
    match refusal {
        Refusal::WriteConflict(_) => true,
        Refusal::ValidationFailed(_) => true,
        Refusal::DependencyAborted(_) => true,
        _ => false,
    }
}
