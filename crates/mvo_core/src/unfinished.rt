//! How many versions, places and unfinished transactions there are, which of these are Active, and
//! which end was drawn last.
ghost use Rattle.std.specs.Prelude.{◌≡◌};
ghost use Rattle.mvo_core.specs.Unfinished.{IsNextActive, IsNextBegun, is_active_kind, is_active_in, is_open_kind};

use crate::event_core::Core;
use crate::kept_transaction::{KeptTransaction, Table, TransactionKind};
use mvo_deps::Node;
use mvo_txn::{Located, TableSeat, TxState};
use mvo_types::{Stamp, TxId};

impl Core {
    ghost use Rattle.std.specs.Prelude.{◌≡◌};
    ghost use Rattle.std.specs.FinMap as map;
    ghost use Rattle.mvo_txn.specs.Next.{IsNextBegin};
    ghost use Rattle.std.specs.Option.{option_map};
    ghost use Rattle.mvo_core.specs.Counting.{AreWaitingCounts, place_count, version_count};
    ghost use Rattle.mvo_core.specs.Seen.{last_end_of};
    ghost use Rattle.mvo_core.specs.Unfinished.{IsNextActive, IsNextActiveWhole};

    /// How many versions there are, those that are garbage among them.
    pub fn version_count(&self) -> usize
        ensures { result ≡ version_count self.now }
    {
        self.versions.version_count()
    }

    /// How many places there are in the order of sorts: one for each key that has a version, and
    /// one more for each further sort that versions of it have.
    pub fn place_count(&self) -> usize
        ensures { result ≡ place_count self.now }
    {
        self.versions.place_count()
    }

    /// How many versions wait to be collected: first of those that aborted transactions put, then
    /// of those that committed ones replaced or deleted, which readers may see still. Some that
    /// wait may be gone from their keys already.
    pub fn waiting_counts(&self) -> (usize, usize)
        ensures { AreWaitingCounts self.now result }
    {
        (self.waiting.dead_count(), self.waiting.ended_count())
    }

    /// The end that was drawn last of those whose places are in the tale, the begins of read-only
    /// transactions among them: the one at its back.
    pub fn last_end(&self) -> Option<Stamp>
        ensures { option_map (λ e. e.0) result ≡ last_end_of self.now }
    {
        self.tale.last_end()
    }

    /// How many transactions aren't finished.
    pub fn unfinished_count(&self) -> usize
        ensures { result ≡ map.len self.now.table.seats }
    {
        self.table.len()
    }

    /// The unfinished transaction with the least begin, if there is one.
    pub fn oldest_unfinished(&self) -> Option<TxId>
        ensures { IsNextBegin self.now.table 0 result }
    {
        self.table.next_begin(Stamp(0))
    }

    /// The Active transaction with the least begin from `from` on and below `below`, if there is
    /// one; a read-only one that reads is Active, too. It takes no memory. Whoever asks again from
    /// behind each answer passes each unfinished transaction once, and finds its place in the
    /// logarithm of their number.
    pub fn next_active(&self, from: Stamp, below: Stamp) -> Option<TxId>
        ensures next { IsNextActive self.now.table from.0 below.0 result }
        ensures whole { IsNextActiveWhole self.now from.0 below.0 result }
    {
        next_in(&self.table, from, below)
    }
}

/// The Active transaction with the least begin there, as the table tells.
fn next_in(table: &Table, from: Stamp, below: Stamp) -> Option<TxId>
    ensures { IsNextActive table.now from.0 below.0 result }
{
    let mut at = from.0;
    while at < below.0 {
        let Some(id) = begun_between(table, at, below) else {
            return None;
        };
        if is_active(table, id) {
            return Some(id);
        }
        at = id.0 + 1;
    }
    None
}

/// The unfinished transaction with the least begin there.
fn begun_between(table: &Table, from: u64, below: Stamp) -> Option<TxId>
    ensures { IsNextBegun table.now from below.0 result }
{
    match table.next_begin(Stamp(from)) {
        Some(id) if id.0 < below.0 => Some(id),
        _ => None,
    }
}

/// Whether the transaction is Active.
fn is_active(table: &Table, id: TxId) -> bool
    ensures { result ≡ is_active_in table.now id.0 }
{
    let seat = table.seat_of(id);
    match table.get(Located { id, seat }) {
        Some(seat) => is_active_seat(seat),
        None => false,
    }
}

/// Whether one that is unfinished is Active.
fn is_active_seat(seat: &TableSeat<Node<KeptTransaction>>) -> bool
    ensures { result ≡ is_active_kind (Some seat.now.state) seat.now.kept.own.kind }
{
    match seat.state {
        TxState::Active => is_open_kind(seat.kept.own.kind),
        TxState::Preparing(_) => false,
        TxState::Committed(_) => false,
        TxState::Aborted => false,
    }
}

/// Whether one of this kind hasn't drawn its end.
fn is_open_kind(kind: TransactionKind) -> bool
    ensures { result ≡ is_open_kind kind }
{
    match kind {
        TransactionKind::Other => true,
        TransactionKind::Reading => true,
        _ => false,
    }
}
