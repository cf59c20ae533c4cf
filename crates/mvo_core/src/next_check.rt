//! What is found where a transaction is validated.
ghost use Rattle.std.specs.Prelude.{◌≡◌, Some};
ghost use Rattle.std.specs.Option.{option_map};
ghost use Rattle.mvo_txn.specs.Txns.{state_of};
ghost use Rattle.mvo_visible.specs.Shown.{AllHaveFallingStamps};
ghost use Rattle.mvo_core.specs.Checking.{change_between, change_for, IsNextCheck};
ghost use Rattle.mvo_core.specs.Own.{own_entry};

use crate::kept_transaction::{KeptTransaction, Table};
use crate::refusing::not_preparing_in;
use mvo_deps::Node;
use mvo_txn::{Located, TableSeat, TxState};
use mvo_types::{Entry, Refusal, Stamp, TxId};
use mvo_validate::Check;
use mvo_versions::Versions;

/// What one look at a transaction that is to be validated tells.
#[derive(Clone, Copy, Debug, PartialEq, Eq)]
pub enum NextCheck {
    /// It may not be called as a Preparing one.
    Refused(Refusal),
    /// No entry is left to check.
    Valid,
    /// The next entry was changed between its begin and its end: the greatest stamp of a change.
    Differs(Stamp),
    /// The next entry wasn't.
    Same,
}

/// Checks the next entry of the transaction, where the versions stand in order, by one look at it.
#[inline(always)]
pub fn check_next(versions: &Versions, table: &Table, tx: Located) -> NextCheck
    ensures { IsNextCheck table.now versions.now tx.id result }
{
    let Some(seat) = table.get(tx) else {
        return NextCheck::Refused(Refusal::NoSuchTransaction);
    };
    if let Some(refusal) = not_preparing_in(seat) {
        return NextCheck::Refused(refusal);
    }
    if seat.kept.own.valid {
        return NextCheck::Valid;
    }
    match next_change(versions, table, tx.id, seat) {
        Some(stamp) => NextCheck::Differs(stamp),
        None => NextCheck::Same,
    }
}

/// The greatest stamp of a change to the next entry of a Preparing transaction, between its begin
/// and its end, where the versions stand in order.
fn next_change(
    versions: &Versions,
    table: &Table,
    tx: TxId,
    seat: &TableSeat<Node<KeptTransaction>>,
) -> Option<Stamp>
    ensures { let states = state_of table.now in
        AllHaveFallingStamps states versions.now.slots versions.now.lists →
        option_map (λ stamp. stamp.0) result ≡
        change_for (Some seat.now.state) states versions.now tx.0
        (own_entry (Some seat.now.kept.own)) }
{
    let TxState::Preparing(end) = seat.state else {
        return None;
    };
    let entry = next_entry(&seat.kept.own)?;
    change_in(versions, table, Stamp(tx.0), end, entry)
}

/// The next entry to check, if one is left.
fn next_entry(own: &KeptTransaction) -> Option<Entry>
    ensures { result ≡ own_entry (Some own.now) }
{
    own.taken.entry_at(own.checked)
}

/// The greatest stamp of a change to the entry between the begin and the end, where the versions
/// stand in order.
fn change_in(
    versions: &Versions,
    table: &Table,
    begin: Stamp,
    end: Stamp,
    entry: Entry,
) -> Option<Stamp>
    ensures { let states = state_of table.now in
        AllHaveFallingStamps states versions.now.slots versions.now.lists →
        option_map (λ stamp. stamp.0) result ≡
        change_between states versions.now begin.0 end.0 (Some entry) }
{
    match versions.check(table, begin, end, entry) {
        Check::Same => None,
        Check::Differs(stamp) => Some(stamp),
    }
}
