//! Whether a transaction was told what somebody says that it was.
ghost use Rattle.std.specs.Prelude.{◌≡◌, Some};
ghost use Rattle.mvo_theory.specs.Told.{history_told};
ghost use Rattle.mvo_txn.specs.Txns.{state_of};
ghost use Rattle.mvo_core.specs.Data.{own_of};
ghost use Rattle.mvo_content.specs.Works.{works_in};
ghost use Rattle.mvo_core.specs.Holding.{told_at, HasToldAs};

use crate::equal::same_operations;
use crate::event_core::Core;
use crate::kept_transaction::{KeptTransaction, Table};
use mvo_content::Works;
use mvo_deps::Node;
use mvo_txn::{Located, TableSeat, TxState};
use mvo_types::{Answer, Op, TxId};

impl Core {
    ghost use Rattle.mvo_theory.specs.Told.{history_told};
    ghost use Rattle.mvo_core.specs.Holding.{HoldsJust, HoldsJustWhole};

    /// Whether the operations of the transaction are these in this order, with these answers, if
    /// it is Active or Preparing; yes of one that is neither, which has nothing to compare. It
    /// takes no memory, and time by how many they are.
    pub fn holds(&self, tx: TxId, told: &[(Op, Answer)]) -> bool
        ensures just { HoldsJust self.now tx.0 (history_told told.now) result }
        ensures whole { HoldsJustWhole self.now tx.0 (history_told told.now) result }
    {
        let seat = self.table.seat_of(tx);
        let tx = Located { id: tx, seat };
        has_told(&self.table, &self.works, tx, told)
    }
}

/// Whether these are the operations of the transaction, if it is Active or Preparing.
fn has_told(table: &Table, works: &Works, tx: Located, told: &[(Op, Answer)]) -> bool
    ensures { let state = state_of table.now tx.id.0 in HasToldAs state
        (told_at state (works_in works.now tx.id.0).history (own_of table.now tx.id.0))
        (history_told told.now) result }
{
    match table.get(tx) {
        Some(seat) => has_told_in(seat, works, tx.id, told),
        None => true,
    }
}

/// Whether these are the operations of one that is unfinished, if it is Active or Preparing.
fn has_told_in(
    seat: &TableSeat<Node<KeptTransaction>>,
    works: &Works,
    id: TxId,
    told: &[(Op, Answer)],
) -> bool
    ensures { let state = Some seat.now.state in HasToldAs state
        (told_at state (works_in works.now id.0).history (Some seat.now.kept.own))
        (history_told told.now) result }
{
    match seat.state {
        TxState::Active => same_operations(operations_of(works, id), told),
        TxState::Preparing(_) => same_operations(seat.kept.own.taken.operations(), told),
        TxState::Committed(_) => true,
        TxState::Aborted => true,
    }
}

/// The operations of the transaction with their answers, as its work holds them.
fn operations_of(works: &Works, id: TxId) -> &[(Op, Answer)]
    ensures { history_told result.now ≡ (works_in works.now id.0).history }
{
    match works.work(id) {
        Some(work) => work.operations(),
        None => &[],
    }
}
