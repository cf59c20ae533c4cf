ghost use Rattle.std.specs.Prelude.{◌≡◌};
ghost use Rattle.mvo_deps.specs.Data.{AreDistinctIds, after_dependency_commit, after_dependency_abort, dependency_noted};
ghost use Rattle.mvo_deps.specs.Nodes.{after_change, IsEachChanged, IsReported};
ghost use Rattle.mvo_deps.specs.Graph.{KeepsGraphAtCommit, KeepsGraphAtAbort};

use crate::node::Node;
use crate::outcome::Outcome;
use mvo_txn::{Located, TxnTable};
use mvo_types::TxId;

/// Tells those that depend on a transaction that it is committed: each waits for one less.
///
/// It takes no memory, and time by the number of those that it tells.
pub fn report_commit<P>(table: &mut TxnTable<Node<P>>, on: Located)
    ensures told { IsReported after_dependency_commit table.old table.new on.id }
    ensures graph { KeepsGraphAtCommit table.old table.new on.id }
{
    report(table, on, Outcome::Committed);
}

/// Tells those that depend on a transaction that it is aborted: each is flagged with its id,
/// unless it was flagged, and waits for one less.
///
/// It takes no memory, and time by the number of those that it tells.
pub fn report_abort<P>(table: &mut TxnTable<Node<P>>, on: Located)
    ensures told { IsReported (after_dependency_abort on.id) table.old table.new on.id }
    ensures graph { KeepsGraphAtAbort table.old table.new on.id }
{
    report(table, on, Outcome::Aborted(on.id));
}

#[inline(always)]
fn report<P>(table: &mut TxnTable<Node<P>>, on: Located, outcome: Outcome)
    ensures { IsReported (dependency_noted outcome) table.old table.new on.id }
{
    let Some(node) = table.get_mut(on) else {
        return;
    };
    let dependents = node.dependencies.take_dependents();
    note_each(table, &dependents, outcome);
}

fn note_each<P>(table: &mut TxnTable<Node<P>>, ids: &[TxId], outcome: Outcome)
    requires { AreDistinctIds ids.now }
    ensures { IsEachChanged (dependency_noted outcome) table.old table.new ids.now }
{
    for id in ids {
        note(table, *id, outcome);
    }
}

fn note<P>(table: &mut TxnTable<Node<P>>, id: TxId, outcome: Outcome)
    ensures { table.new ≡ after_change table.old id.0 (dependency_noted outcome) }
{
    let seat = table.seat_of(id);
    let tx = Located { id, seat };
    if let Some(node) = table.get_mut(tx) {
        node.dependencies.note(outcome);
    }
}
