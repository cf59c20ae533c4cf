ghost use Rattle.std.specs.Prelude.{◌≡◌, MatchOption};
ghost use Rattle.std.specs.Option.{option_map};
ghost use Rattle.mvo_txn.specs.Txns.{state_of};
ghost use Rattle.mvo_txn.specs.Queue.{open_end};
ghost use Rattle.mvo_deps.specs.Graph.{WaitsByCounter};
ghost use Rattle.mvo_deps.specs.Waiting.{IsLeastOpen, HasNoneOpen, StaysLeast};

use crate::dependencies::Dependencies;
use crate::node::Node;
use mvo_txn::{TxState, TxnTable};
use mvo_types::{Stamp, TxId};

/// Of those that a transaction with these dependencies depends on, the Preparing one with the
/// least end.
///
/// Takes time by the number of those that it depends on.
#[inline(always)]
pub fn waiting_for<P>(table: &TxnTable<Node<P>>, dependencies: &Dependencies) -> Option<TxId>
    ensures least { MatchOption result (HasNoneOpen table.now dependencies.now.on)
        (IsLeastOpen table.now dependencies.now.on) }
    ensures counter { WaitsByCounter table.now dependencies.now result }
{
    least_open(table, dependencies.on())
}

fn least_open<P>(table: &TxnTable<Node<P>>, ids: &[TxId]) -> Option<TxId>
    ensures { MatchOption result (HasNoneOpen table.now ids.now) (IsLeastOpen table.now ids.now) }
{
    let mut least = None;
    let mut least_end = Stamp(0);
    for id in ids {
        let (next, next_end) = lesser(table, *id, least, least_end);
        least = next;
        least_end = next_end;
    }
    least
}

// The least with one more looked at, and its end.
fn lesser<P>(
    table: &TxnTable<Node<P>>,
    id: TxId,
    least: Option<TxId>,
    least_end: Stamp,
) -> (Option<TxId>, Stamp)
    ensures { StaysLeast table.now id least least_end.0 result.0 result.1.0 }
{
    let Some(end) = open_end_of(table, id) else {
        return (least, least_end);
    };
    if least.is_none() {
        return (Some(id), end);
    }
    if end.0 < least_end.0 {
        return (Some(id), end);
    }
    (least, least_end)
}

// The end of a Preparing transaction.
fn open_end_of<P>(table: &TxnTable<Node<P>>, id: TxId) -> Option<Stamp>
    ensures { option_map (λ end. end.0) result ≡ open_end (state_of table.now id.0) }
{
    match table.state(id) {
        Some(TxState::Preparing(end)) => Some(end),
        Some(TxState::Active) => None,
        Some(TxState::Committed(_)) => None,
        Some(TxState::Aborted) => None,
        None => None,
    }
}
