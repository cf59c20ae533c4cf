//! On whom a transaction depends, and the words that it puts.
ghost use Rattle.std.specs.Prelude.{◌≡◌, ◌∷◌, ◌≤◌, OnOk, OnErr, IsSome, IfSome};
ghost use Rattle.std.specs.Option.{option_to_list};
ghost use Rattle.mvo_deps.specs.Nodes.{after_register_all};
ghost use Rattle.mvo_deps.specs.Graph.{IsUnfinished};
ghost use Rattle.mvo_core.specs.Data.{own_of};
ghost use Rattle.mvo_core.specs.Keeping.{IsWritten, HasWrittenAsMuch, HasMadeRoom};
ghost use Rattle.mvo_core.specs.Keeping.{HasWrittenMore};

use crate::kept_transaction::Table;
use mvo_deps::register;
use mvo_txn::Located;
use mvo_types::TxId;
use mvo_work::WordPlace;
use std::alloc::AllocError;

/// Room for the words that a write of the transaction may put.
#[inline(always)]
pub fn make_room(table: &mut Table, tx: Located) -> Result<(), AllocError>
    requires { IsSome (own_of table.old tx.id.0) }
    ensures ok { OnOk result (IsWritten table.old table.new tx.id.0 HasMadeRoom) }
    ensures err { OnErr result (IsWritten table.old table.new tx.id.0 HasWrittenAsMuch) }
{
    match table.get_mut(tx) {
        Some(node) => node.own.make_room(),
        None => unreachable!(),
    }
}

/// Lets the transaction depend on the other, if there is one.
#[inline(always)]
pub fn depend(table: &mut Table, tx: Located, on: Option<TxId>) -> Result<(), AllocError>
    requires { IsUnfinished table.old tx.id }
    ensures ok { OnOk result (table.new ≡ after_register_all table.old tx.id (option_to_list on)) }
    ensures err { OnErr result (table.new ≡ table.old) }
{
    match on {
        Some(on) => register(table, tx, on),
        None => Ok(()),
    }
}

/// The transaction has put this word, and the other, if there is one.
#[inline(always)]
pub fn write(table: &mut Table, tx: Located, word: WordPlace, other: Option<WordPlace>)
    requires there { IsSome (own_of table.old tx.id.0) }
    requires room { IfSome (own_of table.old tx.id.0) (λ own. 2 ≤ own.writes.room) }
    ensures { IsWritten table.old table.new tx.id.0
        (HasWrittenMore (word ∷ option_to_list other)) }
{
    match table.get_mut(tx) {
        Some(node) => node.own.write(word, other),
        None => unreachable!(),
    }
}
