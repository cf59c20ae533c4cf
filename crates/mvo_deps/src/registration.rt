ghost use Rattle.std.specs.Prelude.{◌≡◌, ◌≤◌, length, false, OnOk, OnErr, MatchOption};
ghost use Rattle.mvo_deps.specs.Data.{is_id_among, with_dependency, with_dependent, IsLastBeyond};
ghost use Rattle.mvo_deps.specs.Data.{without_last_dependency, without_last_dependent};
ghost use Rattle.mvo_deps.specs.Nodes.{data_of, after_change, after_register};
ghost use Rattle.mvo_deps.specs.Nodes.{after_register_all, TakesBack};
ghost use Rattle.mvo_deps.specs.Graph.{KeepsGraph, KeepsGraphOverAll, Depends, IsUnfinished};

use crate::node::Node;
use mvo_txn::{Located, TxnTable};
use mvo_types::TxId;
use std::alloc::AllocError;

/// Lets an unfinished transaction depend on another, which isn't settled. One that it depends on
/// already changes nothing.
///
/// Takes time by the number of those that the first depends on, and where the other is new, of
/// those that depend on the other.
pub fn register<P>(table: &mut TxnTable<Node<P>>, tx: Located, on: TxId) -> Result<(), AllocError>
    ensures ok { OnOk result (table.new ≡ after_register table.old tx.id on) }
    ensures err { OnErr result (table.new ≡ table.old) }
    ensures graph { KeepsGraph table.old table.new tx.id on }
    ensures depends { OnOk result (Depends table.old table.new tx.id on) }
{
    if depends_on(table, tx, on) {
        return Ok(());
    }
    let seat = table.seat_of(on);
    let other = Located { id: on, seat };
    if has_dependent(table, other, tx.id) {
        return Ok(());
    }
    add_dependent(table, other, tx.id)?;
    if let Err(refused) = add_dependency(table, tx, on) {
        drop_last_dependent(table, other);
        return Err(refused);
    }
    Ok(())
}

/// Lets an unfinished transaction depend on each of the others, as `register` does it, one after
/// another. Refused, none is registered. That one stands twice changes nothing.
///
/// Takes time as so many calls of `register`, and twice that where it is refused.
pub fn register_all<P>(
    table: &mut TxnTable<Node<P>>,
    tx: Located,
    on: &[TxId],
) -> Result<(), AllocError>
    requires { IsUnfinished table.old tx.id }
    ensures ok { OnOk result (table.new ≡ after_register_all table.old tx.id on.now) }
    ensures err { OnErr result (table.new ≡ table.old) }
    ensures graph { KeepsGraphOverAll table.old table.new tx.id on.now }
{
    let count = dependency_count(table, tx);
    for id in on {
        if let Err(refused) = register(table, tx, *id) {
            take_back(table, tx, count);
            return Err(refused);
        }
    }
    Ok(())
}

// Takes back those that it came to depend on last, until it depends on so many.
fn take_back<P>(table: &mut TxnTable<Node<P>>, tx: Located, count: usize)
    ensures { TakesBack table.old table.new tx.id count }
{
    while let Some(on) = last_beyond(table, tx, count) {
        drop_last_dependency(table, tx);
        let seat = table.seat_of(on);
        let other = Located { id: on, seat };
        drop_last_dependent(table, other);
    }
}

fn dependency_count<P>(table: &TxnTable<Node<P>>, tx: Located) -> usize
    ensures { result ≡ length (data_of table.now tx.id).on }
{
    match table.get(tx) {
        Some(seat) => seat.kept.dependencies.on().len(),
        None => 0,
    }
}

// The last that it came to depend on, where it depends on more than so many.
fn last_beyond<P>(table: &TxnTable<Node<P>>, tx: Located, count: usize) -> Option<TxId>
    ensures { MatchOption result (length (data_of table.now tx.id).on ≤ count)
        (IsLastBeyond count (data_of table.now tx.id).on) }
{
    match table.get(tx) {
        Some(seat) => seat.kept.dependencies.last_beyond(count),
        None => None,
    }
}

fn depends_on<P>(table: &TxnTable<Node<P>>, tx: Located, on: TxId) -> bool
    ensures { result ≡ is_id_among on (data_of table.now tx.id).on }
{
    match table.get(tx) {
        Some(seat) => seat.kept.dependencies.depends_on(on),
        None => false,
    }
}

fn has_dependent<P>(table: &TxnTable<Node<P>>, on: Located, id: TxId) -> bool
    ensures { result ≡ is_id_among id (data_of table.now on.id).dependents }
{
    match table.get(on) {
        Some(seat) => seat.kept.dependencies.has_dependent(id),
        None => false,
    }
}

fn add_dependent<P>(table: &mut TxnTable<Node<P>>, on: Located, id: TxId) -> Result<(), AllocError>
    requires { is_id_among id (data_of table.old on.id).dependents ≡ false }
    ensures ok { OnOk result (table.new ≡ after_change table.old on.id.0 (with_dependent id)) }
    ensures err { OnErr result (table.new ≡ table.old) }
{
    match table.get_mut(on) {
        Some(node) => node.dependencies.add_dependent(id),
        None => Ok(()),
    }
}

fn drop_last_dependent<P>(table: &mut TxnTable<Node<P>>, on: Located)
    ensures { table.new ≡ after_change table.old on.id.0 without_last_dependent }
{
    if let Some(node) = table.get_mut(on) {
        node.dependencies.drop_last_dependent();
    }
}

fn drop_last_dependency<P>(table: &mut TxnTable<Node<P>>, tx: Located)
    ensures { table.new ≡ after_change table.old tx.id.0 without_last_dependency }
{
    if let Some(node) = table.get_mut(tx) {
        node.dependencies.drop_last();
    }
}

fn add_dependency<P>(table: &mut TxnTable<Node<P>>, tx: Located, on: TxId) -> Result<(), AllocError>
    ensures ok { OnOk result (table.new ≡ after_change table.old tx.id.0 (with_dependency on)) }
    ensures err { OnErr result (table.new ≡ table.old) }
{
    match table.get_mut(tx) {
        Some(node) => node.dependencies.add(on),
        None => Ok(()),
    }
}
