//! Whether a transaction may be settled.
ghost use Rattle.mvo_core.specs.Settling.{IsReadiness};

use crate::kept_transaction::Table;
use crate::refusing::{is_read_only, not_preparing_in};
use mvo_deps::waiting_for;
use mvo_txn::Located;
use mvo_types::{Refusal, TxId};

/// What one look at a transaction that is to be settled tells.
#[derive(Clone, Copy, Debug, PartialEq, Eq)]
pub enum Readiness {
    /// It may not be called as a Preparing one.
    Refused(Refusal),
    /// An entry of it is left to check.
    NotValidated,
    /// It depends on this transaction, which isn't settled: the one with the least end timestamp.
    WaitsFor(TxId),
    /// It is read-only, and may be settled.
    ReadyReader,
    /// It may be settled, and whether somebody depends on it.
    Ready(bool),
}

/// Whether the transaction may be settled, by one look at it.
#[inline(always)]
pub fn readiness_of(table: &Table, tx: Located) -> Readiness
    ensures { IsReadiness table.now tx.id result }
{
    let Some(seat) = table.get(tx) else {
        return Readiness::Refused(Refusal::NoSuchTransaction);
    };
    if let Some(refusal) = not_preparing_in(seat) {
        return Readiness::Refused(refusal);
    }
    if !seat.kept.own.valid {
        return Readiness::NotValidated;
    }
    let dependencies = &seat.kept.dependencies;
    match waiting_for(table, dependencies) {
        Some(other) => Readiness::WaitsFor(other),
        None => {
            if is_read_only(seat.kept.own.kind) {
                Readiness::ReadyReader
            } else {
                Readiness::Ready(dependencies.has_dependents())
            }
        }
    }
}
