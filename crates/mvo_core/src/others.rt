//! What others show a transaction in a range.
ghost use Rattle.std.specs.Prelude.{◌≡◌, ◌+◌, IfOk};
ghost use Rattle.mvo_txn.specs.Txns.{state_of};
ghost use Rattle.mvo_core.specs.Own.{done_in, has_writes};
ghost use Rattle.mvo_core.specs.Others.{AreShownAsOf, AreOthersShown};

use crate::kept_transaction::Table;
use crate::scanning::{add_row, row_at_place};
use mvo_content::Works;
use mvo_types::{MAX_STAMP, Row, Stamp, TxId};
use mvo_versions::Versions;
use std::alloc::{AllocError, Global};

/// What the others show the transaction in the range: just these rows, which it is shown itself,
/// where it has written nothing.
pub fn others_shown(
    alloc: Global,
    versions: &Versions,
    table: &Table,
    works: &Works,
    tx: TxId,
    of: u8,
    lo: u64,
    hi: u64,
    rows: Vec<Row>,
) -> Result<Vec<Row>, AllocError>
    ensures { IfOk result (λ others. AreOthersShown (done_in works.now tx.0) table.now versions.now
        tx.0 of lo hi rows.items others.items) }
{
    match has_written(works, tx) {
        true => others_at_places(alloc, versions, table, tx, of, lo, hi),
        false => Ok(rows),
    }
}

/// What the others show a transaction in the range, place by place: what nobody is shown as of its
/// begin. The next timestamp is nobody's id yet.
fn others_at_places(
    alloc: Global,
    versions: &Versions,
    table: &Table,
    tx: TxId,
    of: u8,
    lo: u64,
    hi: u64,
) -> Result<Vec<Row>, AllocError>
    ensures { IfOk result (λ rows. AreShownAsOf (state_of table.now) versions.now tx.0
        (table.now.clock + 1) of lo hi rows.items) }
{
    let nobody = next_id(table);
    let mut rows = Vec::new(alloc);
    for entry in versions.between(of, lo, hi) {
        let place = entry.0;
        let found = versions.shown_as(table, Stamp(tx.0), nobody, place.row_key());
        let row = row_at_place(versions, found.version, place)?;
        add_row(&mut rows, row)?;
    }
    Ok(rows)
}

/// The next timestamp, as an id.
fn next_id(table: &Table) -> TxId
    ensures { result.0 ≡ table.now.clock + 1 }
{
    let clock = table.clock();
    prove!(clock.0 <= MAX_STAMP);
    TxId(clock.0 + 1)
}

/// Whether the transaction has written.
fn has_written(works: &Works, id: TxId) -> bool
    ensures { result ≡ has_writes (done_in works.now id.0) }
{
    match works.work(id) {
        Some(work) => work.has_writes(),
        None => false,
    }
}
