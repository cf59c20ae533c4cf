//! The operation on a range.
ghost use Rattle.std.specs.FinMap as fin;
ghost use Rattle.std.specs.Prelude.{◌≡◌, ◌≤◌, ◌++◌, IfOk, OnOk, filter, length};
ghost use Rattle.std.specs.Option.{option_to_list};
ghost use Rattle.mvo_chain.specs.Slots.{version_at};
ghost use Rattle.mvo_range.specs.Place.{is_between};
ghost use Rattle.mvo_txn.specs.Txns.{state_of};
ghost use Rattle.mvo_core.specs.Scanning.{row_with_sort, is_change_below, is_change_up_to, is_met_by};
ghost use Rattle.mvo_core.specs.Scanning.{is_met_at_place, with_named, IsScanned};

use crate::event_core::Core;
use crate::kept_transaction::Table;
use crate::others::others_shown;
use crate::preparing::Scanning;
use crate::refusing::not_looked;
use mvo_chain::VersionNo;
use mvo_content::RowsShown;
use mvo_deps::register_all;
use mvo_range::SortPlace;
use mvo_txn::Located;
use mvo_types::{Answer, Entry, MAX_DATA_LEN, Op, Refusal, Row, Stamp, TxId};
use mvo_versions::Versions;
use mvo_visible::{Seen, seen_by_others};
use std::alloc::{AllocError, Global};

/// What a scan sees.
#[derive(Drop)]
struct Scanned {
    /// The rows, by sort and then by key.
    rows: Vec<Row>,
    /// The Preparing transactions that decide what it sees.
    on: Vec<TxId>,
}

impl Core {
    ghost use Rattle.std.specs.Prelude.{◌≡◌, IfOk};
    ghost use Rattle.mvo_theory.specs.Calls.Call.{Do};
    ghost use Rattle.mvo_core.specs.Steps.{IsStep, IsAnswered};
    ghost use Rattle.mvo_core.specs.WholeStanding.{IsWholeStep};
    ghost use Rattle.mvo_core.specs.WholeAnswers.{IsAnsweredWhole};
    ghost use Rattle.mvo_core.specs.Counting.{HasPutMore};

    /// Reads the rows of a table with `lo <= sort <= hi`, by sort and then by key. Takes time by
    /// the places in the range. Refused: NoSuchTransaction, Ended, NotActive, DependencyAborted,
    /// BadTable, TooManyReads, OutOfMemory.
    pub fn scan(&mut self, tx: TxId, table: u8, lo: u64, hi: u64) -> Result<Answer, Refusal>
        ensures step { IsStep self.old (Do tx.0 (Op.Scan table lo hi)) result self.new }
        ensures answer { IfOk result (IsAnswered self.old tx.0 (Op.Scan table lo hi)) }
        ensures whole { IsWholeStep self.old (Do tx.0 (Op.Scan table lo hi)) result self.new }
        ensures whole_answer { IfOk result (IsAnsweredWhole self.old tx.0 (Op.Scan table lo hi)) }
        ensures count { HasPutMore self.old result self.new }
    {
        let seat = self.table.seat_of(tx);
        let tx = Located { id: tx, seat };
        if let Some(refusal) = not_looked(
            &self.table,
            &self.works,
            tx,
            table,
            Entry::Range(table, lo, hi),
        ) {
            return Err(self.give_up(tx, refusal));
        }
        let alloc = self.alloc;
        let (versions, start) = (&self.versions, self.start);
        let scanned = scan_places(alloc, versions, &self.table, start, tx.id, table, lo, hi)?;
        let Scanned { rows, on } = scanned;
        let others = others_shown(
            alloc,
            versions,
            &self.table,
            &self.works,
            tx.id,
            table,
            lo,
            hi,
            rows,
        )?;
        let op = Op::Scan(table, lo, hi);
        let next = self
            .works
            .prepare::<Scanning>(tx.id, op, RowsShown::Many(others))?;
        register_all(&mut self.table, tx, &on)?;
        Ok(self.works.tell(tx.id, next))
    }
}

/// What the scan sees, place by place.
fn scan_places(
    alloc: Global,
    versions: &Versions,
    table: &Table,
    start: Stamp,
    tx: TxId,
    of: u8,
    lo: u64,
    hi: u64,
) -> Result<Scanned, AllocError>
    ensures { IfOk result (λ s. IsScanned (state_of table.now) versions.now start.0 tx.0 of lo hi
        s.rows.items s.on.items) }
{
    let mut rows = Vec::new(alloc);
    let mut on = Vec::new(alloc);
    rows.reserve(look_ahead(versions, of, lo, hi))?;
    for entry in versions.between(of, lo, hi) {
        let place = entry.0;
        let found = versions.shown(table, tx, place.row_key());
        let row = row_at_place(versions, found.version, place)?;
        add_row(&mut rows, row)?;
        add_named(&mut on, versions, table, start, tx, place, found.depends_on)?;
    }
    Ok(Scanned { rows, on })
}

/// How many places of the range have a version: at most so many rows are found there.
///
/// It looks at all that the scan will look at, key by key. No such look waits for the one before,
/// so the memory of several keys is fetched at a time, and is near when the scan comes to it.
fn look_ahead(versions: &Versions, of: u8, lo: u64, hi: u64) -> usize
    ensures { result ≤ length (filter (is_between of lo hi) (fin.entries versions.now.places)) }
{
    let mut count: usize = 0;
    for (place, _) in versions.between(of, lo, hi) {
        if has_version(versions, place) {
            count = count.saturating_add(1);
        }
    }
    count
}

/// Whether the place's key has a version, whose data isn't too long, as none is.
fn has_version(versions: &Versions, place: SortPlace) -> bool {
    let Some(number) = versions.walk(place.row_key()).next() else {
        return false;
    };
    match versions.get(number) {
        Some(version) => version.row.data_len() <= MAX_DATA_LEN,
        None => false,
    }
}

/// Adds the row, if there is one.
pub fn add_row(rows: &mut Vec<Row>, row: Option<Row>) -> Result<(), AllocError>
    ensures { OnOk result (rows.new.items ≡ rows.old.items ++ option_to_list row) }
{
    if let Some(row) = row {
        rows.push(row)?;
    }
    Ok(())
}

/// Adds the transaction that is named at the place, if there is one, unless it is there already or
/// the scan meets no version at the place.
fn add_named(
    on: &mut Vec<TxId>,
    versions: &Versions,
    table: &Table,
    start: Stamp,
    tx: TxId,
    place: SortPlace,
    id: Option<TxId>,
) -> Result<(), AllocError>
    ensures { OnOk result (on.new.items ≡ with_named
        (is_met_at_place (state_of table.now) versions.now start.0 tx.0 place) on.old.items id) }
{
    let Some(id) = id else {
        return Ok(());
    };
    if on.contains(&id) || !is_met(versions, table, start, tx, place) {
        return Ok(());
    }
    on.push(id)?;
    Ok(())
}

/// A copy of the version's row, if it stands at the place.
pub fn row_at_place(
    versions: &Versions,
    number: Option<VersionNo>,
    place: SortPlace,
) -> Result<Option<Row>, AllocError>
    ensures { IfOk result (λ row. row ≡ row_with_sort versions.now.slots place.sort number) }
{
    let Some(number) = number else {
        return Ok(None);
    };
    match versions.get(number) {
        Some(version) if version.row.sort == place.sort => Ok(Some(version.row.copy()?)),
        _ => Ok(None),
    }
}

/// Whether the scan meets a version at the place: another put it below the begin, and it isn't
/// ended up to the start.
fn is_met(versions: &Versions, table: &Table, start: Stamp, tx: TxId, place: SortPlace) -> bool
    ensures { result ≡ is_met_at_place (state_of table.now) versions.now start.0 tx.0 place }
{
    for number in versions.walk(place.row_key()) {
        if meets(versions, table, start, tx, number, place.sort) {
            return true;
        }
    }
    false
}

/// Whether it meets this version.
fn meets(
    versions: &Versions,
    table: &Table,
    start: Stamp,
    tx: TxId,
    number: VersionNo,
    sort: u64,
) -> bool
    ensures { result ≡
        is_met_by (state_of table.now) start.0 tx.0 sort (version_at versions.now.slots number) }
{
    match versions.get(number) {
        Some(version) => {
            version.row.sort == sort
                && is_below(seen_by_others(table, version.begin), Stamp(tx.0))
                && !is_up_to(seen_by_others(table, version.end), start)
        }
        None => false,
    }
}

/// Whether it is a change with a stamp below this one.
fn is_below(seen: Seen, stamp: Stamp) -> bool
    ensures { result ≡ is_change_below seen stamp.0 }
{
    match seen {
        Seen::Nothing => false,
        Seen::Settled(at) => at < stamp,
        Seen::Speculative(at, _) => at < stamp,
    }
}

/// Whether it is a change with a stamp of at most this one.
fn is_up_to(seen: Seen, stamp: Stamp) -> bool
    ensures { result ≡ is_change_up_to seen stamp.0 }
{
    match seen {
        Seen::Nothing => false,
        Seen::Settled(at) => at <= stamp,
        Seen::Speculative(at, _) => at <= stamp,
    }
}
