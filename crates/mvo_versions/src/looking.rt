//! What is found among the versions.
ghost use Rattle.std.specs.Prelude.{map};
ghost use Rattle.mvo_hash.specs.Lists.{number, numbers_of};
ghost use Rattle.mvo_versions.specs.Skips.{HasSkips, IsRest};

use crate::ended::is_later_one;
use crate::indexed::Indexed;
use crate::skips::Skips;
use crate::versions::Versions;
use mvo_hash::VersionWalk as Numbers;
use mvo_range::Walk;
use mvo_txn::TxnTable;
use mvo_types::{Entry, RowKey, Stamp, TxId};
use mvo_validate::{Check, check_entry};
use mvo_visible::{Shown, shown_at_once, shown_on};

impl Versions {
    ghost use Rattle.std.specs.Prelude.{◌≡◌, filter, map};
    ghost use Rattle.std.specs.FinMap as fin;
    ghost use Rattle.mvo_hash.specs.Lists.{number, numbers_of};
    ghost use Rattle.mvo_txn.specs.Txns.{state_of};
    ghost use Rattle.mvo_range.specs.Place.{is_between};
    ghost use Rattle.mvo_visible.specs.Versions.{versions_at};
    ghost use Rattle.mvo_visible.specs.Changes.{changes_of};
    ghost use Rattle.mvo_visible.specs.Shown.{AllHaveFallingStamps, AreVersionsInOrder, shown_to};
    ghost use Rattle.mvo_validate.specs.Between.{checked_by, stamp_between};
    ghost use Rattle.mvo_validate.specs.Entries.{versions_in};

    /// The version of a key that the transaction is shown, where the versions stand in order.
    pub fn shown<P>(&self, table: &TxnTable<P>, reader: TxId, key: RowKey) -> Shown
        ensures { let vs = versions_at self.now.slots self.now.lists key in
            AreVersionsInOrder (state_of table.now) reader.0 reader.0 vs →
            result ≡ shown_to (state_of table.now) reader.0 reader.0 vs }
    {
        let walk = self.indexed.index().walk(key);
        match shown_at_once(self.indexed.chains(), &walk, Stamp(reader.0)) {
            Some(shown) => shown,
            None => self.shown_by_walk(table, reader, key),
        }
    }

    /// The same by a walk past what tells nothing.
    #[inline(never)]
    fn shown_by_walk<P>(&self, table: &TxnTable<P>, reader: TxId, key: RowKey) -> Shown
        ensures { let vs = versions_at self.now.slots self.now.lists key in
            AreVersionsInOrder (state_of table.now) reader.0 reader.0 vs →
            result ≡ shown_to (state_of table.now) reader.0 reader.0 vs }
    {
        let at = Stamp(reader.0);
        let walk = walk_past(&self.indexed, &self.skips, key, at);
        shown_on(self.indexed.chains(), walk, table, at, reader)
    }

    /// The version of a key that a reader with this id is shown as of the begin, where the versions
    /// stand in order for both. With the id of nobody it is what the others show then. It walks
    /// over all that is newer.
    pub fn shown_as<P>(&self, table: &TxnTable<P>, begin: Stamp, reader: TxId, key: RowKey) -> Shown
        ensures { let vs = versions_at self.now.slots self.now.lists key in
            AreVersionsInOrder (state_of table.now) begin.0 reader.0 vs →
            result ≡ shown_to (state_of table.now) begin.0 reader.0 vs }
    {
        let walk = self.indexed.index().walk(key);
        shown_on(self.indexed.chains(), walk, table, begin, reader)
    }

    /// Whether others have changed what an entry looks at, between a begin and an end, where the
    /// versions stand in order.
    pub fn check<P>(&self, table: &TxnTable<P>, begin: Stamp, end: Stamp, entry: Entry) -> Check
        ensures { let states = state_of table.now in
            let lists = self.now.lists in
            AllHaveFallingStamps states self.now.slots lists →
            result ≡ checked_by (stamp_between begin.0 end.0
            (changes_of states (versions_in self.now.slots lists self.now.places entry))) }
    {
        check_entry(
            self.indexed.chains(),
            self.indexed.index(),
            self.indexed.order(),
            table,
            begin,
            end,
            entry,
        )
    }

    /// A walk over the versions of a key, newest first.
    pub fn walk(&self, key: RowKey) -> Numbers<'_>
        ensures { result ≡ map number (numbers_of self.now.lists key) }
    {
        self.indexed.index().walk(key)
    }

    /// A walk over the places of a table whose sort is at least `lo` and at most `hi`, in the order
    /// of sort and key.
    pub fn between(&self, table: u8, lo: u64, hi: u64) -> Walk<'_>
        ensures { result ≡ filter (is_between table lo hi) (fin.entries self.now.places) }
    {
        self.indexed.order().between(table, lo, hi)
    }
}

/// A walk over the versions of a key, past those in front that tell nothing below a begin. Most
/// readers are told something by the newest one.
#[inline(always)]
fn walk_past<'a>(indexed: &'a Indexed, skips: &Skips, key: RowKey, at: Stamp) -> Numbers<'a>
    requires { HasSkips indexed.now skips.now }
    ensures { IsRest at.0 indexed.now.slots (map number (numbers_of indexed.now.lists key)) result }
{
    let walk = indexed.index().walk(key);
    match walk.peek() {
        Some(newest) if is_later_one(indexed.chains(), newest, at) => {
            walk_far(indexed, skips, key, at)
        }
        _ => walk,
    }
}

/// The same, where the newest tells nothing: skips are asked for.
#[inline(never)]
fn walk_far<'a>(indexed: &'a Indexed, skips: &Skips, key: RowKey, at: Stamp) -> Numbers<'a>
    requires { HasSkips indexed.now skips.now }
    ensures { IsRest at.0 indexed.now.slots (map number (numbers_of indexed.now.lists key)) result }
{
    let mut walk = indexed.index().walk(key);
    for _ in 0..u64::MAX {
        let Some(number) = walk.peek() else {
            break;
        };
        // All of a skip are passed over without a look at them.
        match skips.skip(number) {
            Some(skip) if at.0 <= skip.least.0 => walk.pass_to(skip.to),
            _ => {
                if !is_later_one(indexed.chains(), number, at) {
                    break;
                }
                walk.next();
            }
        }
    }
    walk
}
