ghost use Rattle.std.specs.Prelude.{◌≡◌, ◌≤◌, ◌+◌, IsTrue};
ghost use Rattle.mvo_txn.specs.Txns.{state_of};
ghost use Rattle.mvo_visible.specs.Changes.{changes_of};
ghost use Rattle.mvo_visible.specs.Shown.{AllHaveFallingStamps};
ghost use Rattle.mvo_validate.specs.Between.{checked_by, stamp_between};
ghost use Rattle.mvo_validate.specs.Entries.{versions_in};

use crate::between::{greatest, last_between};
use crate::check::Check;
use mvo_chain::Chains;
use mvo_hash::HashIndex;
use mvo_range::RangeIndex;
use mvo_txn::TxnTable;
use mvo_types::{Entry, Stamp};

/// Whether others have changed what an entry looks at with a stamp above the begin and below the
/// end, also those that are only Preparing: a key by any change of it, a range by any change on a
/// version whose sort lies in it. Where the end is the next one behind the begin there is none, and
/// it looks at no version.
pub fn check_entry<P>(
    chains: &Chains,
    index: &HashIndex,
    ranges: &RangeIndex,
    table: &TxnTable<P>,
    begin: Stamp,
    end: Stamp,
    entry: Entry,
) -> Check
    ensures { let states = state_of table.now in
        let lists = index.now.versions in
        AllHaveFallingStamps states chains.now lists →
        result ≡ checked_by (stamp_between begin.0 end.0
        (changes_of states (versions_in chains.now lists ranges.now entry))) }
{
    if is_next(begin, end) {
        return Check::Same;
    }
    let last = match entry {
        Entry::Key(key) => last_between(chains, index, table, begin, end, key, None),
        Entry::Range(of, lo, hi) => {
            last_in_range(chains, index, ranges, table, begin, end, of, lo, hi)
        }
    };
    match last {
        Some(stamp) => Check::Differs(Stamp(stamp)),
        None => Check::Same,
    }
}

/// Whether no stamp is above the begin and below the end.
fn is_next(begin: Stamp, end: Stamp) -> bool
    ensures { IsTrue result → end.0 ≤ begin.0 + 1 }
{
    end.0.saturating_sub(begin.0) <= 1
}

/// The greatest stamp above the begin and below the end of a change by others on versions whose
/// sort lies in the range.
fn last_in_range<P>(
    chains: &Chains,
    index: &HashIndex,
    ranges: &RangeIndex,
    table: &TxnTable<P>,
    begin: Stamp,
    end: Stamp,
    of: u8,
    lo: u64,
    hi: u64,
) -> Option<u64>
    ensures { AllHaveFallingStamps (state_of table.now) chains.now index.now.versions →
        result ≡ stamp_between begin.0 end.0 (changes_of (state_of table.now)
        (versions_in chains.now index.now.versions ranges.now (Entry.Range of lo hi))) }
{
    let mut last = None;
    for (place, _) in ranges.between(of, lo, hi) {
        let key = place.row_key();
        let sort = Some(place.sort);
        let here = last_between(chains, index, table, begin, end, key, sort);
        last = greatest(last, here);
    }
    last
}
