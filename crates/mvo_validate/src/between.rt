ghost use Rattle.std.specs.Prelude.{◌≡◌, ◌&&◌, nat_lt, cond};
ghost use Rattle.mvo_txn.specs.Txns.{state_of};
ghost use Rattle.mvo_visible.specs.Changes.{changes_by, changes_of, greatest, removal_of};
ghost use Rattle.mvo_visible.specs.Versions.{versions_at};
ghost use Rattle.mvo_visible.specs.Shown.{HasFallingStamps};
ghost use Rattle.mvo_validate.specs.Between.{is_before, stamp_between};
ghost use Rattle.mvo_validate.specs.Entries.{has_sort, versions_of_sort};

use mvo_chain::{Chains, Version, VersionNo};
use mvo_hash::HashIndex;
use mvo_txn::TxnTable;
use mvo_types::{RowKey, Stamp};
use mvo_visible::{Seen, seen_by_others};

/// The greatest stamp above the begin and below the end of a change by others on versions of a key,
/// of those with the sort where one is given.
///
/// It looks at the versions from the newest on, up to the first whose put is settled with a stamp
/// of at most the begin.
pub fn last_between<P>(
    chains: &Chains,
    index: &HashIndex,
    table: &TxnTable<P>,
    begin: Stamp,
    end: Stamp,
    key: RowKey,
    sort: Option<u64>,
) -> Option<u64>
    ensures { let states = state_of table.now in
        let lists = index.now.versions in
        HasFallingStamps states (versions_at chains.now lists key) →
        result ≡ stamp_between begin.0 end.0
        (changes_of states (versions_of_sort chains.now lists key sort)) }
{
    let mut last = None;
    for number in index.walk(key) {
        if let Some(version) = chains.get(number) {
            last = with_version(last, table, number, version, begin, end, sort);
            if is_before(seen_by_others(table, version.begin), begin) {
                break;
            }
        }
    }
    last
}

/// The greatest stamp, with those of one version more, if it has the sort.
fn with_version<P>(
    last: Option<u64>,
    table: &TxnTable<P>,
    number: VersionNo,
    version: &Version,
    begin: Stamp,
    end: Stamp,
    sort: Option<u64>,
) -> Option<u64>
    ensures { let changes = changes_by (state_of table.now) (number, version.now) in
        result ≡ cond (has_sort sort (number, version.now))
        (greatest last (stamp_between begin.0 end.0 changes)) last }
{
    if is_of_sort(number, version, sort) {
        greatest(last, changed_between(table, number, version, begin, end))
    } else {
        last
    }
}

/// Whether the version has the sort, where one is given.
fn is_of_sort(number: VersionNo, version: &Version, sort: Option<u64>) -> bool
    ensures { result ≡ has_sort sort (number, version.now) }
{
    match sort {
        Some(sort) => version.row.sort == sort,
        None => true,
    }
}

/// The greatest stamp in between of a change that the version says.
fn changed_between<P>(
    table: &TxnTable<P>,
    number: VersionNo,
    version: &Version,
    begin: Stamp,
    end: Stamp,
) -> Option<u64>
    ensures { let changes = changes_by (state_of table.now) (number, version.now) in
        result ≡ stamp_between begin.0 end.0 changes }
{
    let put = stamp_between(seen_by_others(table, version.begin), begin, end);
    let ended = stamp_between(seen_by_others(table, version.end), begin, end);
    greatest(put, ended)
}

/// The stamp of a change, if it is in between.
fn stamp_between(seen: Seen, begin: Stamp, end: Stamp) -> Option<u64>
    ensures { result ≡ stamp_between begin.0 end.0 (removal_of seen) }
{
    match seen {
        Seen::Nothing => None,
        Seen::Settled(stamp) => in_between(stamp, begin, end),
        Seen::Speculative(stamp, _) => in_between(stamp, begin, end),
    }
}

fn in_between(stamp: Stamp, begin: Stamp, end: Stamp) -> Option<u64>
    ensures { result ≡ cond (nat_lt begin.0 stamp.0 && nat_lt stamp.0 end.0) (Some stamp.0) None }
{
    if begin.0 < stamp.0 && stamp.0 < end.0 {
        Some(stamp.0)
    } else {
        None
    }
}

/// Whether the put is settled with a stamp of at most the begin.
fn is_before(put: Seen, begin: Stamp) -> bool
    ensures { result ≡ is_before begin.0 put }
{
    match put {
        Seen::Nothing => false,
        Seen::Settled(stamp) => stamp.0 <= begin.0,
        Seen::Speculative(_, _) => false,
    }
}

/// The greater of two stamps, if they are there.
pub fn greatest(one: Option<u64>, other: Option<u64>) -> Option<u64>
    ensures { result ≡ greatest one other }
{
    match (one, other) {
        (None, other) => other,
        (Some(one), None) => Some(one),
        (Some(one), Some(other)) => Some(one.max(other)),
    }
}
