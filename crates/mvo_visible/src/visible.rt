ghost use Rattle.std.specs.Prelude.{◌≡◌, ◌||◌, cond, IfSome};
ghost use Rattle.mvo_visible.specs.Words as words;
ghost use Rattle.mvo_txn.specs.Txns.{state_of};
ghost use Rattle.mvo_visible.specs.Versions.{is_own_newest, versions_at, versions_by};
ghost use Rattle.mvo_visible.specs.Shown.{first_shown, AreVersionsInOrder, IsShownToAll, own_or, shown_to};
ghost use Rattle.mvo_visible.specs.Walked.{walked_on};

use crate::outcome::Shown;
use crate::seen::{names, seen_by_others};
use crate::walked::{Walked, change_below, is_last, is_later, later, settled_put, with_put};
use mvo_chain::{Chains, Version, VersionNo};
use mvo_hash::{HashIndex, VersionWalk};
use mvo_txn::TxnTable;
use mvo_types::{RowKey, Stamp, TxId};

/// The version of a key that a transaction with the begin `at` is shown: its own newest one, or
/// none, where it wrote the key itself; else what the change of the others with the greatest stamp
/// below `at` put, if that didn't remove it too.
///
/// It looks at the versions from the newest on, up to the first whose put is settled below `at` and
/// that isn't removed with the stamp of its put. So it answers that where the versions stand in
/// order: none behind a settled put has a greater stamp, or is the reader's if that is below `at`.
pub fn shown<P>(
    chains: &Chains,
    index: &HashIndex,
    table: &TxnTable<P>,
    at: Stamp,
    reader: TxId,
    key: RowKey,
) -> Shown
    ensures { let vs = versions_at chains.now index.now.versions key in
        AreVersionsInOrder (state_of table.now) at.0 reader.0 vs →
        result ≡ shown_to (state_of table.now) at.0 reader.0 vs }
{
    shown_on(chains, index.walk(key), table, at, reader)
}

/// What a transaction is shown of the versions that are still to come of a walk, as `shown` says
/// it of all versions of a key.
pub fn shown_on<P>(
    chains: &Chains,
    walk: VersionWalk<'_>,
    table: &TxnTable<P>,
    at: Stamp,
    reader: TxId,
) -> Shown
    ensures { let vs = versions_by chains.now walk.entry in
        AreVersionsInOrder (state_of table.now) at.0 reader.0 vs →
        result ≡ shown_to (state_of table.now) at.0 reader.0 vs }
{
    let mut walked = Walked {
        own: false,
        newest: None,
        change: None,
    };
    for number in walk {
        if let Some(version) = chains.get(number) {
            // The first version that a reader walks over is mostly such a one.
            if let Some(stamp) = settled_put(version, at) {
                walked = with_put(walked, number, stamp);
                break;
            }
            // Most versions that a reader who began long ago walks over are later ones.
            if is_later(version, at) {
                continue;
            }
            walked = on(walked, number, version, table, at, reader);
            if is_last(table, version, at) {
                break;
            }
        }
    }
    shown_by(walked)
}

/// What everyone with the begin `at` is shown of a walk over the versions of a key, where that is
/// told without a look at the table: nothing of a walk over none, and the first version if its put
/// is a timestamp below `at` and it isn't ended below `at`. It is mostly so.
#[inline(always)]
pub fn shown_at_once(chains: &Chains, walk: &VersionWalk<'_>, at: Stamp) -> Option<Shown>
    ensures first { result ≡ first_shown at.0 chains.now walk.now }
    ensures shown { IfSome result (IsShownToAll at.0 chains.now walk.now) }
{
    let Some(number) = walk.peek() else {
        return Some(Shown {
            version: None,
            depends_on: None,
        });
    };
    match settled_put(chains.get(number)?, at) {
        Some(_) => Some(Shown {
            version: Some(number),
            depends_on: None,
        }),
        None => None,
    }
}

/// What is found, over one version more.
fn on<P>(
    walked: Walked,
    number: VersionNo,
    version: &Version,
    table: &TxnTable<P>,
    at: Stamp,
    reader: TxId,
) -> Walked
    ensures { result ≡ walked_on (state_of table.now) at.0 reader.0 walked (number, version.now) }
{
    let put = seen_by_others(table, version.begin);
    let end = seen_by_others(table, version.end);
    let newest = own_newest(number, version, reader);
    Walked {
        own: walked.own | is_own(version, reader),
        newest: walked.newest.or(newest),
        change: later(walked.change, change_below(number, put, end, at)),
    }
}

/// Whether the reader put the version or ended it.
fn is_own(version: &Version, reader: TxId) -> bool
    ensures { result ≡
        (words.names reader.0 version.now.begin || words.names reader.0 version.now.end) }
{
    names(version.begin, reader) || names(version.end, reader)
}

/// The version, if the reader put it and hasn't ended it.
fn own_newest(number: VersionNo, version: &Version, reader: TxId) -> Option<VersionNo>
    ensures { result ≡ cond (is_own_newest reader.0 (number, version.now)) (Some number) None }
{
    if names(version.begin, reader) && !names(version.end, reader) {
        Some(number)
    } else {
        None
    }
}

/// The reader's own newest, where it wrote the key, and else what the change shows.
fn shown_by(walked: Walked) -> Shown
    ensures { result ≡ own_or walked.own walked.newest walked.change }
{
    if walked.own {
        return Shown {
            version: walked.newest,
            depends_on: None,
        };
    }
    match walked.change {
        Some(change) => Shown {
            version: change.version,
            depends_on: change.owner,
        },
        None => Shown {
            version: None,
            depends_on: None,
        },
    }
}
