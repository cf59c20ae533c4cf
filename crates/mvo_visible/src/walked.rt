ghost use Rattle.std.specs.Prelude.{◌≡◌, ◌∷◌, [], nat_lt, cond};
ghost use Rattle.mvo_visible.specs.Changes.{deciding, is_at, later_change, later_of, put_of, removal_of, unless_removed};
ghost use Rattle.mvo_visible.specs.Walked.{is_from, is_last, is_later, settled_put, with_put};
ghost use Rattle.mvo_txn.specs.Txns.{state_of};

use crate::change::Change;
use crate::seen::{Seen, seen_by_others};
use mvo_chain::{Version, VersionNo};
use mvo_txn::TxnTable;
use mvo_types::Stamp;
use mvo_word::{Held, Word};

/// What a walk over versions of a key has found.
#[derive(Clone, Copy, Debug)]
pub struct Walked {
    /// Whether the reader wrote one of them.
    pub own: bool,
    /// The version that the reader put and hasn't ended.
    pub newest: Option<VersionNo>,
    /// The deciding change of the others.
    pub change: Option<Change>,
}

/// Whether no version behind this one matters to a reader.
pub fn is_last<P>(table: &TxnTable<P>, version: &Version, at: Stamp) -> bool
    ensures { result ≡ is_last (state_of table.now) at.0 version.now }
{
    match seen_by_others(table, version.begin) {
        Seen::Nothing => false,
        Seen::Settled(stamp) => stamp.0 < at.0 && !seen_by_others(table, version.end).is_at(stamp),
        Seen::Speculative(_, _) => false,
    }
}

/// Whether both words of the version are timestamps of at least `at`, or infinity. Then it tells
/// nothing below `at` to anyone, whoever is in the table.
pub fn is_later(version: &Version, at: Stamp) -> bool
    ensures { result ≡ is_later at.0 version.now }
{
    is_from(version.begin, at) && is_from(version.end, at)
}

/// The stamp of the version's put, if that is a timestamp below `at` and the version isn't ended
/// below `at`, which its words tell without a look at the table. Then the version is all that
/// matters to a reader who wrote none in front of it.
pub fn settled_put(version: &Version, at: Stamp) -> Option<Stamp>
    ensures { result ≡ settled_put at.0 version.now }
{
    match version.begin.read() {
        Held::At(stamp) if stamp.0 < at.0 && is_from(version.end, at) => Some(stamp),
        _ => None,
    }
}

/// What is found, over a version more whose put is settled with the stamp.
pub fn with_put(walked: Walked, number: VersionNo, stamp: Stamp) -> Walked
    ensures { result ≡ with_put walked number stamp }
{
    let put = Change {
        stamp,
        version: Some(number),
        owner: None,
    };
    Walked {
        own: walked.own,
        newest: walked.newest,
        change: later(walked.change, Some(put)),
    }
}

fn is_from(word: Word, at: Stamp) -> bool
    ensures { result ≡ is_from at.0 word }
{
    match word.read() {
        Held::At(stamp) => at.0 <= stamp.0,
        Held::Infinity => true,
        Held::By(_) => false,
    }
}

/// The deciding one of the changes that a version's words say.
pub fn change_below(number: VersionNo, put: Seen, end: Seen, at: Stamp) -> Option<Change>
    ensures { result ≡
        later_change (deciding at.0 (put_of number put end)) (deciding at.0 (removal_of end)) }
{
    later(put_below(number, put, end, at), removal_below(end, at))
}

fn put_below(number: VersionNo, put: Seen, end: Seen, at: Stamp) -> Option<Change>
    ensures { result ≡ deciding at.0 (put_of number put end) }
{
    match put {
        Seen::Nothing => None,
        Seen::Settled(stamp) => {
            let version = unless_removed(number, stamp, end);
            below(
                at,
                Change {
                    stamp,
                    version,
                    owner: None,
                },
            )
        }
        Seen::Speculative(stamp, tx) => {
            let version = unless_removed(number, stamp, end);
            below(
                at,
                Change {
                    stamp,
                    version,
                    owner: Some(tx),
                },
            )
        }
    }
}

fn removal_below(end: Seen, at: Stamp) -> Option<Change>
    ensures { result ≡ deciding at.0 (removal_of end) }
{
    match end {
        Seen::Nothing => None,
        Seen::Settled(stamp) => below(
            at,
            Change {
                stamp,
                version: None,
                owner: None,
            },
        ),
        Seen::Speculative(stamp, tx) => below(
            at,
            Change {
                stamp,
                version: None,
                owner: Some(tx),
            },
        ),
    }
}

/// The version, unless it is removed with the stamp of its put.
fn unless_removed(number: VersionNo, stamp: Stamp, end: Seen) -> Option<VersionNo>
    ensures { result ≡ unless_removed number stamp end }
{
    if end.is_at(stamp) { None } else { Some(number) }
}

/// The change, if its stamp is below the timestamp.
fn below(at: Stamp, change: Change) -> Option<Change>
    ensures { result ≡ deciding at.0 (change ∷ []) }
{
    if change.stamp.0 < at.0 {
        Some(change)
    } else {
        None
    }
}

/// The later of two changes, or what both did where they have one stamp.
pub fn later(one: Option<Change>, other: Option<Change>) -> Option<Change>
    ensures { result ≡ later_change one other }
{
    match (one, other) {
        (None, other) => other,
        (Some(one), None) => Some(one),
        (Some(one), Some(other)) => Some(later_of(one, other)),
    }
}

fn later_of(one: Change, other: Change) -> Change
    ensures { result ≡ later_of one other }
{
    if one.stamp.0 == other.stamp.0 {
        Change {
            stamp: one.stamp,
            version: one.version.or(other.version),
            owner: one.owner.or(other.owner),
        }
    } else if one.stamp.0 < other.stamp.0 {
        other
    } else {
        one
    }
}
