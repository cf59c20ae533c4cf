//! The rules by a walk over all versions, whichever way they stand.

use crate::engine::{Engine, number_at};
use mvo_chain::{Version, VersionNo};
use mvo_txn::{TxState, TxnTable};
use mvo_types::{Entry, RowKey, Stamp, TxId};
use mvo_validate::Check;
use mvo_visible::Shown;
use mvo_word::{Held, Word};

/// The stamp of the change that a word says, and the Preparing transaction that did it.
fn change_in(table: &TxnTable<u8>, word: Word) -> Option<(Stamp, Option<TxId>)> {
    match word.read() {
        Held::Infinity => None,
        Held::At(stamp) => Some((stamp, None)),
        Held::By(id) => match table.state(id) {
            Some(TxState::Preparing(end)) => Some((end, Some(id))),
            Some(TxState::Committed(end)) => Some((end, None)),
            _ => None,
        },
    }
}

fn looks_at(entry: Entry, version: &Version) -> bool {
    match entry {
        Entry::Key(key) => version.row.key == key,
        Entry::Range(table, lo, hi) => {
            let sort = version.row.sort;
            version.row.key.table == table && lo <= sort && sort <= hi
        }
    }
}

/// The greatest stamp in between of the changes that an entry looks at.
fn last_between(engine: &Engine, begin: Stamp, end: Stamp, entry: Entry) -> Option<Stamp> {
    let mut last = None;
    for number in 0..engine.chains.slot_count() {
        let Some(version) = engine.chains.get(number_at(number)) else {
            continue;
        };
        for word in [version.begin, version.end] {
            if let Some((stamp, _)) = change_in(&engine.table, word) {
                let counts = looks_at(entry, version) && begin < stamp && stamp < end;
                if counts && last.is_none_or(|other| other < stamp) {
                    last = Some(stamp);
                }
            }
        }
    }
    last
}

pub fn checked(engine: &Engine, begin: Stamp, end: Stamp, entry: Entry) -> Check {
    match last_between(engine, begin, end, entry) {
        Some(stamp) => Check::Differs(stamp),
        None => Check::Same,
    }
}

/// What the changes of the key by others show below a timestamp above 0.
pub fn shown_of_others(engine: &Engine, at: Stamp, key: RowKey) -> Shown {
    let mut shown = Shown {
        version: None,
        depends_on: None,
    };
    let Some(stamp) = last_between(engine, Stamp(0), at, Entry::Key(key)) else {
        return shown;
    };
    for number in 0..engine.chains.slot_count() {
        let number = number_at(number);
        if let Some(version) = engine.chains.get(number) {
            if version.row.key == key {
                shown = with_version(&engine.table, shown, stamp, number, version);
            }
        }
    }
    shown
}

/// What is shown by the changes with a stamp, with those of one version more.
fn with_version(
    table: &TxnTable<u8>,
    mut shown: Shown,
    stamp: Stamp,
    number: VersionNo,
    version: &Version,
) -> Shown {
    let put = change_in(table, version.begin);
    let removal = change_in(table, version.end);
    for change in [put, removal] {
        if let Some((at, Some(owner))) = change {
            if at == stamp {
                shown.depends_on = Some(owner);
            }
        }
    }
    let is_put = put.is_some_and(|change| change.0 == stamp);
    let is_removed = removal.is_some_and(|change| change.0 == stamp);
    if is_put && !is_removed {
        shown.version = Some(number);
    }
    shown
}
