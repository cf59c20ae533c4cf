//! The vectors of the format, and what a pair with them is.
use crate::equal::{holds, same, same_at};
use crate::files::changes::changed;
use mvo_format::FIRST_FORMAT;
use mvo_pair::{Live, Pair, load_pair};
use mvo_types::{Refusal, RowKey, Stamp};
use std::alloc::Global;
use std::process::Abort;
use std::test::Fail;

/// A data file of one record: begin 2, table 0, key 5, sort 50, data 61.
pub const DATA: [u8; 36] = [
    0x4d, 0x56, 0x4f, 0x44, 1, 0, 0, 0, 2, 0, 0, 0, 0, 0, 0, 0, 0, 5, 0, 0, 0, 0, 0, 0, 0, 0x32, 0,
    0, 0, 0, 0, 0, 0, 1, 0, 0x61,
];

/// A delta file without numbers.
pub const DELTA: [u8; 8] = [0x4d, 0x56, 0x4f, 0x45, 1, 0, 0, 0];

/// A delta file with the number 0.
pub const NAMED: [u8; 12] = [0x4d, 0x56, 0x4f, 0x45, 1, 0, 0, 0, 0, 0, 0, 0];

/// The pair (0, 2] in the files 4 and 5.
pub fn pair(records: u32, entries: u32) -> Pair {
    Pair {
        data_file: 4,
        delta_file: 5,
        lo: Stamp(0),
        hi: Stamp(2),
        records,
        entries,
    }
}

/// How many records are live, or the refusal.
pub fn count(alloc: Global, pair: Pair, data: &[u8], delta: &[u8]) -> Result<usize, Refusal> {
    let live = load_pair(alloc, FIRST_FORMAT.version, pair, data, delta)?;
    Ok(live.len())
}

/// Records and entries of the pair, its files, and how many records are live, or the refusal.
type Case = (
    u32,
    u32,
    &'static [u8],
    &'static [u8],
    Result<usize, Refusal>,
);

/// Each pair is counted so.
fn are_counted(rt: &impl Abort, alloc: Global, cases: &[Case]) {
    for (at, case) in cases.iter().enumerate() {
        let found = count(alloc, pair(case.0, case.1), case.2, case.3);
        same_at(rt, at, &found, &case.4);
    }
}

const LIVE: [Case; 3] = [
    (1, 1, &DATA, &NAMED, Ok(0)),
    // A number that isn't counted isn't read, nor is a record.
    (1, 0, &DATA, &NAMED, Ok(1)),
    (0, 0, &DATA, &NAMED, Ok(0)),
];

/// It is the record of the data file.
fn is_the_record(rt: &impl Abort, live: &Live) {
    let Live { number, entry } = live;
    same(rt, &(*number, entry.begin), &(0, Stamp(2)));
    same(rt, &entry.row.key, &RowKey { table: 0, key: 5 });
    same(rt, &entry.row.sort, &50);
    same(rt, &entry.row.bytes(), &b"a".as_slice());
}

#[test]
fn a_record_is_live_until_it_is_named(rt: HostRuntime) -> Result<(), Fail> {
    let live = load_pair(rt.alloc(), FIRST_FORMAT.version, pair(1, 0), &DATA, &DELTA)?;
    match live.as_slice() {
        [only] => is_the_record(&rt, only),
        _ => holds(&rt, false),
    }
    are_counted(&rt, rt.alloc(), &LIVE);
    Ok(())
}

const BROKEN_DATA: Result<usize, Refusal> = Err(Refusal::Corrupt(4));

const BROKEN_DELTA: Result<usize, Refusal> = Err(Refusal::Corrupt(5));

/// The delta file with the number 0, of an old version.
const OLD: [u8; 12] = [0x4d, 0x56, 0x4f, 0x45, 0, 0, 0, 0, 0, 0, 0, 0];

const BROKEN: [Case; 9] = [
    // Counts for which the files have no room.
    (2, 0, &DATA, &DELTA, BROKEN_DATA),
    (u32::MAX, 0, &DATA, &DELTA, BROKEN_DATA),
    (1, u32::MAX, &DATA, &DELTA, BROKEN_DELTA),
    // The number of a record that isn't there.
    (0, 1, &DATA, &NAMED, BROKEN_DELTA),
    // An empty file, and another file's bytes.
    (0, 0, &[], &DELTA, BROKEN_DATA),
    (1, 0, &DATA, &[], BROKEN_DELTA),
    (1, 0, &DATA, &DATA, BROKEN_DELTA),
    // The data file stands before the delta file.
    (1, 1, &DATA, &OLD, Err(Refusal::BadVersion)),
    (2, 1, &DATA, &OLD, BROKEN_DATA),
];

#[test]
fn the_first_broken_rule_decides(rt: HostRuntime) {
    are_counted(&rt, rt.alloc(), &BROKEN);
}

// How many records of the pair are live up to a version, where its files have other versions.
fn live_up_to(alloc: Global, upto: u32, data: u8, delta: u8) -> Result<String, Fail> {
    let data = changed(alloc, &DATA, 4, data)?;
    let delta = changed(alloc, &NAMED, 4, delta)?;
    match load_pair(alloc, upto, pair(1, 1), &data, &delta) {
        Ok(live) => Ok(format!(in alloc; "{}", live.len())?),
        Err(refusal) => Ok(format!(in alloc; "{refusal}")?),
    }
}

#[test]
fn a_delta_file_has_the_version_of_its_data_file(rt: HostRuntime) -> Result<(), Fail> {
    let cases: [(u32, u8, u8, &str); 7] = [
        (1, 0, 0, "0"),
        (2, 0, 0, "0"),
        (2, 3, 3, "0"),
        // Later than they may be, or than there is one.
        (1, 3, 3, "refused 55"),
        (2, 2, 2, "refused 55"),
        // One is later than the other.
        (2, 0, 3, "refused 55"),
        (2, 3, 0, "refused 55"),
    ];
    for (at, (upto, data, delta, line)) in cases.iter().enumerate() {
        let found = live_up_to(rt.alloc(), *upto, *data, *delta)?;
        same_at(&rt, at, &found.as_str(), line);
    }
    Ok(())
}

#[test]
fn a_pair_reaches_as_far_as_it_counts(rt: HostRuntime) {
    // A header has 8 bytes, a record 27 and at most 1,024 of data, or 4,096, a number 4.
    same(&rt, &pair(0, 0).data_reach(FIRST_FORMAT.version), &8);
    same(&rt, &pair(2, 3).data_reach(FIRST_FORMAT.version), &2_110);
    same(&rt, &pair(2, 3).data_reach(2), &8_254);
    same(&rt, &pair(0, 0).delta_reach(), &8);
    same(&rt, &pair(2, 3).delta_reach(), &20);
}
