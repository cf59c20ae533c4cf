//! A data file that is read in slices.
ghost use Rattle.std.specs.Prelude.{◌<◌, ◌+◌, ◌^◌, length};

use crate::equal::{same, same_at};
use crate::files::pair::slices::{COUNT, in_one, long_records};
use crate::files::pair::vectors::{DATA, NAMED, pair};
use mvo_format::LAST_FORMAT;
use mvo_pair::{MOST_RECORD, Pair, PairReading, ReadSoFar};
use mvo_types::Refusal;
use std::alloc::Global;
use std::process::Abort;
use std::test::Fail;

/// A delta file of the last version with the number 3.
const THIRD: [u8; 12] = [0x4d, 0x56, 0x4f, 0x45, 2, 0, 0, 0, 3, 0, 0, 0];

/// The next bytes of the file, so many at most.
fn slice_at(data: &[u8], place: usize, most: usize) -> &[u8]
    ensures { place + length result.now < 2 ^ 64 }
{
    if place > data.len() {
        return &[];
    }
    let rest = &data[place..];
    &rest[..rest.len().min(most)]
}

/// How many records are live, by slices of so many records and bytes, or the refusal.
fn count_by(
    alloc: Global,
    pair: Pair,
    data: &[u8],
    delta: &[u8],
    records: u32,
    bytes: usize,
) -> Result<usize, Refusal> {
    let upto = LAST_FORMAT.version;
    let reading = PairReading::begin(alloc, upto, pair, data.len(), data, delta)?;
    let mut so_far = ReadSoFar::start();
    let mut count = 0usize;
    for _ in 0..pair.records {
        if !reading.is_whole(so_far) {
            let slice = slice_at(data, so_far.place, bytes);
            let (live, next) = reading.more(alloc, so_far, records, slice)?;
            count = count.wrapping_add(live.len());
            so_far = next;
        }
    }
    reading.end()?;
    Ok(count)
}

/// Records and bytes of a slice.
const SLICES: [(u32, usize); 4] = [
    (COUNT, 8_000_000),
    (7, 8_000_000),
    (COUNT, MOST_RECORD),
    (1, MOST_RECORD),
];

#[test]
fn slices_are_read_as_the_file(rt: HostRuntime) -> Result<(), Fail> {
    let alloc = rt.alloc();
    let records = long_records(alloc)?;
    let disk = in_one(alloc, &records)?;
    let data = disk.bytes(4);
    for (records, bytes) in SLICES {
        let found = count_by(alloc, pair(COUNT, 1), data, &THIRD, records, bytes);
        same(&rt, &found, &Ok(65));
    }
    Ok(())
}

/// Records of the pair, of which its delta counts one number, its files, and the refusal.
type Case = (u32, &'static [u8], &'static [u8], Refusal);

/// The delta file is told behind all that the data file breaks.
fn are_refused(rt: &impl Abort, alloc: Global) {
    let cases: [Case; 5] = [
        (1, &DATA[..7], &NAMED, Refusal::Corrupt(4)),
        (1, &DATA[..35], &NAMED[..11], Refusal::Corrupt(4)),
        (2, &DATA, &NAMED[..11], Refusal::Corrupt(4)),
        (1, &DATA, &NAMED[..11], Refusal::Corrupt(5)),
        (1, &DATA, &THIRD, Refusal::BadVersion),
    ];
    for (at, case) in cases.iter().enumerate() {
        let found = count_by(alloc, pair(case.0, 1), case.1, case.2, 1, MOST_RECORD);
        same_at(rt, at, &found, &Err(case.3));
    }
}

#[test]
fn slices_are_refused_in_order(rt: HostRuntime) {
    are_refused(&rt, rt.alloc());
}
