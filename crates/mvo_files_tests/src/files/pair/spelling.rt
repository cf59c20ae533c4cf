//! Rules of several records, and of several numbers.
use crate::equal::same_at;
use crate::files::pair::vectors::{DELTA, count, pair};
use mvo_pair::Pair;
use mvo_types::{Refusal, Stamp};
use std::alloc::{AllocError, Global};
use std::process::Abort;
use std::test::Fail;

/// The pair (2, 9].
fn above_two(records: u32, entries: u32) -> Pair {
    Pair {
        lo: Stamp(2),
        hi: Stamp(9),
        ..pair(records, entries)
    }
}

fn append(out: &mut Vec<u8>, number: u64, len: usize) -> Result<(), AllocError> {
    for byte in number.to_le_bytes().iter().take(len) {
        out.push(*byte)?;
    }
    Ok(())
}

/// Begin, table, key and length of data.
type Line = (u64, u64, u64, u64);

fn append_record(out: &mut Vec<u8>, record: Line) -> Result<(), AllocError> {
    let (begin, table, key, len) = record;
    append(out, begin, 8)?;
    append(out, table, 1)?;
    append(out, key, 8)?;
    append(out, 7, 8)?;
    append(out, len, 2)?;
    for _ in 0..len {
        out.push(0x61)?;
    }
    Ok(())
}

/// A data file with such records.
fn data_of(alloc: Global, records: &[Line]) -> Result<Vec<u8>, AllocError> {
    let mut out = b"MVOD\x01\0\0\0".to_vec(alloc)?;
    for record in records {
        append_record(&mut out, *record)?;
    }
    Ok(out)
}

fn delta_of(alloc: Global, numbers: &[u64]) -> Result<Vec<u8>, AllocError> {
    let mut out = b"MVOE\x01\0\0\0".to_vec(alloc)?;
    for number in numbers {
        append(&mut out, *number, 4)?;
    }
    Ok(out)
}

const BROKEN_DATA: Result<usize, Refusal> = Err(Refusal::Corrupt(4));

/// Two records, and whether they are those of a pair.
const RECORDS: [([Line; 2], Result<usize, Refusal>); 12] = [
    ([(3, 0, 5, 0), (3, 0, 6, 0)], Ok(2)),
    ([(3, 0, 5, 0), (3, 1, 0, 0)], Ok(2)),
    ([(3, 9, 9, 0), (9, 0, 0, 0)], Ok(2)),
    ([(3, 15, 0, 1_024), (4, 0, 0, 0)], Ok(2)),
    // Equal, by key, by table, by begin.
    ([(3, 0, 5, 0), (3, 0, 5, 0)], BROKEN_DATA),
    ([(3, 0, 5, 0), (3, 0, 4, 0)], BROKEN_DATA),
    ([(3, 1, 5, 0), (3, 0, 9, 0)], BROKEN_DATA),
    ([(4, 0, 5, 0), (3, 1, 9, 0)], BROKEN_DATA),
    // At lo, past hi, no table, too long.
    ([(2, 0, 5, 0), (3, 0, 0, 0)], BROKEN_DATA),
    ([(3, 0, 5, 0), (10, 0, 0, 0)], BROKEN_DATA),
    ([(3, 16, 5, 0), (4, 0, 0, 0)], BROKEN_DATA),
    ([(3, 0, 5, 1_025), (4, 0, 0, 0)], BROKEN_DATA),
];

#[test]
fn records_rise_within_the_limits(rt: HostRuntime) -> Result<(), Fail> {
    for (at, (records, wanted)) in RECORDS.iter().enumerate() {
        let data = data_of(rt.alloc(), records)?;
        let found = count(rt.alloc(), above_two(2, 0), &data, &DELTA);
        same_at(&rt, at, &found, wanted);
    }
    Ok(())
}

const BROKEN_DELTA: Result<usize, Refusal> = Err(Refusal::Corrupt(5));

/// Two numbers beside three records, and how many of them are live.
const NUMBERS: [([u64; 2], Result<usize, Refusal>); 6] = [
    ([0, 1], Ok(1)),
    ([2, 0], Ok(1)),
    ([1, 1], BROKEN_DELTA),
    ([0, 3], BROKEN_DELTA),
    ([3, 0], BROKEN_DELTA),
    ([0xffff_ffff, 0], BROKEN_DELTA),
];

fn are_counted(rt: &impl Abort, alloc: Global, data: &[u8]) -> Result<(), Fail> {
    for (at, (numbers, wanted)) in NUMBERS.iter().enumerate() {
        let delta = delta_of(alloc, numbers)?;
        let found = count(alloc, above_two(3, 2), data, &delta);
        same_at(rt, at, &found, wanted);
    }
    Ok(())
}

#[test]
fn numbers_are_below_the_count_and_not_repeated(rt: HostRuntime) -> Result<(), Fail> {
    let alloc = rt.alloc();
    let data = data_of(alloc, &[(3, 0, 5, 0), (4, 0, 5, 0), (5, 0, 5, 0)])?;
    are_counted(&rt, alloc, &data)
}
