//! A plain reader of a pair's files, for what loading is compared with.
use crate::equal::holds_at;
use crate::files::pair::vectors::{DATA, NAMED, pair};
use mvo_format::FIRST_FORMAT;
use mvo_pair::{Live, load_pair};
use mvo_types::Refusal;
use std::alloc::Global;
use std::process::Abort;

/// The number in the bytes from a place on.
fn number(bytes: &[u8], at: usize, len: usize) -> Option<u64> {
    let mut value = 0u64;
    for byte in bytes.get(at..)?.get(..len)?.iter().rev() {
        value = value.wrapping_mul(256).wrapping_add(u64::from(*byte));
    }
    Some(value)
}

/// Whether the file begins with this magic and version 1, and how it is refused.
fn header(bytes: &[u8], magic: &str, file: u16) -> Result<(), Refusal> {
    if bytes.len() < 8 || !bytes.starts_with(magic.as_bytes()) {
        return Err(Refusal::Corrupt(file));
    }
    if number(bytes, 4, 4) != Some(1) {
        return Err(Refusal::BadVersion);
    }
    Ok(())
}

/// Begin, table, key, sort and data of a record.
type Plain<'a> = (u64, u64, u64, u64, &'a [u8]);

/// The only record of the pair (0, 2], if it keeps the rules.
fn record(bytes: &[u8]) -> Option<Plain<'_>> {
    let begin = number(bytes, 8, 8)?;
    let table = number(bytes, 16, 1)?;
    let key = number(bytes, 17, 8)?;
    let sort = number(bytes, 25, 8)?;
    let len = number(bytes, 33, 2)?;
    let data = bytes.get(35..)?.get(..len as usize)?;
    if begin < 1 || begin > 2 || table > 15 || len > 1_024 {
        return None;
    }
    Some((begin, table, key, sort, data))
}

/// The record of the data file, where one number of the delta file may be counted, or the refusal.
fn read_plainly<'a>(entries: u32, data: &'a [u8], delta: &[u8]) -> Result<Plain<'a>, Refusal> {
    header(data, "MVOD", 4)?;
    let Some(plain) = record(data) else {
        return Err(Refusal::Corrupt(4));
    };
    header(delta, "MVOE", 5)?;
    if entries == 1 && number(delta, 8, 4) != Some(0) {
        return Err(Refusal::Corrupt(5));
    }
    Ok(plain)
}

/// Whether the loaded one is the record that was read plainly.
fn is_record(live: &Live, plain: Plain<'_>) -> bool {
    let row = &live.entry.row;
    live.number == 0
        && live.entry.begin.0 == plain.0
        && u64::from(row.key.table) == plain.1
        && row.key.key == plain.2
        && row.sort == plain.3
        && row.bytes() == plain.4
}

/// Whether that record alone is live, or none where a number was counted.
fn are_live(live: &[Live], entries: u32, plain: Plain<'_>) -> bool {
    match live {
        [] => entries == 1,
        [only] => entries != 1 && is_record(only, plain),
        _ => false,
    }
}

/// Whether loading one record and one number answers what reading them plainly does.
fn agrees(alloc: Global, entries: u32, data: &[u8], delta: &[u8]) -> bool {
    let loaded = load_pair(alloc, FIRST_FORMAT.version, pair(1, entries), data, delta);
    match (&loaded, read_plainly(entries, data, delta)) {
        (Ok(live), Ok(plain)) => are_live(live, entries, plain),
        (Err(found), Err(wanted)) => *found == wanted,
        _ => false,
    }
}

/// Compares the two readers at each length of the files and at each value of each byte.
fn agrees_throughout(rt: &impl Abort, alloc: Global, entries: u32) {
    for len in 0..DATA.len() {
        holds_at(rt, len, agrees(alloc, entries, &DATA[..len], &NAMED));
    }
    for len in 0..NAMED.len() {
        holds_at(rt, len, agrees(alloc, entries, &DATA, &NAMED[..len]));
    }
    for at in 0..DATA.len() {
        for value in 0..=255 {
            let mut data = DATA;
            data[at] = value;
            holds_at(rt, at, agrees(alloc, entries, &data, &NAMED));
        }
    }
    for at in 0..NAMED.len() {
        for value in 0..=255 {
            let mut delta = NAMED;
            delta[at] = value;
            holds_at(rt, at, agrees(alloc, entries, &DATA, &delta));
        }
    }
}

#[test]
fn agrees_with_a_plain_reader(rt: HostRuntime) {
    agrees_throughout(&rt, rt.alloc(), 0);
    agrees_throughout(&rt, rt.alloc(), 1);
}
