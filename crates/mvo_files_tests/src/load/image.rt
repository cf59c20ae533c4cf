//! Images of a disk, as bytes in hexadecimal digits, and what is found out of them.
use crate::equal::same;
use mvo_disk::{Disk, FILE_COUNT, MemDisk, rewrite_synced};
use mvo_load::{Loaded, PairReader, PairsInThreads, PairsInTurn, load};
use mvo_places::Places;
use mvo_types::{Refusal, Row, RowKey, Rows};
use std::alloc::Global;
use std::process::Abort;
use std::test::Fail;
use std::thread::Threads;

/// A segment without frames.
pub const FRESH: &str = "4d564f4c 01000000 00";

/// A segment with the group (0, 2]: a put of table 0, key 5, sort 50, data 61 at 2.
pub const INSERTED: &str = "4d564f4c 01000000 a5 31000000 0000000000000000 0200000000000000 \
    0100 0200000000000000 0100 01 00 0500000000000000 3200000000000000 0100 61 00";

/// A data file with the record (2, 0, 5, 50, 61).
pub const DATA: &str =
    "4d564f44 01000000 0200000000000000 00 0500000000000000 3200000000000000 0100 61";

/// A data file with the record (4, 0, 5, 50, 62).
pub const LATER_DATA: &str =
    "4d564f44 01000000 0400000000000000 00 0500000000000000 3200000000000000 0100 62";

/// A delta file without numbers.
pub const DELTA: &str = "4d564f45 01000000";

/// A delta file with the number 0.
pub const NAMED: &str = "4d564f45 01000000 00000000";

/// The bytes of some words of digits.
pub fn bytes(alloc: Global, text: &str) -> Result<Vec<u8>, Fail> {
    let mut bytes = Vec::new(alloc);
    for word in text.split(' ') {
        bytes.extend_from_slice(&hex::decode(alloc, word)?)?;
    }
    Ok(bytes)
}

/// Gives a file these bytes.
pub fn put(disk: &mut MemDisk, file: u16, bytes: &[u8]) -> Result<(), Fail> {
    if file >= FILE_COUNT || disk.faults() > 0 {
        return Err(Fail::from("no such file, or a fault"));
    }
    rewrite_synced(disk, file, bytes)?;
    Ok(())
}

/// Gives files the bytes of these digits.
pub fn put_all(alloc: Global, disk: &mut MemDisk, files: &[(u16, &str)]) -> Result<(), Fail> {
    for (file, text) in files {
        put(disk, *file, &bytes(alloc, text)?)?;
    }
    Ok(())
}

/// A disk with these files.
pub fn disk_of(alloc: Global, files: &[(u16, &str)]) -> Result<MemDisk, Fail> {
    let mut disk = MemDisk::new(alloc)?;
    put_all(alloc, &mut disk, files)?;
    Ok(disk)
}

/// A row as its sort and its data.
fn row_line(alloc: Global, row: &Row) -> Result<String, Fail> {
    let data = hex::encode(alloc, row.bytes())?;
    let sort = row.sort;
    Ok(format!(in alloc; "{sort} {data}")?)
}

/// The row of table 0 at key 5, as such a line.
fn row(alloc: Global, rows: &Rows) -> Result<String, Fail> {
    match rows.get(RowKey { table: 0, key: 5 })? {
        Some(row) => row_line(alloc, &row),
        None => Ok(format!(in alloc; "none")?),
    }
}

/// Where the live record of table 0 at key 5 lies: its data file and its number.
fn place(alloc: Global, places: &Places) -> Result<String, Fail> {
    let Some(place) = places.get(RowKey { table: 0, key: 5 }) else {
        return Ok(format!(in alloc; "nowhere")?);
    };
    let file = place.data_file;
    let number = place.number;
    Ok(format!(in alloc; "{file} {number}")?)
}

fn refused(alloc: Global, refusal: Refusal) -> Result<String, Fail> {
    Ok(format!(in alloc; "{refusal}")?)
}

/// The place of table 0 at key 5 on a disk, as this reader finds it.
fn placed_on<P: PairReader>(reader: &P, alloc: Global, disk: &mut MemDisk) -> Result<String, Fail>
    requires { P.may_read }
{
    if disk.faults() > 0 {
        return Err(Fail::from("a fault"));
    }
    match load(reader, alloc, disk, 7) {
        Ok(loaded) => place(alloc, &loaded.places),
        Err(refusal) => refused(alloc, refusal),
    }
}

/// Generation, mark, gate, how many rows, and the row of table 0 at key 5.
fn line_of(alloc: Global, loaded: &Loaded) -> Result<String, Fail> {
    let row = row(alloc, &loaded.rows)?;
    let generation = loaded.manifest.generation();
    let mark = loaded.mark.0;
    let gate = loaded.gate;
    let count = loaded.rows.len();
    Ok(format!(in alloc; "{generation}, {mark}, {gate}, {count}: {row}")?)
}

/// It is this line.
fn says(rt: &impl Abort, found: &String, line: &str) {
    same(rt, &found.as_str(), &line);
}

/// What this reader finds out of a disk, as such a line; or the refusal.
fn found_on<P: PairReader>(reader: &P, alloc: Global, disk: &mut MemDisk) -> Result<String, Fail>
    requires { P.may_read }
{
    if disk.faults() > 0 {
        return Err(Fail::from("a fault"));
    }
    match load(reader, alloc, disk, 7) {
        Ok(loaded) => line_of(alloc, &loaded),
        Err(refusal) => refused(alloc, refusal),
    }
}

/// What is found out of a disk is this line, in threads and in turn.
pub fn finds(
    rt: &(impl Abort + Threads + Sync),
    alloc: Global,
    disk: &mut MemDisk,
    line: &str,
) -> Result<(), Fail> {
    says(rt, &found_on(&PairsInThreads::new(rt), alloc, disk)?, line);
    says(rt, &found_on(&PairsInTurn, alloc, disk)?, line);
    Ok(())
}

/// The files of a disk, and a line.
pub type Case = (&'static [(u16, &'static str)], &'static str);

/// What is found out of each disk is its line.
pub fn find_all(
    rt: &(impl Abort + Threads + Sync),
    alloc: Global,
    cases: &[Case],
) -> Result<(), Fail> {
    for case in cases {
        let mut disk = disk_of(alloc, case.0)?;
        finds(rt, alloc, &mut disk, case.1)?;
    }
    Ok(())
}

/// The place on a disk is this line, in threads and in turn.
pub fn places(
    rt: &(impl Abort + Threads + Sync),
    alloc: Global,
    disk: &mut MemDisk,
    line: &str,
) -> Result<(), Fail> {
    says(rt, &placed_on(&PairsInThreads::new(rt), alloc, disk)?, line);
    says(rt, &placed_on(&PairsInTurn, alloc, disk)?, line);
    Ok(())
}

/// The place on each disk is its line.
pub fn place_all(
    rt: &(impl Abort + Threads + Sync),
    alloc: Global,
    cases: &[Case],
) -> Result<(), Fail> {
    for case in cases {
        let mut disk = disk_of(alloc, case.0)?;
        places(rt, alloc, &mut disk, case.1)?;
    }
    Ok(())
}
