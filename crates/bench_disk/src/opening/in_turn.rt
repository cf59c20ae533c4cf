//! The plain way to read pairs, in one thread: what opening a store is compared with.
use super::pairs::{PAIRS, pair_of, sum_of, written};
use anyhow::{Result, bail};
use mvo_disk::{Disk, MemDisk};
use mvo_format::LAST_FORMAT;
use mvo_load::pair_on;
use mvo_pair::{Live, Pair};
use mvo_places::{Places, RecordPlace};
use mvo_types::{MAX_FILE, MAX_PAIR_RECORDS, Rows};
use std::alloc::{AllocError, Global};
use std::rt::Clock;
use std::time::Instant;

/// The time of reading the four pairs one after another: the records of each are found, and put
/// into the rows and the table of places in the order in which they lie in its file.
pub fn run<R>(rt: &R, count: u64) -> Result<()>
where
    R: AllocGlobal + Clock + Eprint + Print,
{
    let mut disk = written(rt.alloc(), count)?;
    let mut rows = Rows::new(rt.alloc());
    let mut places = Places::new(rt.alloc(), 7);
    let start = Instant::now(rt)?;
    read_all(rt.alloc(), &mut disk, count, &mut rows, &mut places)?;
    tell(rt, count, &rows, start.elapsed(rt)?.as_nanos() / 1_000_000)
}

fn tell<R: Eprint + Print>(rt: &R, count: u64, rows: &Rows, millis: u128) -> Result<()> {
    eprintln!(rt; "{count} rows from {PAIRS} pairs, one after another: {millis} ms")?;
    let sum = sum_of(rows, count)?;
    println!(rt; "rows {} in turn sum {sum}", rows.len())?;
    Ok(())
}

fn read_all(
    alloc: Global,
    disk: &mut MemDisk,
    count: u64,
    rows: &mut Rows,
    places: &mut Places,
) -> Result<()> {
    for number in 0..PAIRS as u16 {
        let pair = pair_of(number, count);
        let live = live_of(alloc, disk, pair)?;
        place_all(places, pair.data_file, &live)?;
        put_all(rows, live)?;
    }
    Ok(())
}

fn live_of(alloc: Global, disk: &mut MemDisk, pair: Pair) -> Result<Vec<Live>> {
    if pair.data_file >= 1000 || pair.delta_file >= 1000 || disk.faults() != 0 {
        bail!("files of a disk without a fault");
    }
    match pair_on(alloc, disk, LAST_FORMAT.version, pair) {
        Ok(live) => Ok(live),
        Err(refusal) => bail!("a pair isn't read: {refusal}"),
    }
}

fn place_all(places: &mut Places, data_file: u16, live: &[Live]) -> Result<()> {
    places.reserve(live.len())?;
    for one in live {
        let number = one.number;
        if data_file > MAX_FILE || number >= MAX_PAIR_RECORDS {
            bail!("a number that a pair may have");
        }
        places.put(one.entry.row.key, RecordPlace { data_file, number })?;
    }
    Ok(())
}

fn put_all(rows: &mut Rows, live: Vec<Live>) -> Result<(), AllocError> {
    for one in live {
        let Live { entry, .. } = one;
        rows.put(entry.row)?;
    }
    Ok(())
}
