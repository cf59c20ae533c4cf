use super::image::disk_of;
use anyhow::Result;
use mvo_disk::MemDisk;
use mvo_store::Store;
use mvo_types::{MAX_TABLE, Row, RowKey, Rows, Stamp};
use std::alloc::Global;
use std::io::Write;
use std::thread::Threads;

/// Where records stand in memory has no bearing on what is answered.
const SEED: u64 = 7;

/// Writes what the opening of a line's image answers.
pub fn write_answer<R: AllocGlobal + Threads + Sync>(
    rt: &R,
    line: &str,
    writer: &mut impl Write,
) -> Result<()> {
    let alloc = rt.alloc();
    match Store::open(rt, alloc, SEED, disk_of(alloc, line)?) {
        Ok((store, rows, mark)) => write_held(alloc, &store, &rows, mark, writer),
        Err((refusal, _)) => Ok(writeln!(writer, "{refusal}")?),
    }
}

/// Writes what a store holds.
fn write_held(
    alloc: Global,
    store: &Store<MemDisk>,
    rows: &Rows,
    mark: Stamp,
    writer: &mut impl Write,
) -> Result<()> {
    let manifest = store.manifest();
    let (pairs, segments) = (manifest.pairs().len(), manifest.segments().len());
    let count = rows.len();
    write!(
        writer,
        "ok mark {mark} rows {count} pairs {pairs} segments {segments}"
    )?;
    for table in 0..=MAX_TABLE {
        write_rows(alloc, rows, table, writer)?;
    }
    writeln!(writer)?;
    Ok(())
}

/// Writes each row of a table, in the order of sorts and keys: TABLE:KEY:SORT:DIGITS.
fn write_rows(alloc: Global, rows: &Rows, table: u8, writer: &mut impl Write) -> Result<()> {
    let mut places = rows.places(alloc, table)?;
    places.sort_unstable();
    for (_, key) in places {
        if let Some(row) = rows.get(RowKey { table, key })? {
            write_row(alloc, &row, writer)?;
        }
    }
    Ok(())
}

fn write_row(alloc: Global, row: &Row, writer: &mut impl Write) -> Result<()> {
    let (table, key, sort) = (row.key.table, row.key.key, row.sort);
    let digits = hex::encode(alloc, row.bytes())?;
    write!(writer, " {table}:{key}:{sort}:{digits}")?;
    Ok(())
}
