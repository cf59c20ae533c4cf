use crate::fault::Fault;
use crate::folder::Holdings;
use crate::folder_stats::FolderStats;
use crate::segment_stats::SegmentStats;
use mvo_pair::Pair;
use mvo_types::{Row, RowKey};
use std::alloc::{AllocError, Global};
use std::io::{self, BufWriter, Write};

/// Writes the mark, and then each row of a table by sort and key, `KEY SORT DATA`. Of the rows it
/// copies one at a time; beside them it keeps the places of the table's rows.
pub fn write_rows<W: Write + Drop>(
    alloc: Global,
    held: &Holdings,
    table: u8,
    writer: W,
) -> Result<(), Fault> {
    let places = places_of(alloc, held, table)?;
    let mut writer = BufWriter::new(alloc, writer).map_err(|_| Fault::OutOfMemory)?;
    write_places(alloc, held, table, &places, &mut writer)
}

/// The sorts and keys of a table's rows, in order.
fn places_of(alloc: Global, held: &Holdings, table: u8) -> Result<Vec<(u64, u64)>, AllocError> {
    let mut places = held.rows.places(alloc, table)?;
    places.sort_unstable();
    Ok(places)
}

/// Writes the mark, and then the rows at these places.
fn write_places(
    alloc: Global,
    held: &Holdings,
    table: u8,
    places: &[(u64, u64)],
    writer: &mut impl Write,
) -> Result<(), Fault> {
    let mark = held.mark;
    writeln!(writer, "mark {mark}").map_err(Fault::Print)?;
    for place in places {
        let (_, key) = *place;
        write_at(alloc, held, RowKey { table, key }, writer)?;
    }
    writer.flush().map_err(Fault::Print)
}

/// Writes the row at a key, where there is one.
fn write_at(
    alloc: Global,
    held: &Holdings,
    key: RowKey,
    writer: &mut impl Write,
) -> Result<(), Fault> {
    match held.rows.get(key)? {
        Some(row) => write_content(alloc, &row, writer),
        None => Ok(()),
    }
}

/// Writes one row, `KEY SORT DATA`. Its data is in lower-case hexadecimal digits, and `-` where it
/// has none.
pub fn write_content(alloc: Global, row: &Row, writer: &mut impl Write) -> Result<(), Fault> {
    let (key, sort) = (row.key.key, row.sort);
    let digits = hex::encode(alloc, row.bytes())?;
    let text = if row.bytes().is_empty() {
        "-"
    } else {
        digits.as_str()
    };
    writeln!(writer, "{key} {sort} {text}").map_err(Fault::Print)
}

/// Writes what a store that was opened holds.
pub fn write_counts(held: &Holdings, writer: &mut impl Write) -> Result<(), Fault> {
    let (mark, rows) = (held.mark, held.rows.len());
    let (pairs, segments) = (held.pairs, held.segments);
    write!(
        writer,
        "ok mark {mark} rows {rows} pairs {pairs} segments {segments}"
    )
    .map_err(Fault::Print)?;
    write_old(held.old, writer)
}

/// Ends the line, with the count of old files where there are any.
fn write_old(old: usize, writer: &mut impl Write) -> Result<(), Fault> {
    if old == 0 {
        return writeln!(writer).map_err(Fault::Print);
    }
    writeln!(writer, " old {old}").map_err(Fault::Print)
}

/// Writes what a folder has: its mark and rows, then each segment and each pair, the oldest first,
/// and how many files can be reclaimed.
pub fn write_stats<W: Write + Drop>(
    alloc: Global,
    stats: &FolderStats,
    writer: W,
) -> Result<(), Fault> {
    let mut writer = BufWriter::new(alloc, writer).map_err(|_| Fault::OutOfMemory)?;
    write_files(stats, &mut writer).map_err(Fault::Print)
}

fn write_files(stats: &FolderStats, writer: &mut impl Write) -> io::Result<()> {
    let (mark, rows, unused) = (stats.mark, stats.rows, stats.unused);
    writeln!(writer, "mark {mark} rows {rows}")?;
    for segment in &stats.segments {
        write_segment(segment, writer)?;
    }
    for pair in &stats.pairs {
        write_pair(pair, writer)?;
    }
    writeln!(writer, "reclaimable {unused}")?;
    writer.flush()
}

fn write_segment(segment: &SegmentStats, writer: &mut impl Write) -> io::Result<()> {
    let (file, bytes, groups) = (segment.file, segment.bytes, segment.groups);
    writeln!(writer, "segment {file} bytes {bytes} groups {groups}")
}

fn write_pair(pair: &Pair, writer: &mut impl Write) -> io::Result<()> {
    let (data, delta) = (pair.data_file, pair.delta_file);
    let (records, dead) = (pair.records, pair.entries);
    writeln!(writer, "pair {data} {delta} records {records} dead {dead}")
}
