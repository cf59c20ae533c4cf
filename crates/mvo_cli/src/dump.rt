//! A script that makes the rows of a store anew.

use crate::fault::Fault;
use crate::listing::write_content;
use mvo_types::{MAX_WRITES, Row};
use std::alloc::Global;
use std::io::{BufWriter, Write};

/// How many bytes of rows may be behind the last flush before there is one more. With the
/// transaction that goes beyond, of 256 rows of at most 4,124 bytes in a group's body, they still
/// fit into one group.
const FULL_BYTES: usize = 3_000_000;

/// How many transactions may be behind the last flush before there is one more: fewer than the
/// records of a group.
const FULL_TRANSACTIONS: usize = 1_000;

/// What a write to a row takes in a group's body beside the data.
const BESIDE_DATA: usize = 20;

/// Writes a script that inserts these rows, in their order: transactions of at most 256 rows, a
/// `flush` before they'd be too many for a group, and one at the end.
pub fn write_dump<W: Write + Drop>(alloc: Global, rows: &[Row], writer: W) -> Result<(), Fault> {
    let mut writer = BufWriter::new(alloc, writer).map_err(|_| Fault::OutOfMemory)?;
    write_transactions(alloc, rows, &mut writer)?;
    writer.flush().map_err(Fault::Print)
}

/// Writes the transactions, with a flush behind the last one.
fn write_transactions(alloc: Global, rows: &[Row], writer: &mut impl Write) -> Result<(), Fault> {
    let mut bytes = 0usize;
    let mut transactions = 0usize;
    for some in rows.chunks(MAX_WRITES) {
        write_transaction(alloc, some, writer)?;
        bytes = bytes.saturating_add(bytes_of(some));
        transactions = transactions.saturating_add(1);
        if bytes >= FULL_BYTES || transactions >= FULL_TRANSACTIONS {
            writeln!(writer, "flush").map_err(Fault::Print)?;
            bytes = 0;
            transactions = 0;
        }
    }
    writeln!(writer, "flush").map_err(Fault::Print)
}

/// Writes the transaction that inserts these rows.
fn write_transaction(alloc: Global, rows: &[Row], writer: &mut impl Write) -> Result<(), Fault> {
    writeln!(writer, "begin t").map_err(Fault::Print)?;
    for row in rows {
        let table = row.key.table;
        write!(writer, "insert t {table} ").map_err(Fault::Print)?;
        write_content(alloc, row, writer)?;
    }
    writeln!(writer, "commit t").map_err(Fault::Print)
}

/// How many bytes the rows take in a group's body.
fn bytes_of(rows: &[Row]) -> usize {
    let mut bytes = 0usize;
    for row in rows {
        bytes = bytes.saturating_add(row.bytes().len().saturating_add(BESIDE_DATA));
    }
    bytes
}
