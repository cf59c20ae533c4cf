//! Commits of inserts.

use crate::tale::checked::{open_at, settle_at};
use crate::tale::entries::entry_of;
use mvo_tale::Tale;
use mvo_types::{Answer, Op, Row, RowKey, Stamp, TxId};
use std::alloc::{AllocError, Global};

/// Inserts of so many rows, of which the last has so many bytes of data and the others 1,024.
fn inserts(alloc: Global, rows: u64, last: usize) -> Result<Vec<(Op, Answer)>, AllocError> {
    let mut operations = Vec::new(alloc);
    for key in 0..rows {
        let len = if key + 1 < rows { 1024 } else { last };
        let row = Row::new(RowKey { table: 0, key }, 50, vec![in alloc; 97; len]?)?;
        operations.push((Op::Insert(row), Answer::Inserted))?;
    }
    Ok(operations)
}

/// Stores a commit with this end.
pub fn store(
    alloc: Global,
    tale: &mut Tale,
    end: u64,
    operations: Vec<(Op, Answer)>,
) -> Result<bool, AllocError> {
    let Some(place) = open_at(tale, Stamp(end))? else {
        return Ok(false);
    };
    let Some(entry) = entry_of(alloc, TxId(1), Stamp(end), operations)? else {
        return Ok(false);
    };
    Ok(settle_at(tale, place, entry))
}

/// Stores a commit of so many inserts.
pub fn store_inserts(
    alloc: Global,
    tale: &mut Tale,
    end: u64,
    rows: u64,
    last: usize,
) -> Result<bool, AllocError> {
    let operations = inserts(alloc, rows, last)?;
    store(alloc, tale, end, operations)
}
