//! The stored commits as a plain list.

use crate::numbers::Numbers;
use mvo_group::{Record, Write};
use mvo_types::{Answer, Op, Row, RowKey};
use std::alloc::{AllocError, Global};

/// What stands at the place of an end.
#[derive(Clone, Copy, PartialEq, Eq)]
pub enum State {
    Open,
    /// Of a read-only transaction that hasn't ended.
    Reading,
    Settled,
    Empty,
}

/// The last write to a key: the sort of the row that it put, or none.
#[derive(Clone, Copy)]
pub struct Wrote {
    pub key: RowKey,
    pub sort: Option<u64>,
}

#[derive(Drop)]
pub struct Place {
    pub end: u64,
    pub state: State,
    pub wrote: Vec<Wrote>,
}

/// Keeps the write as the last one to its key, by (table, key).
fn keep(wrote: &mut Vec<Wrote>, write: Wrote) -> Result<(), AllocError> {
    wrote.retain(|other| other.key != write.key);
    wrote.push(write)?;
    wrote.sort_by_key(|other| other.key)?;
    Ok(())
}

/// A row with that sort, and as many bytes of data as that leaves over of sevens.
pub fn row_at(alloc: Global, key: RowKey, sort: u64) -> Result<Row, AllocError> {
    Row::new(key, sort, vec![in alloc; 97; (sort % 7) as usize]?)
}

/// Some operations with answers, and what they write.
pub fn some_operations(
    alloc: Global,
    numbers: &mut Numbers,
    wrote: &mut Vec<Wrote>,
) -> Result<Vec<(Op, Answer)>, AllocError> {
    let mut operations = Vec::new(alloc);
    for _ in 0..numbers.below(7) {
        let table = if numbers.below(3) == 0 { 15 } else { 0 };
        let key = RowKey {
            table,
            key: numbers.below(4),
        };
        operations.push(some_operation(alloc, numbers, key, wrote)?)?;
    }
    Ok(operations)
}

/// Some reads with answers.
pub fn some_reads(alloc: Global, numbers: &mut Numbers) -> Result<Vec<(Op, Answer)>, AllocError> {
    let mut operations = Vec::new(alloc);
    for _ in 0..numbers.below(5) {
        let key = RowKey {
            table: 0,
            key: numbers.below(4),
        };
        operations.push((Op::Read(key), Answer::Found(None)))?;
    }
    Ok(operations)
}

fn some_operation(
    alloc: Global,
    numbers: &mut Numbers,
    key: RowKey,
    wrote: &mut Vec<Wrote>,
) -> Result<(Op, Answer), AllocError> {
    let sort = numbers.below(1000);
    let put = Wrote {
        key,
        sort: Some(sort),
    };
    let row = row_at(alloc, key, sort)?;
    Ok(match numbers.below(8) {
        0 => {
            keep(wrote, put)?;
            (Op::Insert(row), Answer::Inserted)
        }
        1 => (Op::Insert(row), Answer::Exists),
        2 => {
            keep(wrote, put)?;
            (Op::Update(row), Answer::Updated)
        }
        3 => (Op::Update(row), Answer::Absent),
        4 => {
            keep(wrote, Wrote { key, sort: None })?;
            (Op::Delete(key), Answer::Deleted)
        }
        5 => (Op::Delete(key), Answer::Absent),
        6 => (Op::Read(key), Answer::Found(Some(row))),
        _ => (
            Op::Scan(key.table, 0, sort),
            Answer::Rows(vec![in alloc; row]?),
        ),
    })
}

/// Whether the write is the one that was kept.
fn is_write(write: &Write, wrote: Wrote) -> bool {
    match (write, wrote.sort) {
        (Write::Put(row), Some(sort)) => {
            row.key == wrote.key && row.sort == sort && row.data_len() == (sort % 7) as usize
        }
        (Write::Delete(key), None) => *key == wrote.key,
        _ => false,
    }
}

/// Whether the record has this end, and these writes in this order.
pub fn is_record(commit: &Record, end: u64, wrote: &[Wrote]) -> bool {
    commit.end.0 == end
        && commit.writes.len() == wrote.len()
        && commit
            .writes
            .iter()
            .zip(wrote.iter())
            .all(|pair| is_write(pair.0, *pair.1))
}
