use super::opened::{Opened, open};
use super::writer::written;
use anyhow::Result;
use mvo_types::{RowKey, Rows};
use std::rt::Clock;
use std::thread::Threads;

// The rows of a store that holds so many in its log, and the time of opening it.
pub fn run<R>(rt: &R, count: u64) -> Result<()>
where
    R: AllocGlobal + Clock + Eprint + Print + Threads + Sync,
{
    let opened = open(rt, written(rt, rt.alloc(), count)?)?;
    tell(rt, count, &opened)
}

fn tell<R: Eprint + Print>(rt: &R, count: u64, opened: &Opened) -> Result<()> {
    eprintln!(rt; "{count} rows from the log: {} ms", opened.millis)?;
    let sum = sum_of(&opened.rows, count)?;
    let (rows, mark, segments) = (opened.rows.len(), opened.mark, opened.segments);
    println!(rt; "rows {rows} mark {mark} segments {segments} sum {sum}")?;
    Ok(())
}

// The sum of the sorts of all rows.
pub fn sum_of(rows: &Rows, count: u64) -> Result<u64> {
    let mut sum = 0u64;
    for key in 0..count {
        if let Some(row) = rows.get(RowKey { table: 0, key })? {
            sum = sum.wrapping_add(row.sort);
        }
    }
    Ok(sum)
}
