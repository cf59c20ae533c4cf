//! A plain slow checkpoint, for what building one is compared with.
use crate::equal::{holds, holds_at, same_at};
use crate::files::ckpt::making::{group, pair, row, table_of};
use crate::numbers::Numbers;
use mvo_ckpt::{Checkpoint, build};
use mvo_group::{Group, Record, Write};
use mvo_places::RecordPlace;
use mvo_types::{RowKey, Stamp};
use std::alloc::{AllocError, Global};
use std::process::Abort;
use std::test::Fail;

/// One write: the end of its transaction, its key, and the sort of a put.
type Line = (u64, u64, Option<u64>);

/// Transactions of rising ends, each with a few writes of rising keys.
fn some_lines(alloc: Global, numbers: &mut Numbers) -> Result<Vec<Line>, AllocError> {
    let mut lines = Vec::new(alloc);
    for end in 1u64..30 {
        let mut key = 0u64;
        for _ in 0..numbers.below(4).saturating_add(1) {
            key = key.saturating_add(numbers.below(6)).saturating_add(1);
            let sort = if numbers.below(3) == 0 {
                None
            } else {
                Some(numbers.below(100))
            };
            lines.push((end, key, sort))?;
        }
    }
    Ok(lines)
}

fn write_of(alloc: Global, line: &Line) -> Result<Write, AllocError> {
    let key = RowKey {
        table: 0,
        key: line.1,
    };
    Ok(match line.2 {
        Some(sort) => Write::Put(row(alloc, line.1, sort, 0x61)?),
        None => Write::Delete(key),
    })
}

/// The writes of the transaction with this end.
fn writes_of(alloc: Global, lines: &[Line], end: u64) -> Result<Vec<Write>, AllocError> {
    let mut writes = Vec::new(alloc);
    for line in lines {
        if line.0 == end {
            writes.push(write_of(alloc, line)?)?;
        }
    }
    Ok(writes)
}

/// That transaction as a group of its own.
fn group_to(alloc: Global, lines: &[Line], end: u64) -> Result<Group, Fail> {
    let mut records = Vec::new(alloc);
    records.push(Record {
        end: Stamp(end),
        writes: writes_of(alloc, lines, end)?,
    })?;
    group(end.saturating_sub(1), end, records)
}

/// Each transaction as a group of its own.
fn groups_of(alloc: Global, lines: &[Line]) -> Result<Vec<Group>, Fail> {
    let mut groups = Vec::new(alloc);
    for end in 1u64..30 {
        groups.push(group_to(alloc, lines, end)?)?;
    }
    Ok(groups)
}

/// Places for some keys, in three files.
fn some_places(
    alloc: Global,
    numbers: &mut Numbers,
) -> Result<Vec<(RowKey, RecordPlace)>, AllocError> {
    let mut list = Vec::new(alloc);
    for key in 0u64..40 {
        let data_file = match numbers.below(4) {
            0 => 2u16,
            1 => 4,
            2 => 6,
            _ => 0,
        };
        if data_file > 0 {
            let number = (key as u32) ^ 13;
            list.push((RowKey { table: 0, key }, RecordPlace { data_file, number }))?;
        }
    }
    Ok(list)
}

fn is_last(lines: &[Line], at: usize) -> bool {
    match (lines.get(at), lines.get(at..)) {
        (Some(line), Some(rest)) => rest.iter().filter(|l| l.1 == line.1).count() == 1,
        _ => false,
    }
}

/// Whether the records and the deleted keys are those of the last writes, in their order.
fn has_last(made: &Checkpoint, lines: &[Line]) -> bool {
    let mut records = 0usize;
    let mut gone = 0usize;
    for (at, line) in lines.iter().enumerate() {
        if !is_last(lines, at) {
            continue;
        }
        match line.2 {
            Some(sort) => {
                let same = made.records.get(records).is_some_and(|e| {
                    e.begin.0 == line.0 && e.row.key.key == line.1 && e.row.sort == sort
                });
                if !same {
                    return false;
                }
                records = records.saturating_add(1);
            }
            None => {
                if made.gone.get(gone).is_none_or(|k| k.key != line.1) {
                    return false;
                }
                gone = gone.saturating_add(1);
            }
        }
    }
    records == made.records.len() && gone == made.gone.len()
}

/// The numbers in a file at written keys, by a look at each number.
fn numbers_in(
    alloc: Global,
    lines: &[Line],
    places: &[(RowKey, RecordPlace)],
    data_file: u16,
) -> Result<Vec<u32>, AllocError> {
    let mut numbers = Vec::new(alloc);
    for number in 0u32..64 {
        let place = RecordPlace { data_file, number };
        let named = places
            .iter()
            .any(|p| p.1 == place && lines.iter().any(|l| l.1 == p.0.key));
        if named {
            numbers.push(number)?;
        }
    }
    Ok(numbers)
}

/// The checkpoint of these transactions.
fn checkpoint_of(
    alloc: Global,
    lines: &[Line],
    list: &[(RowKey, RecordPlace)],
) -> Result<Checkpoint, Fail> {
    let table = table_of(alloc, list)?;
    let pairs = [pair(6), pair(2), pair(4)];
    Ok(build(alloc, &table, &pairs, groups_of(alloc, lines)?)?)
}

/// The deltas name each number in a file at written keys: how many these are.
fn has_numbers(
    rt: &impl Abort,
    alloc: Global,
    round: usize,
    made: &Checkpoint,
    lines: &[Line],
    list: &[(RowKey, RecordPlace)],
) -> Result<usize, Fail> {
    let mut gained = 0usize;
    let mut deltas = made.deltas.iter();
    for data_file in [6u16, 2, 4] {
        let wanted = numbers_in(alloc, lines, list, data_file)?;
        if wanted.is_empty() {
            continue;
        }
        let delta = deltas.next().ok_or("a delta")?;
        same_at(rt, round, &delta.data_file, &data_file);
        same_at(rt, round, &delta.numbers.as_slice(), &wanted.as_slice());
        gained = gained.saturating_add(wanted.len());
    }
    holds_at(rt, round, deltas.next().is_none());
    Ok(gained)
}

/// How many numbers the deltas of some transactions' checkpoint name, which must be the plain one.
fn agrees(
    rt: &impl Abort,
    alloc: Global,
    round: usize,
    lines: &[Line],
    list: &[(RowKey, RecordPlace)],
) -> Result<usize, Fail> {
    let made = checkpoint_of(alloc, lines, list)?;
    holds_at(rt, round, has_last(&made, lines));
    has_numbers(rt, alloc, round, &made, lines, list)
}

fn some_agree(
    rt: &impl Abort,
    alloc: Global,
    round: usize,
    numbers: &mut Numbers,
) -> Result<usize, Fail> {
    let lines = some_lines(alloc, numbers)?;
    let list = some_places(alloc, numbers)?;
    agrees(rt, alloc, round, &lines, &list)
}

#[test]
fn agrees_with_a_plain_checkpoint(rt: HostRuntime) -> Result<(), Fail> {
    let mut numbers = Numbers::new(0);
    let mut gained = 0usize;
    for round in 0usize..40 {
        let named = some_agree(&rt, rt.alloc(), round, &mut numbers)?;
        gained = gained.saturating_add(named);
    }
    holds(&rt, gained > 100);
    Ok(())
}
