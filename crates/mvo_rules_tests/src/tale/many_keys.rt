//! A commit that wrote each of 40 keys twice.

use crate::equal::holds;
use crate::tale::checked::next_group;
use crate::tale::plain::{Wrote, is_record, row_at};
use crate::tale::storing::store;
use mvo_tale::Tale;
use mvo_types::{Answer, Op, RowKey, Stamp};
use std::alloc::{AllocError, Global};
use std::process::Abort;
use std::test::Fail;

const KEYS: u64 = 40;

fn key_of(key: u64) -> RowKey {
    RowKey { table: 0, key }
}

/// The keys, each once, in an order that isn't theirs: 17 and 40 have no common divisor.
fn mixed(step: u64) -> RowKey {
    key_of(step.wrapping_mul(17) % KEYS)
}

/// What was done second at the key: a row whose key is a multiple of 4 is deleted, each other is
/// updated to a sort of its own.
fn second(alloc: Global, key: RowKey) -> Result<(Op, Answer), AllocError> {
    if key.key % 4 == 0 {
        return Ok((Op::Delete(key), Answer::Deleted));
    }
    let sort = key.key.saturating_add(1_000);
    Ok((Op::Update(row_at(alloc, key, sort)?), Answer::Updated))
}

/// All rows are inserted, all are written once more, and one that isn't there is looked for.
fn operations(alloc: Global) -> Result<Vec<(Op, Answer)>, AllocError> {
    let mut operations = Vec::new(alloc);
    for step in 0..KEYS {
        let row = row_at(alloc, mixed(step), step)?;
        operations.push((Op::Insert(row), Answer::Inserted))?;
    }
    for step in 0..KEYS {
        operations.push(second(alloc, mixed(step))?)?;
    }
    operations.push((Op::Delete(key_of(KEYS)), Answer::Absent))?;
    Ok(operations)
}

/// The second write to each key, by key.
fn wanted(alloc: Global) -> Result<Vec<Wrote>, AllocError> {
    let mut wrote = Vec::new(alloc);
    for key in 0..KEYS {
        let sort = if key % 4 == 0 {
            None
        } else {
            Some(key + 1_000)
        };
        let key = key_of(key);
        wrote.push(Wrote { key, sort })?;
    }
    Ok(wrote)
}

fn has_the_last(rt: &impl Abort, alloc: Global, tale: &mut Tale) -> Result<(), Fail> {
    let is_stored = store(alloc, tale, 7, operations(alloc)?)?;
    holds(rt, is_stored);
    let Some(group) = next_group(tale, alloc, 0, Stamp(0), Stamp(9))? else {
        return Err(Fail::from("a group"));
    };
    let wrote = wanted(alloc)?;
    holds(rt, group.records.len() == 1);
    holds(rt, group.records.iter().all(|of| is_record(of, 7, &wrote)));
    Ok(())
}

#[test]
fn a_record_has_the_last_write_to_each_of_40_keys(rt: HostRuntime) -> Result<(), Fail> {
    let mut tale = Tale::new(rt.alloc());
    has_the_last(&rt, rt.alloc(), &mut tale)
}
