//! A read-only transaction beside others: its place is opened at its begin, a group goes past it,
//! and its commit comes below the mark.

use crate::equal::{holds, same};
use crate::tale::checked::{leave_at, next_group, open_at, open_reading_at, settle_at};
use crate::tale::entries::entry_of;
use crate::tale::storing::store_inserts;
use mvo_tale::Tale;
use mvo_types::{Answer, Op, RowKey, Stamp, TxId};
use std::alloc::{AllocError, Global};
use std::process::Abort;
use std::test::Fail;

/// Stores the commit of the read-only transaction of this begin, after one read.
fn store_read(
    alloc: Global,
    tale: &mut Tale,
    place: usize,
    begin: u64,
) -> Result<bool, AllocError> {
    let key = RowKey { table: 0, key: 5 };
    let told = vec![in alloc; (Op::Read(key), Answer::Found(None))]?;
    let Some(entry) = entry_of(alloc, TxId(begin), Stamp(begin), told)? else {
        return Ok(false);
    };
    Ok(settle_at(tale, place, entry))
}

/// How many records the next group has, its mark, and where the one after it goes on.
fn group_of(
    alloc: Global,
    tale: &Tale,
    from: usize,
    prev: u64,
    low: u64,
) -> Result<(usize, u64, usize), Fail> {
    match next_group(tale, alloc, from, Stamp(prev), Stamp(low))? {
        Some(group) => Ok((group.records.len(), group.mark.0, group.next)),
        None => Err(Fail::from("a group")),
    }
}

/// The end of the commit that is stored at the place.
fn end_at(tale: &Tale, place: usize) -> Option<u64> {
    tale.get(place).map(|entry| entry.end.0)
}

fn goes_past(rt: &impl Abort, alloc: Global, tale: &mut Tale) -> Result<(), Fail> {
    let is_stored = store_inserts(alloc, tale, 2, 1, 0)?;
    holds(rt, is_stored);
    same(rt, &open_reading_at(tale, Stamp(3))?, &Some(1));
    let is_stored = store_inserts(alloc, tale, 4, 1, 0)?;
    holds(rt, is_stored);
    same(rt, &group_of(alloc, tale, 0, 0, 4)?, &(2, 4, 3));
    // it isn't forgotten, and neither is what is behind it
    tale.forget(Stamp(4));
    same(
        rt,
        &(end_at(tale, 0), end_at(tale, 1), end_at(tale, 2)),
        &(None, None, Some(4)),
    );
    // below the mark it takes its own place
    holds(rt, store_read(alloc, tale, 1, 3)?);
    same(
        rt,
        &(end_at(tale, 1), end_at(tale, 2), tale.len()),
        &(Some(3), Some(4), 3),
    );
    same(rt, &group_of(alloc, tale, 3, 4, 9)?, &(0, 9, 3));
    tale.forget(Stamp(3));
    same(
        rt,
        &(end_at(tale, 1), end_at(tale, 2), tale.len()),
        &(None, Some(4), 3),
    );
    Ok(())
}

#[test]
fn a_group_goes_past_a_read_only_transaction(rt: HostRuntime) -> Result<(), Fail> {
    let mut tale = Tale::new(rt.alloc());
    goes_past(&rt, rt.alloc(), &mut tale)
}

fn leaves(rt: &impl Abort, tale: &mut Tale) -> Result<(), Fail> {
    same(rt, &open_reading_at(tale, Stamp(1))?, &Some(0));
    same(rt, &open_at(tale, Stamp(2))?, &Some(1));
    // none begins at an end that was drawn
    same(rt, &open_reading_at(tale, Stamp(2))?, &None);
    holds(rt, leave_at(tale, 0, Stamp(1)));
    same(rt, &(end_at(tale, 0), tale.len()), &(None, 2));
    holds(rt, !leave_at(tale, 0, Stamp(1)));
    Ok(())
}

#[test]
fn an_aborted_read_only_transaction_leaves_its_place_empty(rt: HostRuntime) -> Result<(), Fail> {
    let mut tale = Tale::new(rt.alloc());
    leaves(&rt, &mut tale)
}
