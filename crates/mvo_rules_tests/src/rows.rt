use crate::equal::{holds, same};
use mvo_types::{Cause, Refusal, Row, RowKey, Rows, Stamp, TxId};
use std::alloc::{AllocError, Global};
use std::process::Abort;
use std::test::Fail;

const LINES: [(Refusal, &str); 6] = [
    (Refusal::Busy, "refused 52"),
    (
        Refusal::WriteConflict(Cause::Active(TxId(3))),
        "refused 20 active 3",
    ),
    (
        Refusal::WriteConflict(Cause::Stamped(Stamp(5))),
        "refused 20 stamped 5",
    ),
    (Refusal::ValidationFailed(Stamp(5)), "refused 21 5"),
    (Refusal::DependencyAborted(TxId(1)), "refused 22 1"),
    (Refusal::Corrupt(2), "refused 54 2"),
];

#[test]
fn refusals_print_their_reply_lines(rt: HostRuntime) -> Result<(), Fail> {
    for (refusal, line) in LINES {
        prints(&rt, rt.alloc(), refusal, line)?;
    }
    Ok(())
}

fn prints(rt: &impl Abort, alloc: Global, refusal: Refusal, line: &str) -> Result<(), AllocError> {
    let printed = refusal.to_string(alloc)?;
    same(rt, &printed.as_str(), &line);
    Ok(())
}

fn put(alloc: Global, rows: &mut Rows, key: RowKey, sort: u64, byte: u8) -> Result<(), AllocError> {
    rows.put(Row::from_slice(alloc, key, sort, &[byte])?)
}

/// The row of this key has that sort and that byte.
fn finds(rt: &impl Abort, rows: &Rows, key: RowKey, sort: u64, byte: u8) -> Result<(), Fail> {
    holds(rt, rows.contains(key));
    let found = rows.get(key)?.ok_or("a row")?;
    same(rt, &found.sort, &sort);
    same(rt, &found.bytes(), &[byte].as_slice());
    Ok(())
}

fn comes_and_goes(rt: &impl Abort, alloc: Global, rows: &mut Rows) -> Result<(), Fail> {
    let key = RowKey { table: 0, key: 5 };
    put(alloc, rows, key, 50, 97)?;
    finds(rt, rows, key, 50, 97)?;
    rows.remove(key);
    holds(rt, rows.get(key)?.is_none());
    Ok(())
}

#[test]
fn a_row_is_put_found_and_removed(rt: HostRuntime) -> Result<(), Fail> {
    let mut rows = Rows::new(rt.alloc());
    comes_and_goes(&rt, rt.alloc(), &mut rows)
}

fn put_four(alloc: Global, rows: &mut Rows) -> Result<(), AllocError> {
    for (table, key, sort) in [(0, 9, 10), (0, 2, 20), (0, 5, 21), (1, 7, 15)] {
        put(alloc, rows, RowKey { table, key }, sort, 98)?;
    }
    Ok(())
}

/// The rows have the keys 2 and 9.
fn assert_two(rt: &impl Abort, first: &Row, second: &Row) -> Result<(), Fail> {
    same(rt, &first.key, &RowKey { table: 0, key: 2 });
    same(rt, &second.key, &RowKey { table: 0, key: 9 });
    holds(rt, first.same(&first.copy()?));
    holds(rt, !first.same(second));
    Ok(())
}

/// The rows with a sort from 10 to 20 come by their keys.
fn assert_range(rt: &impl Abort, found: &[Row]) -> Result<(), Fail> {
    match found {
        [first, second] => assert_two(rt, first, second),
        _ => Err(Fail::from("two rows")),
    }
}

fn assert_within(rt: &impl Abort, alloc: Global, rows: &Rows) -> Result<(), Fail> {
    let found = rows.within(alloc, 0, 10, 20)?;
    assert_range(rt, found.as_slice())
}

fn assert_places(rt: &impl Abort, alloc: Global, rows: &Rows) -> Result<(), Fail> {
    let places = rows.places(alloc, 0)?;
    same(
        rt,
        &places.as_slice(),
        &[(20, 2), (21, 5), (10, 9)].as_slice(),
    );
    Ok(())
}

fn assert_rows(rt: &impl Abort, alloc: Global, rows: &Rows) -> Result<(), Fail> {
    same(rt, &rows.len(), &4);
    assert_within(rt, alloc, rows)?;
    assert_places(rt, alloc, rows)
}

#[test]
fn rows_of_a_range_come_by_their_keys(rt: HostRuntime) -> Result<(), Fail> {
    let mut rows = Rows::new(rt.alloc());
    put_and_assert(&rt, rt.alloc(), &mut rows)
}

fn put_and_assert(rt: &impl Abort, alloc: Global, rows: &mut Rows) -> Result<(), Fail> {
    holds(rt, rows.is_empty());
    put_four(alloc, rows)?;
    assert_rows(rt, alloc, rows)
}
