use crate::equal::{holds, same};
use mvo_model::Serial;
use mvo_types::{Answer, Op, Row, RowKey, Rows};
use std::alloc::{AllocError, Global};
use std::process::Abort;
use std::test::Fail;

/// A row of table 0: its key, its sort and its only byte.
type Plain = (u64, u64, u8);

const TWO: [Plain; 2] = [(1, 10, 0x61), (2, 20, 0x62)];

/// Those two and two more, by sort, and by key where sorts are the same.
const FOUR: [Plain; 4] = [(4, 5, 0x64), (1, 10, 0x61), (3, 10, 0x63), (2, 20, 0x62)];

fn key_of(key: u64) -> RowKey {
    RowKey { table: 0, key }
}

fn row(alloc: Global, (key, sort, byte): Plain) -> Result<Row, AllocError> {
    Row::from_slice(alloc, key_of(key), sort, &[byte])
}

fn two_rows(alloc: Global) -> Result<Serial, AllocError> {
    let mut rows = Rows::new(alloc);
    for plain in TWO {
        rows.put(row(alloc, plain)?)?;
    }
    Ok(Serial::new(alloc, rows))
}

fn assert_row(rt: &impl Abort, row: &Row, (key, sort, byte): Plain) {
    same(rt, &row.key, &key_of(key));
    same(rt, &row.sort, &sort);
    same(rt, &row.bytes(), &[byte].as_slice());
}

/// The answer is these rows, in this order.
fn assert_rows(rt: &impl Abort, answer: &Answer, wanted: &[Plain]) {
    let Answer::Rows(found) = answer else {
        panic!(rt; "no rows");
    };
    same(rt, &found.len(), &wanted.len());
    for (row, plain) in found.iter().zip(wanted) {
        assert_row(rt, row, *plain);
    }
}

/// A scan is answered with these rows.
fn scans(rt: &impl Abort, store: &mut Serial, scan: Op, wanted: &[Plain]) -> Result<(), Fail> {
    assert_rows(rt, &store.apply(&scan)?, wanted);
    Ok(())
}

fn scans_ranges(rt: &impl Abort, store: &mut Serial) -> Result<(), Fail> {
    scans(rt, store, Op::Scan(0, 0, 100), &TWO)?;
    scans(rt, store, Op::Scan(0, 10, 20), &TWO)?;
    scans(rt, store, Op::Scan(0, 100, 0), &[])?;
    scans(rt, store, Op::Scan(1, 0, 100), &[])
}

#[test]
fn a_scan_gives_the_rows_of_its_range(rt: HostRuntime) -> Result<(), Fail> {
    let mut store = two_rows(rt.alloc())?;
    scans_ranges(&rt, &mut store)
}

fn inserts(rt: &impl Abort, alloc: Global, store: &mut Serial, plain: Plain) -> Result<(), Fail> {
    let added = store.apply(&Op::Insert(row(alloc, plain)?))?;
    holds(rt, matches!(added, Answer::Inserted));
    Ok(())
}

fn scans_four(rt: &impl Abort, alloc: Global, store: &mut Serial) -> Result<(), Fail> {
    inserts(rt, alloc, store, (4, 5, 0x64))?;
    inserts(rt, alloc, store, (3, 10, 0x63))?;
    scans(rt, store, Op::Scan(0, 0, 100), &FOUR)?;
    assert_rows(rt, &Answer::Rows(store.scan(0, 0, 100)?), &FOUR);
    Ok(())
}

#[test]
fn a_scan_goes_by_sort_and_then_by_key(rt: HostRuntime) -> Result<(), Fail> {
    let mut store = two_rows(rt.alloc())?;
    scans_four(&rt, rt.alloc(), &mut store)
}

/// An operation on a plain row, or on a key.
#[derive(Clone, Copy)]
enum PlainOp {
    Insert(Plain),
    Update(Plain),
    Delete(u64),
    Read(u64),
}

const WRITES: [PlainOp; 6] = [
    PlainOp::Insert((1, 30, 0x63)),
    PlainOp::Update((9, 30, 0x63)),
    PlainOp::Update((2, 30, 0x63)),
    PlainOp::Delete(1),
    PlainOp::Read(1),
    PlainOp::Delete(1),
];

fn op_of(alloc: Global, plain: PlainOp) -> Result<Op, AllocError> {
    match plain {
        PlainOp::Insert(plain) => Ok(Op::Insert(row(alloc, plain)?)),
        PlainOp::Update(plain) => Ok(Op::Update(row(alloc, plain)?)),
        PlainOp::Delete(key) => Ok(Op::Delete(key_of(key))),
        PlainOp::Read(key) => Ok(Op::Read(key_of(key))),
    }
}

fn writes(alloc: Global) -> Result<Vec<Op>, AllocError> {
    let mut ops = Vec::new(alloc);
    for plain in WRITES {
        ops.push(op_of(alloc, plain)?)?;
    }
    Ok(ops)
}

/// What the writes are told.
fn assert_told(rt: &impl Abort, told: &[Answer]) {
    same(rt, &told.len(), &6);
    holds(rt, matches!(told.get(0), Some(Answer::Exists)));
    holds(rt, matches!(told.get(1), Some(Answer::Absent)));
    holds(rt, matches!(told.get(2), Some(Answer::Updated)));
    holds(rt, matches!(told.get(3), Some(Answer::Deleted)));
    holds(rt, matches!(told.get(4), Some(Answer::Found(None))));
    holds(rt, matches!(told.get(5), Some(Answer::Absent)));
}

fn tells(rt: &impl Abort, alloc: Global, store: &mut Serial) -> Result<(), Fail> {
    let told = store.run(&vec![in alloc; writes(alloc)?]?)?;
    same(rt, &told.len(), &1);
    let first = told.first().ok_or("what one is told")?;
    assert_told(rt, first.as_slice());
    Ok(())
}

fn tells_and_leaves(rt: &impl Abort, alloc: Global, store: &mut Serial) -> Result<(), Fail> {
    tells(rt, alloc, store)?;
    assert_left(rt, store.rows())
}

/// What the writes leave.
fn assert_left(rt: &impl Abort, rows: &Rows) -> Result<(), Fail> {
    same(rt, &rows.len(), &1);
    assert_row(rt, &rows.get(key_of(2))?.ok_or("a row")?, (2, 30, 0x63));
    Ok(())
}

#[test]
fn writes_are_told_what_stood_at_the_key(rt: HostRuntime) -> Result<(), Fail> {
    let mut store = two_rows(rt.alloc())?;
    tells_and_leaves(&rt, rt.alloc(), &mut store)?;
    assert_left(&rt, &store.into_rows())
}
