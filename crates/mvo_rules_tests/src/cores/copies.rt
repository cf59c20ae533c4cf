//! Copies of operations.

use crate::equal::same;
use mvo_core::copy_of;
use mvo_types::{Op, Row, RowKey};
use std::alloc::{AllocError, Global};
use std::process::Abort;
use std::test::Fail;

const KEY: RowKey = RowKey { table: 0, key: 5 };

fn row(alloc: Global, sort: u64, byte: u8) -> Result<Row, AllocError> {
    Row::from_slice(alloc, KEY, sort, &[byte])
}

/// One of each kind.
fn each_kind(alloc: Global) -> Result<[Op; 5], AllocError> {
    Ok([
        Op::Insert(row(alloc, 50, 0x61)?),
        Op::Read(KEY),
        Op::Update(row(alloc, 60, 0x62)?),
        Op::Scan(0, 0, 100),
        Op::Delete(KEY),
    ])
}

fn is_copied(rt: &impl Abort, alloc: Global, op: &Op) -> Result<(), Fail> {
    let copy = copy_of(op)?;
    let (text, wanted) = (format!(in alloc; "{copy:?}")?, format!(in alloc; "{op:?}")?);
    same(rt, &text.as_str(), &wanted.as_str());
    Ok(())
}

#[test]
fn each_operation_is_copied(rt: HostRuntime) -> Result<(), Fail> {
    for op in &each_kind(rt.alloc())? {
        is_copied(&rt, rt.alloc(), op)?;
    }
    Ok(())
}
