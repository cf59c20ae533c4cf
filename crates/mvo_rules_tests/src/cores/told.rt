//! What a transaction was told is compared with what somebody says.

use crate::cores::{end, opened};
use crate::equal::holds;
use mvo_core::{Core, Finishing};
use mvo_types::{Answer, Op, Refusal, Row, RowKey, TxId};
use std::alloc::{AllocError, Global};
use std::process::Abort;
use std::test::Fail;

const KEY: RowKey = RowKey { table: 0, key: 7 };

/// The place of no operation.
const NONE: usize = 9;

/// How many of the operations somebody says, which of them otherwise, and whether that is held.
const CASES: [(usize, usize, bool); 5] = [
    (5, NONE, true),
    (4, NONE, false),
    (5, 4, false),
    (5, 2, false),
    (5, 1, false),
];

fn row(alloc: Global, byte: u8) -> Result<Row, AllocError> {
    Row::new(KEY, 70, [byte].to_vec(alloc)?)
}

fn found(alloc: Global, byte: u8) -> Result<Answer, AllocError> {
    Ok(Answer::Found(Some(row(alloc, byte)?)))
}

fn scanned(alloc: Global) -> Result<Answer, AllocError> {
    let mut rows = Vec::new(alloc);
    rows.push(row(alloc, 0x61)?)?;
    Ok(Answer::Rows(rows))
}

/// What `work` asks for at a place, with what it is answered: by hand. Or with another byte in the
/// row that was found, with another bound of the scan, with another answer to the last.
fn operation(alloc: Global, at: usize, is_other: bool) -> Result<(Op, Answer), AllocError> {
    let by = u8::from(is_other);
    match at {
        0 => Ok((Op::Insert(row(alloc, 0x61)?), Answer::Inserted)),
        1 => Ok((Op::Read(KEY), found(alloc, 0x61 + by)?)),
        2 => Ok((Op::Scan(0, 70, 80 + u64::from(by)), scanned(alloc)?)),
        3 => Ok((Op::Delete(KEY), Answer::Deleted)),
        _ if is_other => Ok((Op::Read(KEY), Answer::Absent)),
        _ => Ok((Op::Read(KEY), Answer::Found(None))),
    }
}

/// The first so many, one of which is another.
fn told(alloc: Global, count: usize, other: usize) -> Result<Vec<(Op, Answer)>, AllocError> {
    let mut told = Vec::new(alloc);
    for at in 0..count {
        told.push(operation(alloc, at, at == other)?)?;
    }
    Ok(told)
}

fn work(alloc: Global, core: &mut Core) -> Result<TxId, Refusal> {
    let tx = core.begin_tx()?;
    core.insert(tx, row(alloc, 0x61)?)?;
    core.read(tx, KEY)?;
    core.scan(tx, 0, 70, 80)?;
    core.delete(tx, KEY)?;
    core.read(tx, KEY)?;
    Ok(tx)
}

fn is_held(
    alloc: Global,
    core: &Core,
    tx: TxId,
    count: usize,
    other: usize,
) -> Result<bool, AllocError> {
    let told = told(alloc, count, other)?;
    Ok(core.holds(tx, &told))
}

/// Whether each case is as it is wanted, and a transaction that never began isn't compared.
fn is_as_wanted(alloc: Global, core: &Core, tx: TxId) -> Result<bool, AllocError> {
    for (count, other, wanted) in CASES {
        if is_held(alloc, core, tx, count, other)? != wanted {
            return Ok(false);
        }
    }
    is_held(alloc, core, TxId(99), 4, 2)
}

/// Whether one that is no longer Active or Preparing isn't compared, and is refused so.
fn is_over(alloc: Global, core: &mut Core, tx: TxId, refusal: Refusal) -> Result<bool, AllocError> {
    let is_held = is_held(alloc, core, tx, 4, 2)?;
    Ok(is_held && core.settle(tx).err() == Some(refusal))
}

fn commit(core: &mut Core, tx: TxId) -> Result<(), Refusal> {
    for _ in 0..6 {
        core.validate_one(tx)?;
    }
    core.settle(tx)?;
    Ok(())
}

fn finish(core: &mut Core, tx: TxId) -> Result<(), Refusal> {
    for _ in 0..9 {
        if core.finish_one(tx)? == Finishing::Done {
            break;
        }
    }
    Ok(())
}

/// Of a transaction that is Active, then Preparing, Committed, and finished, and of one that is
/// Aborted.
fn compare(rt: &impl Abort, alloc: Global, core: &mut Core) -> Result<(), Refusal> {
    let tx = work(alloc, core)?;
    holds(rt, is_as_wanted(alloc, core, tx)?);
    core.precommit(tx)?;
    holds(rt, is_as_wanted(alloc, core, tx)?);
    commit(core, tx)?;
    holds(rt, is_over(alloc, core, tx, Refusal::Ended)?);
    finish(core, tx)?;
    holds(rt, is_over(alloc, core, tx, Refusal::NoSuchTransaction)?);
    let other = core.begin_tx()?;
    core.rollback_tx(other)?;
    holds(rt, is_over(alloc, core, other, Refusal::Ended)?);
    Ok(())
}

/// Who was never there or is over is refused by `settle`, and not for what he was told.
#[test]
fn just_what_was_told_is_held(rt: HostRuntime) -> Result<(), Fail> {
    let mut core = opened(&rt, rt.alloc())?;
    let compared = compare(&rt, rt.alloc(), &mut core);
    end(core);
    compared?;
    Ok(())
}
