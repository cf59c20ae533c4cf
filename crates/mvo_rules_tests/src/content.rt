//! What a transaction does outside the core, against a map that has its writes.
ghost use Rattle.std.specs.Prelude.{◌≡◌, IsTrue, IfOk};
ghost use Rattle.std.specs.Option.{option_to_list};
ghost use Rattle.mvo_types.specs.AnswerData.{AnswerData};
ghost use Rattle.mvo_types.specs.Keys.{row_at};
ghost use Rattle.mvo_model.specs.Serial.{scan};
ghost use Rattle.mvo_theory.specs.Entries.{entry_of};
ghost use Rattle.mvo_theory.specs.Limits.{IsRow};
ghost use Rattle.mvo_shared.specs.Kept.{rows_shown};
ghost use Rattle.mvo_work.specs.Limits.{MayFollow};
ghost use Rattle.mvo_content.specs.Shown.{rows_in};

use crate::equal::{same, same_at};
use crate::numbers::Numbers;
use mvo_content::{RowsShown, TakenContent, WorkContent, Works};
use mvo_model::Serial;
use mvo_types::{Answer, MAX_DATA_LEN, MAX_TABLE, Op, Row, RowKey, Rows, TxId};
use mvo_work::entry_of;
use std::alloc::{AllocError, Global};
use std::process::Abort;
use std::test::Fail;

fn is_row(row: &Row) -> bool
    ensures { IsTrue result → IsRow row.now }
{
    row.row_key().table <= MAX_TABLE && row.data_len() <= MAX_DATA_LEN
}

/// Whether the operation keeps the limits.
fn may_follow(content: &WorkContent, op: &Op) -> bool
    ensures { IsTrue result → (a : AnswerData) → MayFollow content.now.history op.now a }
{
    match op {
        Op::Read(_) => true,
        Op::Scan(_, _, _) => true,
        Op::Insert(row) => is_row(row) && !content.is_write_too_many(row.row_key()),
        Op::Update(row) => is_row(row) && !content.is_write_too_many(row.row_key()),
        Op::Delete(key) => key.table <= MAX_TABLE && !content.is_write_too_many(*key),
    }
}

fn row_of(others: &Serial, key: RowKey) -> Result<RowsShown, AllocError>
    ensures { IfOk result (λ r. rows_in r ≡ option_to_list (row_at others.now key)) }
{
    match others.rows().get(key)? {
        Some(row) => Ok(RowsShown::One(row)),
        None => Ok(RowsShown::Nothing),
    }
}

fn rows_of(others: &Serial, table: u8, lo: u64, hi: u64) -> Result<RowsShown, AllocError>
    ensures { IfOk result (λ r. rows_in r ≡ scan others.now table lo hi) }
{
    match others.scan(table, lo, hi) {
        Ok(rows) => Ok(RowsShown::Many(rows)),
        Err(e) => Err(e),
    }
}

/// What the map shows in the entry of the operation.
fn shown(others: &Serial, op: &Op) -> Result<RowsShown, AllocError>
    ensures { IfOk result (λ r. rows_in r ≡ rows_shown (entry_of op.now) others.now) }
{
    match op {
        Op::Read(key) => row_of(others, *key),
        Op::Scan(table, lo, hi) => rows_of(others, *table, *lo, *hi),
        Op::Insert(row) => row_of(others, row.row_key()),
        Op::Update(row) => row_of(others, row.row_key()),
        Op::Delete(key) => row_of(others, *key),
    }
}

/// Does the operation where others show what this map does, if it keeps the limits.
fn told(content: &mut WorkContent, others: &Serial, op: Op) -> Result<Option<Answer>, AllocError> {
    if content.is_entry_too_many(entry_of(&op)) {
        return Ok(None);
    }
    if !may_follow(content, &op) {
        return Ok(None);
    }
    let rows = shown(others, &op)?;
    match content.keep(op, rows) {
        Ok(answer) => Ok(Some(answer)),
        Err(e) => Err(e),
    }
}

/// The key, the sort and the only byte of a row of table 3.
type Plain = (u64, u64, u8);

fn some_row(numbers: &mut Numbers) -> Plain {
    let key = numbers.below(12);
    let sort = numbers.below(5);
    (key, sort, (numbers.draw() % 200) as u8)
}

pub fn key_of(key: u64) -> RowKey {
    RowKey { table: 3, key }
}

fn row(alloc: Global, (key, sort, byte): Plain) -> Result<Row, AllocError> {
    Row::from_slice(alloc, key_of(key), sort, &[byte])
}

fn some_op(alloc: Global, numbers: &mut Numbers) -> Result<Op, AllocError> {
    let plain = some_row(numbers);
    let lo = numbers.below(5);
    match numbers.below(5) {
        0 => Ok(Op::Read(key_of(plain.0))),
        1 => Ok(Op::Scan(3, lo, numbers.below(5))),
        2 => Ok(Op::Insert(row(alloc, plain)?)),
        3 => Ok(Op::Update(row(alloc, plain)?)),
        _ => Ok(Op::Delete(key_of(plain.0))),
    }
}

/// Others that show no row.
pub fn nothing_shown(alloc: Global) -> Serial {
    Serial::new(alloc, Rows::new(alloc))
}

/// Whether the key may be read.
pub fn read_key(content: &mut WorkContent, others: &Serial, key: u64) -> Result<bool, AllocError> {
    match told(content, others, Op::Read(key_of(key))) {
        Ok(answer) => Ok(answer.is_some()),
        Err(e) => Err(e),
    }
}

/// Whether a row may be put at the key.
pub fn insert_key(
    alloc: Global,
    content: &mut WorkContent,
    others: &Serial,
    key: u64,
) -> Result<bool, AllocError> {
    let row = row(alloc, (key, 0, 7))?;
    match told(content, others, Op::Insert(row)) {
        Ok(answer) => Ok(answer.is_some()),
        Err(e) => Err(e),
    }
}

/// A map of some rows.
fn some_rows(alloc: Global, seed: u64) -> Result<Serial, AllocError> {
    let mut numbers = Numbers::of(seed);
    let mut rows = Rows::new(alloc);
    for _ in 0..8 {
        rows.put(row(alloc, some_row(&mut numbers))?)?;
    }
    Ok(Serial::new(alloc, rows))
}

fn text_of(alloc: Global, answer: Option<Answer>) -> Result<String, AllocError> {
    format!(in alloc; "{answer:?}")
}

/// The operation keeps the limits, and is told what it is on a map that has the own writes.
fn agrees(
    rt: &impl Abort,
    alloc: Global,
    content: &mut WorkContent,
    others: &Serial,
    own: &mut Serial,
    op: Op,
) -> Result<(), Fail> {
    let wanted = text_of(alloc, Some(own.apply(&op)?))?;
    let answer = text_of(alloc, told(content, others, op)?)?;
    same(rt, &answer, &wanted);
    Ok(())
}

fn agree_on(
    rt: &impl Abort,
    alloc: Global,
    content: &mut WorkContent,
    others: &Serial,
    own: &mut Serial,
    seed: u64,
) -> Result<(), Fail> {
    let mut numbers = Numbers::of(seed);
    for count in 0..100 {
        same_at(rt, &content.operation_count(), &count, seed);
        let op = some_op(alloc, &mut numbers)?;
        agrees(rt, alloc, content, others, own, op)?;
    }
    Ok(())
}

fn agree(rt: &impl Abort, alloc: Global, seed: u64) -> Result<(), Fail> {
    let others = some_rows(alloc, seed)?;
    let mut own = some_rows(alloc, seed)?;
    let content = &mut WorkContent::new(alloc);
    agree_on(rt, alloc, content, &others, &mut own, seed)
}

#[test]
fn random_operations_are_told_what_a_map_with_the_own_writes_says(
    rt: HostRuntime,
) -> Result<(), Fail> {
    for seed in [3, 17, 23_871] {
        agree(&rt, rt.alloc(), seed)?;
    }
    Ok(())
}

/// Whether a read is told that a row stands there.
fn read(content: &mut WorkContent, others: &Serial) -> Result<bool, AllocError> {
    match told(content, others, Op::Read(RowKey { table: 3, key: 1 })) {
        Ok(Some(Answer::Found(Some(_)))) => Ok(true),
        Ok(_) => Ok(false),
        Err(e) => Err(e),
    }
}

fn reads(
    rt: &impl Abort,
    content: &mut WorkContent,
    others: &Serial,
    is_there: bool,
) -> Result<(), AllocError> {
    let is_told = read(content, others)?;
    same(rt, &is_told, &is_there);
    Ok(())
}

/// Others put the row.
fn put(alloc: Global, others: &mut Serial) -> Result<(), AllocError> {
    others.apply(&Op::Insert(row(alloc, (1, 0, 7))?))?;
    Ok(())
}

fn read_again(
    rt: &impl Abort,
    alloc: Global,
    content: &mut WorkContent,
    others: &mut Serial,
) -> Result<(), AllocError> {
    reads(rt, content, others, false)?;
    put(alloc, others)?;
    reads(rt, content, others, false)?;
    reads(rt, &mut WorkContent::new(alloc), others, true)?;
    same(rt, &content.operation_count(), &2);
    same(rt, &content.looks().len(), &1);
    Ok(())
}

#[test]
fn a_read_is_told_again_what_it_was_told_first(rt: HostRuntime) -> Result<(), Fail> {
    let mut others = Serial::new(rt.alloc(), Rows::new(rt.alloc()));
    let content = &mut WorkContent::new(rt.alloc());
    read_again(&rt, rt.alloc(), content, &mut others)?;
    Ok(())
}

/// Emptied, it is told what others show now.
fn read_when_empty(
    rt: &impl Abort,
    alloc: Global,
    content: &mut WorkContent,
    others: &mut Serial,
) -> Result<(), AllocError> {
    reads(rt, content, others, false)?;
    same(rt, &content.take_operations().len(), &1);
    put(alloc, others)?;
    reads(rt, content, others, true)?;
    content.clear();
    content.keep_list(Vec::with_capacity(alloc, 4)?);
    same(rt, &content.operation_count(), &0);
    same(rt, &content.looks().len(), &0);
    reads(rt, content, others, true)
}

#[test]
fn one_that_is_emptied_is_told_what_others_show_now(rt: HostRuntime) -> Result<(), Fail> {
    let mut others = Serial::new(rt.alloc(), Rows::new(rt.alloc()));
    let content = &mut WorkContent::new(rt.alloc());
    read_when_empty(&rt, rt.alloc(), content, &mut others)?;
    Ok(())
}

/// One that wrote a key tells it, and its entry; and what is taken out of it has both.
fn taken_out(rt: &impl Abort, content: WorkContent) -> Result<(), AllocError> {
    same(rt, &content.has_writes(), &true);
    same(rt, &content.entry_count(), &1);
    same(rt, &content.entry_at(0).is_some(), &true);
    let written = content.keys_written()?;
    let mut taken = TakenContent::new(content, written);
    same(rt, &taken.entry_count(), &1);
    same(rt, &taken.entry_at(0).is_some(), &true);
    same(rt, &taken.operations().len(), &1);
    same(rt, &taken.take_operations().written.len(), &1);
    same(rt, &taken.operations().len(), &0);
    Ok(())
}

#[test]
fn what_is_taken_out_of_a_work_has_the_keys_that_it_wrote(rt: HostRuntime) -> Result<(), Fail> {
    let alloc = rt.alloc();
    let others = Serial::new(alloc, Rows::new(alloc));
    let mut content = WorkContent::new(alloc);
    let _ = told(&mut content, &others, Op::Insert(row(alloc, (1, 0, 7))?))?;
    taken_out(&rt, content)?;
    same(&rt, &Works::new(alloc).take(TxId(7)).has_writes(), &false);
    Ok(())
}
