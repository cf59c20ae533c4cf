ghost use Rattle.std.specs.Prelude.{◌≡◌, IfOk, option_copied};
ghost use Rattle.mvo_types.specs.AnswerData.{answer_data};
ghost use Rattle.mvo_content.specs.Done.{write_left};

use mvo_types::{Answer, Op, Row, RowKey};
use std::alloc::{AllocError, Global};

/// A copy of the row, if there is one.
#[inline(always)]
pub fn copy_of(row: Option<&Row>) -> Result<Option<Row>, AllocError>
    ensures { IfOk result (λ copy. copy ≡ option_copied row.entry) }
{
    match row {
        Some(row) => Ok(Some(row.copy()?)),
        None => Ok(None),
    }
}

/// Copies of the rows.
pub fn copies_of(alloc: Global, rows: &[Row]) -> Result<Vec<Row>, AllocError>
    ensures { IfOk result (λ copies. copies.items ≡ rows.now) }
{
    let mut copies = Vec::new(alloc);
    copies.reserve(rows.len())?;
    for row in rows {
        copies.push(row.copy()?)?;
    }
    Ok(copies)
}

/// A copy of the answer, whose rows share their bytes.
#[inline(always)]
pub fn answer_again(alloc: Global, answer: &Answer) -> Result<Answer, AllocError>
    ensures { IfOk result (λ copy. answer_data copy ≡ answer_data answer.now) }
{
    match answer {
        Answer::Found(Some(row)) => Ok(Answer::Found(Some(row.copy()?))),
        Answer::Found(None) => Ok(Answer::Found(None)),
        Answer::Rows(rows) => Ok(Answer::Rows(copies_of(alloc, rows)?)),
        Answer::Inserted => Ok(Answer::Inserted),
        Answer::Exists => Ok(Answer::Exists),
        Answer::Updated => Ok(Answer::Updated),
        Answer::Deleted => Ok(Answer::Deleted),
        Answer::Absent => Ok(Answer::Absent),
    }
}

/// The key that the operation wrote, if it wrote, with a copy of the row that it left there.
#[inline(always)]
pub fn write_of(op: &Op, answer: &Answer) -> Result<Option<(RowKey, Option<Row>)>, AllocError>
    ensures { IfOk result (λ write. write ≡ write_left op.now (answer_data answer.now)) }
{
    match (op, answer) {
        (Op::Insert(row), Answer::Inserted) => Ok(Some((row.row_key(), Some(row.copy()?)))),
        (Op::Update(row), Answer::Updated) => Ok(Some((row.row_key(), Some(row.copy()?)))),
        (Op::Delete(key), Answer::Deleted) => Ok(Some((*key, None))),
        _ => Ok(None),
    }
}
