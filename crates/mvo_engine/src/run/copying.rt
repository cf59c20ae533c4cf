//! Copies of answers. Rows share their bytes.
ghost use Rattle.std.specs.Prelude.{◌≡◌, IfOk};
ghost use Rattle.mvo_types.specs.AnswerData.{answer_data};

use mvo_types::{Answer, Row};
use std::alloc::AllocError;

/// A copy of the answer.
pub fn copy_of(answer: &Answer) -> Result<Answer, AllocError>
    ensures { IfOk result (λ copy. answer_data copy ≡ answer_data answer.now) }
{
    match answer {
        Answer::Found(Some(row)) => Ok(Answer::Found(Some(row.copy()?))),
        Answer::Found(None) => Ok(Answer::Found(None)),
        Answer::Rows(rows) => Ok(Answer::Rows(copies_of(rows)?)),
        Answer::Inserted => Ok(Answer::Inserted),
        Answer::Exists => Ok(Answer::Exists),
        Answer::Updated => Ok(Answer::Updated),
        Answer::Deleted => Ok(Answer::Deleted),
        Answer::Absent => Ok(Answer::Absent),
    }
}

/// Copies of the rows.
fn copies_of(rows: &Vec<Row>) -> Result<Vec<Row>, AllocError>
    ensures { IfOk result (λ copies. copies.items ≡ rows.now.items) }
{
    let mut copies = Vec::new(*rows.allocator());
    copies.reserve(rows.len())?;
    for row in rows {
        copies.push(row.copy()?)?;
    }
    Ok(copies)
}
