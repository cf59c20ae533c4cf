ghost use Rattle.std.specs.Prelude.{◌≡◌, IfOk};
ghost use Rattle.mvo_types.specs.AnswerData.{answer_data};
ghost use Rattle.mvo_theory.specs.Entries.{entry_of};
ghost use Rattle.mvo_content.specs.Shown.{rows_in, AreRowsOf};
ghost use Rattle.mvo_content.specs.Done.{write_left};

use crate::rows_shown::RowsShown;
use mvo_types::{Answer, Op, Row, RowKey};
use std::alloc::{AllocError, Global};
use std::marker::Model;

/// The parts of an operation that a content is to be told.
#[derive(Drop)]
pub(crate) struct NextParts {
    pub(crate) op: Op,
    pub(crate) others: RowsShown,
    pub(crate) answer: Answer,
    // A copy of the answer, and what the operation writes.
    pub(crate) told: Answer,
    pub(crate) write: Option<(RowKey, Option<Row>)>,
}

/// An operation with its answer that a content is to be told, with all the memory that telling it
/// takes. Contracts see the operation, the rows that others show in its entry, and the answer.
///
/// It lies in a block of its own, so that it is handed on in one word.
#[derive(Drop)]
pub struct NextOperation {
    parts: Box<NextParts>,
}

impl Model for NextOperation {
    ghost use Rattle.mvo_types.specs.AnswerData.{answer_data};
    ghost use Rattle.mvo_content.specs.Shown.{rows_in};
    ghost use Rattle.mvo_content.specs.Next.{NextData, IsNextWhole};

    ghost Value = { NextData };

    ghost view = { λ n. let p = n.parts.value in record {
      op = p.op;
      rows = rows_in p.others;
      answer = answer_data p.answer;
    } };

    ghost invariant = { λ n. let p = n.parts.value in IsNextWhole p.op (rows_in p.others)
        (answer_data p.answer) (answer_data p.told) p.write };
}

impl NextOperation {
    /// The operation with its answer, a copy of that, and what it writes.
    #[inline(always)]
    pub(crate) fn new(
        alloc: Global,
        op: Op,
        others: RowsShown,
        answer: Answer,
        told: Answer,
        write: Option<(RowKey, Option<Row>)>,
    ) -> Result<NextOperation, AllocError>
        requires shown { AreRowsOf (entry_of op) (rows_in others) }
        requires told { answer_data told ≡ answer_data answer }
        requires write { write ≡ write_left op (answer_data told) }
        ensures op { IfOk result (λ n. n.op ≡ op) }
        ensures rows { IfOk result (λ n. n.rows ≡ rows_in others) }
        ensures answer { IfOk result (λ n. n.answer ≡ answer_data answer) }
    {
        let parts = NextParts {
            op,
            others,
            answer,
            told,
            write,
        };
        Ok(NextOperation {
            parts: Box::new(alloc, parts)?,
        })
    }

    /// Its parts.
    #[inline(always)]
    pub(crate) fn into_parts(self) -> NextParts
        ensures op { result.op ≡ self.op }
        ensures rows { rows_in result.others ≡ self.rows }
        ensures answer { answer_data result.answer ≡ self.answer }
        ensures told { answer_data result.told ≡ self.answer }
        ensures shown { AreRowsOf (entry_of self.op) self.rows }
        ensures write { result.write ≡ write_left self.op self.answer }
    {
        let NextOperation { parts } = self;
        Box::into_inner(parts)
    }

    /// What it is answered.
    pub fn answer(&self) -> &Answer
        ensures { answer_data result.now ≡ self.now.answer }
    {
        &self.parts.answer
    }
}
