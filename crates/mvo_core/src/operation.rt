//! An operation, whichever it is.
ghost use Rattle.std.specs.Prelude.{◌≡◌, IfOk, OnErr};
ghost use Rattle.mvo_core.specs.Operations.{PutsRow};

use crate::event_core::Core;
use mvo_types::{Answer, Op, Refusal, TxId};
use std::alloc::AllocError;

impl Core {
    ghost use Rattle.std.specs.Prelude.{IfOk};
    ghost use Rattle.mvo_theory.specs.Calls.Call.{Do};
    ghost use Rattle.mvo_core.specs.Steps.{IsStep, IsAnswered};
    ghost use Rattle.mvo_core.specs.WholeAnswers.{IsAnsweredWhole};
    ghost use Rattle.mvo_core.specs.WholeStanding.{IsWholeStep};
    ghost use Rattle.mvo_core.specs.Counting.{HasPutMore};

    /// Asks for the operation, as the method of its name does.
    pub fn operate(&mut self, tx: TxId, op: Op) -> Result<Answer, Refusal>
        ensures step { IsStep self.old (Do tx.0 op) result self.new }
        ensures answer { IfOk result (IsAnswered self.old tx.0 op) }
        ensures whole { IsWholeStep self.old (Do tx.0 op) result self.new }
        ensures whole_answer { IfOk result (IsAnsweredWhole self.old tx.0 op) }
        ensures count { HasPutMore self.old result self.new }
    {
        match op {
            Op::Read(key) => self.read(tx, key),
            Op::Scan(table, lo, hi) => self.scan(tx, table, lo, hi),
            Op::Insert(row) => self.insert(tx, row),
            Op::Update(row) => self.update(tx, row),
            Op::Delete(key) => self.delete(tx, key),
        }
    }
}

/// A copy of the operation, whose row shares the bytes. Only that of a row takes memory.
pub fn copy_of(op: &Op) -> Result<Op, AllocError>
    ensures same { IfOk result (λ copy. copy ≡ op.now) }
    ensures memory { OnErr result (PutsRow op.now) }
{
    match op {
        Op::Read(key) => Ok(Op::Read(*key)),
        Op::Scan(table, lo, hi) => Ok(Op::Scan(*table, *lo, *hi)),
        Op::Insert(row) => Ok(Op::Insert(row.copy()?)),
        Op::Update(row) => Ok(Op::Update(row.copy()?)),
        Op::Delete(key) => Ok(Op::Delete(*key)),
    }
}
