use crate::run::copying::copy_of;
use mvo_types::{Answer, Op};
use std::alloc::{AllocError, Global};
use std::marker::Model;
use std::mem;

/// The operations of a transaction so far, with the answers that the calls gave, in order.
pub struct Told {
    pub(crate) operations: Vec<(Op, Answer)>,
}

impl Drop for Told {
    fn drop(self) {
        let Told { operations: _ } = self;
    }
}

impl Model for Told {
    ghost use Rattle.mvo_model.specs.History.{History};
    ghost use Rattle.mvo_theory.specs.Told.{history_told};

    ghost Value = { History };

    ghost view = { λ s. history_told s.operations.items };
}

impl Told {
    ghost use Rattle.std.specs.Prelude.{◌≡◌, ◌++◌, ◌∷◌, [], OnOk, OnErr};
    ghost use Rattle.mvo_types.specs.AnswerData.{answer_data};
    ghost use Rattle.mvo_theory.specs.Told.{history_told};

    /// No operations.
    pub fn new(alloc: Global) -> Told
        ensures { result ≡ [] }
    {
        Told {
            operations: Vec::new(alloc),
        }
    }

    /// Takes memory for one more, so that `keep` is less often refused behind a call.
    pub fn reserve(&mut self) -> Result<(), AllocError>
        ensures { self.new ≡ self.old }
    {
        self.operations.reserve(1)
    }

    /// Adds an operation with a copy of its answer, or refused nothing.
    pub fn keep(&mut self, op: Op, answer: &Answer) -> Result<(), AllocError>
        ensures ok { OnOk result (self.new ≡ self.old ++ (op, answer_data answer.now) ∷ []) }
        ensures err { OnErr result (self.new ≡ self.old) }
    {
        let copy = copy_of(answer)?;
        self.operations.push((op, copy))?;
        Ok(())
    }

    /// Lets go of all.
    pub fn clear(&mut self)
        ensures { self.new ≡ [] }
    {
        self.operations.clear();
    }

    /// The operations, each with its answer.
    pub fn operations(&self) -> &[(Op, Answer)]
        ensures { history_told result.now ≡ self.now }
    {
        self.operations.as_slice()
    }

    // Apart: the operations.
    pub(crate) fn into_operations(self) -> Vec<(Op, Answer)>
        ensures { history_told result.items ≡ self }
    {
        let Told { operations } = self;
        operations
    }

    /// All of it, which leaves none.
    pub fn take(&mut self) -> Told
        ensures told { result ≡ self.old }
        ensures left { self.new ≡ [] }
    {
        let none = Vec::new(*self.operations.allocator());
        Told {
            operations: mem::replace(&mut self.operations, none),
        }
    }
}
