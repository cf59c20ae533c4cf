ghost use Rattle.std.specs.Prelude.{◌≡◌, [], false, IfOk, OnOk, OnErr};
ghost use Rattle.mvo_types.specs.AnswerData.{AnswerData, answer_data};
ghost use Rattle.mvo_theory.specs.Causes.{is_entry_too_many};
ghost use Rattle.mvo_theory.specs.Entries.{entry_of};
ghost use Rattle.mvo_shared.specs.Kept.{with_looked, answer_kept, after_op};
ghost use Rattle.mvo_work.specs.Limits.{MayFollow};
ghost use Rattle.mvo_content.specs.Shown.{rows_in, AreRowsOf};
ghost use Rattle.mvo_content.specs.Done.{work_in};

use crate::content::WorkContent;
use crate::rows_shown::RowsShown;
use mvo_txn::{Located, SeatNo};
use mvo_types::{Answer, Op, TxId};
use std::alloc::{AllocError, Global};
use std::marker::Model;
use std::mem;

/// The work of a transaction, as its owner holds it: its id, the number of its seat, and what it
/// did. Contracts see the id and what it did: a seat's number is a hint.
#[derive(Drop)]
pub struct HeldWork {
    id: TxId,
    seat: SeatNo,
    content: WorkContent,
}

impl Model for HeldWork {
    ghost use Rattle.mvo_content.specs.Held.{HeldData};

    ghost Value = { HeldData };

    ghost view = { λ w. record { id = w.id.0; content = w.content } };
}

impl HeldWork {
    /// The work of a transaction that begins: it has done this, mostly nothing.
    pub fn new(tx: Located, content: WorkContent) -> HeldWork
        ensures id { result.id ≡ tx.id.0 }
        ensures content { result.content ≡ content }
    {
        HeldWork {
            id: tx.id,
            seat: tx.seat,
            content,
        }
    }

    /// The transaction.
    pub fn id(&self) -> TxId
        ensures { result.0 ≡ self.now.id }
    {
        self.id
    }

    /// The transaction, with the seat at which it is sought first.
    pub fn located(&self) -> Located
        ensures { result.id.0 ≡ self.now.id }
    {
        Located {
            id: self.id,
            seat: self.seat,
        }
    }

    /// What it did.
    pub fn content(&self) -> &WorkContent
        ensures { result.now ≡ self.now.content }
    {
        &self.content
    }

    /// Does an operation, as `WorkContent::keep` does.
    pub fn keep(&mut self, op: Op, others: RowsShown) -> Result<Answer, AllocError>
        requires shown { AreRowsOf (entry_of op) (rows_in others) }
        requires limits { (a : AnswerData) → MayFollow self.old.content.history op a }
        requires few { is_entry_too_many self.old.content.history (entry_of op) ≡ false }
        ensures answer { IfOk result (λ a. answer_data a
            ≡ answer_kept (with_looked self.old.content.looked (entry_of op) (rows_in others))
            self.old.content.history op) }
        ensures ok { OnOk result (work_in self.new.content
            ≡ after_op (work_in self.old.content) op (rows_in others)) }
        ensures err { OnErr result (work_in self.new.content ≡ work_in self.old.content) }
        ensures id { self.new.id ≡ self.old.id }
    {
        self.content.keep(op, others)
    }

    /// Takes out what it did, and leaves it empty.
    pub fn take_content(&mut self, alloc: Global) -> WorkContent
        ensures taken { result ≡ self.old.content }
        ensures history { self.new.content.history ≡ [] }
        ensures looked { self.new.content.looked ≡ [] }
        ensures id { self.new.id ≡ self.old.id }
    {
        mem::replace(&mut self.content, WorkContent::new(alloc))
    }

    /// Gives back what it did.
    pub fn give_back(&mut self, content: WorkContent)
        ensures content { self.new.content ≡ content }
        ensures id { self.new.id ≡ self.old.id }
    {
        self.content = content;
    }
}
