//! The operations of a session's transaction.

use super::Session;
use crate::gate::Gate;
use crate::run::Run;
use mvo_core::copy_of;
use mvo_disk::Disk;
use mvo_types::{Answer, Op, Refusal, Row, RowKey, Stamp, TxId};
use std::sync::Wait;
use std::sync::atomic::Ordering;

/// So many receipts are let go of at most with a begin.
const FORGOTTEN_AT_ONCE: usize = 64;

/// Behind so many rows that scans have shown it, a session lets in who waits for the core.
const SHOWN_AT_ONCE: u64 = 1_000;

impl<'e, L: Run, D: Disk, G: Gate + Drop> Session<'e, L, D, G> {
    ghost use Rattle.std.specs.Prelude.{◌≡◌, [], true, Some, Ok, IfOk, IfErr};
    ghost use Rattle.mvo_types.specs.declared.op.Op.TheVariants as Op;
    ghost use Rattle.mvo_engine.specs.Asked.{IsCoreAnswer, HasLeftTx, WasBegun, IsCoreBegin};
    ghost use Rattle.mvo_engine.specs.Calls.{HasAsked, IsBegun, IsNoTx};
    ghost use Rattle.mvo_engine.specs.Forgetting.{HasForgottenSome, HasForgottenIfOk, WasStart};
    ghost use Rattle.mvo_engine.specs.Refusing.{refuses_begin, refuses_operation};
    ghost use Rattle.mvo_engine.specs.declared.session.operating.TheConstants.{FORGOTTEN_AT_ONCE};
    ghost use Rattle.mvo_engine.specs.run.Receiving.{AreBelow};

    /// Begins a transaction, above the ends of all receipts. Its id is its begin timestamp. It lets
    /// go of up to 64 receipts that end up to the start of the tale (`forget`). Refused: Busy where
    /// the session has one, TableFull, ClockSpent, OutOfMemory.
    pub fn begin_tx<R: Wait>(&mut self, rt: &R) -> Result<TxId, Refusal>
        ensures begun { IsBegun self.old.tx result self.new.tx }
        ensures told { IfOk result (λ _. self.new.told ≡ []) }
        ensures above { IfOk result (λ t. AreBelow t.0 self.old.receipts) }
        ensures forgets { HasForgottenIfOk L.opening FORGOTTEN_AT_ONCE self.old result self.new }
        ensures rest { self.new ≡ record self.old {
          tx = self.new.tx;
          told = self.new.told;
          receipts = self.new.receipts;
          forgotten = self.new.forgotten;
        } }
        ensures core { IsCoreBegin L.opening self.old.tx result }
        ensures err { IfErr result (λ e. refuses_begin e ≡ true) }
    {
        if self.tx.is_some() {
            return Err(Refusal::Busy);
        }
        let (tx, start) = match self.begun(rt) {
            Ok(begun) => begun,
            Err(refusal) => return Err(refusal),
        };
        self.take_up(tx, start);
        Ok(tx)
    }

    // Goes on with the transaction, which is begun, where the tale started there. It lets go of up
    // to `FORGOTTEN_AT_ONCE` receipts.
    pub(super) fn take_up(&mut self, tx: TxId, start: Stamp)
        requires above { AreBelow tx.0 self.old.receipts }
        requires start { WasStart L.opening start.0 }
        ensures tx { self.new.tx ≡ Some tx.0 }
        ensures told { self.new.told ≡ [] }
        ensures forgets { HasForgottenSome L.opening FORGOTTEN_AT_ONCE self.old self.new }
        ensures rest { self.new ≡ record self.old {
          tx = self.new.tx;
          told = self.new.told;
          receipts = self.new.receipts;
          forgotten = self.new.forgotten;
        } }
    {
        self.receipts.forget(start, FORGOTTEN_AT_ONCE);
        self.told.clear();
        self.tx = Some(tx);
    }

    // Begins a transaction in the core, and tells where the tale starts.
    fn begun<R: Wait>(&self, rt: &R) -> Result<(TxId, Stamp), Refusal>
        ensures above { IfOk result (λ b. AreBelow b.0.0 self.now.receipts) }
        ensures start { IfOk result (λ b. WasStart L.opening b.1.0) }
        ensures core { WasBegun L.opening result }
        ensures err { IfErr result (λ e. refuses_begin e ≡ true) }
    {
        let mut core = self.enter(rt);
        let start = core.tale_start();
        match core.begin_tx(self.receipts.last_end()) {
            Ok(tx) => Ok((tx, start)),
            Err(refusal) => Err(refusal),
        }
    }

    /// Asks for an operation. A failure ends the transaction. Refused: NoSuchTransaction without a
    /// transaction, and where it was rolled back meanwhile (`Engine::roll_back_older`; Ended, where
    /// that comes in between), so that it is over, DependencyAborted, BadTable, DataTooLong for a
    /// row, TooManyReads, for one that writes ReadOnly in a read-only transaction, and else
    /// TooManyWrites and WriteConflict, and OutOfMemory.
    pub fn operate<R: Wait>(&mut self, rt: &R, op: Op) -> Result<Answer, Refusal>
        ensures none { IsNoTx self.old.tx result }
        ensures asked { HasAsked self.old op result self.new }
        ensures receipts { self.new.receipts ≡ self.old.receipts }
        ensures core { IsCoreAnswer L.opening self.old.tx op result }
        ensures tx { IfErr result (λ e. HasLeftTx L.opening self.old.tx e self.new.tx) }
        ensures err { IfErr result (λ e. refuses_operation op e ≡ true) }
    {
        let Some(tx) = self.tx else {
            return Err(Refusal::NoSuchTransaction);
        };
        let copy = copy_of(&op)?;
        self.told.reserve()?;
        let result = self.enter(rt).operate(tx, op);
        match result {
            Ok(answer) => {
                self.let_others_in(rt, &answer);
                self.keep_answer(rt, copy, answer)
            }
            Err(refusal) => {
                self.end_by(rt, tx, refusal);
                Err(refusal)
            }
        }
    }

    /// Reads the row at a key, as `operate` does.
    pub fn read<R: Wait>(&mut self, rt: &R, key: RowKey) -> Result<Answer, Refusal>
        ensures none { IsNoTx self.old.tx result }
        ensures asked { HasAsked self.old (Op.Read key) result self.new }
        ensures receipts { self.new.receipts ≡ self.old.receipts }
        ensures core { IsCoreAnswer L.opening self.old.tx (Op.Read key) result }
        ensures tx { IfErr result (λ e. HasLeftTx L.opening self.old.tx e self.new.tx) }
        ensures err { IfErr result (λ e. refuses_operation (Op.Read key) e ≡ true) }
    {
        self.operate(rt, Op::Read(key))
    }

    /// Reads the rows of a table with `lo <= sort <= hi`, by sort and then by key, as `operate`
    /// does.
    pub fn scan<R: Wait>(&mut self, rt: &R, table: u8, lo: u64, hi: u64) -> Result<Answer, Refusal>
        ensures none { IsNoTx self.old.tx result }
        ensures asked { HasAsked self.old (Op.Scan table lo hi) result self.new }
        ensures receipts { self.new.receipts ≡ self.old.receipts }
        ensures core { IsCoreAnswer L.opening self.old.tx (Op.Scan table lo hi) result }
        ensures tx { IfErr result (λ e. HasLeftTx L.opening self.old.tx e self.new.tx) }
        ensures err { IfErr result (λ e. refuses_operation (Op.Scan table lo hi) e ≡ true) }
    {
        self.operate(rt, Op::Scan(table, lo, hi))
    }

    /// Puts a row where none is shown, as `operate` does.
    pub fn insert<R: Wait>(&mut self, rt: &R, row: Row) -> Result<Answer, Refusal>
        ensures none { IsNoTx self.old.tx result }
        ensures asked { HasAsked self.old (Op.Insert row) result self.new }
        ensures receipts { self.new.receipts ≡ self.old.receipts }
        ensures core { IsCoreAnswer L.opening self.old.tx (Op.Insert row) result }
        ensures tx { IfErr result (λ e. HasLeftTx L.opening self.old.tx e self.new.tx) }
        ensures err { IfErr result (λ e. refuses_operation (Op.Insert row) e ≡ true) }
    {
        self.operate(rt, Op::Insert(row))
    }

    /// Replaces the row that is shown at a key, as `operate` does.
    pub fn update<R: Wait>(&mut self, rt: &R, row: Row) -> Result<Answer, Refusal>
        ensures none { IsNoTx self.old.tx result }
        ensures asked { HasAsked self.old (Op.Update row) result self.new }
        ensures receipts { self.new.receipts ≡ self.old.receipts }
        ensures core { IsCoreAnswer L.opening self.old.tx (Op.Update row) result }
        ensures tx { IfErr result (λ e. HasLeftTx L.opening self.old.tx e self.new.tx) }
        ensures err { IfErr result (λ e. refuses_operation (Op.Update row) e ≡ true) }
    {
        self.operate(rt, Op::Update(row))
    }

    /// Deletes the row that is shown at a key, as `operate` does.
    pub fn delete<R: Wait>(&mut self, rt: &R, key: RowKey) -> Result<Answer, Refusal>
        ensures none { IsNoTx self.old.tx result }
        ensures asked { HasAsked self.old (Op.Delete key) result self.new }
        ensures receipts { self.new.receipts ≡ self.old.receipts }
        ensures core { IsCoreAnswer L.opening self.old.tx (Op.Delete key) result }
        ensures tx { IfErr result (λ e. HasLeftTx L.opening self.old.tx e self.new.tx) }
        ensures err { IfErr result (λ e. refuses_operation (Op.Delete key) e ≡ true) }
    {
        self.operate(rt, Op::Delete(key))
    }

    // Lets in who waits for the core, where scans have shown it many rows.
    fn let_others_in<R: Wait>(&self, rt: &R, answer: &Answer) {
        let Answer::Rows(rows) = answer else {
            return;
        };
        let shown = self.shown.load(Ordering::SeqCst);
        let shown = shown.saturating_add(rows.len() as u64);
        if shown < SHOWN_AT_ONCE {
            self.shown.store(shown, Ordering::SeqCst);
            return;
        }
        self.shown.store(0, Ordering::SeqCst);
        self.engine.let_others_in(rt, shown);
    }

    // Passes on what the transaction was answered to an operation, and keeps a copy. Where memory
    // is refused for the copy, the transaction is rolled back.
    fn keep_answer<R: Wait>(&mut self, rt: &R, op: Op, answer: Answer) -> Result<Answer, Refusal>
        requires core { IsCoreAnswer L.opening self.old.tx op (Ok answer) }
        ensures asked { HasAsked self.old op result self.new }
        ensures core { IsCoreAnswer L.opening self.old.tx op result }
        ensures tx { IfErr result (λ e. HasLeftTx L.opening self.old.tx e self.new.tx) }
        ensures err { IfErr result (λ e. refuses_operation op e ≡ true) }
    {
        if self.told.keep(op, &answer).is_err() {
            self.leave(rt);
            return Err(Refusal::OutOfMemory);
        }
        Ok(answer)
    }
}
