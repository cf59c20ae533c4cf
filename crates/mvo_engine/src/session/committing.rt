//! How a session's transaction ends.

use super::Session;
use crate::engine::Engine;
use crate::gate::Gate;
use crate::locked_core::LockedCore;
use crate::run::{Receipts, Run, Told};
use mvo_core::{Finishing, Settlement, Validation};
use mvo_disk::Disk;
use mvo_types::{Refusal, Stamp, TxId};
use std::sync::Wait;
use std::thread;

/// So many entries are checked, or words replaced, while the lock is taken once.
const AT_ONCE: u32 = 64;

/// Whether the transaction is Aborted by the refusal.
pub(super) fn is_failure(refusal: Refusal) -> bool
    ensures { result ≡ is_failure refusal }
{
    match refusal {
        Refusal::WriteConflict(_) => true,
        Refusal::ValidationFailed(_) => true,
        Refusal::DependencyAborted(_) => true,
        _ => false,
    }
}

/// Whether a session has no transaction behind the refusal: it is Aborted by it, or it is over,
/// since another rolled it back.
fn ends_transaction(refusal: Refusal) -> bool
    ensures { result ≡ ends_transaction refusal }
{
    match refusal {
        Refusal::NoSuchTransaction => true,
        Refusal::Ended => true,
        other => is_failure(other),
    }
}

ghost use Rattle.std.specs.Prelude.{◌≡◌, true, Err, IfOk, IfErr};
ghost use Rattle.mvo_core.specs.declared.answers.Validation.{Validation};
ghost use Rattle.mvo_theory.specs.Causes.{is_failure};
ghost use Rattle.mvo_theory.specs.Calls.Call.{Precommit, Validate};
ghost use Rattle.mvo_engine.specs.run.Receiving.{AreBelow};
ghost use Rattle.mvo_engine.specs.Settling.{HasEnded};
ghost use Rattle.mvo_engine.specs.Calls.{ends_transaction};
ghost use Rattle.mvo_engine.specs.Asked.{WasAsked, WasSettled, IsFinishingAnswer};
ghost use Rattle.mvo_engine.specs.Asked.{HasRefusedToCommit};

impl<'e, L: Run, D: Disk, G: Gate + Drop> Session<'e, L, D, G> {
    ghost use Rattle.std.specs.Prelude.{◌≡◌, None, Some, true, OnOk, IfOk, IfErr, IfSome};
    ghost use Rattle.mvo_theory.specs.Calls.Call.{Rollback};
    ghost use Rattle.mvo_engine.specs.Calls.{HasCommitted, HasLeft, IsNoTx, session_after};
    ghost use Rattle.mvo_engine.specs.Asked.{WasAsked, WasFinished, HasLeftTx};
    ghost use Rattle.mvo_engine.specs.Asked.{HasGone, WasSettled, HasRefusedToCommit};
    ghost use Rattle.mvo_engine.specs.Refusing.{refuses_commit, refuses_rollback};

    /// Commits the transaction, and answers its end timestamp: makes room for its receipt, draws
    /// the end, checks what was read and scanned, waits until each transaction that it depends on
    /// is settled, becomes Committed and is finished. Each step takes the lock anew, checks and
    /// words for up to 64, so that others go on meanwhile. The receipt is one more of the
    /// session's: what its calls were answered, which is compared with what the core holds. The
    /// commit is durable once a flush has answered a mark that isn't below its end. The end of one
    /// that is read-only is its begin, and none is drawn.
    ///
    /// Refused: NoSuchTransaction without a transaction, and where it was rolled back meanwhile
    /// (`Engine::roll_back_older`; Ended, where that comes in between), DependencyAborted,
    /// ClockSpent, OutOfMemory, ValidationFailed, and with Busy where the core holds other answers,
    /// which no run meets. After ClockSpent and OutOfMemory the transaction is still there, and the
    /// call may be repeated.
    pub fn commit_tx<R: Wait>(&mut self, rt: &R) -> Result<Stamp, Refusal>
        ensures none { IsNoTx self.old.tx result }
        ensures committed { HasCommitted self.old result self.new }
        ensures settled { IfOk result (λ e.
            IfSome self.old.tx (λ t. WasSettled L.opening t self.old.told e)) }
        ensures finished { OnOk result (IfSome self.old.tx (WasFinished L.opening)) }
        ensures tx { IfErr result (λ e. HasLeftTx L.opening self.old.tx e self.new.tx) }
        ensures core { IfErr result (λ e.
            IfSome self.old.tx (λ t. HasRefusedToCommit L.opening t self.old.told e)) }
        ensures err { IfErr result (λ e. refuses_commit e ≡ true) }
    {
        let Some(tx) = self.tx else {
            return Err(Refusal::NoSuchTransaction);
        };
        self.receipts.reserve()?;
        match settled(rt, self.engine, tx, &mut self.receipts, &mut self.told) {
            Ok(end) => {
                let _ = self.tx.take();
                self.replace_words(rt, tx);
                self.engine.counting().count_commit();
                Ok(end)
            }
            Err(refusal) => {
                self.end_by(rt, tx, refusal);
                Err(refusal)
            }
        }
    }

    /// Rolls the transaction back, and finishes it. Refused with NoSuchTransaction without a
    /// transaction, and where it was rolled back meanwhile (`Engine::roll_back_older`; Ended, where
    /// that comes in between): then it is over, too.
    pub fn rollback_tx<R: Wait>(&mut self, rt: &R) -> Result<(), Refusal>
        ensures none { IsNoTx self.old.tx result }
        ensures left { HasLeft self.old result self.new }
        ensures finished { OnOk result (IfSome self.old.tx (WasFinished L.opening)) }
        ensures tx { IfErr result (λ e. HasLeftTx L.opening self.old.tx e self.new.tx) }
        ensures core { IfSome self.old.tx (λ t. WasAsked L.opening (Rollback t) result) }
        ensures err { IfErr result (λ e. refuses_rollback e ≡ true) }
    {
        let Some(tx) = self.tx else {
            return Err(Refusal::NoSuchTransaction);
        };
        match self.rolled_back(rt, tx) {
            Ok(()) => {
                self.finish(rt, tx);
                Ok(())
            }
            Err(refusal) => {
                self.end_by(rt, tx, refusal);
                Err(refusal)
            }
        }
    }

    // Ends the transaction by a refusal behind which there is none.
    pub(super) fn end_by<R: Wait>(&mut self, rt: &R, tx: TxId, refusal: Refusal)
        requires { self.old.tx ≡ Some tx.0 }
        ensures session { self.new ≡ session_after refusal self.old }
        ensures left { HasLeftTx L.opening self.old.tx refusal self.new.tx }
    {
        self.engine.counting().count_refusal(&refusal);
        if ends_transaction(refusal) {
            self.finish(rt, tx);
        }
    }

    // Rolls back the transaction, if there is one.
    pub(super) fn leave<R: Wait>(&mut self, rt: &R)
        ensures session { self.new ≡ record self.old { tx = None } }
        ensures gone { IfSome self.old.tx (HasGone L.opening) }
    {
        if let Some(tx) = self.tx {
            let _ = self.rolled_back(rt, tx);
            self.finish(rt, tx);
        }
    }

    // Finishes the transaction, which is Committed or Aborted.
    fn finish<R: Wait>(&mut self, rt: &R, tx: TxId)
        ensures session { self.new ≡ record self.old { tx = None } }
        ensures finished { WasFinished L.opening tx.0 }
    {
        self.replace_words(rt, tx);
        self.tx = None;
    }

    // Replaces the words of the transaction, up to `AT_ONCE` while the lock is taken once. Were it
    // not ended, which no run meets, it would be asked for until it is.
    fn replace_words<R: Wait>(&self, rt: &R, tx: TxId)
        ensures { WasFinished L.opening tx.0 }
    {
        for _ in rt.forever() {
            match finish_some(&mut self.enter(rt), tx) {
                Ok(Finishing::Done) | Err(Refusal::NoSuchTransaction) => return,
                Ok(Finishing::More) => {}
                Err(_) => thread::yield_now(),
            }
        }
    }

    fn rolled_back<R: Wait>(&self, rt: &R, tx: TxId) -> Result<(), Refusal>
        ensures { WasAsked L.opening (Rollback tx.0) result }
    {
        self.enter(rt).rollback_tx(tx)
    }
}

/// The steps of a commit up to Committed.
fn settled<L: Run, D: Disk, G: Gate + Drop, R: Wait>(
    rt: &R,
    engine: &Engine<L, D, G>,
    tx: TxId,
    mine: &mut Receipts<L>,
    told: &mut Told,
) -> Result<Stamp, Refusal>
    requires room { mine.old.room ≡ true }
    requires above { AreBelow tx.0 mine.old.list }
    ensures ended { HasEnded tx.0 told.old mine.old result mine.new told.new }
    ensures settled { IfOk result (WasSettled L.opening tx.0 told.old) }
    ensures core { IfErr result (HasRefusedToCommit L.opening tx.0 told.old) }
{
    if let Err(refusal) = prepare(rt, engine, tx) {
        return Err(refusal);
    }
    if let Err(refusal) = validate(rt, engine, tx) {
        return Err(refusal);
    }
    settle(rt, engine, tx, mine, told)
}

fn prepare<L: Run, D: Disk, G: Gate + Drop, R: Wait>(
    rt: &R,
    engine: &Engine<L, D, G>,
    tx: TxId,
) -> Result<Stamp, Refusal>
    ensures { WasAsked L.opening (Precommit tx.0) result }
{
    engine.enter_core(rt).precommit(tx)
}

fn validate<L: Run, D: Disk, G: Gate + Drop, R: Wait>(
    rt: &R,
    engine: &Engine<L, D, G>,
    tx: TxId,
) -> Result<(), Refusal>
    ensures { IfErr result (λ e.
        WasAsked {A = Validation} L.opening (Validate tx.0) (Err e)) }
{
    for _ in rt.forever() {
        match check_some(&mut engine.enter_core(rt), tx) {
            Ok(Validation::More) => {}
            Ok(Validation::Valid) => return Ok(()),
            Err(refusal) => return Err(refusal),
        }
    }
    unreachable!()
}

/// Checks up to `AT_ONCE` entries of the transaction.
fn check_some<L: Run>(core: &mut LockedCore<L>, tx: TxId) -> Result<Validation, Refusal>
    ensures { WasAsked L.opening (Validate tx.0) result }
{
    for _ in 1..AT_ONCE {
        match core.validate_one(tx) {
            Ok(Validation::More) => {}
            result => return result,
        }
    }
    core.validate_one(tx)
}

/// Replaces up to `AT_ONCE` words of the transaction.
pub(crate) fn finish_some<L: Run>(core: &mut LockedCore<L>, tx: TxId) -> Result<Finishing, Refusal>
    ensures { IsFinishingAnswer L.opening tx.0 result }
{
    for _ in 1..AT_ONCE {
        match core.finish_one(tx) {
            Ok(Finishing::More) => {}
            result => return result,
        }
    }
    core.finish_one(tx)
}

fn settle<L: Run, D: Disk, G: Gate + Drop, R: Wait>(
    rt: &R,
    engine: &Engine<L, D, G>,
    tx: TxId,
    mine: &mut Receipts<L>,
    told: &mut Told,
) -> Result<Stamp, Refusal>
    requires room { mine.old.room ≡ true }
    requires above { AreBelow tx.0 mine.old.list }
    ensures ended { HasEnded tx.0 told.old mine.old result mine.new told.new }
    ensures settled { IfOk result (WasSettled L.opening tx.0 told.old) }
    ensures core { IfErr result (HasRefusedToCommit L.opening tx.0 told.old) }
{
    for _ in rt.forever() {
        match engine.enter_core(rt).settle(mine, tx, told) {
            Ok(Settlement::Committed(end)) => return Ok(end),
            Ok(Settlement::Waiting(_)) => {}
            Err(refusal) => return Err(refusal),
        }
        thread::yield_now();
    }
    unreachable!()
}
