//! A whole transaction, which is tried again where another was in its way.

use super::Session;
use super::committing::is_failure;
use crate::gate::Gate;
use crate::outcome::Outcome;
use crate::run::Run;
use crate::transacted::Transacted;
use crate::transaction::Transaction;
use mvo_disk::Disk;
use mvo_types::Refusal;
use std::sync::Wait;
use std::thread;

impl<'e, L: Run, D: Disk, G: Gate + Drop> Session<'e, L, D, G> {
    ghost use Rattle.std.specs.Prelude.{◌≡◌, None, IfSome};
    ghost use Rattle.mvo_engine.specs.Asked.{HasGone};
    ghost use Rattle.mvo_engine.specs.Transacting.{IsTransacted, AreAttempts, IsAttempt};

    /// Begins a transaction, does the work in it and commits it, or rolls it back where the work
    /// gives up. Where another was in its way (WriteConflict, ValidationFailed, DependencyAborted),
    /// all of it is done again, up to so many times in all, at least once. Where anything else is
    /// refused it is rolled back, so the session is left without a transaction. Answers what the
    /// work gave, with the end timestamp of the commit, whose receipt is one more. Where the work
    /// gave up there is no end, and that attempt is the last; it has left no receipt, and neither
    /// has what is refused. Each attempt lets go of up to 64 receipts that end up to the start of
    /// the tale.
    ///
    /// Refused with Busy where the session has a transaction, which stays; as the last attempt
    /// was; and where the work ended the transaction itself, with NoSuchTransaction.
    pub fn transact<T: Drop, W: Transaction<T, L, D, G>, R: Wait>(
        &mut self,
        rt: &R,
        times: u32,
        work: &W,
    ) -> Result<Transacted<T>, Refusal>
        ensures { IsTransacted L.opening (W.comes_to work.now) times
            self.old.tx self.old result self.new }
    {
        if self.tx.is_some() {
            return Err(Refusal::Busy);
        }
        self.attempts(rt, times, work)
    }

    // Up to so many attempts, at least one. The session has no transaction behind them.
    fn attempts<T: Drop, W: Transaction<T, L, D, G>, R: Wait>(
        &mut self,
        rt: &R,
        times: u32,
        work: &W,
    ) -> Result<Transacted<T>, Refusal>
        requires { self.old.tx ≡ None }
        ensures { AreAttempts L.opening (W.comes_to work.now) times self.old result self.new }
    {
        for _failures in 0..times.saturating_sub(1) {
            match self.attempt(rt, work) {
                Ok(done) => return Ok(done),
                Err(refusal) if !is_failure(refusal) => return Err(refusal),
                Err(_) => thread::yield_now(),
            }
        }
        self.attempt(rt, work)
    }

    // One attempt. The session has no transaction behind it.
    fn attempt<T: Drop, W: Transaction<T, L, D, G>, R: Wait>(
        &mut self,
        rt: &R,
        work: &W,
    ) -> Result<Transacted<T>, Refusal>
        requires { self.old.tx ≡ None }
        ensures { IsAttempt L.opening (W.comes_to work.now) self.old result self.new }
    {
        match self.begin_tx(rt) {
            Ok(_) => {}
            Err(refusal) => return Err(refusal),
        }
        let outcome = match work.run(rt, self) {
            Ok(outcome) => outcome,
            Err(refusal) => return Err(self.refused(rt, refusal)),
        };
        let told = match outcome {
            Outcome::Commit(told) => told,
            Outcome::GiveUp(told) => return Ok(self.given_up(rt, told)),
        };
        match self.commit_tx(rt) {
            Ok(end) => {
                let end = Some(end);
                Ok(Transacted { told, end })
            }
            Err(refusal) => Err(self.refused(rt, refusal)),
        }
    }

    // Rolls back what the refusal left of the transaction, and passes it on.
    fn refused<R: Wait>(&mut self, rt: &R, refusal: Refusal) -> Refusal
        ensures same { result ≡ refusal }
        ensures session { self.new ≡ record self.old { tx = None } }
        ensures gone { IfSome self.old.tx (HasGone L.opening) }
    {
        self.leave(rt);
        refusal
    }
}
