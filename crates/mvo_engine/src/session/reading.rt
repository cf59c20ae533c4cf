//! Read-only transactions of a session.

use super::Session;
use crate::gate::Gate;
use crate::run::Run;
use mvo_disk::Disk;
use mvo_types::{Refusal, Stamp, TxId};
use std::sync::Wait;

impl<'e, L: Run, D: Disk, G: Gate + Drop> Session<'e, L, D, G> {
    ghost use Rattle.std.specs.Prelude.{◌≡◌, [], true, IfOk, IfErr};
    ghost use Rattle.mvo_engine.specs.Asked.{WasBegunReadOnly, IsCoreReadOnlyBegin};
    ghost use Rattle.mvo_engine.specs.Calls.{IsBegun};
    ghost use Rattle.mvo_engine.specs.Forgetting.{HasForgottenIfOk, WasStart};
    ghost use Rattle.mvo_engine.specs.Refusing.{refuses_begin};
    ghost use Rattle.mvo_engine.specs.declared.session.operating.TheConstants.{FORGOTTEN_AT_ONCE};
    ghost use Rattle.mvo_engine.specs.run.Receiving.{AreBelow};

    /// Begins a read-only transaction, as `begin_tx` begins one that may write. It reads what one
    /// map showed at its begin, and ends there: its commit answers its begin, and so its receipt
    /// says. No other is in its way, and it is in nobody's: it is refused for none that wrote
    /// since, and no group waits for it. Its own commit waits for those that it depends on, and
    /// falls with them (DependencyAborted). A write is refused with ReadOnly, and leaves it as it
    /// was. Until it ends the tale isn't trimmed up to its begin or beyond, so that the versions of
    /// its time stay in memory.
    ///
    /// Refused: Busy where the session has a transaction, TableFull, ClockSpent, OutOfMemory.
    pub fn begin_read_only<R: Wait>(&mut self, rt: &R) -> Result<TxId, Refusal>
        ensures begun { IsBegun self.old.tx result self.new.tx }
        ensures told { IfOk result (λ _. self.new.told ≡ []) }
        ensures above { IfOk result (λ t. AreBelow t.0 self.old.receipts) }
        ensures forgets { HasForgottenIfOk L.opening FORGOTTEN_AT_ONCE self.old result self.new }
        ensures rest { self.new ≡ record self.old {
          tx = self.new.tx;
          told = self.new.told;
          receipts = self.new.receipts;
          forgotten = self.new.forgotten;
        } }
        ensures core { IsCoreReadOnlyBegin L.opening self.old.tx result }
        ensures err { IfErr result (λ e. refuses_begin e ≡ true) }
    {
        if self.tx.is_some() {
            return Err(Refusal::Busy);
        }
        let (tx, start) = match self.begun_read_only(rt) {
            Ok(begun) => begun,
            Err(refusal) => return Err(refusal),
        };
        self.take_up(tx, start);
        Ok(tx)
    }

    // Begins a read-only transaction in the core, and tells where the tale starts.
    fn begun_read_only<R: Wait>(&self, rt: &R) -> Result<(TxId, Stamp), Refusal>
        ensures above { IfOk result (λ b. AreBelow b.0.0 self.now.receipts) }
        ensures start { IfOk result (λ b. WasStart L.opening b.1.0) }
        ensures core { WasBegunReadOnly L.opening result }
        ensures err { IfErr result (λ e. refuses_begin e ≡ true) }
    {
        let mut core = self.enter(rt);
        let start = core.tale_start();
        match core.begin_read_only(self.receipts.last_end()) {
            Ok(tx) => Ok((tx, start)),
            Err(refusal) => Err(refusal),
        }
    }
}
