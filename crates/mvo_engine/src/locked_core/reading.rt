//! Read-only transactions under the lock of the core.

use super::LockedCore;
use crate::run::Run;
use mvo_types::{Refusal, Stamp, TxId};

impl<L: Run> LockedCore<L> {
    ghost use Rattle.std.specs.Prelude.{◌<◌, IfOk};
    ghost use Rattle.mvo_engine.specs.Sound.{IsSoundCore};
    ghost use Rattle.mvo_engine.specs.Calls.{IsReadOnlyBeginning};

    /// As `Core::begin_read_only`, for a session whose commits end at most there; refused with Busy
    /// where the clock is below that, which no run meets.
    pub fn begin_read_only(&mut self, last: Stamp) -> Result<TxId, Refusal>
        ensures sound { IsSoundCore L.opening self.old.core self.old.sends.sent }
        ensures step { IsReadOnlyBeginning self.old last.0 result self.new }
        ensures above { IfOk result (λ t. last.0 < t.0) }
    {
        if self.core.clock() < last {
            return Err(Refusal::Busy);
        }
        self.core.begin_read_only()
    }
}
