//! What a session does for all who wait for the disk.

use super::Engine;
use crate::gate::Gate;
use crate::run::Run;
use mvo_disk::Disk;
use mvo_marks::Seat;
use mvo_types::{Refusal, Stamp};
use std::sync::Wait;

impl<L: Run, D: Disk, G: Gate + Drop> Engine<L, D, G> {
    ghost use Rattle.std.specs.Prelude.{◌≡◌, IfErr};
    ghost use Rattle.mvo_engine.specs.Lasting.{IsNotMadeDurable, IsNotAwaited, WasNotFlushed};

    // Closes the next group, where there is one to close and room for it, and says whether. Refused
    // with NothingToDo where the stamp is above the clock.
    pub(crate) fn close_for<R: Wait>(&self, rt: &R, stamp: Stamp) -> Result<bool, Refusal>
        ensures { IfErr result (IsNotMadeDurable D.Disk L.opening stamp.0) }
    {
        let mut core = self.enter_core(rt);
        if core.clock() < stamp {
            return Err(Refusal::NothingToDo);
        }
        match core.close_group(&self.marks) {
            Ok(_) => {
                self.counting.count_group();
                Ok(true)
            }
            Err(Refusal::NothingToDo | Refusal::RingFull) => Ok(false),
            Err(refusal) => Err(refusal),
        }
    }

    // Waits until nobody has the store, as who flushes by hand: what is committed until then comes
    // into the group that is closed next.
    pub(crate) fn await_store<R: Wait>(&self, rt: &R) {
        drop(self.enter_store(rt));
    }

    // A step of a flush (`StoreGuard::flush_one`), by who has the turn.
    pub(crate) fn flush_next<R: Wait>(&self, rt: &R) -> Result<bool, Refusal>
        ensures { IfErr result (WasNotFlushed D.Disk) }
    {
        let mut store = self.guard_store(rt);
        let since = self.nanos();
        let came = store.flush_one();
        self.count_hold(since);
        match came {
            Ok(is_flushed) => Ok(is_flushed),
            Err(refusal) => Err(refusal),
        }
    }

    // What keeps commits from being durable: the store is down; or, where the last step of a flush
    // was refused, another is too.
    pub(crate) fn look<R: Wait>(&self, rt: &R, seat: &mut Seat) -> Result<(), Refusal>
        requires { seat.old.marks ≡ L.marks }
        ensures err { IfErr result (IsNotAwaited D.Disk L.opening seat.old.known.durable) }
        ensures seat { seat.new ≡ seat.old }
    {
        if self.is_down(rt, seat) {
            return Err(Refusal::Down);
        }
        if !self.turns.was_refused() {
            return Ok(());
        }
        match self.flush_next(rt) {
            Ok(_) => Ok(()),
            Err(refusal) => Err(refusal),
        }
    }
}
