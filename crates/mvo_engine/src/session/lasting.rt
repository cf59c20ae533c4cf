//! How a session's commits become durable.

use super::Session;
use crate::gate::Gate;
use crate::run::Run;
use crate::turns::Turn;
use mvo_disk::Disk;
use mvo_types::{Refusal, Stamp};
use std::sync::Wait;
use std::thread;

/// At each poll of so many, who waits looks under the lock of the store.
const POLLS: u64 = 64;

impl<'e, L: Run, D: Disk, G: Gate + Drop> Session<'e, L, D, G> {
    ghost use Rattle.std.specs.Prelude.{◌≡◌, ◌≤◌, OnOk, IfOk, IfErr, IsTrue};
    ghost use Rattle.mvo_engine.specs.Lasting.{IsNotMadeDurable, IsNotAwaited};

    /// Makes all commits that end up to the stamp durable. The session flushes itself where no
    /// other does (`Engine::flush`): it closes one group, with what all have committed until then,
    /// so that those who wait meanwhile share it. Where another flushes it sleeps. Where the stamp
    /// is durable it does neither, and takes no lock. While a transaction that has its end below
    /// the stamp isn't settled, no group holds the stamp, and it tries again.
    ///
    /// Whoever is refused, the others who wait flush again, and are refused for themselves: with
    /// NothingToDo where the stamp is above the clock, and as a flush is, with OutOfMemory, Down,
    /// DiskFault, and where the log has to be rotated ClockSpent, SegmentsFull, and Busy beside a
    /// job. The commits stay in memory then; the call may be made again. Hold no guard meanwhile.
    pub fn make_durable<R: Wait>(&mut self, rt: &R, stamp: Stamp) -> Result<(), Refusal>
        ensures ok { OnOk result (stamp.0 ≤ self.new.durable) }
        ensures err { IfErr result (IsNotMadeDurable D.Disk L.opening stamp.0) }
        ensures rest { self.new ≡ record self.old { durable = self.new.durable } }
    {
        if self.poll_durable(stamp) {
            return Ok(());
        }
        let turns = self.engine.turns();
        turns.ask();
        let made = self.take_part(rt, stamp);
        turns.leave();
        made
    }

    // Leads, or sleeps while another does, until the stamp is durable. What is heard of the bell
    // is read before the poll: who has the turn when it isn't to be had rings behind it.
    fn take_part<R: Wait>(&mut self, rt: &R, stamp: Stamp) -> Result<(), Refusal>
        ensures ok { OnOk result (stamp.0 ≤ self.new.durable) }
        ensures err { IfErr result (IsNotMadeDurable D.Disk L.opening stamp.0) }
        ensures rest { self.new ≡ record self.old { durable = self.new.durable } }
    {
        let turns = self.engine.turns();
        for _ in rt.forever() {
            let heard = turns.heard();
            if self.poll_durable(stamp) {
                return Ok(());
            }
            let Some(turn) = turns.try_take() else {
                turns.sleep(rt, heard);
                continue;
            };
            match self.lead(rt, turn, stamp) {
                Ok(true) => {}
                Ok(false) => thread::yield_now(),
                Err(refusal) => return Err(refusal),
            }
        }
        unreachable!()
    }

    // A flush with the turn, which is given back: the next group is closed, unless the stamp is in
    // an earlier one, and groups are made durable until the stamp is. Whether it is then, or was.
    fn lead<R: Wait>(&mut self, rt: &R, turn: Turn<'_>, stamp: Stamp) -> Result<bool, Refusal>
        ensures err { IfErr result (IsNotMadeDurable D.Disk L.opening stamp.0) }
        ensures rest { self.new ≡ record self.old { durable = self.new.durable } }
    {
        let mut turn = turn;
        if self.poll_durable(stamp) {
            return Ok(true);
        }
        turn.let_others_ask();
        self.engine.await_store(rt);
        if self.poll_durable(stamp) {
            return Ok(true);
        }
        match self.close_up_to(rt, &mut turn, stamp) {
            Ok(()) => {}
            Err(refusal) => return Err(refusal),
        }
        self.flush_up_to(rt, stamp)
    }

    // Closes the next group, unless an earlier one has the stamp.
    fn close_up_to<R: Wait>(
        &mut self,
        rt: &R,
        turn: &mut Turn<'_>,
        stamp: Stamp,
    ) -> Result<(), Refusal>
        ensures err { IfErr result (IsNotMadeDurable D.Disk L.opening stamp.0) }
        ensures same { self.new ≡ self.old }
    {
        if stamp <= self.engine.marks().poll_closed(&mut self.seat) {
            return Ok(());
        }
        match self.engine.close_for(rt, stamp) {
            Ok(true) => {
                turn.has_closed();
                Ok(())
            }
            Ok(false) => Ok(()),
            Err(refusal) => Err(refusal),
        }
    }

    // Makes one group after another durable, until the stamp is, or none is left.
    fn flush_up_to<R: Wait>(&mut self, rt: &R, stamp: Stamp) -> Result<bool, Refusal>
        ensures err { IfErr result (IsNotMadeDurable D.Disk L.opening stamp.0) }
        ensures rest { self.new ≡ record self.old { durable = self.new.durable } }
    {
        for _ in rt.forever() {
            match self.engine.flush_next(rt) {
                Ok(true) => {}
                Ok(false) => return Ok(false),
                Err(refusal) => return Err(refusal),
            }
            if self.poll_durable(stamp) {
                return Ok(true);
            }
        }
        unreachable!()
    }

    /// Waits until all commits that end up to the stamp are on the disk: until another thread, or
    /// this one before the call, has flushed them (`make_durable` flushes itself). Between polls it
    /// sleeps, a moment at most, and at each 64th it looks under the lock of the store.
    ///
    /// Refused with Down where the store is down, at a mark at least what the session has seen.
    /// Where the last step of a flush was refused, it makes one itself, and is refused as that is:
    /// DiskFault, OutOfMemory, ClockSpent, SegmentsFull, and Busy beside a job.
    pub fn wait_durable<R: Wait>(&mut self, rt: &R, stamp: Stamp) -> Result<(), Refusal>
        ensures ok { OnOk result (stamp.0 ≤ self.new.durable) }
        ensures err { IfErr result (IsNotAwaited D.Disk L.opening self.new.durable) }
        ensures rest { self.new ≡ record self.old { durable = self.new.durable } }
    {
        for _ in rt.forever() {
            match self.wait_some(rt, stamp) {
                Ok(true) => return Ok(()),
                Ok(false) => {}
                Err(refusal) => return Err(refusal),
            }
        }
        unreachable!()
    }

    // Polls so many times, and looks under the lock of the store. Whether the stamp is durable.
    fn wait_some<R: Wait>(&mut self, rt: &R, stamp: Stamp) -> Result<bool, Refusal>
        ensures ok { IfOk result (λ yes. IsTrue yes → stamp.0 ≤ self.new.durable) }
        ensures err { IfErr result (IsNotAwaited D.Disk L.opening self.new.durable) }
        ensures rest { self.new ≡ record self.old { durable = self.new.durable } }
    {
        let turns = self.engine.turns();
        for _ in 0..POLLS {
            let heard = turns.heard();
            if self.poll_durable(stamp) {
                return Ok(true);
            }
            turns.doze(rt, heard);
        }
        match self.engine.look(rt, &mut self.seat) {
            Ok(()) => Ok(false),
            Err(refusal) => Err(refusal),
        }
    }
}
