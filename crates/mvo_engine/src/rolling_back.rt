//! Old transactions that are rolled back, so that they hold nothing up.
ghost use Rattle.mvo_core.specs.Unfinished.{IsNextActive};
ghost use Rattle.mvo_engine.specs.Asked.{WasFinished};
ghost use Rattle.mvo_engine.specs.RollingBack.{IsRolledBack};
ghost use Rattle.mvo_engine.specs.Sound.{IsSoundCore};

use crate::engine::Engine;
use crate::gate::Gate;
use crate::locked_core::LockedCore;
use crate::run::Run;
use crate::session::finish_some;
use mvo_core::Finishing;
use mvo_disk::Disk;
use mvo_types::{Refusal, Stamp, TxId};
use std::sync::Wait;
use std::thread;

impl<L: Run, D: Disk, G: Gate + Drop> Engine<L, D, G> {
    ghost use Rattle.mvo_engine.specs.RollingBack.{HaveGivenWay, IsPassOver};

    /// Rolls back and finishes each Active transaction that began before the stamp, and answers how
    /// many they were: those of sessions that were left open, or dropped inside one. A read-only
    /// one is Active while it reads. One that is Preparing stays, and so does one that began at the
    /// stamp or later; behind a stamp above the clock, those that begin meanwhile give way, too.
    ///
    /// The session of one is refused its next call with NoSuchTransaction, or with Ended where that
    /// comes in between; then it has no transaction, and may begin anew. The lock of the core is
    /// given back after each rollback and after each 64 words, so that sessions go on meanwhile. It
    /// takes no memory.
    pub fn roll_back_older<R: Wait>(&self, rt: &R, stamp: Stamp) -> u64
        ensures { HaveGivenWay L.opening stamp.0 result }
    {
        let mut all = 0u64;
        for _ in rt.forever() {
            let gone = self.pass_older(rt, stamp);
            if gone == 0 {
                return all;
            }
            all = all.saturating_add(gone);
        }
        unreachable!()
    }

    // Does so with those that are there, in the order of their begins, each looked at once.
    fn pass_older<R: Wait>(&self, rt: &R, stamp: Stamp) -> u64
        ensures { IsPassOver L.opening stamp.0 result }
    {
        let mut all = 0u64;
        let mut from = Stamp(0);
        for _ in rt.forever() {
            let next = roll_back_next(&mut self.enter_core(rt), from, stamp);
            let Some(tx) = next else {
                return all;
            };
            self.finish(rt, tx);
            all = all.saturating_add(1);
            from = behind(tx);
        }
        unreachable!()
    }

    // Replaces the words of the transaction, which is Aborted, some while the lock is taken once.
    fn finish<R: Wait>(&self, rt: &R, tx: TxId)
        ensures { WasFinished L.opening tx.0 }
    {
        for _ in rt.forever() {
            match finish_some(&mut self.enter_core(rt), tx) {
                Ok(Finishing::Done) | Err(Refusal::NoSuchTransaction) => return,
                Ok(Finishing::More) => {}
                Err(_) => thread::yield_now(),
            }
        }
    }
}

/// Rolls back the first Active transaction that began from the one stamp on and below the other, if
/// there is one.
fn roll_back_next<L: Run>(core: &mut LockedCore<L>, from: Stamp, below: Stamp) -> Option<TxId>
    ensures sound { IsSoundCore L.opening core.old.core core.old.sends.sent }
    ensures next { IsNextActive core.old.core.table from.0 below.0 result }
    ensures rolled_back { IsRolledBack core.old result core.new }
{
    let Some(tx) = core.next_active(from, below) else {
        return None;
    };
    match core.rollback_tx(tx) {
        Ok(()) => Some(tx),
        Err(_) => unreachable!(),
    }
}

/// The stamp behind the transaction's begin.
fn behind(tx: TxId) -> Stamp {
    Stamp(tx.0.saturating_add(1))
}
