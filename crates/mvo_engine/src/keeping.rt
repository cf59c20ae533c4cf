//! An engine that looks after itself: what is due is done, one chore after another.

mod chores;
mod looking;

ghost use Rattle.std.specs.Prelude.{◌≡◌};
ghost use Rattle.mvo_engine.specs.Keeping.{ends_keeping, is_of_another, kept_by};

use crate::engine::Engine;
use crate::gate::Gate;
use crate::kept::Kept;
use crate::run::Run;
use mvo_disk::Disk;
use mvo_keep::{Chore, Keeper, Policy, Remains};
use mvo_types::Refusal;
use std::sync::Wait;
use std::sync::atomic::{AtomicU64, Ordering};
use std::time::Duration;

/// How many milliseconds who keeps an engine sleeps at most where nothing is due.
const A_REST: u64 = 10;

impl<L: Run, D: Disk, G: Gate + Drop> Engine<L, D, G> {
    ghost use Rattle.std.specs.Prelude.{IfErr, OnOk};
    ghost use Rattle.mvo_engine.specs.Keeping.{HasKept, HasKeptUntil, IsFlushToEnd};
    ghost use Rattle.mvo_engine.specs.Keeping.{WentOn, WentDown};

    /// A turn of a keeper: looks how the engine stands, under each lock shortly and apart, and does
    /// the one chore that is due by the policy (`mvo_keep::due`), as `flush`, `StoreGuard::call`,
    /// `CoreGuard::trim_tale` and `collect` do it. Idle where nothing is due, or where the chore is
    /// refused with NothingToDo, Busy or RingFull, since another thread did it meanwhile or has it
    /// in hand. Hold no guard meanwhile.
    ///
    /// Pass the same keeper at each turn: a flush isn't due twice in a row, whatever came of it, so
    /// that one that is refused holds nothing up; and what was found empty isn't looked for again.
    ///
    /// Refused with OutOfMemory where there is none for a look, and else as the chore is:
    /// OutOfMemory, Down, DiskFault, ClockSpent, SegmentsFull, and what was misread. It may be
    /// called again.
    pub fn keep<R: Wait>(
        &self,
        rt: &R,
        policy: &Policy,
        keeper: &mut Keeper,
    ) -> Result<Kept, Refusal>
        ensures { HasKept D.Disk L.opening policy.now keeper.old result keeper.new }
    {
        let (sight, due) = match self.see_due(rt, policy, *keeper) {
            Ok(seen) => seen,
            Err(refusal) => return Err(refusal),
        };
        let Some(chore) = due else {
            *keeper = keeper.after_look(&sight);
            return Ok(Kept::Idle);
        };
        let came = self.do_chore(rt, chore);
        *keeper = keeper.after(&sight, chore, &came);
        kept_by(chore, came)
    }

    /// Keeps the engine, turn after turn, until the flag isn't 0 any more, and then makes all
    /// durable that is committed. Where nothing is due, and behind a refusal, it sleeps for 10
    /// milliseconds, or until the flag wakes it. A thread of its own is for this; hold no guard.
    ///
    /// Ended by DiskFault and Down, which are answered, and at its end refused as a flush is. Any
    /// other refusal of a turn isn't told: the turns behind it try again.
    pub fn keep_until<R: Wait>(
        &self,
        rt: &R,
        policy: &Policy,
        over: &AtomicU64,
    ) -> Result<(), Refusal>
        ensures { HasKeptUntil D.Disk L.opening policy.now result }
    {
        let mut keeper = Keeper::new();
        for _ in rt.forever() {
            if over.load(Ordering::SeqCst) != 0 {
                return self.flush_to_end(rt);
            }
            match self.turn_or_rest(rt, policy, &mut keeper, over) {
                Ok(()) => {}
                Err(refusal) => return Err(refusal),
            }
        }
        unreachable!()
    }

    // A turn, and a rest where nothing was done. Refused where the store is down.
    fn turn_or_rest<R: Wait>(
        &self,
        rt: &R,
        policy: &Policy,
        keeper: &mut Keeper,
        over: &AtomicU64,
    ) -> Result<(), Refusal>
        ensures ok { OnOk result (WentOn D.Disk L.opening policy.now keeper.old keeper.new) }
        ensures down { IfErr result (WentDown D.Disk L.opening policy.now keeper.old) }
    {
        match self.keep(rt, policy, keeper) {
            Ok(Kept::Did(_)) => return Ok(()),
            Ok(Kept::Idle) => {}
            Err(refusal) => {
                if ends_keeping(&refusal) {
                    return Err(refusal);
                }
            }
        }
        over.park_timeout(rt, 0, Duration::from_millis(A_REST));
        Ok(())
    }

    // Flushes until all is durable that was committed before. While a transaction that has its end
    // isn't settled, no group holds what ends behind it: then it stops where it comes no further.
    fn flush_to_end<R: Wait>(&self, rt: &R) -> Result<(), Refusal>
        ensures { IsFlushToEnd D.Disk L.opening result }
    {
        let clock = self.enter_core(rt).clock();
        let mut before = None;
        for _ in rt.forever() {
            let mark = match self.flush(rt) {
                Ok(mark) => mark,
                Err(refusal) => return Err(refusal),
            };
            if clock <= mark {
                return Ok(());
            }
            if before == Some(mark) {
                return Ok(());
            }
            before = Some(mark);
        }
        unreachable!()
    }
}

// What a turn answers.
fn kept_by(chore: Chore, came: Result<Remains, Refusal>) -> Result<Kept, Refusal>
    ensures { result ≡ kept_by chore came }
{
    match came {
        Ok(_) => Ok(Kept::Did(chore)),
        Err(Refusal::NothingToDo | Refusal::Busy | Refusal::RingFull) => Ok(Kept::Idle),
        Err(refusal) => Err(refusal),
    }
}

// Whether the store is down.
fn ends_keeping(refusal: &Refusal) -> bool
    ensures { result ≡ ends_keeping refusal.now }
{
    matches!(refusal, Refusal::DiskFault | Refusal::Down)
}
