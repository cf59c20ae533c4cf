use crate::locked_core::LockedCore;
use crate::run::Run;
use mvo_core::{Collection, Tale};
use mvo_types::{Refusal, Stamp};
use std::marker::Model;
use std::sync::MutexGuard;

/// The lock of the core, taken. It lends what looks at the core, and what lets go of what nobody
/// can ask for any more: each step of a transaction is a session's.
#[derive(Drop)]
pub struct CoreGuard<'e, L: Run> {
    pub(crate) held: MutexGuard<'e, LockedCore<L>>,
}

impl<'e, L: Run> Model for CoreGuard<'e, L> {
    ghost use Rattle.std.specs.Coded.{codes};
    ghost use Rattle.std.specs.Sync.Mutex.{mutex_guard_value};
    ghost use Rattle.mvo_core.specs.contracts.event_core.Core.{the_row as core_row};
    ghost use Rattle.mvo_engine.specs.States.{CoreState};

    ghost Value = { CoreState };

    ghost coded = { Prim.hlevel (codes, core_row.coded) };

    ghost view = { λ g. mutex_guard_value g.held };
}

impl<'e, L: Run> CoreGuard<'e, L> {
    ghost use Rattle.std.specs.Prelude.{◌≡◌, IfOk, IfErr};
    ghost use Rattle.mvo_types.specs.declared.refusal.Refusal.{Refusal};
    ghost use Rattle.mvo_theory.specs.Calls.Call.{Trim};
    ghost use Rattle.mvo_core.specs.Trimming.{HasForgotten};
    ghost use Rattle.mvo_engine.specs.Stored.{HasStored};
    ghost use Rattle.mvo_engine.specs.Calls.{IsCoreStep};
    ghost use Rattle.mvo_engine.specs.Collecting.{IsCoreCollection};
    ghost use Rattle.mvo_engine.specs.Legal.{IsLegalCore};

    pub(crate) fn new(held: MutexGuard<'e, LockedCore<L>>) -> CoreGuard<'e, L> {
        CoreGuard { held }
    }

    /// The timestamp that was drawn last, or the opening mark. What was done so far is one history
    /// of transactions that ran one after another by their ends, and none ended above the clock.
    pub fn clock(&self) -> Stamp
        ensures value { result.0 ≡ self.now.core.table.clock }
        ensures legal { IsLegalCore L.opening self.now.core self.now.sends.sent }
    {
        self.held.clock()
    }

    /// The stored commits, by end timestamp: all that end above the start of the tale, and of those
    /// up to it the ones that are in no closed group yet, and what follows them. Those above the
    /// start are legal from the rows that a transaction sees that begins just above it.
    pub fn tale(&self) -> &Tale
        ensures tale { result.now ≡ self.now.core.tale }
        ensures stored { HasStored self.now.core }
    {
        self.held.tale()
    }

    /// Where the tale starts: the mark that the store opened at, or where it was trimmed last.
    pub fn tale_start(&self) -> Stamp
        ensures { result.0 ≡ self.now.core.start }
    {
        self.held.tale_start()
    }

    /// How many sessions there are: made, and not retired.
    pub fn made(&self) -> u32
        ensures { result ≡ self.now.made }
    {
        self.held.made()
    }

    /// Makes the stamp the start of the tale, and forgets the commits that are trimmed and in a
    /// closed group. Of those in no group yet the stored rows stay for theirs. It takes no memory,
    /// and time by how many commits go, each of which goes once. Refused with NothingToDo alone:
    /// where the stamp isn't above the start, where it is above the clock, and where a transaction
    /// is unfinished that began before it.
    pub fn trim_tale(&mut self, upto: Stamp) -> Result<(), Refusal>
        ensures step { IsCoreStep self.old (Trim upto.0) result self.new }
        ensures forgets { IfOk result (λ _.
            HasForgotten upto.0 self.old.core.closed self.old.core self.new.core) }
        ensures err { IfErr result (λ r. r ≡ Refusal.NothingToDo) }
    {
        self.held.trim_tale(upto)
    }

    /// Takes one garbage version out of memory, if there is one: a version that nobody has put any
    /// more and nobody has ended, or one that was ended up to the start of the tale. What each
    /// transaction is answered from then on stays. It takes no memory, and constant time on
    /// average. `Engine::collect` takes all.
    pub fn collect_one(&mut self) -> Collection
        ensures { IsCoreCollection self.old result self.new }
    {
        self.held.collect_one()
    }
}
