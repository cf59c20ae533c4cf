mod reading;
mod standing;

use crate::locked_store::LockedStore;
use crate::run::{MAX_SESSIONS, PARTS, Receipt, Receipts, Run, Told};
use crate::sends::Sends;
use mvo_core::{Closed, Collection, Core, Finishing, Settlement, Tale, Validation};
use mvo_disk::Disk;
use mvo_marks::{Marks, Seat};
use mvo_types::{Answer, Op, Refusal, Stamp, TxId};
use std::alloc::Global;
use std::marker::Model;
use std::mem;
use std::sync::ledger::{Book, Share};

/// What lies under the lock of the core: the core, where it closes its groups, and the book of the
/// ledger with the parts that no session has.
///
/// The core stands for a whole state of the theory over the rows that the run opened with, and the
/// groups that were sent hold its commits up to the mark of the last one (`IsSoundCore`). Where the
/// tale starts below the end of the watched receipt, the book says how often that is among the
/// stored commits (`IsBooked`).
pub struct LockedCore<L: Run> {
    alloc: Global,
    core: Core,
    sends: Sends<L>,
    book: Book<L>,
    spare: Share<L>,
    /// How many sessions there are: made, and not retired.
    made: u32,
}

impl<L: Run> Drop for LockedCore<L> {
    fn drop(self) {
        let LockedCore {
            alloc: _,
            core: _,
            sends: _,
            book: _,
            spare: _,
            made: _,
        } = self;
    }
}

impl<L: Run> Model for LockedCore<L> {
    ghost use Rattle.std.specs.Coded.{codes};
    ghost use Rattle.mvo_core.specs.contracts.event_core.Core.{the_row as core_row};
    ghost use Rattle.mvo_engine.specs.Booked.{IsBooked, HasSpareParts};
    ghost use Rattle.mvo_engine.specs.Sound.{IsSoundCore};
    ghost use Rattle.mvo_engine.specs.States.{CoreState};

    ghost Value = { CoreState };

    ghost coded = { Prim.hlevel (codes, core_row.coded) };

    ghost view = { λ s. record { core = s.core; sends = s.sends; made = s.made } };

    ghost invariant = { λ s. IsSoundCore L.opening s.core s.sends.sent
        × IsBooked L.watched s.core s.book.total
        × HasSpareParts L.watched s.core.start L.parts s.made s.spare.parts s.spare.amount };
}

impl<L: Run> LockedCore<L> {
    ghost use Rattle.std.specs.Prelude.{◌≡◌, ◌≤◌, ◌+◌, ◌<◌, [], true, Some, IfOk, IfErr, IfSome};
    ghost use Rattle.mvo_types.specs.declared.refusal.Refusal.{Refusal};
    ghost use Rattle.mvo_theory.specs.Calls.Call.{Do, Precommit, Validate};
    ghost use Rattle.mvo_theory.specs.Calls.Call.{Rollback, Finish, Trim};
    ghost use Rattle.mvo_core.specs.WholeAnswers.{IsAnsweredWhole, IsFinishingWhole};
    ghost use Rattle.mvo_core.specs.WholeEnds.{IsValidationWhole, IsSettlementWhole};
    ghost use Rattle.mvo_core.specs.Trimming.{HasForgotten};
    ghost use Rattle.mvo_core.specs.Causes.{why_not_undo};
    ghost use Rattle.mvo_core.specs.Unfinished.{IsNextActive};
    ghost use Rattle.mvo_txn.specs.Txns.{state_of};
    ghost use Rattle.mvo_engine.specs.Stored.{HasStored};
    ghost use Rattle.mvo_engine.specs.Audited.{IsAudited};
    ghost use Rattle.mvo_engine.specs.Booked.{IsBooked, HasSpareParts};
    ghost use Rattle.mvo_engine.specs.run.Receiving.{AreBelow};
    ghost use Rattle.mvo_engine.specs.Settling.{HasSettled};
    ghost use Rattle.mvo_engine.specs.Refusing.{refuses_operation, refuses_rollback};
    ghost use Rattle.mvo_engine.specs.Sound.{IsSoundCore};
    ghost use Rattle.mvo_engine.specs.Legal.{IsLegalCore};
    ghost use Rattle.mvo_engine.specs.Calls.{IsCoreStep, IsBeginning, IsSettling};
    ghost use Rattle.mvo_engine.specs.Calls.{IsCoreSending, IsAnother};
    ghost use Rattle.mvo_engine.specs.Collecting.{IsCoreCollection, HasCollectedUpTo};

    /// A core with where it closes its groups, and the ledger, of which no session was made.
    pub fn new(
        alloc: Global,
        core: Core,
        sends: Sends<L>,
        ledger: (Book<L>, Share<L>),
    ) -> LockedCore<L>
        requires sound { IsSoundCore L.opening core sends.sent }
        requires booked { IsBooked L.watched core ledger.0.total }
        requires parts { HasSpareParts L.watched core.start L.parts 0
            ledger.1.parts ledger.1.amount }
        ensures core { result.core ≡ core }
        ensures sends { result.sends ≡ sends }
        ensures made { result.made ≡ 0 }
    {
        let (book, spare) = ledger;
        LockedCore {
            alloc,
            core,
            sends,
            book,
            spare,
            made: 0,
        }
    }

    /// The timestamp that was drawn last, or the opening mark.
    pub fn clock(&self) -> Stamp
        ensures value { result.0 ≡ self.now.core.table.clock }
        ensures legal { IsLegalCore L.opening self.now.core self.now.sends.sent }
    {
        self.core.clock()
    }

    /// As `Core::tale`.
    pub fn tale(&self) -> &Tale
        ensures tale { result.now ≡ self.now.core.tale }
        ensures stored { HasStored self.now.core }
    {
        self.core.tale()
    }

    /// As `Core::tale_start`.
    pub fn tale_start(&self) -> Stamp
        ensures start { result.0 ≡ self.now.core.start }
        ensures sound { IsSoundCore L.opening self.now.core self.now.sends.sent }
    {
        self.core.tale_start()
    }

    /// As `Core::trim_tale`.
    pub fn trim_tale(&mut self, upto: Stamp) -> Result<(), Refusal>
        ensures step { IsCoreStep self.old (Trim upto.0) result self.new }
        ensures forgets { IfOk result (λ _.
            HasForgotten upto.0 self.old.core.closed self.old.core self.new.core) }
        ensures err { IfErr result (λ r. r ≡ Refusal.NothingToDo) }
    {
        self.core.trim_tale(upto)
    }

    /// As `Core::collect_one`.
    pub fn collect_one(&mut self) -> Collection
        ensures { IsCoreCollection self.old result self.new }
    {
        self.core.collect_one()
    }

    /// Collects so many versions, or all that are garbage where these are fewer. Answers how many
    /// it collected.
    pub fn collect_up_to(&mut self, most: u64) -> u64
        ensures collected { HasCollectedUpTo self.old most result self.new }
        ensures few { result ≤ most }
    {
        for taken in 0..most {
            match self.collect_one() {
                Collection::Collected => {}
                Collection::Nothing => return taken,
            }
        }
        most
    }

    /// A seat and a part of the ledger for another session, which is counted; none exactly where as
    /// many were made as may be.
    pub fn another(&mut self, marks: &Marks) -> Option<(Seat, Receipts<L>)>
        requires { marks.now ≡ L.marks }
        ensures sound { IsSoundCore L.opening self.old.core self.old.sends.sent }
        ensures seat { IfSome result (λ given. given.0.marks ≡ L.marks) }
        ensures receipts { IfSome result (λ given. given.1.list ≡ []) }
        ensures forgotten { IfSome result (λ given. given.1.forgotten ≡ 0) }
        ensures made { IsAnother self.old result self.new }
    {
        if self.made >= MAX_SESSIONS {
            return None;
        }
        self.made += 1;
        let share = self.spare.split_off(1, 0);
        Some((self.sends.split(marks), Receipts::new(self.alloc, share)))
    }

    /// How many sessions there are.
    pub fn made(&self) -> u32
        ensures { result ≡ self.now.made }
    {
        self.made
    }

    /// No part of the ledger.
    pub fn no_part(&mut self) -> Share<L>
        ensures nothing { (result.parts ≡ 0) × (result.amount ≡ 0) }
        ensures same { self.new ≡ self.old }
    {
        self.spare.empty()
    }

    /// With the parts of all sessions: what they count is what the stored commits count, where the
    /// tale starts below the end that is watched. It changes nothing.
    pub fn tally(&mut self, whole: Share<L>)
        requires { self.old.made ≤ whole.parts }
        ensures all { IsBooked L.watched self.old.core whole.amount }
        ensures same { self.new ≡ self.old }
    {
        let mut whole = whole;
        // No part, no amount.
        self.book.audit(&mut whole);
        let none = self.spare.empty();
        let mut all = mem::replace(&mut self.spare, none);
        all.merge(whole);
        self.book.audit(&mut all);
        if self.made > 0 {
            self.spare = all.split_off((PARTS - self.made) as u64, 0);
        } else {
            self.spare = all;
        }
    }

    /// Takes the part of a session back, whose receipts are all gone: there is one session fewer.
    pub fn take_back(&mut self, receipts: Receipts<L>)
        requires none { receipts.list ≡ [] }
        requires forgotten { receipts.forgotten ≤ self.old.core.start }
        ensures fewer { self.new.made + 1 ≡ self.old.made }
        ensures rest { self.new ≡ record self.old { made = self.new.made } }
    {
        let (_, share) = receipts.into_parts();
        self.spare.merge(share);
        self.made -= 1;
    }

    /// What is known with both locks. It changes nothing.
    pub fn audit<D: Disk>(&mut self, store: &mut LockedStore<L, D>)
        ensures audited { IsAudited D.Disk L.opening self.old store.old }
        ensures core { self.new ≡ self.old }
        ensures store { store.new ≡ store.old }
    {
        self.sends.audit(store);
    }

    /// Closes the next group into the ring, as `Core::close_group` does, and raises the closed mark
    /// to that of the group.
    pub fn close_group(&mut self, marks: &Marks) -> Result<Closed, Refusal>
        requires { marks.now ≡ L.marks }
        ensures { IsCoreSending self.old result self.new }
    {
        self.sends.close_group(&mut self.core, marks)
    }

    /// As `Core::begin_tx`, for a session whose commits end at most there; refused with Busy where
    /// the clock is below that, which no run meets.
    pub fn begin_tx(&mut self, last: Stamp) -> Result<TxId, Refusal>
        ensures sound { IsSoundCore L.opening self.old.core self.old.sends.sent }
        ensures step { IsBeginning self.old last.0 result self.new }
        ensures above { IfOk result (λ t. last.0 < t.0) }
    {
        if self.core.clock() < last {
            return Err(Refusal::Busy);
        }
        self.core.begin_tx()
    }

    /// As `Core::operate`.
    pub fn operate(&mut self, tx: TxId, op: Op) -> Result<Answer, Refusal>
        ensures sound { IsSoundCore L.opening self.old.core self.old.sends.sent }
        ensures step { IsCoreStep self.old (Do tx.0 op) result self.new }
        ensures answer { IfOk result (IsAnsweredWhole self.old.core tx.0 op) }
        ensures err { IfErr result (λ e. refuses_operation op e ≡ true) }
    {
        self.core.operate(tx, op)
    }

    /// As `Core::precommit`.
    pub fn precommit(&mut self, tx: TxId) -> Result<Stamp, Refusal>
        ensures sound { IsSoundCore L.opening self.old.core self.old.sends.sent }
        ensures step { IsCoreStep self.old (Precommit tx.0) result self.new }
    {
        self.core.precommit(tx)
    }

    /// As `Core::validate_one`.
    pub fn validate_one(&mut self, tx: TxId) -> Result<Validation, Refusal>
        ensures sound { IsSoundCore L.opening self.old.core self.old.sends.sent }
        ensures step { IsCoreStep self.old (Validate tx.0) result self.new }
        ensures answer { IfOk result (IsValidationWhole self.old.core tx.0) }
    {
        self.core.validate_one(tx)
    }

    /// As `Core::settle`, where the transaction was told just this, and else refused with Busy,
    /// which no run meets. Committed, its receipt is one more of the session's and counts in the
    /// book. It takes no memory.
    pub fn settle(
        &mut self,
        mine: &mut Receipts<L>,
        tx: TxId,
        told: &mut Told,
    ) -> Result<Settlement, Refusal>
        requires room { mine.old.room ≡ true }
        requires above { AreBelow tx.0 mine.old.list }
        ensures sound { IsSoundCore L.opening self.old.core self.old.sends.sent }
        ensures step { IsSettling self.old tx.0 told.old result self.new }
        ensures answer { IfOk result (IsSettlementWhole self.old.core tx.0) }
        ensures settled { HasSettled tx.0 told.old mine.old result mine.new told.new }
    {
        if !self.core.holds(tx, told.operations()) {
            return Err(Refusal::Busy);
        }
        match self.core.settle(tx) {
            Ok(Settlement::Committed(end)) => {
                mine.add(&mut self.book, Receipt::new(tx, end, told.take()));
                Ok(Settlement::Committed(end))
            }
            Ok(Settlement::Waiting(other)) => Ok(Settlement::Waiting(other)),
            Err(refusal) => Err(refusal),
        }
    }

    /// As `Core::rollback_tx`.
    pub fn rollback_tx(&mut self, tx: TxId) -> Result<(), Refusal>
        ensures sound { IsSoundCore L.opening self.old.core self.old.sends.sent }
        ensures step { IsCoreStep self.old (Rollback tx.0) result self.new }
        ensures cause { IfErr result (λ e.
            why_not_undo (state_of self.old.core.table tx.0) ≡ Some e) }
        ensures err { IfErr result (λ e. refuses_rollback e ≡ true) }
    {
        self.core.rollback_tx(tx)
    }

    /// As `Core::next_active`.
    pub fn next_active(&self, from: Stamp, below: Stamp) -> Option<TxId>
        ensures sound { IsSoundCore L.opening self.now.core self.now.sends.sent }
        ensures next { IsNextActive self.now.core.table from.0 below.0 result }
    {
        self.core.next_active(from, below)
    }

    /// As `Core::finish_one`.
    pub fn finish_one(&mut self, tx: TxId) -> Result<Finishing, Refusal>
        ensures sound { IsSoundCore L.opening self.old.core self.old.sends.sent }
        ensures step { IsCoreStep self.old (Finish tx.0) result self.new }
        ensures answer { IfOk result (IsFinishingWhole self.old.core tx.0) }
    {
        self.core.finish_one(tx)
    }
}
