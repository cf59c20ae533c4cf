mod asking;
mod committing;
mod forgetting;
mod giving_up;
mod lasting;
mod operating;
mod reading;
mod reading_all;
mod transacting;

use crate::engine::Engine;
use crate::gate::Gate;
use crate::locked_core::LockedCore;
use crate::locked_store::LockedStore;
use crate::run::{Receipt, Receipts, Run, Told};
use crate::seen_durable::SeenDurable;
pub(crate) use committing::finish_some;
use mvo_disk::Disk;
use mvo_marks::Seat;
use mvo_types::{Stamp, TxId};
use std::marker::Model;
use std::sync::atomic::AtomicU64;
use std::sync::{MutexGuard, Wait};

/// One caller of an engine, in one thread at a time. It has one transaction at a time, and keeps a
/// receipt of each that it committed, until its end isn't above the start of the tale. A session
/// that is dropped inside a transaction leaves it unfinished, until somebody rolls it back
/// (`Engine::roll_back_older`).
pub struct Session<'e, L: Run, D: Disk, G: Gate + Drop> {
    engine: &'e Engine<L, D, G>,
    seat: Seat,
    tx: Option<TxId>,
    /// What the calls of its transaction were answered.
    told: Told,
    receipts: Receipts<L>,
    /// How many rows scans have shown it since it last let others in. It says nothing of the
    /// transaction, so it is counted through a shared loan.
    shown: AtomicU64,
}

impl<'e, L: Run, D: Disk, G: Gate + Drop> Drop for Session<'e, L, D, G> {
    fn drop(self) {
        let Session {
            engine: _,
            seat: _,
            tx: _,
            told: _,
            receipts: _,
            shown: _,
        } = self;
    }
}

impl<'e, L: Run, D: Disk, G: Gate + Drop> Model for Session<'e, L, D, G> {
    ghost use Rattle.std.specs.Prelude.{◌≡◌};
    ghost use Rattle.std.specs.Option.{option_map};
    ghost use Rattle.mvo_engine.specs.Settling.{BeginsAbove};
    ghost use Rattle.mvo_engine.specs.States.{SessionState};

    ghost Value = { SessionState };

    ghost view = { λ s. record {
      tx = option_map (λ t. t.0) s.tx;
      told = s.told;
      receipts = s.receipts.list;
      durable = s.seat.known.durable;
      forgotten = s.receipts.forgotten;
    } };

    ghost invariant = { λ s. (s.seat.marks ≡ L.marks)
        × BeginsAbove (option_map (λ t. t.0) s.tx) s.receipts.list };
}

impl<'e, L: Run, D: Disk, G: Gate + Drop> Session<'e, L, D, G> {
    ghost use Rattle.std.specs.Prelude.{◌≡◌, ◌≤◌, None, IsTrue};
    ghost use Rattle.std.specs.Option.{is_some};
    ghost use Rattle.mvo_store.specs.Seen.{mark_of};
    ghost use Rattle.mvo_engine.specs.run.Receiving.{Rises};

    pub(crate) fn new(
        engine: &'e Engine<L, D, G>,
        seat: Seat,
        receipts: Receipts<L>,
    ) -> Session<'e, L, D, G>
        requires { seat.marks ≡ L.marks }
        ensures tx { result.tx ≡ None }
        ensures receipts { result.receipts ≡ receipts.list }
        ensures forgotten { result.forgotten ≡ receipts.forgotten }
    {
        Session {
            engine,
            seat,
            tx: None,
            told: Told::new(receipts.allocator()),
            receipts,
            shown: AtomicU64::new(0),
        }
    }

    // Apart: the receipts.
    pub(crate) fn into_receipts(self) -> Receipts<L>
        ensures list { result.list ≡ self.entry.receipts }
        ensures forgotten { result.forgotten ≡ self.entry.forgotten }
    {
        let Session {
            engine: _,
            seat: _,
            tx: _,
            told: _,
            receipts,
            shown: _,
        } = self;
        receipts
    }

    /// Its receipts, one for each of its commits but those that it let go of, by end.
    pub fn receipts(&self) -> &[Receipt]
        ensures value { result.now ≡ self.now.receipts }
        ensures rising { Rises self.now.receipts }
    {
        self.receipts.list()
    }

    // Whether it is in a transaction.
    pub(crate) fn has_tx(&self) -> bool
        ensures { result ≡ is_some self.now.tx }
    {
        self.tx.is_some()
    }

    // None of the receipts that it let go of ends above this.
    pub(crate) fn forgotten(&self) -> Stamp
        ensures { result.0 ≡ self.now.forgotten }
    {
        self.receipts.forgotten()
    }

    /// Whether all commits that end up to the stamp are on the disk, as the session sees it now. It
    /// waits for nobody, and takes no lock.
    pub fn poll_durable(&mut self, stamp: Stamp) -> bool
        ensures yes { IsTrue result → stamp.0 ≤ self.new.durable }
        ensures no { stamp.0 ≤ self.new.durable → IsTrue result }
        ensures seen { self.old.durable ≤ self.new.durable }
        ensures rest { self.new ≡ record self.old { durable = self.new.durable } }
    {
        self.engine.marks().poll_durable(&mut self.seat, stamp)
    }

    /// How far it has seen commits to be durable, to be kept beyond the session: what it was told
    /// to be durable ends up to there. It takes no lock and no memory.
    pub fn seen(&mut self) -> SeenDurable<L>
        ensures seen { result ≡ self.old.durable }
        ensures session { self.new ≡ self.old }
    {
        SeenDurable::new(self.engine.marks().split(&mut self.seat))
    }

    // What it has seen of the durable mark is at most the store's mark.
    pub(crate) fn confirm(&mut self, store: &mut LockedStore<L, D>)
        ensures seen { self.old.durable ≤ mark_of store.old.store }
        ensures session { self.new ≡ self.old }
        ensures store { store.new ≡ store.old }
    {
        store.confirm(self.engine.marks(), &mut self.seat);
    }

    // The lock of the core, taken.
    fn enter<R: Wait>(&self, rt: &R) -> MutexGuard<'e, LockedCore<L>> {
        self.engine.enter_core(rt)
    }
}
