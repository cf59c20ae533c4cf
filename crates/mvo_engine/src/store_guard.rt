ghost use Rattle.std.specs.Prelude.{◌≡◌};

use crate::gate::Gate;
use crate::locked_store::LockedStore;
use crate::run::Run;
use crate::session::Session;
use crate::slice::Slice;
use crate::turns::Turns;
use mvo_disk::Disk;
use mvo_marks::Marks;
use mvo_store::{Done, Generation, Log, Manifest, Progress, Spent, StoreCall, StoreCaller, turn};
use mvo_types::{Refusal, Stamp};
use std::marker::Model;
use std::sync::MutexGuard;

/// The lock of the store, taken. It lends the calls of the store: those of the log, of each job,
/// and the reclaiming of files. Given back, it wakes those who wait for the disk.
pub struct StoreGuard<'e, L: Run, D: Disk> {
    pub(crate) held: MutexGuard<'e, LockedStore<L, D>>,
    marks: &'e Marks,
    turns: &'e Turns,
    ghost named: { marks.now ≡ L.marks },
}

impl<'e, L: Run, D: Disk> Drop for StoreGuard<'e, L, D> {
    fn drop(self) {
        let StoreGuard {
            held,
            marks: _,
            turns,
        } = self;
        drop(held);
        turns.ring();
    }
}

impl<'e, L: Run, D: Disk> Model for StoreGuard<'e, L, D> {
    ghost use Rattle.std.specs.Coded.{codes};
    ghost use Rattle.std.specs.Sync.Mutex.{mutex_guard_value};
    ghost use Rattle.mvo_store.specs.Places.{coded_places};
    ghost use Rattle.mvo_store.specs.Table.{coded_table};
    ghost use Rattle.mvo_engine.specs.States.{StoreState};

    ghost Value = { StoreState D };

    ghost coded = { Prim.hlevel (codes, coded_places, coded_table) };

    ghost view = { λ g. mutex_guard_value g.held };
}

impl<'e, L: Run, D: Disk> StoreGuard<'e, L, D> {
    ghost use Rattle.std.specs.Prelude.{◌≡◌, ◌≤◌, OnOk, IfErr};
    ghost use Rattle.mvo_store.specs.Seen.{mark_of, installed_manifest};
    ghost use Rattle.mvo_store.specs.Causes.{why_not_take};
    ghost use Rattle.mvo_store.specs.Flushing.{IsTurn};
    ghost use Rattle.mvo_engine.specs.Sound.{LeavesReceived};
    ghost use Rattle.mvo_engine.specs.Calls.{IsLockedCall, IsLockedSlice, IsLockedOpening};
    ghost use Rattle.mvo_engine.specs.Calls.{IsTaking, HasTaken, IsNotTaken};
    ghost use Rattle.mvo_engine.specs.Flushing.{IsFlushOfOne};

    pub(crate) fn new(
        held: MutexGuard<'e, LockedStore<L, D>>,
        marks: &'e Marks,
        turns: &'e Turns,
    ) -> StoreGuard<'e, L, D>
        requires { marks.now ≡ L.marks }
    {
        StoreGuard { held, marks, turns }
    }

    /// The mark of the last group that is durable, or the one that the store opened at. Each image
    /// that a stop now may leave gives the opening rows followed by the groups that were received,
    /// up to a mark at least this one.
    pub fn mark(&self) -> Stamp
        ensures value { result.0 ≡ mark_of self.now.store }
        ensures images { LeavesReceived D.Disk L.opening self.now.received self.now.store }
    {
        self.held.mark()
    }

    /// The installed manifest.
    pub fn manifest(&self) -> &Manifest
        ensures { result.now ≡ installed_manifest self.now.store }
    {
        self.held.manifest()
    }

    /// The refusal that `take` would give, but for an empty ring.
    pub fn can_take(&self) -> Option<Refusal>
        ensures { result ≡ why_not_take self.now.store }
    {
        self.held.can_take()
    }

    /// How far a session has seen commits to be durable is at most the store's mark.
    pub fn confirm<G: Gate + Drop>(&mut self, session: &mut Session<'_, L, D, G>)
        ensures seen { session.old.durable ≤ mark_of self.old.store }
        ensures session { session.new ≡ session.old }
        ensures store { self.new ≡ self.old }
    {
        session.confirm(&mut *self.held);
    }

    /// Takes the next group out of the ring, to append it. Refused: Down, Busy where a group is
    /// pending, NothingToDo where none was seen in the ring.
    pub fn take(&mut self) -> Result<(), Refusal>
        ensures taken { OnOk result (HasTaken D.Disk self.old self.new) }
        ensures refused { IfErr result (λ e. IsNotTaken self.old e self.new) }
    {
        self.held.take()
    }

    /// As `Store::call`. A mark that is durable then is published.
    pub fn call(&mut self, call: StoreCall) -> Result<Done, Refusal>
        ensures { IsLockedCall D.Disk self.old call result self.new }
    {
        self.held.call(self.marks, call)
    }

    /// The next slice of a data file, of the places, of two pairs that are to be merged, of a
    /// segment that a checkpoint is made of, or of a long file that nobody names: as
    /// `Store::checkpoint_slice`, `Store::merge_slice`, `Store::place_slice`,
    /// `Store::merge_read_slice`, `Store::checkpoint_read_slice` and `Store::shorten_slice`. It
    /// answers whether more are left. More comes with `Store::merge_begin` and
    /// `Store::checkpoint_begin`, Ready with `Store::merge_forget` and `Store::checkpoint_forget`.
    pub fn slice(&mut self, slice: Slice) -> Result<Progress, Refusal>
        ensures { IsLockedSlice D.Disk self.old slice result self.new }
    {
        self.held.slice(slice)
    }

    /// The last step of an install, as `Store::open_installed`: it answers what the job held, whose
    /// memory is given back row by row. Drop it behind the guard.
    pub fn open_installed(&mut self) -> Result<(Generation, Spent), Refusal>
        ensures { IsLockedOpening D.Disk self.old result self.new }
    {
        self.held.open_installed()
    }

    /// One step of a flush: makes the group durable that is being appended, or else the next one
    /// that is seen in the ring, and publishes its mark; false where there is none. Where the
    /// segment is full for it, the log is rotated first.
    ///
    /// Refused as the first of its steps that stops it: Down, ClockSpent, SegmentsFull,
    /// OutOfMemory, DiskFault, and Busy where the segment is full beside a job, since a job is
    /// brought on by its own steps alone. Nothing more is durable then, and what its earlier steps
    /// did stays done.
    pub fn flush_one(&mut self) -> Result<bool, Refusal>
        ensures steps { IsTurn (IsTaking D.Disk) (IsLockedCall D.Disk) self.old result self.new }
        ensures flushed { IsFlushOfOne self.old result self.new }
    {
        let came = turn(self);
        self.turns.note(came.is_err());
        came
    }
}

impl<'e, L: Run, D: Disk> StoreCaller for StoreGuard<'e, L, D> {
    ghost use Rattle.mvo_engine.specs.Calls.{IsLockedCall};

    ghost comes_to = { IsLockedCall D.Disk };

    fn call(&mut self, call: StoreCall) -> Result<Done, Refusal> {
        self.held.call(self.marks, call)
    }
}

impl<'e, L: Run, D: Disk> Log for StoreGuard<'e, L, D> {
    ghost use Rattle.mvo_engine.specs.Calls.{IsTaking};

    ghost takes = { IsTaking D.Disk };

    fn take_next(&mut self) -> Result<(), Refusal> {
        self.take()
    }
}
