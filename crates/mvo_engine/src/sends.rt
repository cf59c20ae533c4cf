use crate::chain::Chain;
use crate::locked_store::LockedStore;
use crate::run::Run;
use mvo_core::{Closed, Core};
use mvo_disk::Disk;
use mvo_group::Group;
use mvo_marks::{Marks, Seat};
use mvo_types::Refusal;
use rtrb::Producer;
use std::alloc::Global;
use std::marker::{Model, PhantomData};

/// Where the core closes its groups: the end of the ring into which they go, how many did, and the
/// seat that raises the closed mark, from which those of sessions are split.
pub struct Sends<L: Run> {
    ring: Producer<Group, Global, Chain>,
    groups: u64,
    seat: Seat,
    run: PhantomData<L>,
}

impl<L: Run> Drop for Sends<L> {
    fn drop(self) {
        let Sends {
            ring: _,
            groups: _,
            seat: _,
            run: _,
        } = self;
    }
}

impl<L: Run> Model for Sends<L> {
    ghost use Rattle.std.specs.Prelude.{◌≡◌};
    ghost use Rattle.rtrb.specs.Ring.{sent};
    ghost use Rattle.mvo_engine.specs.Passing.{count_of_groups};
    ghost use Rattle.mvo_engine.specs.run.Rings.{ring_of};
    ghost use Rattle.mvo_engine.specs.States.{SendsState};

    ghost Value = { SendsState };

    ghost view = { λ s. record { sent = sent s.ring; raised = s.seat.known.raised } };

    ghost invariant = { λ s. (s.seat.marks ≡ L.marks) × (ring_of s.ring ≡ L.ring) ×
        (s.groups ≡ count_of_groups (sent s.ring)) };
}

impl<L: Run> Sends<L> {
    ghost use Rattle.std.specs.Prelude.{◌≡◌, ◌++◌, List};
    ghost use Rattle.rtrb.specs.Ring.{sent};
    ghost use Rattle.mvo_group.specs.Data.{GroupData};
    ghost use Rattle.mvo_core.specs.Seen.{closed_mark_of};
    ghost use Rattle.mvo_engine.specs.Passing.{count_of_groups};
    ghost use Rattle.mvo_engine.specs.run.Rings.{ring_of};
    ghost use Rattle.mvo_engine.specs.Sound.{last_mark, IsSoundCore, LeavesReceived};
    ghost use Rattle.mvo_engine.specs.Calls.{IsSending};

    /// An end of the ring, into which so many groups went, with a seat.
    pub fn new(ring: Producer<Group, Global, Chain>, groups: u64, seat: Seat) -> Sends<L>
        requires seat { seat.marks ≡ L.marks }
        requires ring { ring_of ring ≡ L.ring }
        requires groups { groups ≡ count_of_groups (sent ring) }
        ensures sent { result.sent ≡ sent ring }
        ensures raised { result.raised ≡ seat.known.raised }
    {
        Sends {
            ring,
            groups,
            seat,
            run: PhantomData,
        }
    }

    /// How many groups were sent.
    pub fn groups(&self) -> u64
        ensures { result ≡ count_of_groups self.now.sent }
    {
        self.groups
    }

    /// With both ends of the ring in one thread: what was received begins what was sent. It changes
    /// nothing.
    pub fn audit<D: Disk>(&mut self, store: &mut LockedStore<L, D>)
        ensures begins { (rest : List GroupData) × (store.old.received ++ rest ≡ self.old.sent) }
        ensures images { LeavesReceived D.Disk L.opening store.old.received store.old.store }
        ensures same { self.new ≡ self.old }
        ensures store { store.new ≡ store.old }
    {
        store.audit(&mut self.ring);
    }

    /// A seat for another session.
    pub fn split(&mut self, marks: &Marks) -> Seat
        requires { marks.now ≡ L.marks }
        ensures marks { result.marks ≡ L.marks }
        ensures same { self.new ≡ self.old }
    {
        marks.split(&mut self.seat)
    }

    /// Closes the core's next group into the ring, as `Core::close_group` does, and raises the
    /// closed mark to that of the group and no further.
    pub fn close_group(&mut self, core: &mut Core, marks: &Marks) -> Result<Closed, Refusal>
        requires marks { marks.now ≡ L.marks }
        requires sound { IsSoundCore L.opening core.old self.old.sent }
        requires last { last_mark self.old.sent ≡ closed_mark_of core.old }
        ensures { IsSending core.old self.old result core.new self.new }
    {
        match core.close_group(&mut self.ring) {
            Ok(closed) => {
                self.groups = self.groups.saturating_add(1);
                marks.raise_closed(&mut self.seat, closed.mark);
                Ok(closed)
            }
            Err(refusal) => Err(refusal),
        }
    }
}
