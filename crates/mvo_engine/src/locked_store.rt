mod standing;

ghost use Rattle.std.specs.Prelude.{◌≡◌, Some, IsTrue, IfOk};
ghost use Rattle.mvo_store.specs.Calls.{IsStoreStep};
ghost use Rattle.mvo_engine.specs.Calls.{asked_by, told_with, AnswersAsked};
ghost use Rattle.mvo_types.specs.declared.refusal.Refusal.{Refusal};

use crate::chain::Chain;
use crate::run::Run;
use crate::slice::Slice;
use crate::taken::Taken;
use mvo_disk::Disk;
use mvo_group::Group;
use mvo_marks::{Marks, Publisher, Seat};
use mvo_store::{Done, Generation, Manifest, Progress, Spent, Store, StoreCall};
use mvo_types::{Refusal, Stamp};
use rtrb::{Consumer, Producer};
use std::alloc::Global;
use std::marker::{Model, PhantomData};

/// What lies under the lock of the store: the store, the end of the ring from which it takes
/// groups, and the seat that publishes its mark.
///
/// Each image that a stop now may leave is well formed, and gives the rows that the run opened with
/// followed by the groups that were received, up to a mark at least the store's (`IsSoundStore`).
pub struct LockedStore<L: Run, D: Disk> {
    store: Store<D>,
    ring: Consumer<Group, Global, Chain>,
    /// How many groups were taken out of it.
    groups: u64,
    publisher: Publisher,
    /// What was taken out of the ring: how many commits that wrote, and the bytes of their groups.
    taken: Taken,
    run: PhantomData<L>,
}

impl<L: Run, D: Disk + Drop> Drop for LockedStore<L, D> {
    fn drop(self) {
        let LockedStore {
            store: _,
            ring: _,
            groups: _,
            publisher: _,
            taken: _,
            run: _,
        } = self;
    }
}

impl<L: Run, D: Disk> Model for LockedStore<L, D> {
    ghost use Rattle.std.specs.Prelude.{◌≡◌, ◌≤◌};
    ghost use Rattle.std.specs.Coded.{codes};
    ghost use Rattle.mvo_store.specs.Places.{coded_places};
    ghost use Rattle.mvo_store.specs.Table.{coded_table};
    ghost use Rattle.rtrb.specs.Ring.{received};
    ghost use Rattle.mvo_store.specs.Seen.{mark_of};
    ghost use Rattle.mvo_engine.specs.Passing.{count_of_groups};
    ghost use Rattle.mvo_engine.specs.run.Rings.{ring_from};
    ghost use Rattle.mvo_engine.specs.Sound.{IsSoundStore};
    ghost use Rattle.mvo_engine.specs.States.{StoreState};

    ghost Value = { StoreState D };

    ghost coded = { Prim.hlevel (codes, coded_places, coded_table) };

    ghost view = { λ s. record {
      store = s.store;
      received = received s.ring;
      published = s.publisher.known.published;
    } };

    ghost invariant = { λ s. IsSoundStore D.Disk L.opening s.store (received s.ring) ×
        (s.publisher.marks ≡ L.marks) × (s.publisher.known.published ≤ mark_of s.store) ×
        ((ring_from s.ring ≡ L.ring) × (s.groups ≡ count_of_groups (received s.ring))) };
}

impl<L: Run, D: Disk> LockedStore<L, D> {
    ghost use Rattle.std.specs.Prelude.{◌≡◌, ◌≤◌, ◌++◌, List, Some};
    ghost use Rattle.std.specs.Prelude.{OnOk, IfErr, IsTrue};
    ghost use Rattle.rtrb.specs.Ring.{sent, received};
    ghost use Rattle.mvo_group.specs.Data.{GroupData};
    ghost use Rattle.mvo_disk.specs.Disk.{IsHonest};
    ghost use Rattle.mvo_engine.specs.Opening.{WasFormatted};
    ghost use Rattle.mvo_store.specs.Seen.{disk_of, mark_of, installed_manifest};
    ghost use Rattle.mvo_store.specs.Causes.{why_not_take};
    ghost use Rattle.mvo_engine.specs.Passing.{count_of_groups};
    ghost use Rattle.mvo_engine.specs.run.Rings.{ring_of, ring_from};
    ghost use Rattle.mvo_engine.specs.Sound.{IsSoundStore, GivesReceived, LeavesReceived};
    ghost use Rattle.mvo_engine.specs.Calls.{IsLockedCall, IsLockedSlice, IsLockedOpening};
    ghost use Rattle.mvo_engine.specs.Calls.{HasTaken, IsNotTaken};
    ghost use Rattle.mvo_engine.specs.Asked.{WasDown};

    /// A store with its end of the ring, out of which so many groups were taken, and the publishing
    /// seat.
    pub fn new(
        store: Store<D>,
        ring: Consumer<Group, Global, Chain>,
        groups: u64,
        publisher: Publisher,
    ) -> LockedStore<L, D>
        requires sound { IsSoundStore D.Disk L.opening store (received ring) }
        requires marks { publisher.marks ≡ L.marks }
        requires published { publisher.known.published ≤ mark_of store }
        requires ring { ring_from ring ≡ L.ring }
        requires groups { groups ≡ count_of_groups (received ring) }
        ensures store { result.store ≡ store }
        ensures received { result.received ≡ received ring }
    {
        LockedStore {
            store,
            ring,
            groups,
            publisher,
            taken: Taken::new(),
            run: PhantomData,
        }
    }

    /// The disk, as it stands.
    pub fn into_disk(self) -> D
        ensures disk { result ≡ disk_of self.store }
        ensures images { LeavesReceived D.Disk L.opening self.received self.store }
        ensures gives { IsHonest (D.moment result) → WasFormatted L.opening →
            GivesReceived L.opening self.received (mark_of self.store) (D.content result) }
    {
        let LockedStore {
            store,
            ring: _,
            groups: _,
            publisher: _,
            taken: _,
            run: _,
        } = self;
        store.into_disk()
    }

    /// The mark of the last group that is durable, or the one that the store opened at. Each image
    /// that a stop now may leave gives the opening rows followed by the groups that were received,
    /// up to a mark at least this one, as long as the disk answers as written.
    pub fn mark(&self) -> Stamp
        ensures value { result.0 ≡ mark_of self.now.store }
        ensures images { LeavesReceived D.Disk L.opening self.now.received self.now.store }
    {
        self.store.mark()
    }

    /// With both ends of the ring in one thread: what was received begins what was sent. It changes
    /// nothing.
    pub fn audit(&mut self, producer: &mut Producer<Group, Global, Chain>)
        requires { ring_of producer.old ≡ L.ring }
        ensures begins { (rest : List GroupData) × (self.old.received ++ rest ≡ sent producer.old) }
        ensures images { LeavesReceived D.Disk L.opening self.old.received self.old.store }
        ensures sent { sent producer.new ≡ sent producer.old }
        ensures ring { ring_of producer.new ≡ ring_of producer.old }
        ensures same { self.new ≡ self.old }
    {
        self.ring.slots_beside(producer);
    }

    /// The installed manifest.
    pub fn manifest(&self) -> &Manifest
        ensures { result.now ≡ installed_manifest self.now.store }
    {
        self.store.manifest()
    }

    /// The refusal that `take` would give, but for an empty ring.
    pub fn can_take(&self) -> Option<Refusal>
        ensures why { result ≡ why_not_take self.now.store }
        ensures sound { IsSoundStore D.Disk L.opening self.now.store self.now.received }
    {
        self.store.can_take()
    }

    /// What a session has seen of the durable mark is at most the store's mark.
    pub fn confirm(&mut self, marks: &Marks, seat: &mut Seat)
        requires marks { marks.now ≡ L.marks }
        requires seat { seat.old.marks ≡ L.marks }
        ensures seen { seat.old.known.durable ≤ mark_of self.old.store }
        ensures seat { seat.new ≡ seat.old }
        ensures store { self.new ≡ self.old }
    {
        marks.confirm(&mut self.publisher, seat);
    }

    /// Whether the store is down, at a mark that is at least what the seat has seen.
    pub fn is_down(&mut self, marks: &Marks, seat: &mut Seat) -> bool
        requires marks { marks.now ≡ L.marks }
        requires seat { seat.old.marks ≡ L.marks }
        ensures down { IsTrue result → WasDown D.Disk L.opening seat.old.known.durable }
        ensures seat { seat.new ≡ seat.old }
    {
        self.confirm(marks, seat);
        is_of_down(self.can_take())
    }

    /// Takes the next group out of the ring, to append it. Refused: Down, Busy where a group is
    /// pending, NothingToDo where none was seen in the ring.
    pub fn take(&mut self) -> Result<(), Refusal>
        ensures taken { OnOk result (HasTaken D.Disk self.old self.new) }
        ensures refused { IfErr result (λ e. IsNotTaken self.old e self.new) }
    {
        if let Some(refusal) = self.store.can_take() {
            return Err(refusal);
        }
        let Ok(group) = self.ring.pop() else {
            return Err(Refusal::NothingToDo);
        };
        // A look at a field: from then on the proof knows that the group keeps its rules.
        let _ = group.mark();
        self.groups = self.groups.saturating_add(1);
        self.taken.count(&group);
        self.store.accept_group(group);
        Ok(())
    }

    /// As the call of `Store` that makes this slice: `checkpoint_slice`, `merge_slice`,
    /// `place_slice`, `shorten_slice`; `merge_begin` and `checkpoint_begin`, which answer More;
    /// `merge_read_slice`, `checkpoint_read_slice`; `merge_forget` and `checkpoint_forget`, which
    /// answer Ready.
    pub fn slice(&mut self, slice: Slice) -> Result<Progress, Refusal>
        ensures { IsLockedSlice D.Disk self.old slice result self.new }
    {
        match slice_of(&mut self.store, slice) {
            Ok(progress) => Ok(progress),
            Err(refusal) => Err(refusal),
        }
    }

    /// As `Store::open_installed`.
    pub fn open_installed(&mut self) -> Result<(Generation, Spent), Refusal>
        ensures { IsLockedOpening D.Disk self.old result self.new }
    {
        match self.store.open_installed() {
            Ok(opened) => Ok(opened),
            Err(refusal) => Err(refusal),
        }
    }

    /// As `Store::call`. A mark that is durable then is published.
    pub fn call(&mut self, marks: &Marks, call: StoreCall) -> Result<Done, Refusal>
        requires { marks.now ≡ L.marks }
        ensures { IsLockedCall D.Disk self.old call result self.new }
    {
        match self.store.call(call) {
            Ok(Done::Durable(durable)) => {
                marks.publish(&mut self.publisher, &durable);
                Ok(Done::Durable(durable))
            }
            Ok(done) => Ok(done),
            Err(refusal) => Err(refusal),
        }
    }
}

// A slice of what the store does.
fn slice_of<D: Disk>(store: &mut Store<D>, slice: Slice) -> Result<Progress, Refusal>
    ensures step { IsStoreStep D.Disk store.old (asked_by slice) result store.new }
    ensures answers { IfOk result (λ progress.
        AnswersAsked D.Disk slice store.old store.new progress) }
{
    match slice {
        Slice::Checkpoint => store.checkpoint_slice(),
        Slice::Merge => store.merge_slice(),
        Slice::Places => store.place_slice(),
        Slice::MergeBegin(place) => told(store.merge_begin(place), Progress::More),
        Slice::MergeRead => store.merge_read_slice(),
        Slice::MergeForget => told(store.merge_forget(), Progress::Ready),
        Slice::CheckpointBegin => told(store.checkpoint_begin(), Progress::More),
        Slice::CheckpointRead => store.checkpoint_read_slice(),
        Slice::CheckpointForget => told(store.checkpoint_forget(), Progress::Ready),
        Slice::Shorten => store.shorten_slice(),
    }
}

// What is told of what has no answer.
fn told(done: Result<(), Refusal>, progress: Progress) -> Result<Progress, Refusal>
    ensures { result ≡ told_with progress done }
{
    match done {
        Ok(()) => Ok(progress),
        Err(refusal) => Err(refusal),
    }
}

// Whether the refusal is Down.
fn is_of_down(refusal: Option<Refusal>) -> bool
    ensures { IsTrue result → refusal ≡ Some Refusal.Down }
{
    matches!(refusal, Some(Refusal::Down))
}
