mod forgetting;
mod keeping;
mod log;
mod running;
mod steps;
mod transactions;

use crate::event::Event;
use crate::push::push_reserved;
use crate::reply::{Reply, reply_of, reply_to_taking};
use crate::ring::Ring;
use mvo_core::{Core, IndexMaker, IndexesInThreads, IndexesInTurn};
use mvo_disk::Disk;
use mvo_store::{PairReader, PairsInThreads, PairsInTurn, Store};
use mvo_types::{Refusal, Stamp};
use std::alloc::Global;
use std::marker::Model;
use std::thread::Threads;

/// The event core, the ring of closed groups, and the store of groups, in one value.
///
/// A world that `open` gave stands after its past (`IsAfter`): the committed transactions' replies
/// are serial, and each image that a stop may leave recovers a prefix of the commits with all that
/// was acknowledged.
pub struct World<D: Disk> {
    alloc: Global,
    core: Core,
    ring: Ring,
    store: Store<D>,
}

impl<D: Disk + Drop> Drop for World<D> {
    fn drop(self) {
        let World {
            alloc: _,
            core: _,
            ring: _,
            store: _,
        } = self;
    }
}

impl<D: Disk> Model for World<D> {
    ghost use Rattle.std.specs.Coded.{codes};
    ghost use Rattle.mvo_core.specs.contracts.event_core.Core.{the_row as core_row};
    ghost use Rattle.mvo_types.specs.Keys.{coded_map as coded_rows};
    ghost use Rattle.mvo_store.specs.Places.{coded_places};
    ghost use Rattle.mvo_store.specs.Table.{coded_table};
    ghost use Rattle.mvo_world.specs.WorldData.{WorldData, IsSoundWorld};
    ghost use Rattle.mvo_world.specs.View.{world_data};

    ghost Value = { WorldData D };

    ghost coded = { Prim.hlevel (
      codes,
      core_row.coded,
      coded_rows,
      coded_places,
      coded_table,
    ) };

    ghost view = { world_data };

    ghost invariant = { λ w. IsSoundWorld (world_data w) };
}

impl<D: Disk> World<D> {
    ghost use Rattle.std.specs.Prelude.{◌≡◌, ◌<◌, ℕ, length, Ok, IfOk, IfErr, OnErr};
    ghost use Rattle.mvo_types.specs.Keys.{Map};
    ghost use Rattle.mvo_disk.specs.Disk.{IsHonest};
    ghost use Rattle.mvo_store.specs.declared.limits.TheConstants.{MAX_FAULTS};
    ghost use Rattle.mvo_store.specs.Standing.{Gives, HasSlots};
    ghost use Rattle.mvo_store.specs.Opening.{IsAnswer, KeepsContent, LeavesAsBefore};
    ghost use Rattle.mvo_store.specs.Opening.{IsNotOpened, IsNotOfFiles};
    ghost use Rattle.mvo_store.specs.Seen.{disk_of, mark_of};
    ghost use Rattle.mvo_world.specs.WorldData.{IsJustOpened};
    ghost use Rattle.mvo_world.specs.Past.{Past, opened_over, with_events, IsSerialPast};
    ghost use Rattle.mvo_world.specs.Standing.{IsAfter, IsPrefix, RecoversPrefix, MayLeavePrefix};
    ghost use Rattle.mvo_world.specs.Standing.{HasHonestDisk};
    ghost use Rattle.mvo_world.specs.Promise.{IsOpenedOver};
    ghost use Rattle.mvo_world.specs.Opened.{IsWorldOpening};
    ghost use Rattle.mvo_world.specs.Steps.{IsWorldStep, IsRunStep, AreSteps};

    /// A world over what is on the disk. It writes and cuts nothing. Refused as `Store::open` is,
    /// or with OutOfMemory; the disk comes back. Who chooses the keys of rows must not know the
    /// seed, which decides where keys stand in memory. Many rows are read and indexed in threads.
    ///
    /// The world stands after its past where both manifest slots hold a byte (`HasSlots`), as
    /// `format` leaves them. Where the disk has answered as written until then, it is opened over
    /// the rows that the disk gives; else over some rows.
    pub fn open(
        rt: &(impl Threads + Sync),
        alloc: Global,
        seed: u64,
        disk: D,
    ) -> Result<World<D>, (Refusal, D)>
        ensures stands { IfOk result (λ w. (rows : Map) × IsOpenedOver D.Disk disk rows w) }
        ensures answer { IfOk result (λ w. HasHonestDisk D.Disk w → (rows : Map) ×
            IsAnswer (D.content disk) (Ok (rows, mark_of w.store))) }
        ensures gives { IfOk result (λ w. HasHonestDisk D.Disk w → (rows : Map) ×
            Gives rows (mark_of w.store) (D.content disk)) }
        ensures after { IfOk result (λ w. HasHonestDisk D.Disk w → (rows : Map) →
            Gives rows (mark_of w.store) (D.content disk) → HasSlots (D.content disk) →
            IsAfter D.Disk (opened_over rows (mark_of w.store)) w) }
        ensures prefix { IfOk result (λ w. HasHonestDisk D.Disk w → (rows : Map) →
            Gives rows (mark_of w.store) (D.content disk) → (past : Past) →
            RecoversPrefix past (D.content disk) → IsPrefix past rows (mark_of w.store)) }
        ensures begins { IfOk result (λ w. HasHonestDisk D.Disk w → (rows : Map) →
            Gives rows (mark_of w.store) (D.content disk) → IsJustOpened rows w) }
        ensures content { IfOk result (λ w. KeepsContent D.Disk disk (disk_of w.store)) }
        ensures any_moment { IfOk result (λ w. LeavesAsBefore D.Disk disk (disk_of w.store)) }
        ensures few { IfOk result (λ w. D.fault_count disk < MAX_FAULTS) }
        ensures count { IfOk result (λ w.
            D.fault_count (disk_of w.store) ≡ D.fault_count disk) }
        ensures refused { IfErr result (λ e. IsNotOpened D.Disk disk e.0 e.1) }
        ensures well_formed { IfErr result (λ e. IsHonest (D.moment e.1) →
            (rows : Map) (mark : ℕ) → Gives rows mark (D.content disk) → IsNotOfFiles e.0) }
        ensures content_err { IfErr result (λ e. KeepsContent D.Disk disk e.1) }
        ensures any_moment_err { IfErr result (λ e. LeavesAsBefore D.Disk disk e.1) }
    {
        let (reader, maker) = (PairsInThreads::new(rt), IndexesInThreads::new(rt));
        World::open_by(&reader, &maker, alloc, seed, disk)
    }

    /// The same as `open`, in the calling thread alone: it starts no other, and takes no leave to.
    pub fn open_in_turn(alloc: Global, seed: u64, disk: D) -> Result<World<D>, (Refusal, D)>
        ensures { IsWorldOpening D.Disk disk result }
    {
        World::open_by(&PairsInTurn, &IndexesInTurn, alloc, seed, disk)
    }

    // The same, with the pairs that this reader reads, and the indexes that this one makes.
    fn open_by<P: PairReader, M: IndexMaker>(
        reader: &P,
        maker: &M,
        alloc: Global,
        seed: u64,
        disk: D,
    ) -> Result<World<D>, (Refusal, D)>
        requires reader { P.may_read }
        requires maker { M.may_make }
        ensures { IsWorldOpening D.Disk disk result }
    {
        let (store, rows, mark) = match Store::open_by(reader, alloc, seed, disk) {
            Ok(opened) => opened,
            Err(refused) => return Err(refused),
        };
        let Ok(ring) = Ring::new(alloc) else {
            return Err((Refusal::OutOfMemory, store.into_disk()));
        };
        let Ok(core) = Core::open_by(maker, alloc, seed, rows, mark) else {
            return Err((Refusal::OutOfMemory, store.into_disk()));
        };
        Ok(World {
            alloc,
            core,
            ring,
            store,
        })
    }

    /// The mark of the last group that is durable, or the one that the world opened at.
    pub fn mark(&self) -> Stamp
        ensures value { result.0 ≡ mark_of self.now.store }
        ensures images { (past : Past) → IsAfter D.Disk past self.now →
            HasHonestDisk D.Disk self.now →
            MayLeavePrefix D.Disk past (disk_of self.now.store) }
    {
        self.store.mark()
    }

    /// The disk, as it stands.
    pub fn into_disk(self) -> D
        ensures disk { result ≡ disk_of self.store }
        ensures prefix { (past : Past) → IsAfter D.Disk past self → HasHonestDisk D.Disk self →
            RecoversPrefix past (D.content result) }
    {
        let World {
            alloc: _,
            core: _,
            ring: _,
            store: left,
        } = self;
        left.into_disk()
    }

    /// The core, the ring of closed groups, and the store.
    pub fn into_parts(self) -> (Core, Ring, Store<D>)
        ensures core { result.0 ≡ self.core }
        ensures ring { result.1 ≡ self.ring }
        ensures store { result.2 ≡ self.store }
    {
        let World {
            alloc: _,
            core,
            ring,
            store,
        } = self;
        (core, ring, store)
    }

    /// One step. Its reply is the first refusal whose cause stands, and else the event's own
    /// answer; a step of the store that is not refused so may still meet out of memory, a fault of
    /// the disk, or, where it reads for a checkpoint or a merge, a file that breaks a rule.
    ///
    /// The answer or the refusal of an event of a transaction is justified by what was asked and
    /// answered before it, whatever that was (`IsWorldStep`: `justified`). A version is collected
    /// only where one was left of those that were put.
    pub fn step(&mut self, event: Event) -> Reply
        ensures { IsWorldStep D.Disk self.old event result self.new }
    {
        match event {
            Event::Begin => self.begin(),
            Event::BeginReadOnly => self.begin_read_only(),
            Event::Do(tx, op) => self.operate(tx, op),
            Event::Precommit(tx) => self.precommit(tx),
            Event::Validate(tx) => self.validate(tx),
            Event::Settle(tx) => self.settle(tx),
            Event::Rollback(tx) => self.roll_back(tx),
            Event::Finish(tx) => self.finish(tx),
            Event::Collect => self.collect(),
            Event::Trim(upto) => self.trim(upto),
            Event::CloseGroup => self.close_group(),
            Event::TakeGroup => reply_to_taking(self.take_group()),
            Event::Store(call) => reply_of(self.call_store(call)),
            Event::Poll(stamp) => self.poll(stamp),
        }
    }

    // One step, of an event that is kept.
    fn step_copy(&mut self, event: &Event) -> Reply
        ensures { IsRunStep D.Disk self.old event.now result self.new }
    {
        match event.copy() {
            Ok(event) => self.step(event),
            Err(_) => Reply::Refused(Refusal::OutOfMemory),
        }
    }

    /// Runs the events, one after another, each as `step` does. It takes room for its replies
    /// first: refused with OutOfMemory, it has run nothing. An event whose copy is refused, which
    /// has a row, is answered OutOfMemory and does nothing.
    ///
    /// What `after` says of rows and images has one premise: each length and each byte that the
    /// disk answered since it was opened was what had been written there last, or, where nothing
    /// was written since, what its file held as it was opened. All else holds whatever it answers.
    pub fn run(&mut self, events: &[Event]) -> Result<Vec<Reply>, Refusal>
        ensures each { IfOk result (λ replies.
            AreSteps (IsRunStep D.Disk) self.old events.now replies.items self.new) }
        ensures replies { IfOk result (λ replies. length replies.items ≡ length events.now) }
        ensures serial { IfOk result (λ replies. (past : Past) → IsAfter D.Disk past self.old →
            IsSerialPast (with_events past events.now replies.items)) }
        ensures after { IfOk result (λ replies. (past : Past) → IsAfter D.Disk past self.old →
            IsAfter D.Disk (with_events past events.now replies.items) self.new) }
        ensures memory { IfErr result (λ r. r ≡ Refusal.OutOfMemory) }
        ensures err { OnErr result (self.new ≡ self.old) }
    {
        let mut replies = Vec::new(self.alloc);
        replies.reserve(events.len())?;
        for event in events {
            let reply = self.step_copy(event);
            push_reserved(&mut replies, reply);
        }
        Ok(replies)
    }
}
