use crate::chain::Chain;
use crate::ends::Ends;
use crate::run::PARTS;
use mvo_core::Core;
use mvo_disk::Disk;
use mvo_group::Group;
use mvo_marks::{Marks, Publisher, Seat};
use mvo_store::Store;
use mvo_types::Refusal;
use mvo_world::World;
use rtrb::{Consumer, Producer};
use std::alloc::Global;
use std::marker::Model;
use std::sync::ledger::Blank;
use std::thread::Threads;

/// The parts of a run before it has a name: the core and the store of a world, a ring, marks and a
/// ledger.
#[derive(Drop)]
pub struct Fresh<D: Disk> {
    pub(crate) alloc: Global,
    pub(crate) core: Core,
    pub(crate) store: Store<D>,
    pub(crate) producer: Producer<Group, Global, Chain>,
    pub(crate) consumer: Consumer<Group, Global, Chain>,
    pub(crate) marks: Marks,
    pub(crate) publisher: Publisher,
    pub(crate) seat: Seat,
    pub(crate) blank: Blank,
}

impl<D: Disk> Model for Fresh<D> {
    ghost use Rattle.std.specs.Prelude.{◌≡◌};
    ghost use Rattle.std.specs.Coded.{codes};
    ghost use Rattle.mvo_core.specs.contracts.event_core.Core.{the_row as core_row};
    ghost use Rattle.mvo_store.specs.Places.{coded_places};
    ghost use Rattle.mvo_store.specs.Table.{coded_table};
    ghost use Rattle.mvo_store.specs.Seen.{disk_of, mark_of};
    ghost use Rattle.mvo_engine.specs.run.Rings.{ring_of, ring_from};
    ghost use Rattle.mvo_engine.specs.run.Opening.{opening_of};
    ghost use Rattle.mvo_engine.specs.declared.run.run.TheConstants.{PARTS};
    ghost use Rattle.mvo_engine.specs.Opened.{FreshData, HasOpened, AreFreshSeats, IsFreshRing};

    ghost Value = { FreshData D };

    ghost coded = { Prim.hlevel (codes, core_row.coded, coded_places, coded_table) };

    ghost view = { λ f. record {
      core = f.core;
      store = f.store;
      marks = f.marks;
      ring = ring_of f.producer;
      ledger = f.blank.name;
      parts = f.blank.parts;
    } };

    ghost invariant = { λ f. HasOpened D.Disk (opening_of D.Disk (disk_of f.store)) f.core f.store ×
        AreFreshSeats f.marks (mark_of f.store) f.publisher f.seat ×
        IsFreshRing (mark_of f.store) f.producer f.consumer × (f.blank.parts ≡ PARTS) };
}

impl<D: Disk> Fresh<D> {
    ghost use Rattle.std.specs.Prelude.{◌≡◌, ℕ, IfOk, IfErr};
    ghost use Rattle.mvo_types.specs.declared.refusal.Refusal.{Refusal};
    ghost use Rattle.mvo_types.specs.Keys.{Map};
    ghost use Rattle.mvo_disk.specs.Disk.{IsHonest};
    ghost use Rattle.mvo_store.specs.Standing.{Gives};
    ghost use Rattle.mvo_store.specs.Opening.{KeepsContent, LeavesAsBefore};
    ghost use Rattle.mvo_store.specs.Opening.{IsNotOpened, IsNotOfFiles};
    ghost use Rattle.mvo_store.specs.Seen.{disk_of};
    ghost use Rattle.mvo_engine.specs.Opened.{IsOpenedWorld};

    /// Opens what is on the disk, and takes the world apart. Refused as `World::open` is, or with
    /// OutOfMemory; the disk comes back.
    pub fn open(
        rt: &(impl Threads + Sync),
        alloc: Global,
        seed: u64,
        disk: D,
    ) -> Result<Fresh<D>, (Refusal, D)>
        ensures content { IfOk result (λ fresh. KeepsContent D.Disk disk (disk_of fresh.store)) }
        ensures any_moment { IfOk result (λ fresh.
            LeavesAsBefore D.Disk disk (disk_of fresh.store)) }
        ensures count { IfOk result (λ fresh.
            D.fault_count (disk_of fresh.store) ≡ D.fault_count disk) }
        ensures refused { IfErr result (λ e. IsNotOpened D.Disk disk e.0 e.1) }
        ensures well_formed { IfErr result (λ e. IsHonest (D.moment e.1) →
            (rows : Map) (mark : ℕ) → Gives rows mark (D.content disk) → IsNotOfFiles e.0) }
        ensures content_err { IfErr result (λ e. KeepsContent D.Disk disk e.1) }
        ensures any_moment_err { IfErr result (λ e. LeavesAsBefore D.Disk disk e.1) }
    {
        let world = match World::open(rt, alloc, seed, disk) {
            Ok(world) => world,
            Err(refused) => return Err(refused),
        };
        match Fresh::new(alloc, world) {
            Ok(fresh) => Ok(fresh),
            Err((refusal, world)) => Err((refusal, world.into_disk())),
        }
    }

    /// A world as `open` gives it, taken apart. Refused with OutOfMemory, the world comes back.
    pub fn new(alloc: Global, world: World<D>) -> Result<Fresh<D>, (Refusal, World<D>)>
        requires { IsOpenedWorld D.Disk world }
        ensures core { IfOk result (λ fresh. fresh.core ≡ world.core) }
        ensures store { IfOk result (λ fresh. fresh.store ≡ world.store) }
        ensures refused { IfErr result (λ e. e.0 ≡ Refusal.OutOfMemory) }
        ensures world { IfErr result (λ e. e.1 ≡ world) }
    {
        let mark = world.mark();
        let Ok((marks, publisher, seat)) = Marks::new(alloc, mark) else {
            return Err((Refusal::OutOfMemory, world));
        };
        let Ok(ends) = Ends::up_to(alloc, mark) else {
            return Err((Refusal::OutOfMemory, world));
        };
        let Ends { producer, consumer } = ends;
        let (core, _, store) = world.into_parts();
        Ok(Fresh {
            alloc,
            core,
            store,
            producer,
            consumer,
            marks,
            publisher,
            seat,
            blank: Blank::new(PARTS as u64),
        })
    }
}
