use super::World;
use crate::event::Event;
use crate::reply::Reply;
use mvo_disk::Disk;
use mvo_types::Refusal;
use std::alloc::Global;
use std::thread::Threads;

impl<D: Disk> World<D> {
    ghost use Rattle.std.specs.Prelude.{◌≡◌, length, IfOk, IfErr};
    ghost use Rattle.mvo_disk.specs.Disk.{IsHonest};
    ghost use Rattle.mvo_store.specs.Standing.{HasSlots};
    ghost use Rattle.mvo_store.specs.Opening.{KeepsContent, LeavesAsBefore, IsNotOpened};
    ghost use Rattle.mvo_world.specs.Promise.{KeepsPromise};

    /// Opens what is on the disk, runs the events, one after another, and gives the disk back with
    /// their replies. Refused as `open` is, or with OutOfMemory; then nothing has run.
    ///
    /// This is the promise of a formatted disk: the replies are serial, and whatever a stop leaves,
    /// before or within any event, recovers the rows after the transactions committed up to some
    /// timestamp, with every acknowledged one among them, as long as the disk answers as written.
    ///
    /// It answers as written: each length and each byte that it answered since it was opened was
    /// what had been written there last, or, where nothing was written since, what its file held as
    /// it was opened.
    pub fn run_over(
        rt: &(impl Threads + Sync),
        alloc: Global,
        seed: u64,
        disk: D,
        events: &[Event],
    ) -> Result<(Vec<Reply>, D), (Refusal, D)>
        ensures promise { IfOk result (λ x. (IsHonest (D.moment disk) →
            HasSlots (D.content disk)) → KeepsPromise D.Disk disk events.now x.0.items x.1) }
        ensures replies { IfOk result (λ x. length x.0.items ≡ length events.now) }
        ensures refused { IfErr result (λ e. IsNotOpened D.Disk disk e.0 e.1) }
        ensures content { IfErr result (λ e. KeepsContent D.Disk disk e.1) }
        ensures any_moment { IfErr result (λ e. LeavesAsBefore D.Disk disk e.1) }
    {
        let mut world = match World::open(rt, alloc, seed, disk) {
            Ok(world) => world,
            Err(refused) => return Err(refused),
        };
        match world.run(events) {
            Ok(replies) => Ok((replies, world.into_disk())),
            Err(refusal) => Err((refusal, world.into_disk())),
        }
    }
}
