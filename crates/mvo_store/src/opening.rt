//! Opens a store over what is on its disk.
ghost use Rattle.std.specs.Prelude.{◌≡◌, ◌<◌, ◌≤◌, ◌+◌, ◌^◌, Ok, OnOk, IfOk, IfErr};
ghost use Rattle.mvo_disk.specs.Disk.{IsHonest, AllStay, AllOf, LeavesOnly};
ghost use Rattle.mvo_types.specs.declared.limits.TheConstants.{MAX_SEGMENT_LEN, MAX_STAMP};
ghost use Rattle.mvo_pair.specs.Answers.{Tells};
ghost use Rattle.mvo_pair.specs.Writing.{IsStop, CountsFaults};
ghost use Rattle.mvo_manifest.specs.Rules.{IsFile};
ghost use Rattle.mvo_recovery.specs.Parts.{IsLastFile};
ghost use Rattle.mvo_recovery.specs.Settled.{IsUsed};
ghost use Rattle.mvo_recovery.specs.image.Files.{OpensAs};
ghost use Rattle.mvo_load.specs.Loaded.{IsLoaded};
ghost use Rattle.mvo_load.specs.Parts.{HavePlaces};
ghost use Rattle.mvo_store.specs.declared.limits.TheConstants.{MAX_FAULTS};
ghost use Rattle.mvo_store.specs.Old.{KnowsOld};
ghost use Rattle.mvo_store.specs.Standing.{IsUp, Gives, HasSlots, KeepsRows};
ghost use Rattle.mvo_store.specs.Opening.{IsAnswer, HasBegun, KeepsContent, LeavesAsBefore};
ghost use Rattle.mvo_store.specs.Opening.{HasSynced, IsNotOpened};
ghost use Rattle.mvo_store.specs.Opened.{IsOpenedStore};

use crate::jobs::jobs::Jobs;
use crate::limits::MAX_FAULTS;
use crate::old::find_old;
use crate::store::Store;
use crate::syncing::sync_used;
use mvo_disk::Disk;
use mvo_frame::Segment;
use mvo_load::{Loaded, PairReader, PairsInThreads, PairsInTurn, load};
use mvo_manifest::Manifest;
use mvo_types::{Refusal, Rows, Stamp};
use std::alloc::Global;
use std::thread::Threads;

/// The file of the last segment.
fn last_segment(manifest: &Manifest) -> u16
    ensures last { IsLastFile manifest.now result }
    ensures file { IsFile result }
{
    let segments = manifest.segments();
    segments[segments.len() - 1]
}

/// What is on the disk, and which of the files that its manifest names are old. Nothing changes.
fn load_marked<D: Disk, P: PairReader>(
    reader: &P,
    alloc: Global,
    seed: u64,
    disk: &mut D,
) -> Result<(Loaded, Vec<bool>), Refusal>
    requires reader { P.may_read }
    requires room { D.fault_count disk.old + 1 < 2 ^ 64 }
    ensures says { IsHonest (D.moment disk.new) → Tells IsStop (λ l. (l.0.rows, l.0.mark.0)) result
        (OpensAs (D.content disk.old)) }
    ensures parts { IsHonest (D.moment disk.new) → IfOk result (λ l. IsLoaded
        (D.content disk.old) l.0.manifest l.0.rows l.0.mark.0 l.0.gate) }
    ensures places { IsHonest (D.moment disk.new) → IfOk result (λ l. HavePlaces
        l.0.manifest.version (D.content disk.old) l.0.manifest.pairs l.0.places.at) }
    ensures marks { IsHonest (D.moment disk.new) → IfOk result (λ l.
        KnowsOld (D.content disk.old) l.0.manifest 1024 l.1.items) }
    ensures few { IfOk result (λ l. l.0.gate < MAX_SEGMENT_LEN) }
    ensures stamp { IfOk result (λ l. l.0.mark.0 ≤ MAX_STAMP) }
    ensures count { CountsFaults (D.fault_count disk.old) (D.fault_count disk.new) result }
    ensures rest { AllStay (D.content disk.old) (D.content disk.new) (D.may_leave disk.old)
        (D.may_leave disk.new) }
    ensures any_moment { LeavesOnly D.moment D.left_since disk.old disk.new
        (AllOf (D.may_leave disk.old)) }
{
    let loaded = match load(reader, alloc, disk, seed) {
        Ok(loaded) => loaded,
        Err(refusal) => return Err(refusal),
    };
    match find_old(alloc, disk, &loaded.manifest) {
        Ok(marks) => Ok((loaded, marks)),
        Err(refusal) => Err(refusal),
    }
}

/// The same of a disk that is durable then.
fn load_synced<D: Disk, P: PairReader>(
    reader: &P,
    alloc: Global,
    seed: u64,
    disk: &mut D,
) -> Result<(Loaded, Vec<bool>), Refusal>
    requires reader { P.may_read }
    ensures loaded { IsHonest (D.moment disk.new) → IfOk result (λ l. IsLoaded
        (D.content disk.old) l.0.manifest l.0.rows l.0.mark.0 l.0.gate) }
    ensures places { IsHonest (D.moment disk.new) → IfOk result (λ l. HavePlaces
        l.0.manifest.version (D.content disk.old) l.0.manifest.pairs l.0.places.at) }
    ensures marks { IsHonest (D.moment disk.new) → IfOk result (λ l.
        KnowsOld (D.content disk.old) l.0.manifest 1024 l.1.items) }
    ensures answer { IsHonest (D.moment disk.new) → IfOk result (λ l.
        IsAnswer (D.content disk.old) (Ok (l.0.rows, l.0.mark.0))) }
    ensures synced { IfOk result (λ l.
        HasSynced D.Disk (IsUsed l.0.manifest) 1024 disk.old disk.new) }
    ensures gate { IfOk result (λ l. l.0.gate < MAX_SEGMENT_LEN) }
    ensures stamp { IfOk result (λ l. l.0.mark.0 ≤ MAX_STAMP) }
    ensures few { OnOk result (D.fault_count disk.old < MAX_FAULTS) }
    ensures refused { IfErr result (λ e. IsNotOpened D.Disk disk.old e disk.new) }
    ensures content { KeepsContent D.Disk disk.old disk.new }
    ensures any_moment { LeavesAsBefore D.Disk disk.old disk.new }
{
    if disk.faults() >= MAX_FAULTS {
        return Err(Refusal::ClockSpent);
    }
    let found = match load_marked(reader, alloc, seed, disk) {
        Ok(found) => found,
        Err(refusal) => return Err(refusal),
    };
    let Ok(()) = sync_used(disk, &found.0.manifest) else {
        return Err(Refusal::DiskFault);
    };
    Ok(found)
}

impl<D: Disk> Store<D> {
    /// Opens what is on the disk, and answers its rows and mark, where the disk answers as written.
    /// It writes and cuts nothing, and syncs what it read before it answers Ok: both slots and each
    /// file that the manifest names.
    /// Refused, the disk comes back. The seed decides where the places of the records stand in
    /// memory; who chooses the keys must not know it.
    ///
    /// Refused: ClockSpent where the fault counter is 2^63 or above; then by the first rule that is
    /// broken, in the order slot 0, slot 1, pairs, segments: NotFormatted, Corrupt with the file,
    /// or BadVersion. OutOfMemory or DiskFault may stand in the place of any later answer.
    pub fn open(
        rt: &(impl Threads + Sync),
        alloc: Global,
        seed: u64,
        disk: D,
    ) -> Result<(Store<D>, Rows, Stamp), (Refusal, D)>
        ensures answer { IfOk result (λ x. IsHonest (D.moment x.0.disk) →
            IsAnswer (D.content disk) (Ok (x.1, x.2.0))) }
        ensures gives { IfOk result (λ x. IsHonest (D.moment x.0.disk) →
            Gives x.1 x.2.0 (D.content disk)) }
        ensures up { IfOk result (λ x. IsHonest (D.moment x.0.disk) → IsUp D.Disk x.0 x.1) }
        ensures keeps { IfOk result (λ x. IsHonest (D.moment x.0.disk) →
            HasSlots (D.content disk) → KeepsRows D.Disk x.0 x.1) }
        ensures begins { IfOk result (λ x. HasBegun D.Disk disk x.0 x.2.0) }
        ensures stamp { IfOk result (λ x. x.2.0 ≤ MAX_STAMP) }
        ensures content { IfOk result (λ x. KeepsContent D.Disk disk x.0.disk) }
        ensures any_moment { IfOk result (λ x. LeavesAsBefore D.Disk disk x.0.disk) }
        ensures refused { IfErr result (λ e. IsNotOpened D.Disk disk e.0 e.1) }
        ensures content_err { IfErr result (λ e. KeepsContent D.Disk disk e.1) }
        ensures any_moment_err { IfErr result (λ e. LeavesAsBefore D.Disk disk e.1) }
    {
        Store::open_by(&PairsInThreads::new(rt), alloc, seed, disk)
    }

    /// The same as `open`, in the calling thread alone: it starts no other, and takes no leave to.
    pub fn open_in_turn(
        alloc: Global,
        seed: u64,
        disk: D,
    ) -> Result<(Store<D>, Rows, Stamp), (Refusal, D)>
        ensures { IsOpenedStore D.Disk disk result }
    {
        Store::open_by(&PairsInTurn, alloc, seed, disk)
    }

    /// The same as `open`, where this reader reads the pairs.
    pub fn open_by<P: PairReader>(
        reader: &P,
        alloc: Global,
        seed: u64,
        disk: D,
    ) -> Result<(Store<D>, Rows, Stamp), (Refusal, D)>
        requires { P.may_read }
        ensures { IsOpenedStore D.Disk disk result }
    {
        let mut disk = disk;
        let (loaded, old_marks) = match load_synced(reader, alloc, seed, &mut disk) {
            Ok(found) => found,
            Err(refusal) => return Err((refusal, disk)),
        };
        let Loaded {
            manifest,
            rows,
            places,
            mark,
            gate,
        } = loaded;
        let segment = Segment {
            file: last_segment(&manifest),
            gate,
            next: gate,
        };
        let store = Store {
            alloc,
            disk,
            manifest,
            places,
            old_marks,
            segment,
            mark,
            pending: None,
            written: false,
            jobs: Jobs::none(),
            down: false,
        };
        Ok((store, rows, mark))
    }
}
