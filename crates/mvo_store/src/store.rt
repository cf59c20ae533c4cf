use crate::jobs::due::Due;
use crate::jobs::jobs::Jobs;
use crate::old::{marked_count, marked_pair_count};
use mvo_disk::Disk;
use mvo_frame::Segment;
use mvo_group::Group;
use mvo_manifest::Manifest;
use mvo_places::Places;
use mvo_types::{Refusal, Stamp};
use std::alloc::Global;
use std::marker::Model;

/// A store of groups over the files of a disk: the installed manifest names them.
///
/// Where its disk has answered as written, each image that a stop now may leave is well formed, and
/// gives the rows up to a mark at least the store's. After DiskFault, and after a file came back
/// otherwise than it was written, every step answers Down, until the disk is opened again.
pub struct Store<D: Disk> {
    pub(crate) alloc: Global,
    pub(crate) disk: D,
    /// The installed manifest.
    pub(crate) manifest: Manifest,
    /// Where the live records of its pairs lie.
    pub(crate) places: Places,
    /// Which of the files that it names are of an older version, by their numbers.
    pub(crate) old_marks: Vec<bool>,
    /// The last segment.
    pub(crate) segment: Segment,
    /// The mark of the last group whose gate is open and synced.
    pub(crate) mark: Stamp,
    /// The group that is being appended.
    pub(crate) pending: Option<Group>,
    /// Whether its body stands behind the gate and is synced.
    pub(crate) written: bool,
    /// The jobs that run.
    pub(crate) jobs: Jobs,
    /// Whether the disk met a fault, or a file came back otherwise than it was written.
    pub(crate) down: bool,
}

impl<D: Disk + Drop> Drop for Store<D> {
    fn drop(self) {
        let Store {
            alloc: _,
            disk: _,
            manifest: _,
            places: _,
            old_marks: _,
            segment: _,
            mark: _,
            pending: _,
            written: _,
            jobs: _,
            down: _,
        } = self;
    }
}

impl<D: Disk> Model for Store<D> {
    ghost use Rattle.std.specs.Prelude.{◌≡◌, false};
    ghost use Rattle.std.specs.Coded.{codes};
    ghost use Rattle.mvo_hash.specs.Table.{coded_table};
    ghost use Rattle.mvo_places.specs.Places.{coded_places};
    ghost use Rattle.mvo_store.specs.StoreData.{StoreData};
    ghost use Rattle.mvo_store.specs.Safe.{IsStoreSound};

    ghost Value = { StoreData D };

    ghost coded = { Prim.hlevel (codes, coded_places, coded_table) };

    ghost use Rattle.mvo_store.specs.View.{store_data};

    ghost view = { store_data };

    ghost invariant = { λ s. s.down ≡ false → IsStoreSound D.Disk (store_data s) };
}

impl<D: Disk> Store<D> {
    ghost use Rattle.std.specs.Prelude.{◌≡◌, false, None, Ok, IfErr};
    ghost use Rattle.mvo_disk.specs.Disk.{IsHonest};
    ghost use Rattle.mvo_store.specs.Jobs.{next_due};
    ghost use Rattle.mvo_store.specs.Old.{old_file_count};
    ghost use Rattle.mvo_store.specs.Causes.{has_group, why_not_take};
    ghost use Rattle.mvo_store.specs.Calls.StoreStep.{Take};
    ghost use Rattle.mvo_store.specs.Calls.{IsStoreStep, without_group};

    /// The disk, as it stands.
    pub fn into_disk(self) -> D
        ensures { result ≡ self.disk }
    {
        let Store {
            alloc: _,
            disk,
            manifest: _,
            places: _,
            old_marks: _,
            segment: _,
            mark: _,
            pending: _,
            written: _,
            jobs: _,
            down: _,
        } = self;
        disk
    }

    /// The mark of the last group that is durable, or the one that the store opened at.
    pub fn mark(&self) -> Stamp
        ensures { result.0 ≡ self.now.mark }
    {
        self.mark
    }

    /// The installed manifest.
    pub fn manifest(&self) -> &Manifest
        ensures { result.now ≡ self.now.manifest }
    {
        &self.manifest
    }

    /// Where the closed gate of the last segment stands: how many bytes it has before it, its
    /// header among them.
    pub fn last_gate(&self) -> usize
        ensures { result ≡ self.now.segment.gate }
    {
        self.segment.gate
    }

    /// The next step of a job that runs. Of a checkpoint and a merge beside one another it is that
    /// of the checkpoint, since the last file of a merge waits for it. One that is read has none:
    /// beside a checkpoint that is read it is that of the merge, of which the last file waits.
    pub fn next_step(&self) -> Option<Due>
        ensures { result ≡ next_due self.now.jobs }
    {
        self.jobs.next_step()
    }

    /// How many of the files that the installed manifest names are of an older version than the one
    /// that is written. The slots aren't among them.
    pub fn old_files(&self) -> usize
        ensures { self.now.down ≡ false → IsHonest (D.moment self.now.disk) →
            result ≡ old_file_count (D.content self.now.disk) self.now.manifest }
    {
        let (pairs, segments) = (self.manifest.pairs(), self.manifest.segments());
        marked_pair_count(&self.old_marks, pairs) + marked_count(&self.old_marks, segments)
    }

    /// Whether a group is being appended.
    pub fn has_group(&self) -> bool
        ensures { result ≡ has_group self.now }
    {
        self.pending.is_some()
    }

    /// The refusal that `take_group` would give.
    pub fn can_take(&self) -> Option<Refusal>
        ensures { result ≡ why_not_take self.now }
    {
        if self.down {
            return Some(Refusal::Down);
        }
        if self.has_group() {
            return Some(Refusal::Busy);
        }
        None
    }

    /// Takes a group to append, where `can_take` answers no refusal. Its prev is the store's mark.
    pub fn accept_group(&mut self, group: Group)
        requires free { why_not_take self.old ≡ None }
        requires follows { group.prev ≡ self.old.mark }
        ensures { IsStoreStep {A = Unit {0}} D.Disk self.old (Take group) (Ok tt) self.new }
    {
        // A look at a field: from then on the proof knows that the group keeps its rules.
        let _ = group.mark();
        self.pending = Some(group);
    }

    /// Takes a group to append. Its prev is the store's mark.
    ///
    /// Refused, the group comes back: Down, then Busy where a group is pending.
    pub fn take_group(&mut self, group: Group) -> Result<(), (Refusal, Group)>
        requires follows { why_not_take self.old ≡ None → group.prev ≡ self.old.mark }
        ensures step { IsStoreStep D.Disk self.old (Take group) (without_group result)
            self.new }
        ensures back { IfErr result (λ e. e.1 ≡ group) }
    {
        if let Some(refusal) = self.can_take() {
            return Err((refusal, group));
        }
        self.accept_group(group);
        Ok(())
    }
}
