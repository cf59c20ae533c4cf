//! Reads two neighbouring pairs, and writes the pair that they become, in steps.
ghost use Rattle.std.specs.Prelude.{◌≡◌, ◌⊎◌, ◌<◌, ◌+◌, ◌^◌, IfOk, IfErr};
ghost use Rattle.mvo_format.specs.declared.format.TheConstants.{LAST_FORMAT};
ghost use Rattle.mvo_disk.specs.Disk.{IsHonest};
ghost use Rattle.mvo_load.specs.Read.{HasRead, IsMisread, MayBeLive};
ghost use Rattle.mvo_store.specs.Calls.StoreStep.{Call, Slice};
ghost use Rattle.mvo_store.specs.declared.call.StoreCall.TheVariants.{MergeRead, Step};
ghost use Rattle.mvo_store.specs.declared.jobs.due.Due.TheVariants.{MergeData, MergeDelta};
ghost use Rattle.mvo_store.specs.Calls.{IsStoreStep, AnswersSlice};
ghost use Rattle.mvo_store.specs.Causes.{why_not_merge, why_not_merge_delta};
ghost use Rattle.mvo_store.specs.Merging.{HaveFiles};
ghost use Rattle.mvo_store.specs.Files.{files_taken};
ghost use Rattle.mvo_store.specs.Safe.{IsSafeMerge};
ghost use Rattle.mvo_store.specs.MergePlanning.{HasLive, IsNewMerge};
ghost use Rattle.mvo_store.specs.MergeReading.{AreReadAs, IsStoppedIn, IsStoppedAt};
ghost use Rattle.mvo_store.specs.MergeReading.{MayReadMerge, IsReadMerge};
ghost use Rattle.mvo_pair.specs.Writing.{IsStop};

use crate::fault::brings_down;
use crate::jobs::advance::{with_manifest, with_merge};
use crate::jobs::due::Due;
use crate::jobs::jobs::Jobs;
use crate::jobs::progress::Progress;
use crate::limits::MAX_GENERATION;
use crate::merge::late::end_merge;
use crate::merge::merge_job::MergeJob;
use crate::merge::merging::Merging;
use crate::merge::planning::{live_count, neighbours, planned_merge};
use crate::store::Store;
use mvo_disk::Disk;
use mvo_format::LAST_FORMAT;
use mvo_load::pair_on;
use mvo_manifest::Manifest;
use mvo_merge::build;
use mvo_pair::{Live, Pair};
use mvo_types::{MAX_PAIR_RECORDS, Refusal};
use std::alloc::Global;
use std::mem::replace;

/// The live records of two pairs.
fn read_both<D: Disk>(
    alloc: Global,
    disk: &mut D,
    left: Pair,
    right: Pair,
) -> Result<(Vec<Live>, Vec<Live>), Refusal>
    requires room { D.fault_count disk.old + 1 < 2 ^ 64 }
    requires left { HaveFiles left }
    requires right { HaveFiles right }
    ensures live { IsHonest (D.moment disk.new) → IfOk result (λ x.
        AreReadAs (D.content disk.old) left right x.0.items x.1.items) }
    ensures has { IsHonest (D.moment disk.new) → IfOk result (λ x.
        HasLive (D.content disk.old) left x.0.items
        × HasLive (D.content disk.old) right x.1.items) }
    ensures some { IfOk result (λ x. MayBeLive LAST_FORMAT.version left x.0.items
        × MayBeLive LAST_FORMAT.version right x.1.items) }
    ensures why { IfErr result (λ e. IsStop e ⊎ IsMisread e) }
    ensures stop { IsHonest (D.moment disk.new) → IfErr result (λ e.
        IsStoppedIn (D.content disk.old) left right e) }
    ensures read { HasRead D.Disk disk.old disk.new result }
{
    let first = match pair_on(alloc, disk, LAST_FORMAT.version, left) {
        Ok(live) => live,
        Err(refusal) => return Err(refusal),
    };
    match pair_on(alloc, disk, LAST_FORMAT.version, right) {
        Ok(second) => Ok((first, second)),
        Err(refusal) => Err(refusal),
    }
}

/// Reads two neighbours, and plans the one pair that they become, where another job has taken the
/// files of this pair.
fn read_merge<D: Disk>(
    alloc: Global,
    disk: &mut D,
    manifest: &Manifest,
    other: Option<Pair>,
    place: usize,
) -> Result<Merging, Refusal>
    requires room { D.fault_count disk.old + 1 < 2 ^ 64 }
    requires may { MayReadMerge manifest.now place }
    ensures safe { IfOk result (IsSafeMerge manifest.now) }
    ensures to { IfOk result (IsNewMerge (IsHonest (D.moment disk.new)) (D.content disk.old)
        manifest.now (files_taken other) place) }
    ensures stands { IsHonest (D.moment disk.new) → IfOk result (IsReadMerge
        (D.content disk.old) (D.may_leave disk.old) manifest.now) }
    ensures why { IfErr result (λ e. IsStop e ⊎ IsMisread e) }
    ensures stop { IsHonest (D.moment disk.new) → IfErr result (IsStoppedAt
        (D.content disk.old) (D.may_leave disk.old) manifest.now) }
    ensures read { HasRead D.Disk disk.old disk.new result }
{
    let Some((left, right)) = neighbours(manifest.pairs(), place) else {
        return Err(Refusal::NothingToDo);
    };
    let (first, second) = match read_both(alloc, disk, left, right) {
        Ok(live) => live,
        Err(refusal) => return Err(refusal),
    };
    let made = build(alloc, first, second)?;
    Ok(planned_merge(manifest, other, place, left, right, made))
}

impl<D: Disk> Store<D> {
    // Why no merge begins, before memory and the disk are asked.
    pub(crate) fn why_not_merge(&self, place: usize) -> Option<Refusal>
        ensures { result ≡ why_not_merge place self.now }
    {
        if self.down {
            return Some(Refusal::Down);
        }
        if self.jobs.keep_merge_out() {
            return Some(Refusal::Busy);
        }
        if self.manifest.generation() >= MAX_GENERATION {
            return Some(Refusal::ClockSpent);
        }
        let Some((left, right)) = neighbours(self.manifest.pairs(), place) else {
            return Some(Refusal::NothingToDo);
        };
        if live_count(left) + live_count(right) > MAX_PAIR_RECORDS as u64 {
            return Some(Refusal::PairTooLarge);
        }
        None
    }

    // Why the last file of a merge isn't written, before memory and the disk are asked.
    fn why_not_merge_delta(&self) -> Option<Refusal>
        ensures { result ≡ why_not_merge_delta self.now }
    {
        if let Some(refusal) = self.why_not_due(Due::MergeDelta) {
            return Some(refusal);
        }
        if self.jobs.has_checkpoint() {
            return Some(Refusal::Busy);
        }
        None
    }

    /// Reads the pair at a place, counted from 0, and the one behind it, and plans the one pair
    /// that they become, in the two least free files, the data file's number first: with the live
    /// records of the first and then of the second. It writes and cuts nothing. From then on its
    /// files are to be written, and then its manifest is to be installed. Appends go on meanwhile,
    /// and checkpoints up to its last file.
    ///
    /// It takes memory for what the files of the two pairs hold, and four bytes a live record; for
    /// the places it takes none.
    ///
    /// Refused: Down, then Busy where a merge or a rotation runs, then ClockSpent where the
    /// generation is 2^63 or above, then NothingToDo where the pair behind isn't there, then
    /// PairTooLarge where the live records of both pass the limit of a pair, then OutOfMemory or
    /// DiskFault. What the pairs hold was read when the store was opened, or written by it: where
    /// it comes back otherwise, so that it breaks a rule, the answer is Corrupt with a file or
    /// BadVersion, and the store is down.
    pub fn merge_read(&mut self, place: usize) -> Result<(), Refusal>
        ensures { IsStoreStep D.Disk self.old (Call (MergeRead place)) result self.new }
    {
        if let Some(refusal) = self.why_not_merge(place) {
            return Err(refusal);
        }
        let other = self.jobs.checkpoint_pair();
        match read_merge(self.alloc, &mut self.disk, &self.manifest, other, place) {
            Ok(merge) => {
                let jobs = replace(&mut self.jobs, Jobs::none());
                self.jobs = with_merge(merge, jobs);
                Ok(())
            }
            Err(refusal) => {
                self.down = brings_down(refusal);
                Err(refusal)
            }
        }
    }

    /// Writes the data file of the merge that runs, over whatever the file held, and syncs it.
    ///
    /// Refused: Down, then NothingToDo where this isn't due, then OutOfMemory, then DiskFault.
    pub fn merge_data(&mut self) -> Result<(), Refusal>
        ensures { IsStoreStep D.Disk self.old (Call (Step MergeData)) result self.new }
    {
        self.write_due(Due::MergeData)
    }

    /// Writes the next slice of the data file of the merge that runs, of at most 256 KiB, and syncs
    /// it: the first gives the file new content, and the others stand behind it. More comes with
    /// each but the last, and Ready with that: then its last file is due. While a slice is due,
    /// `merge_data` is too, which writes the whole file.
    ///
    /// Refused: Down, then NothingToDo where this isn't due, then OutOfMemory, then DiskFault.
    pub fn merge_slice(&mut self) -> Result<Progress, Refusal>
        ensures step { IsStoreStep D.Disk self.old (Slice MergeData) result self.new }
        ensures progress { IfOk result (AnswersSlice MergeData self.new) }
    {
        self.slice_due(Due::MergeData)
    }

    /// Reads the numbers that came to the deltas of the two pairs since `merge_read`, writes them
    /// to the delta file of the merge that runs, the first pair's before the second's, each under
    /// the number that its record has there, over whatever the file held, and syncs it. All is
    /// written then. Its manifest is made of the one that is installed now.
    ///
    /// Refused: Down, then NothingToDo where this isn't due, then Busy while a checkpoint runs,
    /// then OutOfMemory or DiskFault. Where the deltas count more numbers than a count can say, as
    /// only a disk tells that answers otherwise than was written, this is Corrupt with the delta
    /// file of the first of the two, and the store is down.
    pub fn merge_delta(&mut self) -> Result<(), Refusal>
        ensures { IsStoreStep D.Disk self.old (Call (Step MergeDelta)) result self.new }
    {
        if let Some(refusal) = self.why_not_merge_delta() {
            return Err(refusal);
        }
        let Jobs::Beside(None, Some(MergeJob::Running(merge))) = &self.jobs else {
            return Err(Refusal::NothingToDo);
        };
        match end_merge(self.alloc, &mut self.disk, &self.manifest, merge) {
            Ok(next) => {
                let jobs = replace(&mut self.jobs, Jobs::none());
                self.jobs = with_manifest(next, jobs);
                Ok(())
            }
            Err(stop) => {
                self.down = brings_down(stop);
                Err(stop)
            }
        }
    }
}
