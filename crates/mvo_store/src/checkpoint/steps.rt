//! Reads the oldest sealed segment, and writes its checkpoint, in steps.
ghost use Rattle.std.specs.Prelude.{◌≡◌, ◌⊎◌, ◌<◌, ◌+◌, ◌^◌, IfOk, OnOk, IfErr, length};
ghost use Rattle.std.specs.Prelude.{slice_index_or};
ghost use Rattle.mvo_disk.specs.Disk.{IsHonest};
ghost use Rattle.mvo_format.specs.declared.format.TheConstants.{LAST_FORMAT};
ghost use Rattle.mvo_frame.specs.declared.kind.Kind.TheVariants.{Sealed};
ghost use Rattle.mvo_frame.specs.Standing.{IsAllRead};
ghost use Rattle.mvo_manifest.specs.Rules.{IsManifest};
ghost use Rattle.mvo_pair.specs.Answers.{Tells};
ghost use Rattle.mvo_pair.specs.Writing.{IsStop};
ghost use Rattle.mvo_recovery.specs.image.Files.{SegmentIs};
ghost use Rattle.mvo_load.specs.Read.{HasRead, IsMisread, MayBeGroups};
ghost use Rattle.mvo_store.specs.Calls.StoreStep.{Call, Slice};
ghost use Rattle.mvo_store.specs.declared.call.StoreCall.TheVariants.{CheckpointRead, Step};
ghost use Rattle.mvo_store.specs.declared.jobs.due.Due.TheVariants.{Data, Delta};
ghost use Rattle.mvo_store.specs.Calls.{IsStoreStep, AnswersProgress, AnswersSlice};
ghost use Rattle.mvo_store.specs.Files.{files_taken};
ghost use Rattle.mvo_store.specs.Safe.{IsSafeCheckpoint};
ghost use Rattle.mvo_store.specs.SegmentRead.{MayReadCheckpoint};
ghost use Rattle.mvo_store.specs.Planning.{IsNewCheckpoint, IsReadCheckpoint};
ghost use Rattle.mvo_store.specs.Planning.{IsStoppedBeside};
ghost use Rattle.mvo_store.specs.Causes.{why_not_checkpoint};

use crate::checkpoint::checkpointing::Checkpointing;
use crate::checkpoint::planning::planned;
use crate::fault::brings_down;
use crate::jobs::advance::with_checkpoint;
use crate::jobs::due::Due;
use crate::jobs::jobs::Jobs;
use crate::jobs::progress::Progress;
use crate::limits::MAX_GENERATION;
use crate::store::Store;
use mvo_disk::Disk;
use mvo_format::LAST_FORMAT;
use mvo_frame::{Contents, Kind};
use mvo_load::segment_on;
use mvo_manifest::Manifest;
use mvo_pair::Pair;
use mvo_places::Places;
use mvo_types::{MAX_PAIRS, Refusal};
use std::alloc::Global;
use std::mem::replace;

/// What the oldest segment holds, which is sealed.
fn read_oldest<D: Disk>(
    alloc: Global,
    disk: &mut D,
    manifest: &Manifest,
) -> Result<Contents, Refusal>
    requires room { D.fault_count disk.old + 1 < 2 ^ 64 }
    ensures says { IsHonest (D.moment disk.new) → Tells IsStop (λ s. s.groups.items) result
        (SegmentIs LAST_FORMAT.version (slice_index_or manifest.now.segments 0 0)
        manifest.now.checkpoint_mark Sealed
        (D.content disk.old (slice_index_or manifest.now.segments 0 0))) }
    ensures groups { IfOk result (λ s.
        MayBeGroups LAST_FORMAT.version manifest.now.checkpoint_mark Sealed s.groups.items) }
    ensures place { IfOk result (IsAllRead manifest.now.checkpoint_mark) }
    ensures is { OnOk result (IsManifest manifest.now) }
    ensures why { IfErr result (λ e. IsStop e ⊎ IsMisread e) }
    ensures read { HasRead D.Disk disk.old disk.new result }
{
    let mark = manifest.checkpoint_mark();
    let file = manifest.segments()[0];
    match segment_on(alloc, disk, LAST_FORMAT.version, file, mark, Kind::Sealed) {
        Ok(contents) => Ok(contents),
        Err(refusal) => Err(refusal),
    }
}

/// Reads the oldest segment, and plans its checkpoint, where another job has taken the files of
/// this pair.
fn read_checkpoint<D: Disk>(
    alloc: Global,
    disk: &mut D,
    manifest: &Manifest,
    other: Option<Pair>,
    places: &Places,
) -> Result<Checkpointing, Refusal>
    requires room { D.fault_count disk.old + 1 < 2 ^ 64 }
    requires may { MayReadCheckpoint manifest.now }
    ensures safe { IfOk result (IsSafeCheckpoint manifest.now) }
    ensures to { IfOk result (IsNewCheckpoint (IsHonest (D.moment disk.new))
        (D.content disk.old) manifest.now (files_taken other)) }
    ensures stands { IsHonest (D.moment disk.new) → IfOk result (IsReadCheckpoint
        (D.content disk.old) (D.may_leave disk.old) manifest.now places.now.at) }
    ensures why { IfErr result (λ e. IsStop e ⊎ IsMisread e) }
    ensures stop { IsHonest (D.moment disk.new) → IfErr result (IsStoppedBeside
        (D.content disk.old) (D.may_leave disk.old) manifest.now places.now.at) }
    ensures read { HasRead D.Disk disk.old disk.new result }
{
    let contents = match read_oldest(alloc, disk, manifest) {
        Ok(contents) => contents,
        Err(refusal) => return Err(refusal),
    };
    match planned(alloc, manifest, other, places, contents) {
        Ok(checkpoint) => Ok(checkpoint),
        Err(refusal) => Err(refusal),
    }
}

impl<D: Disk> Store<D> {
    // Why no checkpoint begins, before memory and the disk are asked.
    pub(crate) fn why_not_checkpoint(&self) -> Option<Refusal>
        ensures { result ≡ why_not_checkpoint self.now }
    {
        if self.down {
            return Some(Refusal::Down);
        }
        if self.jobs.keep_checkpoint_out() {
            return Some(Refusal::Busy);
        }
        if self.manifest.generation() >= MAX_GENERATION {
            return Some(Refusal::ClockSpent);
        }
        if self.manifest.segments().len() < 2 {
            return Some(Refusal::NothingToDo);
        }
        if self.manifest.pairs().len() >= MAX_PAIRS {
            return Some(Refusal::PairsFull);
        }
        None
    }

    /// Reads the oldest sealed segment, and plans its checkpoint: a pair in the two least free
    /// files, the data file's number first. It writes and cuts nothing. From then on its files are
    /// to be written, and then its manifest is to be installed. Appends go on meanwhile, and so may
    /// a merge up to its last file.
    ///
    /// Beside the store's places it takes memory for what the segment holds, and for its records
    /// and the numbers of older records that they replace; not for the pairs.
    ///
    /// Refused: Down, then Busy where a checkpoint or a rotation runs, or a merge whose files are
    /// written, then ClockSpent where the generation is 2^63 or above, then NothingToDo where no
    /// segment is sealed, then PairsFull where 64 are named, then OutOfMemory or DiskFault. What
    /// the segment holds was read when the store was opened, or written by it: where it comes back
    /// otherwise, so that it breaks a rule, this is Corrupt with a file or BadVersion, and the
    /// store is down.
    pub fn checkpoint_read(&mut self) -> Result<(), Refusal>
        ensures { IsStoreStep D.Disk self.old (Call CheckpointRead) result self.new }
    {
        if let Some(refusal) = self.why_not_checkpoint() {
            return Err(refusal);
        }
        let (alloc, other) = (self.alloc, self.jobs.merge_pair());
        let (disk, places) = (&mut self.disk, &self.places);
        let checkpoint = match read_checkpoint(alloc, disk, &self.manifest, other, places) {
            Ok(checkpoint) => checkpoint,
            Err(refusal) => {
                self.down = brings_down(refusal);
                return Err(refusal);
            }
        };
        self.places
            .reserve(checkpoint.made.records.as_slice().len())?;
        let jobs = replace(&mut self.jobs, Jobs::none());
        self.jobs = with_checkpoint(checkpoint, jobs);
        Ok(())
    }

    /// Writes the data file of the checkpoint that runs, over whatever the file held, and syncs it.
    ///
    /// Refused: Down, then NothingToDo where this isn't due, then OutOfMemory, then DiskFault.
    pub fn checkpoint_data(&mut self) -> Result<(), Refusal>
        ensures { IsStoreStep D.Disk self.old (Call (Step Data)) result self.new }
    {
        self.write_due(Due::Data)
    }

    /// Writes the next slice of the data file of the checkpoint that runs, of at most 256 KiB, and
    /// syncs it: the first gives the file new content, and the others stand behind it. More comes
    /// with each but the last, and Ready with that: then the delta files are due. While a slice is
    /// due, `checkpoint_data` is too, which writes the whole file.
    ///
    /// Refused: Down, then NothingToDo where this isn't due, then OutOfMemory, then DiskFault.
    pub fn checkpoint_slice(&mut self) -> Result<Progress, Refusal>
        ensures step { IsStoreStep D.Disk self.old (Slice Data) result self.new }
        ensures progress { IfOk result (AnswersSlice Data self.new) }
    {
        self.slice_due(Due::Data)
    }

    /// Writes the next delta file of the checkpoint that runs, and syncs it: first the new pair's
    /// own, and then one a call, in the order of the pairs, those of the older pairs that gain
    /// numbers, behind the counted ones. Ready comes with the last.
    ///
    /// Refused: Down, then NothingToDo where this isn't due, then OutOfMemory, then DiskFault.
    pub fn checkpoint_delta(&mut self) -> Result<Progress, Refusal>
        ensures step { IsStoreStep D.Disk self.old (Call (Step Delta)) result self.new }
        ensures progress { IfOk result (AnswersProgress self.old) }
    {
        let progress = self.jobs.progress();
        match self.write_due(Due::Delta) {
            Ok(()) => Ok(progress),
            Err(refusal) => Err(refusal),
        }
    }
}
