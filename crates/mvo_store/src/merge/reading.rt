//! Reads two neighbouring pairs in slices, and plans the merge of them.
ghost use Rattle.std.specs.Prelude.{◌≡◌, ◌⊎◌, ◌<◌, ◌+◌, ◌^◌, ◌↔◌, true, false, IsTrue};
ghost use Rattle.std.specs.Prelude.{IfOk, IfErr, OnOk, OnErr};
ghost use Rattle.mvo_disk.specs.Disk.{IsHonest};
ghost use Rattle.mvo_load.specs.Read.{HasRead, IsMisread};
ghost use Rattle.mvo_load.specs.Sliced.{IsBrokenSlice};
ghost use Rattle.mvo_pair.specs.Writing.{IsStop};
ghost use Rattle.mvo_store.specs.declared.merge.merge_job.MergeJob.TheVariants.{Reading};
ghost use Rattle.mvo_store.specs.Files.{files_taken};
ghost use Rattle.mvo_store.specs.Jobs.{reading_of, is_merge_read};
ghost use Rattle.mvo_store.specs.Merging.{HaveFiles};
ghost use Rattle.mvo_store.specs.MergeReading.{MayReadMerge, IsStoppedAt};
ghost use Rattle.mvo_store.specs.PairsRead.{AreReadOn, IsSideWhole, IsReadingOf};
ghost use Rattle.mvo_store.specs.PairsRead.{IsReadFrom, IsSafeRead, IsSafeReading, HasReading};
ghost use Rattle.mvo_store.specs.ReadSlices.{IsReadSlice, IsTurned, IsEndRefusal, IsBeginRefusal};
ghost use Rattle.mvo_store.specs.ReadSlices.{with_side, IsReadBeside, IsEndedTo, IsSliceTo};
ghost use Rattle.mvo_store.specs.ReadSlices.{AreReadTo};

use crate::jobs::jobs::Jobs;
use crate::merge::merge_job::MergeJob;
use crate::merge::planning::{live_count, neighbours, planned_merge};
use mvo_disk::Disk;
use mvo_format::LAST_FORMAT;
use mvo_load::{begin_pair, read_on};
use mvo_manifest::Manifest;
use mvo_merge::MergedSoFar;
use mvo_pair::{Live, Pair, PairReading, ReadSoFar};
use mvo_types::Refusal;
use std::alloc::{AllocError, Global};

/// How many records a slice has at most.
const RECORDS_A_SLICE: u32 = 2_048;

/// Two neighbours that are read in slices, to be merged: the first of them, and then the second.
#[derive(Drop)]
pub struct MergeReading {
    /// How many pairs stand before the two.
    pub place: usize,
    /// The first of the two, with the counts that it had when the reading began.
    pub left: Pair,
    /// The second.
    pub right: Pair,
    /// Whether it is the first that is read now.
    pub is_left: bool,
    /// The reading of that one.
    pub reading: PairReading,
    /// How far it is read.
    pub so_far: ReadSoFar,
    /// What is made of the live records that are read.
    pub made: MergedSoFar,
}

/// The next live records come to the pair that is read now. On failure nothing has changed.
fn add_live(
    alloc: Global,
    made: &mut MergedSoFar,
    is_left: bool,
    live: Vec<Live>,
) -> Result<(), AllocError>
    ensures ok { OnOk result (made.new ≡ with_side is_left live.items made.old) }
    ensures err { OnErr result (made.new ≡ made.old) }
{
    if is_left {
        return made.add_left(alloc, live);
    }
    made.add_right(alloc, live)
}

impl MergeReading {
    /// Whether all of the pair is read that is read now.
    fn is_side_whole(&self) -> bool
        ensures { IsTrue result ↔ IsSideWhole self.now }
    {
        self.reading.is_whole(self.so_far)
    }

    /// Reads a slice on of the pair that is read now. Refused, nothing has changed.
    fn read_slice<D: Disk>(&mut self, alloc: Global, disk: &mut D) -> Result<(), Refusal>
        requires room { D.fault_count disk.old + 1 < 2 ^ 64 }
        requires file { self.old.reading.pair.data_file < 1024 }
        ensures slice { OnOk result (IsReadSlice (IsHonest (D.moment disk.new))
            (D.content disk.old) self.old self.new) }
        ensures further { OnOk result (self.old.so_far.count < self.old.reading.pair.records →
            self.old.so_far.count < self.new.so_far.count) }
        ensures err { OnErr result (self.new ≡ self.old) }
        ensures broken { IfErr result (λ e. IsStop e ⊎ IsBrokenSlice (IsHonest (D.moment disk.new))
            (D.content disk.old self.old.reading.pair.data_file) self.old.reading
            self.old.so_far e) }
        ensures read { HasRead D.Disk disk.old disk.new result }
    {
        let (from, most) = (self.so_far, RECORDS_A_SLICE);
        let (live, next) = match read_on(alloc, disk, &self.reading, from, most) {
            Ok(some) => some,
            Err(e) => return Err(e),
        };
        match add_live(alloc, &mut self.made, self.is_left, live) {
            Ok(()) => {
                self.so_far = next;
                Ok(())
            }
            Err(_) => Err(Refusal::OutOfMemory),
        }
    }

    /// Ends the left pair, all of which is read, and begins the right one. Refused, nothing has
    /// changed.
    fn turn_right<D: Disk>(&mut self, alloc: Global, disk: &mut D) -> Result<(), Refusal>
        requires room { D.fault_count disk.old + 1 < 2 ^ 64 }
        requires right { HaveFiles self.old.right }
        requires read { AreReadOn true self.old }
        requires whole { IsSideWhole self.old }
        ensures turned { OnOk result (IsTurned (IsHonest (D.moment disk.new))
            (D.content disk.old) self.old self.new) }
        ensures err { OnErr result (self.new ≡ self.old) }
        ensures refused { IfErr result (λ e. IsEndRefusal self.old e ⊎ IsBeginRefusal
            (IsHonest (D.moment disk.new)) (D.content disk.old) self.old.right e) }
        ensures read { HasRead D.Disk disk.old disk.new result }
    {
        let reading = match begin_pair(alloc, disk, LAST_FORMAT.version, self.right) {
            Ok(reading) => reading,
            Err(e) => return Err(e),
        };
        match self.reading.end() {
            Ok(()) => {
                self.reading = reading;
                self.so_far = ReadSoFar::start();
                self.is_left = false;
                Ok(())
            }
            Err(e) => Err(e),
        }
    }
}

/// Begins to read the pair at a place and the one behind it: memory for their live records, and the
/// delta file and the header of the first.
pub fn begin_reading<D: Disk>(
    alloc: Global,
    disk: &mut D,
    manifest: &Manifest,
    place: usize,
) -> Result<MergeReading, Refusal>
    requires room { D.fault_count disk.old + 1 < 2 ^ 64 }
    requires may { MayReadMerge manifest.now place }
    ensures safe { IfOk result (IsSafeRead manifest.now) }
    ensures begun { IfOk result (IsReadingOf manifest.now place) }
    ensures stands { IsHonest (D.moment disk.new) → IfOk result (IsReadBeside
        (D.content disk.old) (D.may_leave disk.old) manifest.now) }
    ensures why { IfErr result (λ e. IsStop e ⊎ IsMisread e) }
    ensures stop { IsHonest (D.moment disk.new) → IfErr result (IsStoppedAt
        (D.content disk.old) (D.may_leave disk.old) manifest.now) }
    ensures read { HasRead D.Disk disk.old disk.new result }
{
    let Some((left, right)) = neighbours(manifest.pairs(), place) else {
        return Err(Refusal::NothingToDo);
    };
    let made = MergedSoFar::new(alloc, live_count(left) as usize, live_count(right) as usize)?;
    match begin_pair(alloc, disk, LAST_FORMAT.version, left) {
        Ok(reading) => Ok(MergeReading {
            place,
            left,
            right,
            is_left: true,
            reading,
            so_far: ReadSoFar::start(),
            made,
        }),
        Err(e) => Err(e),
    }
}

/// Plans the merge of two pairs that are read, where another job has taken the files of this pair.
/// Refused, the reading is as it was: where the delta file of the right one breaks a rule.
fn end_reading(
    manifest: &Manifest,
    other: Option<Pair>,
    reading: MergeReading,
) -> (MergeJob, Result<(), Refusal>)
    requires safe { IsSafeRead manifest.now reading }
    requires read { AreReadOn false reading }
    requires whole { IsSideWhole reading }
    ensures done { OnOk result.1 (IsEndedTo manifest.now (files_taken other) reading result.0) }
    ensures err { OnErr result.1 (result.0 ≡ Reading reading) }
    ensures refused { IfErr result.1 (IsEndRefusal reading) }
{
    // A look: from then on the proof knows that the manifest keeps its rules.
    let _generation = manifest.generation();
    match reading.reading.end() {
        Ok(()) => {
            let MergeReading {
                place,
                left,
                right,
                is_left: _,
                reading: _,
                so_far: _,
                made,
            } = reading;
            let merge = planned_merge(manifest, other, place, left, right, made.end());
            (MergeJob::Running(merge), Ok(()))
        }
        Err(e) => (MergeJob::Reading(reading), Err(e)),
    }
}

/// Reads the next slice of two pairs: records of the one that is read now, or what is between the
/// two, or the plan behind both, where another job has taken the files of this pair. Refused, the
/// reading is as it was.
fn read_next<D: Disk>(
    alloc: Global,
    disk: &mut D,
    manifest: &Manifest,
    other: Option<Pair>,
    reading: MergeReading,
) -> (MergeJob, Result<(), Refusal>)
    requires room { D.fault_count disk.old + 1 < 2 ^ 64 }
    requires safe { IsSafeRead manifest.now reading }
    ensures done { OnOk result.1 (IsSliceTo (IsHonest (D.moment disk.new)) (D.content disk.old)
        (D.may_leave disk.old) manifest.now (files_taken other) reading result.0) }
    ensures err { OnErr result.1 (result.0 ≡ Reading reading) }
    ensures why { IfErr result.1 (λ e. IsStop e ⊎ IsMisread e) }
    ensures stop { IsHonest (D.moment disk.new) → IfErr result.1 (λ e.
        IsReadFrom (D.content disk.old) manifest.now reading → IsStop e) }
    ensures read { HasRead D.Disk disk.old disk.new result.1 }
{
    // A look: from then on the proof knows that the manifest keeps its rules.
    let _generation = manifest.generation();
    let mut reading = reading;
    if !reading.is_side_whole() {
        return match reading.read_slice(alloc, disk) {
            Ok(()) => (MergeJob::Reading(reading), Ok(())),
            Err(e) => (MergeJob::Reading(reading), Err(e)),
        };
    }
    if reading.is_left {
        return match reading.turn_right(alloc, disk) {
            Ok(()) => (MergeJob::Reading(reading), Ok(())),
            Err(e) => (MergeJob::Reading(reading), Err(e)),
        };
    }
    let (merge, ended) = end_reading(manifest, other, reading);
    match ended {
        Ok(()) => (merge, Ok(())),
        Err(e) => (merge, Err(e)),
    }
}

/// Reads the next slice of the two pairs of the merge that runs. The checkpoint beside it is as it
/// was. Refused, so is the merge.
pub fn read_jobs<D: Disk>(
    alloc: Global,
    disk: &mut D,
    manifest: &Manifest,
    other: Option<Pair>,
    jobs: Jobs,
) -> (Jobs, Result<(), Refusal>)
    requires room { D.fault_count disk.old + 1 < 2 ^ 64 }
    requires safe { IsSafeReading manifest.now (reading_of jobs) }
    requires is { is_merge_read jobs ≡ true }
    ensures done { OnOk result.1 (AreReadTo (IsHonest (D.moment disk.new)) (D.content disk.old)
        (D.may_leave disk.old) manifest.now (files_taken other) jobs result.0) }
    ensures err { OnErr result.1 (result.0 ≡ jobs) }
    ensures why { IfErr result.1 (λ e. IsStop e ⊎ IsMisread e) }
    ensures stop { IsHonest (D.moment disk.new) → IfErr result.1 (λ e.
        HasReading (D.content disk.old) manifest.now (reading_of jobs) → IsStop e) }
    ensures read { HasRead D.Disk disk.old disk.new result.1 }
{
    let Jobs::Beside(checkpoint, merge) = jobs else {
        unreachable!()
    };
    let Some(MergeJob::Reading(reading)) = merge else {
        unreachable!()
    };
    let (merge, read) = read_next(alloc, disk, manifest, other, reading);
    match read {
        Ok(()) => (Jobs::Beside(checkpoint, Some(merge)), Ok(())),
        Err(e) => (Jobs::Beside(checkpoint, Some(merge)), Err(e)),
    }
}
