//! Reads the oldest sealed segment in slices, builds its pair in slices, and plans the checkpoint.
ghost use Rattle.std.specs.Prelude.{◌≡◌, ◌⊎◌, ◌<◌, ◌+◌, ◌^◌, true, List, ℕ};
ghost use Rattle.std.specs.Prelude.{IfOk, IfErr, OnOk, OnErr};
ghost use Rattle.mvo_disk.specs.Disk.{IsHonest};
ghost use Rattle.mvo_group.specs.Data.{GroupData};
ghost use Rattle.mvo_ckpt.specs.Building.{IsBuiltCheckpointOf};
ghost use Rattle.mvo_format.specs.declared.format.TheConstants.{LAST_FORMAT};
ghost use Rattle.mvo_ckpt.specs.declared.building.Built.TheVariants.{More, Ready};
ghost use Rattle.mvo_frame.specs.Slices.{IsReadTo, SegmentHas};
ghost use Rattle.mvo_frame.specs.declared.kind.Kind.TheVariants.{Sealed};
ghost use Rattle.mvo_load.specs.Read.{HasRead, IsMisread};
ghost use Rattle.mvo_pair.specs.Writing.{IsStop};
ghost use Rattle.mvo_places.specs.Places.{PlaceMap};
ghost use Rattle.mvo_store.specs.declared.checkpoint.checkpoint_job.CheckpointJob.TheVariants.{Reading as Reads};
ghost use Rattle.mvo_store.specs.declared.checkpoint.reading.CheckpointReading.TheVariants.{Frames, Whole, Pair as PairRead};
ghost use Rattle.mvo_store.specs.Files.{files_taken};
ghost use Rattle.mvo_store.specs.Jobs.{is_segment_read, segment_read_of};
ghost use Rattle.mvo_store.specs.Planning.{CountsFit, IsPlanRefusal, IsStoppedBeside};
ghost use Rattle.mvo_store.specs.SegmentRead.{oldest_file, MayReadCheckpoint, IsFramesRead};
ghost use Rattle.mvo_store.specs.SegmentRead.{IsWholeRead, IsPairBuilt, MayBeRead};
ghost use Rattle.mvo_store.specs.SegmentRead.{IsSafeSegmentRead, AreSafeSegmentRead, IsWholeOf};
ghost use Rattle.mvo_store.specs.SegmentRead.{IsPairOf, IsReadOf, IsSegmentRead, HasSegmentRead};
ghost use Rattle.mvo_store.specs.SegmentRead.{IsSegmentBegun, IsNextRead};
ghost use Rattle.mvo_store.specs.SegmentSlices.{IsSegmentFurther, IsEndedPlanTo};
ghost use Rattle.mvo_store.specs.SegmentSlices.{IsSegmentSliceTo, IsKeptOrLetGo};
ghost use Rattle.mvo_store.specs.SegmentSlices.{AreSegmentReadTo, AreKeptOrLetGo};

use crate::checkpoint::checkpoint_job::CheckpointJob;
use crate::checkpoint::checkpointing::Checkpointing;
use crate::checkpoint::planning::planned_of;
use crate::jobs::jobs::Jobs;
use mvo_ckpt::{Building, Built, Checkpoint, SLICE_WRITES};
use mvo_disk::Disk;
use mvo_format::LAST_FORMAT;
use mvo_frame::{Contents, Kind, Reached, SegmentReader};
use mvo_load::{begin_segment, read_frames};
use mvo_manifest::Manifest;
use mvo_pair::Pair;
use mvo_places::Places;
use mvo_types::{Refusal, Stamp};
use std::alloc::{AllocError, Global};

/// How far the oldest sealed segment is read, and its pair built.
#[derive(Drop)]
pub enum CheckpointReading {
    /// Its frames are read.
    Frames(SegmentReader),
    /// All of them are read.
    Whole(SegmentReader),
    /// The pair of its groups, the last of which has this mark, is built, or all of it is.
    Pair(Stamp, Built),
}

/// Begins to read the oldest segment: its header.
pub fn begin_oldest<D: Disk>(
    alloc: Global,
    disk: &mut D,
    manifest: &Manifest,
) -> Result<CheckpointReading, Refusal>
    requires room { D.fault_count disk.old + 1 < 2 ^ 64 }
    requires may { MayReadCheckpoint manifest.now }
    ensures safe { (at : PlaceMap) → IfOk result (IsSafeSegmentRead manifest.now at) }
    ensures begun { IfOk result (IsSegmentBegun manifest.now) }
    ensures stands { IsHonest (D.moment disk.new) → (at : PlaceMap) →
        IfOk result (IsSegmentRead manifest.now at
        (D.content disk.old (oldest_file manifest.now))) }
    ensures why { IfErr result (λ e. IsStop e ⊎ IsMisread e) }
    ensures stop { IsHonest (D.moment disk.new) → (at : PlaceMap) → IfErr result (IsStoppedBeside
        (D.content disk.old) (D.may_leave disk.old) manifest.now at) }
    ensures read { HasRead D.Disk disk.old disk.new result }
{
    let mark = manifest.checkpoint_mark();
    let file = manifest.segments()[0];
    match begin_segment(alloc, disk, LAST_FORMAT.version, file, mark) {
        Ok(reader) => Ok(CheckpointReading::Frames(reader)),
        Err(refusal) => Err(refusal),
    }
}

/// Reads the next slice of frames.
fn read_slice<D: Disk>(
    alloc: Global,
    disk: &mut D,
    manifest: &Manifest,
    reader: SegmentReader,
) -> (CheckpointReading, Result<(), Refusal>)
    requires room { D.fault_count disk.old + 1 < 2 ^ 64 }
    requires may { MayReadCheckpoint manifest.now }
    requires read { IsFramesRead manifest.now reader }
    requires of { IsHonest (D.moment disk.old) → IsReadTo LAST_FORMAT.version
        manifest.now.checkpoint_mark (D.content disk.old (oldest_file manifest.now)) reader }
    ensures done { (at : PlaceMap) → OnOk result.1 (IsSegmentFurther (IsHonest (D.moment disk.new))
        (D.content disk.old (oldest_file manifest.now)) manifest.now at (Frames reader) result.0) }
    ensures err { OnErr result.1 (result.0 ≡ Frames reader) }
    ensures why { IfErr result.1 (λ e. IsStop e ⊎ IsMisread e) }
    ensures stop { IsHonest (D.moment disk.new) → (at : PlaceMap) → IfErr result.1 (IsStoppedBeside
        (D.content disk.old) (D.may_leave disk.old) manifest.now at) }
    ensures read { HasRead D.Disk disk.old disk.new result.1 }
{
    // A look: from then on the proof knows that the manifest keeps its rules.
    let _generation = manifest.generation();
    let mut reader = reader;
    match read_frames(alloc, disk, &mut reader) {
        Ok(Reached::More) => (CheckpointReading::Frames(reader), Ok(())),
        Ok(Reached::End) => (CheckpointReading::Whole(reader), Ok(())),
        Err(e) => (CheckpointReading::Frames(reader), Err(e)),
    }
}

/// Turns a segment that is read to its pair, of which nothing is built. Refused, it is as it was:
/// where it holds no group.
fn turn_to_pair(
    alloc: Global,
    places: &Places,
    manifest: &Manifest,
    reader: SegmentReader,
) -> (CheckpointReading, Result<(), Refusal>)
    requires read { IsWholeRead manifest.now reader }
    ensures next { OnOk result.1 (IsNextRead manifest.now (Whole reader) result.0) }
    ensures safe { OnOk result.1 (MayBeRead manifest.now places.now.at result.0) }
    ensures of { (bytes : List ℕ) → IsWholeOf manifest.now bytes reader →
        OnOk result.1 (IsReadOf manifest.now places.now.at bytes result.0) }
    ensures err { OnErr result.1 (result.0 ≡ Whole reader) }
    ensures why { IfErr result.1 IsMisread }
    ensures only { (bytes : List ℕ) → IsWholeOf manifest.now bytes reader →
        IfErr result.1 (λ e. SegmentHas LAST_FORMAT.version (oldest_file manifest.now)
        manifest.now.checkpoint_mark Sealed bytes (Err e)) }
{
    match reader.end(Kind::Sealed) {
        Ok(()) => {
            let Contents {
                groups,
                gate: _,
                mark,
            } = reader.into_contents();
            let building = Building::begin(alloc, places, groups);
            (CheckpointReading::Pair(mark, Built::More(building)), Ok(()))
        }
        Err(e) => (CheckpointReading::Whole(reader), Err(e)),
    }
}

/// Builds the next slice of the pair. Where memory is refused, what was built is let go.
fn build_on(
    alloc: Global,
    places: &Places,
    manifest: &Manifest,
    mark: Stamp,
    building: Building,
) -> Result<CheckpointReading, AllocError>
    requires built { IsPairBuilt manifest.now places.now.at mark.0 (More building) }
    ensures next { IfOk result (IsNextRead manifest.now (PairRead mark (More building))) }
    ensures safe { IfOk result (MayBeRead manifest.now places.now.at) }
    ensures of { (bytes : List ℕ) →
        IsPairOf manifest.now places.now.at bytes mark.0 (More building) →
        IfOk result (IsReadOf manifest.now places.now.at bytes) }
{
    match building.more(alloc, places, manifest.pairs(), SLICE_WRITES) {
        Ok(built) => Ok(CheckpointReading::Pair(mark, built)),
        Err(refused) => Err(refused),
    }
}

/// Plans the checkpoint whose pair is built, where another job has taken the files of this pair,
/// and makes room for its places. Refused, all is as it was.
fn end_building(
    alloc: Global,
    places: &mut Places,
    manifest: &Manifest,
    other: Option<Pair>,
    mark: Stamp,
    made: Checkpoint,
) -> (CheckpointJob, Result<(), Refusal>)
    requires may { MayReadCheckpoint manifest.now }
    requires built { IsPairBuilt manifest.now places.old.at mark.0 (Ready made) }
    ensures done { OnOk result.1 (IsEndedPlanTo manifest.now (files_taken other) places.new.room
        mark.0 made result.0) }
    ensures err { OnErr result.1 (result.0 ≡ Reads (PairRead mark (Ready made))) }
    ensures same { OnErr result.1 (places.new ≡ places.old) }
    ensures places { places.new.at ≡ places.old.at }
    ensures refused { (at : PlaceMap) (groups : List GroupData) →
        IsBuiltCheckpointOf at manifest.now.pairs groups made →
        IfErr result.1 (IsPlanRefusal (CountsFit manifest.now at groups)) }
{
    // A look: from then on the proof knows that the manifest keeps its rules.
    let _generation = manifest.generation();
    let checkpoint = match planned_of(alloc, manifest, other, mark, made) {
        Ok(checkpoint) => checkpoint,
        Err((refusal, made)) => {
            let reading = CheckpointReading::Pair(mark, Built::Ready(made));
            return (CheckpointJob::Reading(reading), Err(refusal));
        }
    };
    match places.reserve(checkpoint.made.records.as_slice().len()) {
        Ok(()) => (CheckpointJob::Running(checkpoint), Ok(())),
        Err(_) => {
            let Checkpointing {
                pair: _,
                made,
                next: _,
                stage: _,
                placed: _,
            } = checkpoint;
            let reading = CheckpointReading::Pair(mark, Built::Ready(made));
            (CheckpointJob::Reading(reading), Err(Refusal::OutOfMemory))
        }
    }
}

/// Reads or builds the next slice, or plans the checkpoint behind all. Refused, it is as it was,
/// but for want of memory while its pair is built: then it is let go.
fn read_next<D: Disk>(
    alloc: Global,
    disk: &mut D,
    places: &mut Places,
    manifest: &Manifest,
    other: Option<Pair>,
    reading: CheckpointReading,
) -> (Option<CheckpointJob>, Result<(), Refusal>)
    requires room { D.fault_count disk.old + 1 < 2 ^ 64 }
    requires safe { IsSafeSegmentRead manifest.now places.old.at reading }
    requires of { IsHonest (D.moment disk.old) → IsReadOf manifest.now places.old.at
        (D.content disk.old (oldest_file manifest.now)) reading }
    ensures done { OnOk result.1 (IsSegmentSliceTo (IsHonest (D.moment disk.new))
        (D.content disk.old) (D.may_leave disk.old) manifest.now places.old.at places.new.room
        (files_taken other) reading result.0) }
    ensures kept { IfErr result.1 (λ e. IsKeptOrLetGo e reading result.0) }
    ensures same { OnErr result.1 (places.new ≡ places.old) }
    ensures places { places.new.at ≡ places.old.at }
    ensures why { IfErr result.1 (λ e. IsStop e ⊎ IsMisread e) }
    ensures stop { IsHonest (D.moment disk.new) → IfErr result.1 (IsStoppedBeside
        (D.content disk.old) (D.may_leave disk.old) manifest.now places.old.at) }
    ensures read { HasRead D.Disk disk.old disk.new result.1 }
{
    // A look: from then on the proof knows that the manifest keeps its rules.
    let _generation = manifest.generation();
    match reading {
        CheckpointReading::Frames(reader) => {
            let (reading, read) = read_slice(alloc, disk, manifest, reader);
            (Some(CheckpointJob::Reading(reading)), read)
        }
        CheckpointReading::Whole(reader) => {
            let (reading, turned) = turn_to_pair(alloc, places, manifest, reader);
            (Some(CheckpointJob::Reading(reading)), turned)
        }
        CheckpointReading::Pair(mark, Built::More(building)) => {
            match build_on(alloc, places, manifest, mark, building) {
                Ok(reading) => (Some(CheckpointJob::Reading(reading)), Ok(())),
                Err(_) => (None, Err(Refusal::OutOfMemory)),
            }
        }
        CheckpointReading::Pair(mark, Built::Ready(made)) => {
            let (checkpoint, ended) = end_building(alloc, places, manifest, other, mark, made);
            (Some(checkpoint), ended)
        }
    }
}

/// Reads or builds the next slice of the checkpoint that runs. The merge beside it is as it was.
/// Refused, so is the checkpoint, but for want of memory while its pair is built: then none runs.
pub fn read_segment_on<D: Disk>(
    alloc: Global,
    disk: &mut D,
    places: &mut Places,
    manifest: &Manifest,
    other: Option<Pair>,
    jobs: Jobs,
) -> (Jobs, Result<(), Refusal>)
    requires room { D.fault_count disk.old + 1 < 2 ^ 64 }
    requires safe { AreSafeSegmentRead manifest.now places.old.at (segment_read_of jobs) }
    requires of { IsHonest (D.moment disk.old) → HasSegmentRead manifest.now places.old.at
        (D.content disk.old (oldest_file manifest.now)) (segment_read_of jobs) }
    requires is { is_segment_read jobs ≡ true }
    ensures done { OnOk result.1 (AreSegmentReadTo (IsHonest (D.moment disk.new))
        (D.content disk.old) (D.may_leave disk.old) manifest.now places.old.at places.new.room
        (files_taken other) jobs result.0) }
    ensures kept { IfErr result.1 (λ e. AreKeptOrLetGo e jobs result.0) }
    ensures same { OnErr result.1 (places.new ≡ places.old) }
    ensures places { places.new.at ≡ places.old.at }
    ensures why { IfErr result.1 (λ e. IsStop e ⊎ IsMisread e) }
    ensures stop { IsHonest (D.moment disk.new) → IfErr result.1 (IsStoppedBeside
        (D.content disk.old) (D.may_leave disk.old) manifest.now places.old.at) }
    ensures read { HasRead D.Disk disk.old disk.new result.1 }
{
    let Jobs::Beside(checkpoint, merge) = jobs else {
        unreachable!()
    };
    let Some(CheckpointJob::Reading(reading)) = checkpoint else {
        unreachable!()
    };
    let (checkpoint, read) = read_next(alloc, disk, places, manifest, other, reading);
    (Jobs::Beside(checkpoint, merge), read)
}
