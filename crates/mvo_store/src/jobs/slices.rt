//! Writes the data file of a job in slices.
ghost use Rattle.std.specs.Prelude.{◌≡◌, ◌<◌, ◌+◌, ◌^◌, ◌∷◌, [], IsTrue, IfSome};
ghost use Rattle.mvo_disk.specs.Disk.{IsHonest};
ghost use Rattle.mvo_store.specs.Safe.{AreSafe, IsSafeCheckpoint, IsSafeMerge};
ghost use Rattle.mvo_store.specs.Jobs.{first_due, is_of_data, job_due, jobs_upto};
ghost use Rattle.mvo_store.specs.Jobs.{checkpoint_upto, checkpoint_job_upto, merge_upto, merge_job_upto, stage_upto, merge_stage_upto};
ghost use Rattle.mvo_store.specs.Jobs.Job.{Checkpoint, Merge};
ghost use Rattle.mvo_store.specs.Writing.{IsDueSlice, JobStandsFor};
ghost use Rattle.mvo_store.specs.declared.jobs.due.Due.TheVariants.{Data, MergeData};

use crate::checkpoint::checkpoint_job::CheckpointJob;
use crate::checkpoint::checkpointing::Checkpointing;
use crate::checkpoint::stage::CheckpointStage;
use crate::jobs::advance::is_of_merge;
use crate::jobs::due::Due;
use crate::jobs::jobs::Jobs;
use crate::merge::merge_job::MergeJob;
use crate::merge::merging::Merging;
use crate::merge::stage::MergeStage;
use mvo_disk::Disk;
use mvo_format::LAST_FORMAT;
use mvo_manifest::Manifest;
use mvo_pair::write_slice;
use mvo_types::Refusal;
use std::alloc::Global;

/// Writes the next slice of the data file of a checkpoint, where that is to be written, and syncs
/// it. Answers how many records the file holds then.
fn slice_checkpoint<D: Disk>(
    alloc: Global,
    disk: &mut D,
    manifest: &Manifest,
    checkpoint: &Checkpointing,
) -> Result<usize, Refusal>
    requires room { D.fault_count disk.old + 1 < 2 ^ 64 }
    requires safe { IsSafeCheckpoint manifest.now checkpoint.now }
    requires stands { IsHonest (D.moment disk.old) →
        IfSome (first_due Data (Checkpoint checkpoint.now ∷ []))
        (JobStandsFor D.Disk disk.old manifest.now) }
    ensures { IsDueSlice D.Disk disk.old disk.new manifest.now
        (first_due Data (Checkpoint checkpoint.now ∷ [])) result }
{
    match checkpoint.stage {
        CheckpointStage::Data(written) => {
            let records = &checkpoint.made.records;
            match write_slice(alloc, disk, LAST_FORMAT, checkpoint.pair, records, written) {
                Ok(upto) => Ok(upto),
                Err(refusal) => Err(refusal),
            }
        }
        _ => Err(Refusal::NothingToDo),
    }
}

/// The same of a merge.
fn slice_merge<D: Disk>(
    alloc: Global,
    disk: &mut D,
    manifest: &Manifest,
    merge: &Merging,
) -> Result<usize, Refusal>
    requires room { D.fault_count disk.old + 1 < 2 ^ 64 }
    requires safe { IsSafeMerge manifest.now merge.now }
    requires stands { IsHonest (D.moment disk.old) →
        IfSome (first_due MergeData (Merge merge.now ∷ []))
        (JobStandsFor D.Disk disk.old manifest.now) }
    ensures { IsDueSlice D.Disk disk.old disk.new manifest.now
        (first_due MergeData (Merge merge.now ∷ [])) result }
{
    match merge.stage {
        MergeStage::Data(written) => {
            let records = &merge.seen.made.records;
            match write_slice(alloc, disk, LAST_FORMAT, merge.seen.pair, records, written) {
                Ok(upto) => Ok(upto),
                Err(refusal) => Err(refusal),
            }
        }
        MergeStage::Delta => Err(Refusal::NothingToDo),
    }
}

/// That of the checkpoint that runs, if one does.
fn slice_of_checkpoint<D: Disk>(
    alloc: Global,
    disk: &mut D,
    manifest: &Manifest,
    jobs: &Jobs,
) -> Result<usize, Refusal>
    requires room { D.fault_count disk.old + 1 < 2 ^ 64 }
    requires safe { AreSafe manifest.now jobs.now }
    requires stands { IsHonest (D.moment disk.old) →
        IfSome (job_due Data jobs.now) (JobStandsFor D.Disk disk.old manifest.now) }
    ensures { IsDueSlice D.Disk disk.old disk.new manifest.now (job_due Data jobs.now) result }
{
    match jobs {
        Jobs::Rotation(_, _) => Err(Refusal::NothingToDo),
        Jobs::Merge(_, _, _) => Err(Refusal::NothingToDo),
        Jobs::Beside(checkpoint, _) => match checkpoint {
            Some(CheckpointJob::Running(checkpoint)) => {
                slice_checkpoint(alloc, disk, manifest, checkpoint)
            }
            Some(CheckpointJob::Reading(_)) => Err(Refusal::NothingToDo),
            None => Err(Refusal::NothingToDo),
        },
    }
}

/// That of the merge.
fn slice_of_merge<D: Disk>(
    alloc: Global,
    disk: &mut D,
    manifest: &Manifest,
    jobs: &Jobs,
) -> Result<usize, Refusal>
    requires room { D.fault_count disk.old + 1 < 2 ^ 64 }
    requires safe { AreSafe manifest.now jobs.now }
    requires stands { IsHonest (D.moment disk.old) →
        IfSome (job_due MergeData jobs.now) (JobStandsFor D.Disk disk.old manifest.now) }
    ensures { IsDueSlice D.Disk disk.old disk.new manifest.now (job_due MergeData jobs.now)
        result }
{
    match jobs {
        Jobs::Rotation(_, _) => Err(Refusal::NothingToDo),
        Jobs::Merge(_, _, _) => Err(Refusal::NothingToDo),
        Jobs::Beside(_, merge) => match merge {
            Some(MergeJob::Running(merge)) => slice_merge(alloc, disk, manifest, merge),
            Some(MergeJob::Reading(_)) => Err(Refusal::NothingToDo),
            None => Err(Refusal::NothingToDo),
        },
    }
}

/// Writes the next slice of the data file of the job whose step this is, and syncs it. Answers how
/// many records the file holds then.
pub fn write_slice_of<D: Disk>(
    alloc: Global,
    disk: &mut D,
    manifest: &Manifest,
    jobs: &Jobs,
    step: Due,
) -> Result<usize, Refusal>
    requires room { D.fault_count disk.old + 1 < 2 ^ 64 }
    requires safe { AreSafe manifest.now jobs.now }
    requires stands { IsHonest (D.moment disk.old) →
        IfSome (job_due step jobs.now) (JobStandsFor D.Disk disk.old manifest.now) }
    requires data { IsTrue (is_of_data step) }
    ensures { IsDueSlice D.Disk disk.old disk.new manifest.now (job_due step jobs.now) result }
{
    match step {
        Due::Data => slice_of_checkpoint(alloc, disk, manifest, jobs),
        Due::MergeData => slice_of_merge(alloc, disk, manifest, jobs),
        Due::Delta | Due::MergeDelta | Due::Install(_) => unreachable!(),
    }
}

/// The stage of a checkpoint whose data file holds so many of so many records.
fn stage_upto(upto: usize, all: usize) -> CheckpointStage
    ensures { result ≡ stage_upto upto all }
{
    if upto < all {
        CheckpointStage::Data(upto)
    } else {
        CheckpointStage::Delta(0)
    }
}

/// That of a merge.
fn merge_stage_upto(upto: usize, all: usize) -> MergeStage
    ensures { result ≡ merge_stage_upto upto all }
{
    if upto < all {
        MergeStage::Data(upto)
    } else {
        MergeStage::Delta
    }
}

/// The checkpoint, where its data file holds so many records.
fn checkpoint_upto(upto: usize, checkpoint: Checkpointing) -> Checkpointing
    ensures { result ≡ checkpoint_upto upto checkpoint }
{
    let stage = stage_upto(upto, checkpoint.made.records.as_slice().len());
    let Checkpointing {
        pair,
        made,
        next,
        stage: _,
        placed,
    } = checkpoint;
    Checkpointing {
        pair,
        made,
        next,
        stage,
        placed,
    }
}

/// The same of one that runs. One whose segment is read has no file.
fn checkpoint_job_upto(upto: usize, checkpoint: CheckpointJob) -> CheckpointJob
    ensures { result ≡ checkpoint_job_upto upto checkpoint }
{
    match checkpoint {
        CheckpointJob::Reading(reading) => CheckpointJob::Reading(reading),
        CheckpointJob::Running(checkpoint) => {
            CheckpointJob::Running(checkpoint_upto(upto, checkpoint))
        }
    }
}

/// The merge.
fn merge_upto(upto: usize, merge: Merging) -> Merging
    ensures { result ≡ merge_upto upto merge }
{
    let stage = merge_stage_upto(upto, merge.seen.made.records.as_slice().len());
    let Merging { seen, stage: _ } = merge;
    Merging { seen, stage }
}

/// The same of one that runs. One whose pairs are read has no file.
fn merge_job_upto(upto: usize, merge: MergeJob) -> MergeJob
    ensures { result ≡ merge_job_upto upto merge }
{
    match merge {
        MergeJob::Reading(reading) => MergeJob::Reading(reading),
        MergeJob::Running(merge) => MergeJob::Running(merge_upto(upto, merge)),
    }
}

/// The jobs that run, where the data file of the one whose step this is holds so many records. The
/// other one is as it was.
pub fn with_slice(upto: usize, step: Due, jobs: Jobs) -> Jobs
    ensures { result ≡ jobs_upto upto step jobs }
{
    match jobs {
        Jobs::Beside(checkpoint, merge) => {
            if is_of_merge(step) {
                Jobs::Beside(checkpoint, merge.map(|merge| merge_job_upto(upto, merge)))
            } else {
                let checkpoint = checkpoint.map(|checkpoint| checkpoint_job_upto(upto, checkpoint));
                Jobs::Beside(checkpoint, merge)
            }
        }
        jobs => jobs,
    }
}
