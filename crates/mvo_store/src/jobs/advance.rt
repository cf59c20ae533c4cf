//! What a step makes of the jobs that run.
ghost use Rattle.std.specs.Prelude.{◌≡◌, length, None};
ghost use Rattle.mvo_store.specs.declared.jobs.jobs.Jobs.TheVariants.{Beside};
ghost use Rattle.mvo_store.specs.Jobs.{next_step, stepped, stage_behind, checkpoint_behind};
ghost use Rattle.mvo_store.specs.Jobs.{checkpoint_by, merge_by, is_of_merge, with_step};
ghost use Rattle.mvo_store.specs.Jobs.{merge_job_by, with_checkpoint, with_merge, with_reading};
ghost use Rattle.mvo_store.specs.Jobs.{without_reading, with_manifest, checkpoint_job_by};
ghost use Rattle.mvo_store.specs.Jobs.{with_segment_read, without_segment_read};

use crate::checkpoint::checkpoint_job::CheckpointJob;
use crate::checkpoint::checkpointing::Checkpointing;
use crate::checkpoint::reading::CheckpointReading;
use crate::checkpoint::stage::CheckpointStage;
use crate::install::install::Install;
use crate::install::install_step::InstallStep;
use crate::jobs::due::Due;
use crate::jobs::jobs::Jobs;
use crate::merge::merge_job::MergeJob;
use crate::merge::merging::Merging;
use crate::merge::reading::MergeReading;
use crate::merge::stage::MergeStage;
use mvo_manifest::Manifest;

/// The step behind one. Opening the gate is the last.
fn next_step(step: InstallStep) -> InstallStep
    ensures { result ≡ next_step step }
{
    match step {
        InstallStep::Close => InstallStep::Body,
        InstallStep::Body => InstallStep::Open,
        InstallStep::Open => InstallStep::Open,
    }
}

/// The install with one step behind it.
fn stepped(install: Install) -> Install
    ensures { result ≡ stepped install }
{
    let Install { next, step } = install;
    Install {
        next,
        step: next_step(step),
    }
}

/// The stage behind one of a checkpoint with so many older delta files to write: they come behind
/// the new pair's own.
fn stage_behind(older: usize, stage: CheckpointStage) -> CheckpointStage
    ensures { result ≡ stage_behind older stage }
{
    match stage {
        CheckpointStage::Data(_) => CheckpointStage::Delta(0),
        CheckpointStage::Delta(written) => {
            if written < older {
                CheckpointStage::Delta(written + 1)
            } else {
                CheckpointStage::Install(InstallStep::Close)
            }
        }
        CheckpointStage::Install(step) => CheckpointStage::Install(next_step(step)),
    }
}

/// The checkpoint with one step behind it.
fn checkpoint_behind(checkpoint: Checkpointing) -> Checkpointing
    ensures { result ≡ checkpoint_behind checkpoint }
{
    let stage = stage_behind(checkpoint.made.deltas.as_slice().len(), checkpoint.stage);
    let Checkpointing {
        pair,
        made,
        next,
        stage: _,
        placed,
    } = checkpoint;
    Checkpointing {
        pair,
        made,
        next,
        stage,
        placed,
    }
}

/// The same of one that runs. One whose segment is read has no step.
fn checkpoint_job_by(checkpoint: CheckpointJob) -> CheckpointJob
    ensures { result ≡ checkpoint_job_by checkpoint }
{
    match checkpoint {
        CheckpointJob::Reading(reading) => CheckpointJob::Reading(reading),
        CheckpointJob::Running(checkpoint) => {
            CheckpointJob::Running(checkpoint_behind(checkpoint))
        }
    }
}

/// The same of the one that runs.
fn checkpoint_by(checkpoint: Option<CheckpointJob>) -> Option<CheckpointJob>
    ensures { result ≡ checkpoint_by checkpoint }
{
    match checkpoint {
        Some(checkpoint) => Some(checkpoint_job_by(checkpoint)),
        None => None,
    }
}

/// A merge with its data file written.
fn merge_job_by(merge: MergeJob) -> MergeJob
    ensures { result ≡ merge_job_by merge }
{
    match merge {
        MergeJob::Reading(reading) => MergeJob::Reading(reading),
        MergeJob::Running(merge) => {
            let Merging { seen, stage: _ } = merge;
            MergeJob::Running(Merging {
                seen,
                stage: MergeStage::Delta,
            })
        }
    }
}

/// The same of the one that runs.
fn merge_by(merge: Option<MergeJob>) -> Option<MergeJob>
    ensures { result ≡ merge_by merge }
{
    match merge {
        Some(merge) => Some(merge_job_by(merge)),
        None => None,
    }
}

/// Whether the step is one of a merge whose files aren't all written.
pub fn is_of_merge(step: Due) -> bool
    ensures { result ≡ is_of_merge step }
{
    matches!(step, Due::MergeData | Due::MergeDelta)
}

/// The jobs that run with this step behind them, which was the next of one of them. The other one
/// is as it was.
pub fn with_step(step: Due, jobs: Jobs) -> Jobs
    ensures { result ≡ with_step step jobs }
{
    match jobs {
        Jobs::Rotation(fresh, install) => Jobs::Rotation(fresh, stepped(install)),
        Jobs::Merge(seen, placed, install) => Jobs::Merge(seen, placed, stepped(install)),
        Jobs::Beside(checkpoint, merge) => {
            if is_of_merge(step) {
                Jobs::Beside(checkpoint, merge_by(merge))
            } else {
                Jobs::Beside(checkpoint_by(checkpoint), merge)
            }
        }
    }
}

/// The jobs that run, and this checkpoint.
pub fn with_checkpoint(checkpoint: Checkpointing, jobs: Jobs) -> Jobs
    ensures { result ≡ with_checkpoint checkpoint jobs }
{
    match jobs {
        Jobs::Beside(running, merge) => {
            Jobs::Beside(running.or(Some(CheckpointJob::Running(checkpoint))), merge)
        }
        jobs => jobs,
    }
}

/// The jobs that run, and a checkpoint whose segment is read so.
pub fn with_segment_read(reading: CheckpointReading, jobs: Jobs) -> Jobs
    ensures { result ≡ with_segment_read reading jobs }
{
    match jobs {
        Jobs::Beside(running, merge) => {
            Jobs::Beside(running.or(Some(CheckpointJob::Reading(reading))), merge)
        }
        jobs => jobs,
    }
}

/// The jobs that run, but a checkpoint whose segment is read.
pub fn without_segment_read(jobs: Jobs) -> Jobs
    ensures { result ≡ without_segment_read jobs }
{
    match jobs {
        Jobs::Beside(Some(CheckpointJob::Reading(_)), merge) => Jobs::Beside(None, merge),
        jobs => jobs,
    }
}

/// The jobs that run, and this merge.
pub fn with_merge(merge: Merging, jobs: Jobs) -> Jobs
    ensures { result ≡ with_merge merge jobs }
{
    match jobs {
        Jobs::Beside(checkpoint, running) => {
            Jobs::Beside(checkpoint, running.or(Some(MergeJob::Running(merge))))
        }
        jobs => jobs,
    }
}

/// The jobs that run, and a merge whose pairs are read so.
pub fn with_reading(reading: MergeReading, jobs: Jobs) -> Jobs
    ensures { result ≡ with_reading reading jobs }
{
    match jobs {
        Jobs::Beside(checkpoint, running) => {
            Jobs::Beside(checkpoint, running.or(Some(MergeJob::Reading(reading))))
        }
        jobs => jobs,
    }
}

/// The jobs that run, but a merge whose pairs are read.
pub fn without_reading(jobs: Jobs) -> Jobs
    ensures { result ≡ without_reading jobs }
{
    match jobs {
        Jobs::Beside(checkpoint, Some(MergeJob::Reading(_))) => Jobs::Beside(checkpoint, None),
        jobs => jobs,
    }
}

/// The merge, if one runs, installs this manifest.
fn installing(next: Manifest, merge: Option<MergeJob>) -> Jobs
    ensures { result ≡ with_manifest next (Beside None merge) }
{
    match merge {
        Some(MergeJob::Reading(reading)) => Jobs::Beside(None, Some(MergeJob::Reading(reading))),
        Some(MergeJob::Running(merge)) => {
            let Merging { seen, stage: _ } = merge;
            Jobs::Merge(
                seen,
                0,
                Install {
                    next,
                    step: InstallStep::Close,
                },
            )
        }
        None => Jobs::none(),
    }
}

/// A merge with its last file written, and with this manifest to be installed, runs alone.
pub fn with_manifest(next: Manifest, jobs: Jobs) -> Jobs
    ensures { result ≡ with_manifest next jobs }
{
    match jobs {
        Jobs::Beside(None, merge) => installing(next, merge),
        jobs => jobs,
    }
}
