//! Writes the file of a job's next step.
ghost use Rattle.std.specs.Prelude.{◌≡◌, ◌≢◌, ◌<◌, ◌+◌, ◌^◌, IfSome, IsTrue};
ghost use Rattle.mvo_disk.specs.Disk.{IsHonest};
ghost use Rattle.mvo_store.specs.Safe.{IsSafeCheckpoint, IsSafeMerge, AreSafe};
ghost use Rattle.mvo_store.specs.Jobs.{job_due, is_step_due, merge_due_of};
ghost use Rattle.mvo_store.specs.Jobs.Job.{Checkpoint, Merge};
ghost use Rattle.mvo_store.specs.Writing.{JobStandsFor, IsJobStep, IsDueStep, InstallStands, IsInstallStep};
ghost use Rattle.mvo_store.specs.declared.jobs.due.Due.TheVariants.{MergeData, MergeDelta};
ghost use Rattle.mvo_store.specs.declared.install.install_step.InstallStep.TheVariants.{Close, Body, Open};

use crate::checkpoint::checkpoint_job::CheckpointJob;
use crate::checkpoint::checkpointing::Checkpointing;
use crate::checkpoint::deltas::write_next_delta;
use crate::checkpoint::stage::CheckpointStage;
use crate::install::install_step::InstallStep;
use crate::jobs::advance::is_of_merge;
use crate::jobs::due::Due;
use crate::jobs::jobs::Jobs;
use crate::merge::merge_job::MergeJob;
use crate::merge::merging::Merging;
use mvo_disk::Disk;
use mvo_format::LAST_FORMAT;
use mvo_manifest::{Manifest, close_slot, open_slot, write_slot};
use mvo_pair::write_data;
use mvo_types::Refusal;
use std::alloc::Global;

/// Closes the gate of the slot that a manifest is to have, and syncs.
fn close_other<D: Disk>(disk: &mut D, next: &Manifest) -> Result<(), Refusal>
    requires { D.fault_count disk.old + 1 < 2 ^ 64 }
    ensures { IsInstallStep D.Disk disk.old disk.new next.now Close result }
{
    match close_slot(disk, next.slot()) {
        Ok(()) => Ok(()),
        Err(_) => Err(Refusal::DiskFault),
    }
}

/// Writes the manifest behind it, and syncs.
fn write_other<D: Disk>(alloc: Global, disk: &mut D, next: &Manifest) -> Result<(), Refusal>
    requires room { D.fault_count disk.old + 1 < 2 ^ 64 }
    requires stands { InstallStands D.Disk disk.old next.now Body }
    ensures { IsInstallStep D.Disk disk.old disk.new next.now Body result }
{
    write_slot(alloc, disk, next)
}

/// Opens the gate, and syncs.
fn open_other<D: Disk>(disk: &mut D, next: &Manifest) -> Result<(), Refusal>
    requires { D.fault_count disk.old + 1 < 2 ^ 64 }
    ensures { IsInstallStep D.Disk disk.old disk.new next.now Open result }
{
    match open_slot(disk, next.slot()) {
        Ok(()) => Ok(()),
        Err(_) => Err(Refusal::DiskFault),
    }
}

/// Makes a step of the install of a manifest, in the other slot, and syncs it.
fn write_install<D: Disk>(
    alloc: Global,
    disk: &mut D,
    next: &Manifest,
    step: InstallStep,
) -> Result<(), Refusal>
    requires room { D.fault_count disk.old + 1 < 2 ^ 64 }
    requires stands { InstallStands D.Disk disk.old next.now step }
    ensures { IsInstallStep D.Disk disk.old disk.new next.now step result }
{
    match step {
        InstallStep::Close => close_other(disk, next),
        InstallStep::Body => write_other(alloc, disk, next),
        InstallStep::Open => open_other(disk, next),
    }
}

/// Writes the next file of a checkpoint, and syncs it.
fn write_checkpoint<D: Disk>(
    alloc: Global,
    disk: &mut D,
    manifest: &Manifest,
    checkpoint: &Checkpointing,
) -> Result<(), Refusal>
    requires room { D.fault_count disk.old + 1 < 2 ^ 64 }
    requires safe { IsSafeCheckpoint manifest.now checkpoint.now }
    requires stands { IsHonest (D.moment disk.old) →
        JobStandsFor D.Disk disk.old manifest.now (Checkpoint checkpoint.now) }
    ensures { IsJobStep D.Disk disk.old disk.new manifest.now (Checkpoint checkpoint.now)
        result }
{
    match checkpoint.stage {
        CheckpointStage::Data(_) => {
            let records = &checkpoint.made.records;
            write_data(alloc, disk, LAST_FORMAT, checkpoint.pair, records)
        }
        CheckpointStage::Delta(written) => {
            write_next_delta(alloc, disk, manifest, checkpoint, written)
        }
        CheckpointStage::Install(step) => write_install(alloc, disk, &checkpoint.next, step),
    }
}

/// Writes the data file of a merge, and syncs it.
fn write_merge_data<D: Disk>(
    alloc: Global,
    disk: &mut D,
    manifest: &Manifest,
    merge: &Merging,
) -> Result<(), Refusal>
    requires room { D.fault_count disk.old + 1 < 2 ^ 64 }
    requires safe { IsSafeMerge manifest.now merge.now }
    requires at { merge_due_of merge.now.stage ≡ MergeData }
    ensures { IsJobStep D.Disk disk.old disk.new manifest.now (Merge merge.now) result }
{
    let records = &merge.seen.made.records;
    write_data(alloc, disk, LAST_FORMAT, merge.seen.pair, records)
}

/// Writes the file of this step of the job whose next it is, other than the last file of a merge,
/// and syncs it: a file of its own, the delta file of an older pair, or the other slot.
pub fn write_step<D: Disk>(
    alloc: Global,
    disk: &mut D,
    manifest: &Manifest,
    jobs: &Jobs,
    step: Due,
) -> Result<(), Refusal>
    requires room { D.fault_count disk.old + 1 < 2 ^ 64 }
    requires safe { AreSafe manifest.now jobs.now }
    requires stands { IsHonest (D.moment disk.old) →
        IfSome (job_due step jobs.now) (JobStandsFor D.Disk disk.old manifest.now) }
    requires due { IsTrue (is_step_due step jobs.now) }
    requires file { step ≢ MergeDelta }
    ensures { IsDueStep D.Disk disk.old disk.new manifest.now (job_due step jobs.now) result }
{
    match jobs {
        Jobs::Rotation(_, install) | Jobs::Merge(_, _, install) => {
            write_install(alloc, disk, &install.next, install.step)
        }
        Jobs::Beside(checkpoint, merge) => {
            if is_of_merge(step) {
                match merge {
                    Some(MergeJob::Running(merge)) => {
                        write_merge_data(alloc, disk, manifest, merge)
                    }
                    Some(MergeJob::Reading(_)) => Err(Refusal::NothingToDo),
                    None => Err(Refusal::NothingToDo),
                }
            } else {
                match checkpoint {
                    Some(CheckpointJob::Running(checkpoint)) => {
                        write_checkpoint(alloc, disk, manifest, checkpoint)
                    }
                    Some(CheckpointJob::Reading(_)) => Err(Refusal::NothingToDo),
                    None => Err(Refusal::NothingToDo),
                }
            }
        }
    }
}
