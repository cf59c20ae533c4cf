//! Installs the manifest of a job, in three steps.
ghost use Rattle.std.specs.Prelude.{◌≡◌, ◌&&◌, IfOk};
ghost use Rattle.mvo_store.specs.declared.call.StoreCall.TheVariants.{Step};
ghost use Rattle.mvo_store.specs.declared.jobs.due.Due.TheVariants.{Install as InstallDue};
ghost use Rattle.mvo_store.specs.declared.install.install_step.InstallStep.TheVariants.{Close, Body, Open};
ghost use Rattle.mvo_store.specs.Calls.StoreStep.{Call};
ghost use Rattle.mvo_store.specs.Calls.{IsStoreStep, AnswersGeneration};
ghost use Rattle.mvo_store.specs.Causes.{why_not_install_open};
ghost use Rattle.mvo_store.specs.Jobs.{next_installed, after_install};
ghost use Rattle.mvo_store.specs.Old.{AreUnmarked};
ghost use Rattle.mvo_store.specs.Steps.{manifest_by, segment_by, filled_by, spent_by};

use crate::checkpoint::checkpoint_job::CheckpointJob;
use crate::install::generation::Generation;
use crate::install::install_step::InstallStep;
use crate::install::placing::take_over;
use crate::install::spent::Spent;
use crate::jobs::due::Due;
use crate::jobs::jobs::Jobs;
use crate::jobs::step_files::write_step;
use crate::old::{unmark, unmark_pair};
use crate::store::Store;
use mvo_disk::Disk;
use mvo_frame::Segment;
use mvo_manifest::Manifest;
use mvo_types::Refusal;
use std::mem::replace;

/// Takes away the marks of the files to which the job has given new content whose manifest is
/// installed: they are of the last version.
fn unmark_taken(marks: &mut Vec<bool>, jobs: &Jobs)
    ensures { AreUnmarked (filled_by (next_installed jobs.now)) marks.old.items marks.new.items }
{
    match jobs {
        Jobs::Rotation(fresh, _) => unmark(marks, fresh.file),
        Jobs::Beside(None, _) => {}
        Jobs::Beside(Some(CheckpointJob::Reading(_)), _) => {}
        Jobs::Beside(Some(CheckpointJob::Running(checkpoint)), _) => {
            unmark_pair(marks, &checkpoint.pair);
        }
        Jobs::Merge(seen, _, _) => unmark_pair(marks, &seen.pair),
    }
}

/// Puts the job's manifest in the place of the installed one, and a rotation's fresh segment in
/// that of the last. Answers the jobs that run on, which are a merge whose files aren't all
/// written, and what the job held.
fn put_installed(jobs: Jobs, manifest: &mut Manifest, segment: &mut Segment) -> (Jobs, Spent)
    ensures manifest { manifest.new ≡ manifest_by (next_installed jobs) manifest.old }
    ensures segment { segment.new ≡ segment_by (next_installed jobs) segment.old }
    ensures jobs { result.0 ≡ after_install jobs }
    ensures spent { result.1 ≡ spent_by (next_installed jobs) }
{
    match jobs {
        Jobs::Rotation(fresh, install) => {
            *manifest = install.next;
            *segment = fresh;
            (Jobs::none(), Spent::Nothing)
        }
        Jobs::Merge(seen, _, install) => {
            *manifest = install.next;
            (Jobs::none(), Spent::Merge(seen.made))
        }
        Jobs::Beside(checkpoint, merge) => match checkpoint {
            Some(CheckpointJob::Reading(_)) => (Jobs::Beside(None, merge), Spent::Nothing),
            Some(CheckpointJob::Running(checkpoint)) => {
                *manifest = checkpoint.next;
                (
                    Jobs::Beside(None, merge),
                    Spent::Checkpoint(checkpoint.made),
                )
            }
            None => (Jobs::Beside(None, merge), Spent::Nothing),
        },
    }
}

impl<D: Disk> Store<D> {
    /// Closes the gate of the slot that isn't the installed manifest's, and syncs. A gate that is
    /// closed isn't written again.
    ///
    /// Refused: Down, then NothingToDo where this isn't due, then DiskFault.
    pub fn install_close(&mut self) -> Result<(), Refusal>
        ensures { IsStoreStep D.Disk self.old (Call (Step (InstallDue Close))) result self.new }
    {
        self.write_due(Due::Install(InstallStep::Close))
    }

    /// Writes the manifest behind the closed gate, and syncs.
    ///
    /// Refused: Down, then NothingToDo where this isn't due, then OutOfMemory, then DiskFault.
    pub fn install_body(&mut self) -> Result<(), Refusal>
        ensures { IsStoreStep D.Disk self.old (Call (Step (InstallDue Body))) result self.new }
    {
        self.write_due(Due::Install(InstallStep::Body))
    }

    // Why no gate of a manifest is opened, before the disk is asked.
    fn why_not_open(&self) -> Option<Refusal>
        ensures { result ≡ why_not_install_open self.now }
    {
        if let Some(refusal) = self.why_not_due(Due::Install(InstallStep::Open)) {
            return Some(refusal);
        }
        if self.written && self.jobs.has_rotation() {
            return Some(Refusal::Busy);
        }
        None
    }

    /// Opens the gate, and syncs, as `install_open` does. Answers what the job held, beside the
    /// generation of the manifest: who holds a lock meanwhile lets it go behind the lock.
    ///
    /// Refused: Down, then NothingToDo where this isn't due, then for a rotation Busy while a body
    /// is written whose gate isn't open, then DiskFault.
    pub fn open_installed(&mut self) -> Result<(Generation, Spent), Refusal>
        ensures step { IsStoreStep D.Disk self.old (Call (Step (InstallDue Open))) result self.new }
        ensures generation { IfOk result (λ x. AnswersGeneration self.new x.0.0) }
        ensures spent { IfOk result (λ x. x.1 ≡ spent_by (next_installed self.old.jobs)) }
    {
        if let Some(refusal) = self.why_not_open() {
            return Err(refusal);
        }
        let step = Due::Install(InstallStep::Open);
        match write_step(self.alloc, &mut self.disk, &self.manifest, &self.jobs, step) {
            Ok(()) => {
                take_over(&mut self.places, &self.jobs);
                unmark_taken(&mut self.old_marks, &self.jobs);
                let jobs = replace(&mut self.jobs, Jobs::none());
                let (jobs, spent) = put_installed(jobs, &mut self.manifest, &mut self.segment);
                self.jobs = jobs;
                Ok((Generation(self.manifest.generation()), spent))
            }
            Err(refusal) => {
                self.down = true;
                Err(refusal)
            }
        }
    }

    /// Opens the gate, and syncs. The manifest is installed then; the fresh segment of a rotation
    /// takes frames, and the records of a checkpoint or a merge have their places: those that
    /// `place_slice` left are put. A merge beside the checkpoint runs on. Answers the generation of
    /// the manifest, and lets go of what the job held.
    ///
    /// Refused: Down, then NothingToDo where this isn't due, then for a rotation Busy while a body
    /// is written whose gate isn't open, then DiskFault.
    pub fn install_open(&mut self) -> Result<Generation, Refusal>
        ensures step { IsStoreStep D.Disk self.old (Call (Step (InstallDue Open))) result self.new }
        ensures generation { IfOk result (λ g. AnswersGeneration self.new g.0) }
    {
        match self.open_installed() {
            Ok((generation, _)) => Ok(generation),
            Err(refusal) => Err(refusal),
        }
    }
}
