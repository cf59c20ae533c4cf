//! Brings a job that runs on by a step.
ghost use Rattle.std.specs.Prelude.{◌≡◌, ◌≢◌, IsTrue, IfOk};
ghost use Rattle.mvo_store.specs.declared.jobs.due.Due.TheVariants.{MergeDelta, Install};
ghost use Rattle.mvo_store.specs.declared.install.install_step.InstallStep.TheVariants.{Open};
ghost use Rattle.mvo_store.specs.Calls.StoreStep.{Call, Slice};
ghost use Rattle.mvo_store.specs.Calls.{IsStoreStep, AnswersSlice};
ghost use Rattle.mvo_store.specs.Jobs.{is_of_data, slices_left};
ghost use Rattle.mvo_store.specs.declared.call.StoreCall.TheVariants.{Step};
ghost use Rattle.mvo_store.specs.Causes.{why_not_due};

use crate::fault::is_fault;
use crate::jobs::advance::with_step;
use crate::jobs::due::Due;
use crate::jobs::jobs::Jobs;
use crate::jobs::progress::Progress;
use crate::jobs::slices::{with_slice, write_slice_of};
use crate::jobs::step_files::write_step;
use crate::store::Store;
use mvo_disk::Disk;
use mvo_types::Refusal;
use std::mem::replace;

impl<D: Disk> Store<D> {
    /// Why this step of a job that runs isn't made, before memory and the disk are asked.
    pub(crate) fn why_not_due(&self, step: Due) -> Option<Refusal>
        ensures { result ≡ why_not_due step self.now }
    {
        if self.down {
            return Some(Refusal::Down);
        }
        if !self.jobs.is_due(step) {
            return Some(Refusal::NothingToDo);
        }
        None
    }

    /// Makes a step of a job that runs, other than the last file of a merge and the opening of a
    /// manifest's gate: writes its file, and syncs it.
    ///
    /// Refused: Down, then NothingToDo where the step isn't due, then OutOfMemory, then DiskFault.
    pub(crate) fn write_due(&mut self, step: Due) -> Result<(), Refusal>
        requires file { step ≢ MergeDelta }
        requires gate { step ≢ Install Open }
        ensures { IsStoreStep D.Disk self.old (Call (Step step)) result self.new }
    {
        if let Some(refusal) = self.why_not_due(step) {
            return Err(refusal);
        }
        match write_step(self.alloc, &mut self.disk, &self.manifest, &self.jobs, step) {
            Ok(()) => {
                let jobs = replace(&mut self.jobs, Jobs::none());
                self.jobs = with_step(step, jobs);
                Ok(())
            }
            Err(refusal) => {
                self.down = is_fault(refusal);
                Err(refusal)
            }
        }
    }
    /// Writes the next slice of the data file of a job, and syncs it. More comes with each but the
    /// last.
    ///
    /// Refused: Down, then NothingToDo where the step isn't due, then OutOfMemory, then DiskFault.
    pub(crate) fn slice_due(&mut self, step: Due) -> Result<Progress, Refusal>
        requires data { IsTrue (is_of_data step) }
        ensures step { IsStoreStep D.Disk self.old (Slice step) result self.new }
        ensures progress { IfOk result (AnswersSlice step self.new) }
    {
        if let Some(refusal) = self.why_not_due(step) {
            return Err(refusal);
        }
        match write_slice_of(self.alloc, &mut self.disk, &self.manifest, &self.jobs, step) {
            Ok(upto) => {
                let jobs = replace(&mut self.jobs, Jobs::none());
                self.jobs = with_slice(upto, step, jobs);
                Ok(slices_left(self.jobs.is_due(step)))
            }
            Err(refusal) => {
                self.down = is_fault(refusal);
                Err(refusal)
            }
        }
    }
}

/// Whether more slices are left where the step is due, or isn't due any more.
pub fn slices_left(due: bool) -> Progress
    ensures { result ≡ slices_left due }
{
    if due { Progress::More } else { Progress::Ready }
}
