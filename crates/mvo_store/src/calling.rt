//! Makes a call, whichever it is.
ghost use Rattle.std.specs.Prelude.{IfOk};
ghost use Rattle.mvo_store.specs.declared.call.StoreCall.TheVariants.{Step};
ghost use Rattle.mvo_store.specs.declared.jobs.due.Due.TheVariants.{Install};
ghost use Rattle.mvo_store.specs.Calls.{AnswersCall, IsStoreStep};
ghost use Rattle.mvo_store.specs.Calls.StoreStep.{Call};

use crate::call::StoreCall;
use crate::done::Done;
use crate::install::install_step::InstallStep;
use crate::jobs::due::Due;
use crate::jobs::progress::Progress;
use crate::store::Store;
use mvo_disk::Disk;
use mvo_types::Refusal;

impl<D: Disk> Store<D> {
    // Makes the next step of an install.
    fn make_install(&mut self, step: InstallStep) -> Result<Done, Refusal>
        ensures step { IsStoreStep D.Disk self.old (Call (Step (Install step))) result self.new }
        ensures answers { IfOk result (λ done.
            AnswersCall D.Disk self.old (Step (Install step)) done self.new) }
    {
        match step {
            InstallStep::Close => {
                self.install_close()?;
                Ok(Done::Shut)
            }
            InstallStep::Body => {
                self.install_body()?;
                Ok(Done::Written)
            }
            InstallStep::Open => match self.install_open() {
                Ok(generation) => Ok(Done::Installed(generation)),
                Err(refusal) => Err(refusal),
            },
        }
    }

    // Makes the next step of a job.
    fn make_step(&mut self, step: Due) -> Result<Done, Refusal>
        ensures step { IsStoreStep D.Disk self.old (Call (Step step)) result self.new }
        ensures answers { IfOk result (λ done.
            AnswersCall D.Disk self.old (Step step) done self.new) }
    {
        match step {
            Due::Data => {
                self.checkpoint_data()?;
                Ok(Done::Progress(Progress::More))
            }
            Due::Delta => Ok(Done::Progress(self.checkpoint_delta()?)),
            Due::MergeData => {
                self.merge_data()?;
                Ok(Done::Progress(Progress::More))
            }
            Due::MergeDelta => {
                self.merge_delta()?;
                Ok(Done::Progress(Progress::Ready))
            }
            Due::Install(step) => self.make_install(step),
        }
    }

    /// Makes a call, as the method of its name does, and answers as that does.
    pub fn call(&mut self, call: StoreCall) -> Result<Done, Refusal>
        ensures step { IsStoreStep D.Disk self.old (Call call) result self.new }
        ensures answers { IfOk result (λ done. AnswersCall D.Disk self.old call done self.new) }
    {
        match call {
            StoreCall::AppendBody => {
                self.append_body()?;
                Ok(Done::Written)
            }
            StoreCall::AppendOpen => Ok(Done::Durable(self.append_open()?)),
            StoreCall::RotateWrite => {
                self.rotate_write()?;
                Ok(Done::Ready)
            }
            StoreCall::CheckpointRead => {
                self.checkpoint_read()?;
                Ok(Done::Progress(Progress::More))
            }
            StoreCall::MergeRead(place) => {
                self.merge_read(place)?;
                Ok(Done::Progress(Progress::More))
            }
            StoreCall::Step(step) => self.make_step(step),
            StoreCall::Reclaim => Ok(Done::Reclaimed(self.reclaim()?)),
        }
    }
}
