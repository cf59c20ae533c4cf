//! A checkpoint whose segment is read, and whose pair is built, in slices.
ghost use Rattle.std.specs.Prelude.{◌≡◌, IfOk};
ghost use Rattle.mvo_store.specs.Calls.StoreStep.{CheckpointBegin, CheckpointReadOn, CheckpointForget};
ghost use Rattle.mvo_store.specs.Calls.{IsStoreStep, AnswersCheckpointReading};
ghost use Rattle.mvo_store.specs.Causes.{why_not_segment_read};

use crate::checkpoint::reading::{begin_oldest, read_segment_on};
use crate::fault::brings_down;
use crate::jobs::advance::{with_segment_read, without_segment_read};
use crate::jobs::jobs::Jobs;
use crate::jobs::progress::Progress;
use crate::jobs::run_due::slices_left;
use crate::store::Store;
use mvo_disk::Disk;
use mvo_types::Refusal;
use std::mem::replace;

impl<D: Disk> Store<D> {
    /// Begins to read the oldest sealed segment, of which a checkpoint is to be made, as
    /// `checkpoint_read` does all at once: it reads the segment's header alone.
    /// `checkpoint_read_slice` reads on. It writes and cuts nothing, and no file is taken. Appends
    /// go on meanwhile, and so may a merge up to its last file; a rotation and another checkpoint
    /// wait.
    ///
    /// Refused: as `checkpoint_read`.
    pub fn checkpoint_begin(&mut self) -> Result<(), Refusal>
        ensures { IsStoreStep D.Disk self.old CheckpointBegin result self.new }
    {
        if let Some(refusal) = self.why_not_checkpoint() {
            return Err(refusal);
        }
        match begin_oldest(self.alloc, &mut self.disk, &self.manifest) {
            Ok(reading) => {
                let jobs = replace(&mut self.jobs, Jobs::none());
                self.jobs = with_segment_read(reading, jobs);
                Ok(())
            }
            Err(refusal) => {
                self.down = brings_down(refusal);
                Err(refusal)
            }
        }
    }

    // Why no slice of a segment is read, before memory and the disk are asked.
    fn why_not_segment_read(&self) -> Option<Refusal>
        ensures { result ≡ why_not_segment_read self.now }
    {
        if self.down {
            return Some(Refusal::Down);
        }
        if !self.jobs.is_segment_read() {
            return Some(Refusal::NothingToDo);
        }
        None
    }

    /// Reads the next slice of the segment of a checkpoint that `checkpoint_begin` has begun: the
    /// groups of which the frames begin among the next 2 MiB. Behind all of them it builds a slice
    /// of the pair: of 16,384 writes, by whole transactions, or the numbers that one pair's delta
    /// file gains; and at last it plans the checkpoint, and makes room for its places. More comes
    /// with each slice but the last, and Ready with that: then the checkpoint is as behind
    /// `checkpoint_read`, in the two files that are the least free now. It writes and cuts nothing.
    ///
    /// Refused: Down, then NothingToDo where no segment is read, then OutOfMemory or DiskFault.
    /// Behind OutOfMemory it may be repeated; but where the pair is being built, what was read and
    /// built is let go, and no checkpoint runs any more. What the segment holds was read when the
    /// store was opened, or written by it: where it comes back otherwise, so that it breaks a rule,
    /// the answer is Corrupt with a file or BadVersion, and the store is down.
    pub fn checkpoint_read_slice(&mut self) -> Result<Progress, Refusal>
        ensures step { IsStoreStep D.Disk self.old CheckpointReadOn result self.new }
        ensures progress { IfOk result (AnswersCheckpointReading self.new) }
    {
        if let Some(refusal) = self.why_not_segment_read() {
            return Err(refusal);
        }
        let (alloc, other) = (self.alloc, self.jobs.merge_pair());
        let jobs = replace(&mut self.jobs, Jobs::none());
        let (disk, places) = (&mut self.disk, &mut self.places);
        let (jobs, read) = read_segment_on(alloc, disk, places, &self.manifest, other, jobs);
        self.jobs = jobs;
        match read {
            Ok(()) => Ok(slices_left(self.jobs.is_segment_read())),
            Err(refusal) => {
                self.down = brings_down(refusal);
                Err(refusal)
            }
        }
    }

    /// Forgets what is read of the segment of a checkpoint that `checkpoint_begin` has begun, and
    /// what is built of its pair: no checkpoint runs then. So others needn't wait for it where no
    /// slice is read any more, as for want of memory. It asks the disk for nothing and takes no
    /// memory.
    ///
    /// Refused: Down, then NothingToDo where no segment is read.
    pub fn checkpoint_forget(&mut self) -> Result<(), Refusal>
        ensures { IsStoreStep D.Disk self.old CheckpointForget result self.new }
    {
        if let Some(refusal) = self.why_not_segment_read() {
            return Err(refusal);
        }
        let jobs = replace(&mut self.jobs, Jobs::none());
        self.jobs = without_segment_read(jobs);
        Ok(())
    }
}
