//! A merge whose two pairs are read in slices.
ghost use Rattle.std.specs.Prelude.{◌≡◌, IfOk};
ghost use Rattle.mvo_store.specs.Calls.StoreStep.{MergeBegin, MergeReadOn, MergeForget};
ghost use Rattle.mvo_store.specs.Calls.{IsStoreStep, AnswersReading};
ghost use Rattle.mvo_store.specs.Causes.{why_not_merge_read};

use crate::fault::brings_down;
use crate::jobs::advance::{with_reading, without_reading};
use crate::jobs::jobs::Jobs;
use crate::jobs::progress::Progress;
use crate::jobs::run_due::slices_left;
use crate::merge::reading::{begin_reading, read_jobs};
use crate::store::Store;
use mvo_disk::Disk;
use mvo_types::Refusal;
use std::mem::replace;

impl<D: Disk> Store<D> {
    /// Begins to read the pair at a place, counted from 0, and the one behind it, to merge them, as
    /// `merge_read` does all at once: it reads the delta file and the header of the first, and
    /// takes memory for what the merge makes of both. `merge_read_slice` reads on. It writes and
    /// cuts nothing, and no file is taken. Appends go on meanwhile, and checkpoints, which may be
    /// installed.
    ///
    /// Refused: as `merge_read`.
    pub fn merge_begin(&mut self, place: usize) -> Result<(), Refusal>
        ensures { IsStoreStep D.Disk self.old (MergeBegin place) result self.new }
    {
        if let Some(refusal) = self.why_not_merge(place) {
            return Err(refusal);
        }
        match begin_reading(self.alloc, &mut self.disk, &self.manifest, place) {
            Ok(reading) => {
                let jobs = replace(&mut self.jobs, Jobs::none());
                self.jobs = with_reading(reading, jobs);
                Ok(())
            }
            Err(refusal) => {
                self.down = brings_down(refusal);
                Err(refusal)
            }
        }
    }

    // Why no slice of two pairs is read, before memory and the disk are asked.
    fn why_not_merge_read(&self) -> Option<Refusal>
        ensures { result ≡ why_not_merge_read self.now }
    {
        if self.down {
            return Some(Refusal::Down);
        }
        if !self.jobs.is_merge_read() {
            return Some(Refusal::NothingToDo);
        }
        None
    }

    /// Reads the next slice of the two pairs of a merge that `merge_begin` has begun: at most
    /// 256 KiB of a data file and 2,048 records, or the delta file and the header of the second
    /// pair. More comes with each slice but the last, and Ready with that: then the merge is as
    /// behind `merge_read`, with the live records that the two pairs had when it began, in the two
    /// files that are the least free now. It writes and cuts nothing.
    ///
    /// Refused: Down, then NothingToDo where no merge is read, then OutOfMemory, and then it may be
    /// repeated, or DiskFault. What the pairs hold was read when the store was opened, or written
    /// by it: where it comes back otherwise, so that it breaks a rule, the answer is Corrupt with a
    /// file or BadVersion, and the store is down.
    pub fn merge_read_slice(&mut self) -> Result<Progress, Refusal>
        ensures step { IsStoreStep D.Disk self.old MergeReadOn result self.new }
        ensures progress { IfOk result (AnswersReading self.new) }
    {
        if let Some(refusal) = self.why_not_merge_read() {
            return Err(refusal);
        }
        let other = self.jobs.checkpoint_pair();
        let jobs = replace(&mut self.jobs, Jobs::none());
        let (jobs, read) = read_jobs(self.alloc, &mut self.disk, &self.manifest, other, jobs);
        self.jobs = jobs;
        match read {
            Ok(()) => Ok(slices_left(self.jobs.is_merge_read())),
            Err(refusal) => {
                self.down = brings_down(refusal);
                Err(refusal)
            }
        }
    }

    /// Forgets what is read of the two pairs of a merge that `merge_begin` has begun: no merge runs
    /// then. So others needn't wait for it where no slice is read any more, as for want of memory.
    /// It asks the disk for nothing and takes no memory.
    ///
    /// Refused: Down, then NothingToDo where no merge is read.
    pub fn merge_forget(&mut self) -> Result<(), Refusal>
        ensures { IsStoreStep D.Disk self.old MergeForget result self.new }
    {
        if let Some(refusal) = self.why_not_merge_read() {
            return Err(refusal);
        }
        let jobs = replace(&mut self.jobs, Jobs::none());
        self.jobs = without_reading(jobs);
        Ok(())
    }
}
