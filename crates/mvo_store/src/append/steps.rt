//! Appends a group to the last segment, in two steps.
ghost use Rattle.std.specs.Prelude.{IfOk};
ghost use Rattle.mvo_store.specs.Calls.StoreStep.{Call};
ghost use Rattle.mvo_store.specs.declared.call.StoreCall.TheVariants.{AppendBody, AppendOpen};
ghost use Rattle.mvo_store.specs.Calls.{IsStoreStep, AnswersMark};

use crate::append::durable::Durable;
use crate::fault::is_fault;
use crate::store::Store;
use mvo_disk::Disk;
use mvo_types::Refusal;

impl<D: Disk> Store<D> {
    /// Writes the length and the body of the pending group, and the next gate, closed, behind the
    /// present gate of the last segment, in one write, and syncs.
    ///
    /// Refused: Down, then NothingToDo where no group is pending, then Busy where its body is
    /// written, then OldSegment where the last segment is of an older version, then SegmentFull
    /// where it would pass `MAX_SEGMENT_LEN` bytes, then OutOfMemory, then DiskFault.
    pub fn append_body(&mut self) -> Result<(), Refusal>
        ensures { IsStoreStep D.Disk self.old (Call AppendBody) result self.new }
    {
        if self.down {
            return Err(Refusal::Down);
        }
        let old = self.has_old_last();
        let Some(group) = &self.pending else {
            return Err(Refusal::NothingToDo);
        };
        if self.written {
            return Err(Refusal::Busy);
        }
        if old {
            return Err(Refusal::OldSegment);
        }
        match self.segment.write_body(self.alloc, &mut self.disk, group) {
            Ok(()) => {
                self.written = true;
                Ok(())
            }
            Err(refusal) => {
                if is_fault(refusal) {
                    self.down = true;
                }
                Err(refusal)
            }
        }
    }

    /// Writes the gate of the pending group open, and syncs. Its mark is durable then.
    ///
    /// Refused: Down, then NothingToDo where no body is written, then DiskFault.
    pub fn append_open(&mut self) -> Result<Durable, Refusal>
        ensures step { IsStoreStep D.Disk self.old (Call AppendOpen) result self.new }
        ensures mark { IfOk result (AnswersMark self.new) }
    {
        if self.down {
            return Err(Refusal::Down);
        }
        if !self.written {
            return Err(Refusal::NothingToDo);
        }
        let Some(group) = &self.pending else {
            return Err(Refusal::NothingToDo);
        };
        let mark = group.mark();
        let Ok(()) = self.segment.open_gate(&mut self.disk) else {
            self.down = true;
            return Err(Refusal::DiskFault);
        };
        self.mark = mark;
        self.written = false;
        let _ = self.pending.take();
        Ok(Durable::new(mark))
    }
}
