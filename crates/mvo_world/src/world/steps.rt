//! The step of each event of the log, and the poll.

use super::World;
use crate::event::Event;
use crate::reply::Reply;
use mvo_disk::Disk;
use mvo_store::{Done, StoreCall};
use mvo_types::{Refusal, Stamp};

impl<D: Disk> World<D> {
    ghost use Rattle.mvo_world.specs.Replies.{reply_of, reply_to_taking};
    ghost use Rattle.mvo_world.specs.Steps.{IsWorldStep};

    pub(super) fn close_group(&mut self) -> Reply
        ensures { IsWorldStep D.Disk self.old Event.CloseGroup result self.new }
    {
        match self.ring.close(&mut self.core) {
            Ok(closed) => Reply::Closed(closed),
            Err(refusal) => Reply::Refused(refusal),
        }
    }

    pub(super) fn take_group(&mut self) -> Result<(), Refusal>
        ensures { IsWorldStep D.Disk self.old Event.TakeGroup (reply_to_taking result) self.new }
    {
        if let Some(refusal) = self.store.can_take() {
            return Err(refusal);
        }
        let Some(group) = self.ring.take() else {
            return Err(Refusal::NothingToDo);
        };
        self.store.accept_group(group);
        Ok(())
    }

    pub(super) fn call_store(&mut self, call: StoreCall) -> Result<Done, Refusal>
        ensures { IsWorldStep D.Disk self.old (Event.Store call) (reply_of result) self.new }
    {
        self.store.call(call)
    }

    pub(super) fn poll(&self, stamp: Stamp) -> Reply
        ensures { IsWorldStep D.Disk self.now (Event.Poll stamp) result self.now }
    {
        Reply::Polled(self.store.mark() >= stamp)
    }
}
