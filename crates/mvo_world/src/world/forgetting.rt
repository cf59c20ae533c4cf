//! The step of each event that lets go of what nobody can ask for any more.

use super::World;
use crate::event::Event;
use crate::reply::Reply;
use mvo_disk::Disk;
use mvo_types::Stamp;

impl<D: Disk> World<D> {
    ghost use Rattle.mvo_world.specs.Steps.{IsWorldStep};

    pub(super) fn collect(&mut self) -> Reply
        ensures { IsWorldStep D.Disk self.old Event.Collect result self.new }
    {
        Reply::Collected(self.core.collect_one())
    }

    pub(super) fn trim(&mut self, upto: Stamp) -> Reply
        ensures { IsWorldStep D.Disk self.old (Event.Trim upto) result self.new }
    {
        match self.core.trim_tale(upto) {
            Ok(()) => Reply::Trimmed(upto),
            Err(refusal) => Reply::Refused(refusal),
        }
    }
}
