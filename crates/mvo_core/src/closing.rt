//! Groups of commits, for the log.

use crate::answers::Closed;
use crate::event_core::Core;
use crate::trimming::lesser;
use mvo_group::Group;
use mvo_tale::NextRecords;
use mvo_types::Refusal;
use rtrb::{Producer, Protocol};
use std::alloc::Global;

impl Core {
    ghost use Rattle.rtrb.specs.Ring.{SameProducer};
    ghost use Rattle.std.specs.Prelude.{IfOk};
    ghost use Rattle.mvo_core.specs.Closing.{IsClosing, AllowsNext};
    ghost use Rattle.mvo_core.specs.Trimming.{HasForgotten};
    ghost use Rattle.mvo_core.specs.WholeClosing.{IsWholeClosing};
    ghost use Rattle.mvo_core.specs.Counting.{HasAsMany};

    /// Closes the next group and puts it into the ring: the longest beginning of the commits that
    /// wrote with an end above the last group's mark and at most the low-water, which fits into a
    /// group. If all fit, its mark is the low-water, else the end of the last that does. A group
    /// may hold no records. What is both in a group and trimmed then is forgotten. Refused, in this
    /// order: NothingToDo if the mark wouldn't rise, RingFull if no slot of the ring is free,
    /// OutOfMemory.
    ///
    /// A ring may have a rule on what goes through it, as that each group begins where the one
    /// before it ended: the core keeps any rule that allows each group from the last mark on.
    pub fn close_group<P: Protocol<Group>>(
        &mut self,
        ring: &mut Producer<Group, Global, P>,
    ) -> Result<Closed, Refusal>
        requires allowed { AllowsNext P.allows self.old ring.old }
        ensures step { IsClosing self.old ring.old result self.new ring.new }
        ensures ring { SameProducer ring.old ring.new }
        ensures forgets { IfOk result (λ c.
            HasForgotten self.old.start c.mark.0 self.old self.new) }
        ensures whole { IsWholeClosing self.old ring.old result self.new ring.new }
        ensures count { HasAsMany self.old self.new }
    {
        let prev = self.closed;
        let low_water = self.table.low_water();
        // A look at the clock: from it the proof knows that the low-water is a timestamp.
        let _ = self.table.clock();
        if low_water == prev {
            return Err(Refusal::NothingToDo);
        }
        if ring.is_full() {
            return Err(Refusal::RingFull);
        }
        let next = self
            .tale
            .next_records(self.alloc, self.grouped, prev, low_water)?;
        let NextRecords {
            records,
            mark,
            next,
        } = next;
        ring.push_reserved(Group::new(prev, mark, records).unwrap());
        self.closed = mark;
        self.grouped = next;
        self.tale.forget(lesser(self.start, mark));
        Ok(Closed { prev, mark })
    }
}
