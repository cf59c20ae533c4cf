ghost use Rattle.std.specs.Prelude.{◌≡◌, [], IfOk};

use mvo_core::{Closed, Core};
use mvo_group::Group;
use mvo_types::{RING_GROUPS, Refusal};
use rtrb::{Consumer, Producer, RingBuffer};
use std::alloc::{AllocError, Global};
use std::marker::Model;

/// Both ends of the ring of closed groups. Contracts see the groups that are closed and that the
/// store hasn't taken, the oldest first.
#[derive(Drop)]
pub struct Ring {
    producer: Producer<Group>,
    consumer: Consumer<Group>,
}

impl Model for Ring {
    ghost use Rattle.std.specs.Prelude.{List};
    ghost use Rattle.mvo_group.specs.Data.{GroupData};
    ghost use Rattle.mvo_world.specs.Ends.{in_ring, AreEnds};

    ghost Value = { List GroupData };

    ghost view = { λ r. in_ring r.producer r.consumer };

    ghost invariant = { λ r. AreEnds r.producer r.consumer };
}

impl Ring {
    ghost use Rattle.mvo_core.specs.Counting.{HasAsMany};
    ghost use Rattle.mvo_world.specs.Ring.{IsClosingInto, IsOldestTaken};

    /// A ring with no group.
    pub fn new(alloc: Global) -> Result<Ring, AllocError>
        ensures { IfOk result (λ ring. ring ≡ []) }
    {
        let (producer, consumer) = RingBuffer::new(alloc, RING_GROUPS)?;
        Ok(Ring { producer, consumer })
    }

    /// Has the core close the next group into the ring. Refused as `Core::close_group` is, with
    /// RingFull exactly where so many groups wait as the ring has room for.
    pub fn close(&mut self, core: &mut Core) -> Result<Closed, Refusal>
        ensures closing { IsClosingInto core.old self.old result core.new self.new }
        ensures count { HasAsMany core.old core.new }
    {
        // Looks at both ends, by which the proof knows which groups are in the ring.
        self.producer.slots_beside(&mut self.consumer);
        let result = core.close_group(&mut self.producer);
        self.producer.slots_beside(&mut self.consumer);
        self.consumer.slots_beside(&mut self.producer);
        result
    }

    /// Takes the oldest group out, if there is one.
    pub fn take(&mut self) -> Option<Group>
        ensures { IsOldestTaken self.old result self.new }
    {
        if self.consumer.slots_beside(&mut self.producer) == 0 {
            return None;
        }
        Some(self.consumer.pop_known())
    }
}
