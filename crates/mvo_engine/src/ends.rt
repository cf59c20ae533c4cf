ghost use Rattle.std.specs.Prelude.{◌≡◌, ◌≤◌, IfOk};
ghost use Rattle.mvo_types.specs.declared.limits.TheConstants.{MAX_STAMP};
ghost use Rattle.mvo_engine.specs.Opened.{IsFreshRing, opening_groups};
ghost use Rattle.mvo_engine.specs.Passing.{count_of_groups};

use crate::chain::Chain;
use mvo_group::Group;
use mvo_types::{RING_GROUPS, Stamp};
use rtrb::{Consumer, Producer, RingBuffer};
use std::alloc::{AllocError, Global};

/// Both ends of the ring of closed groups, apart.
pub struct Ends {
    pub producer: Producer<Group, Global, Chain>,
    pub consumer: Consumer<Group, Global, Chain>,
}

impl Ends {
    /// The ends of a ring through which the group went that leads up to this mark, if it isn't 0.
    pub fn up_to(alloc: Global, mark: Stamp) -> Result<Ends, AllocError>
        requires { mark.0 ≤ MAX_STAMP }
        ensures { IfOk result (λ ends. IsFreshRing mark.0 ends.producer ends.consumer) }
    {
        let (mut producer, mut consumer) = RingBuffer::with_protocol::<Global, Chain>(
            alloc,
            RING_GROUPS,
        )?;
        if mark.0 > 0 {
            let group = Group::new(Stamp(0), mark, Vec::new(alloc)).unwrap();
            producer.push_reserved(group);
            consumer.slots_beside(&mut producer);
            let _ = consumer.pop_known();
        }
        Ok(Ends { producer, consumer })
    }
}

/// How many groups went through the ring that is made for this mark.
pub fn groups_up_to(mark: Stamp) -> u64
    ensures { result ≡ count_of_groups (opening_groups mark.0) }
{
    u64::from(mark.0 > 0)
}
