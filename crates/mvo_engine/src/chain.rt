use mvo_group::Group;
use rtrb::Protocol;

/// What may go through the ring of closed groups: each group begins where the one before it ended,
/// and the first one at 0.
pub struct Chain;

impl Protocol<Group> for Chain {
    ghost use Rattle.std.specs.Prelude.{◌≡◌};
    ghost use Rattle.mvo_engine.specs.Sound.{last_mark};

    ghost allows = { λ before group. group.prev ≡ last_mark before };
}
