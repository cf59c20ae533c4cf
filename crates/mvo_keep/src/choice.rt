//! Which two neighbours are merged.
ghost use Rattle.std.specs.Prelude.{◌≡◌, ◌<◌, ◌≤◌, ◌^◌};
ghost use Rattle.mvo_keep.specs.Choosing.{live_in_both, dead_in_both, records_in_both, is_candidate, comes_before};

use crate::neighbours::Neighbours;
use crate::policy::Policy;

/// What two neighbours are chosen by.
#[derive(Clone, Copy, Debug, PartialEq, Eq)]
pub enum Choice {
    /// Those with the fewest live records, the first of them.
    LeastLive,
    /// The last whose left one has less than twice the live records of the right one.
    LastSmall,
    /// Those with the most dead records, the first of them, where more than half are dead.
    MostDead,
}

impl Choice {
    /// Whether it may choose these.
    pub fn allows(self, policy: &Policy, two: &Neighbours) -> bool
        ensures { result ≡ is_candidate policy.now self two.now }
    {
        if two.live() > policy.most_live {
            return false;
        }
        match self {
            Choice::LeastLive => true,
            Choice::LastSmall => two.is_left_small(),
            Choice::MostDead => { two.dead() >= policy.many_dead && 2 * two.dead() > two.records() }
        }
    }

    /// Whether it chooses the later ones before the earlier ones.
    pub fn prefers(self, later: &Neighbours, earlier: &Neighbours) -> bool
        ensures { result ≡ comes_before self later.now earlier.now }
    {
        match self {
            Choice::LeastLive => later.live() < earlier.live(),
            Choice::LastSmall => true,
            Choice::MostDead => later.dead() > earlier.dead(),
        }
    }
}
