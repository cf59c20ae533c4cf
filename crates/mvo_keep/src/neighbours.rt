//! Two pairs, one behind the other.
ghost use Rattle.std.specs.Prelude.{◌≡◌, ◌<◌, ◌^◌};
ghost use Rattle.mvo_keep.specs.Choosing.{live_in, live_in_both, dead_in_both, records_in_both, is_left_small};

use mvo_pair::Pair;

/// The pair at a place, counted from 0, and the one behind it.
#[derive(Clone, Copy, Debug, PartialEq, Eq)]
pub struct Neighbours {
    /// The place of the left one.
    pub place: usize,
    /// The older of the two.
    pub left: Pair,
    /// The younger.
    pub right: Pair,
}

/// How many records of a pair are live.
fn live_in(pair: &Pair) -> u64
    ensures count { result ≡ live_in pair.now }
    ensures few { result < 2 ^ 32 }
{
    u64::from(pair.records.saturating_sub(pair.entries))
}

impl Neighbours {
    /// How many records of both are live.
    pub fn live(&self) -> u64
        ensures { result ≡ live_in_both self.now }
    {
        live_in(&self.left) + live_in(&self.right)
    }

    /// How many records of both are dead.
    pub fn dead(&self) -> u64
        ensures count { result ≡ dead_in_both self.now }
        ensures few { result < 2 ^ 33 }
    {
        u64::from(self.left.entries) + u64::from(self.right.entries)
    }

    /// How many records both have.
    pub fn records(&self) -> u64
        ensures { result ≡ records_in_both self.now }
    {
        u64::from(self.left.records) + u64::from(self.right.records)
    }

    /// Whether the left one has less than twice the live records of the right one.
    pub fn is_left_small(&self) -> bool
        ensures { result ≡ is_left_small self.now }
    {
        live_in(&self.left) < 2 * live_in(&self.right)
    }
}
