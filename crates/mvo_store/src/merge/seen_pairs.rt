use mvo_merge::Merged;
use mvo_pair::Pair;

/// What a merge saw when it read its two pairs, and what it makes of them.
#[derive(Drop)]
pub struct SeenPairs {
    /// How many pairs stand before the two.
    pub place: usize,
    /// The first of the two, with the counts that it had then.
    pub left: Pair,
    /// The second.
    pub right: Pair,
    /// The pair that the two become, without the numbers that come late.
    pub pair: Pair,
    /// The pair's records, and the numbers that they had in the two.
    pub made: Merged,
}
