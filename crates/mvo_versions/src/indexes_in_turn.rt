use crate::index_maker::IndexMaker;
use crate::indexes::indexes_in_turn;
use mvo_chain::Chains;
use mvo_hash::HashIndex;
use mvo_range::{RangeIndex, SortPlace};
use std::alloc::{AllocError, Global};

/// Makes the indexes in the calling thread, one after the other.
#[derive(Clone, Copy, Debug)]
pub struct IndexesInTurn;

impl IndexMaker for IndexesInTurn {
    ghost may_make = { Unit {0} };

    fn indexes_of(
        &self,
        alloc: Global,
        seed: u64,
        chains: &Chains,
        places: Vec<(SortPlace, u32)>,
    ) -> Result<(HashIndex, RangeIndex), AllocError> {
        indexes_in_turn(alloc, seed, chains, places)
    }
}
