ghost use Rattle.std.specs.Thread.{IsSync};

use crate::index_maker::IndexMaker;
use crate::indexes::indexes_of;
use mvo_chain::Chains;
use mvo_hash::HashIndex;
use mvo_range::{RangeIndex, SortPlace};
use std::alloc::{AllocError, Global};
use std::thread::Threads;

/// Makes the indexes of 8,192 rows or more in two threads, each index beside the other.
pub struct IndexesInThreads<'r, R> {
    rt: &'r R,
}

impl<'r, R> Drop for IndexesInThreads<'r, R> {
    fn drop(self) {
        let IndexesInThreads { rt: _ } = self;
    }
}

impl<'r, R: Threads + Sync> IndexesInThreads<'r, R> {
    /// One who starts threads by this handle.
    pub fn new(rt: &'r R) -> IndexesInThreads<'r, R> {
        IndexesInThreads { rt }
    }
}

impl<'r, R: Threads + Sync> IndexMaker for IndexesInThreads<'r, R> {
    ghost may_make = { IsSync R.row };

    fn indexes_of(
        &self,
        alloc: Global,
        seed: u64,
        chains: &Chains,
        places: Vec<(SortPlace, u32)>,
    ) -> Result<(HashIndex, RangeIndex), AllocError> {
        indexes_of(self.rt, alloc, seed, chains, places)
    }
}
