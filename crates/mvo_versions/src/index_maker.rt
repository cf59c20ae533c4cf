ghost use Rattle.std.specs.Prelude.{◌≡◌, ◌≤◌, ◌^◌, length, IfOk};
ghost use Rattle.mvo_range.specs.Place.{all_added};
ghost use Rattle.mvo_representation.specs.Indexes.{HasNumbers};

use mvo_chain::Chains;
use mvo_hash::HashIndex;
use mvo_range::{RangeIndex, SortPlace};
use std::alloc::{AllocError, Global};

/// Who makes the two indexes of versions: two threads, or the calling thread alone. Both make the
/// same.
pub trait IndexMaker {
    /// What it takes: a handle that threads may share.
    ghost may_make: { Type 0 };

    /// The key index of the versions and the ordered index of the places.
    fn indexes_of(
        &self,
        alloc: Global,
        seed: u64,
        chains: &Chains,
        places: Vec<(SortPlace, u32)>,
    ) -> Result<(HashIndex, RangeIndex), AllocError>
        requires maker { may_make }
        requires few { length chains.now ≤ 2 ^ 32 }
        ensures numbers { IfOk result (λ made. HasNumbers chains.now made.0.versions) }
        ensures places { IfOk result (λ made. made.1 ≡ all_added places.items) };
}
