//! Both indexes of versions that have their numbers already.
ghost use Rattle.std.specs.Prelude.{◌≡◌, ◌≤◌, ◌^◌, length, IfOk};
ghost use Rattle.mvo_range.specs.Place.{all_added};
ghost use Rattle.mvo_representation.specs.Indexes.{HasNumbers};

use mvo_chain::{Chains, VersionNo};
use mvo_hash::HashIndex;
use mvo_range::{RangeIndex, SortPlace};
use std::alloc::{AllocError, Global};
use std::thread::{Threads, join as beside};

/// The indexes of fewer rows than this are made by the calling thread: starting another takes
/// longer than it.
const FEW_ROWS: usize = 8_192;

/// The key index of the versions: each has its number under its key, and of the versions of one key
/// the greatest number is the newest. Room for all is made first.
pub fn index_of(alloc: Global, seed: u64, chains: &Chains) -> Result<HashIndex, AllocError>
    requires { length chains.now ≤ 2 ^ 32 }
    ensures { IfOk result (λ index. HasNumbers chains.now index.versions) }
{
    let count = chains.slot_count();
    let mut index = HashIndex::new(alloc, seed);
    index.reserve(count)?;
    for at in 0..count {
        let number = VersionNo(at as u32);
        if let Some(version) = chains.get(number) {
            index.add(version.row.row_key(), number)?;
        }
    }
    Ok(index)
}

/// The key index of the versions and the ordered index of the places, each made beside the other.
/// The key index is made in the new thread: it then lies in memory that nothing stood in before,
/// and what it makes room for and doesn't touch takes none.
fn at_once(
    rt: &(impl Threads + Sync),
    alloc: Global,
    seed: u64,
    chains: &Chains,
    places: Vec<(SortPlace, u32)>,
) -> Result<(HashIndex, RangeIndex), AllocError>
    requires { length chains.now ≤ 2 ^ 32 }
    ensures numbers { IfOk result (λ made. HasNumbers chains.now made.0.versions) }
    ensures places { IfOk result (λ made. made.1 ≡ all_added places.items) }
{
    let (index, order) = beside(
        rt,
        || -> Result<HashIndex, AllocError>
            requires { length chains.now ≤ 2 ^ 32 }
            ensures { IfOk result (λ index. HasNumbers chains.entry.now index.versions) }
        { index_of(alloc, seed, chains) },
        || -> Result<RangeIndex, AllocError>
            ensures { IfOk result (λ order. order ≡ all_added places.items) }
        { RangeIndex::from_entries(alloc, places) },
    );
    Ok((index?, order?))
}

/// The key index of the versions and the ordered index of the places, one after the other.
pub fn indexes_in_turn(
    alloc: Global,
    seed: u64,
    chains: &Chains,
    places: Vec<(SortPlace, u32)>,
) -> Result<(HashIndex, RangeIndex), AllocError>
    requires { length chains.now ≤ 2 ^ 32 }
    ensures numbers { IfOk result (λ made. HasNumbers chains.now made.0.versions) }
    ensures places { IfOk result (λ made. made.1 ≡ all_added places.items) }
{
    let index = index_of(alloc, seed, chains)?;
    let order = RangeIndex::from_entries(alloc, places)?;
    Ok((index, order))
}

/// The key index of the versions and the ordered index of the places: of few in the calling
/// thread, one after the other, and of more each in a thread of its own.
pub fn indexes_of(
    rt: &(impl Threads + Sync),
    alloc: Global,
    seed: u64,
    chains: &Chains,
    places: Vec<(SortPlace, u32)>,
) -> Result<(HashIndex, RangeIndex), AllocError>
    requires { length chains.now ≤ 2 ^ 32 }
    ensures numbers { IfOk result (λ made. HasNumbers chains.now made.0.versions) }
    ensures places { IfOk result (λ made. made.1 ≡ all_added places.items) }
{
    if places.len() >= FEW_ROWS {
        return at_once(rt, alloc, seed, chains, places);
    }
    indexes_in_turn(alloc, seed, chains, places)
}
