//! The entries of the ordered index, each with the number of runs of versions that stand at its
//! place: a run is one of neighbours among the versions of a key that have one sort.
//!
//! So a version that comes in front of one with its sort, and one that goes from beside such a one,
//! leave the ordered index alone; and nobody walks over the versions of a key to find out whether
//! another has that sort.
ghost use Rattle.std.specs.Prelude.{◌≡◌, ◌+◌, ◌<◌, ◌^◌, cond, None, OnOk, OnErr, IsSome, IfSome};
ghost use Rattle.std.specs.FinMap as map;
ghost use Rattle.mvo_chain.specs.Slots.{version_at};
ghost use Rattle.mvo_representation.specs.Indexes.{HasNumbers, version_place as place_of_version};
ghost use Rattle.mvo_versions.specs.Changes.{is_number_at, is_one_at};
ghost use Rattle.mvo_versions.specs.Runs.{count_at, one_more, one_less, is_newest_at};
ghost use Rattle.mvo_versions.specs.Runs.{place_at as place_at_number, joined_place, left, entered};

use mvo_chain::{Chains, VersionNo};
use mvo_hash::HashIndex;
use mvo_range::{RangeIndex, SortPlace};
use std::alloc::AllocError;

/// For the proof alone: what the type of a number says of it.
pub fn fits(number: VersionNo)
    ensures { number.0 < 2 ^ 32 }
{
    let _ = number.0;
}

/// The place of the version.
pub fn place_of(chains: &Chains, number: VersionNo) -> SortPlace
    requires { IsSome (version_at chains.now number) }
    ensures { IfSome (version_at chains.now number) (λ v. result ≡ place_of_version v) }
{
    let row = &chains.get(number).unwrap().row;
    SortPlace::new(row.row_key(), row.sort)
}

/// Whether the newest version of its key stands at the place. It isn't looked up where `like` is
/// the newest one and stands there.
pub fn joins(chains: &Chains, index: &HashIndex, like: Option<VersionNo>, place: SortPlace) -> bool
    requires { HasNumbers chains.now index.now.versions }
    ensures { result ≡ is_newest_at chains.now index.now.versions place }
{
    if let Some(like) = like {
        if is_at(chains, like, place) && index.newer(like).is_none() {
            return true;
        }
    }
    is_one_at(chains, index.newest(place.row_key()), place)
}

/// Counts the run that a version begins which comes to the front of its key, unless it joins one.
pub fn enter(order: &mut RangeIndex, place: SortPlace, joins: bool) -> Result<(), AllocError>
    requires { count_at order.old place + 1 < 2 ^ 32 }
    ensures ok { OnOk result (order.new ≡ entered joins order.old place) }
    ensures err { OnErr result (order.new ≡ order.old) }
    ensures absent { OnErr result (map.get order.old place ≡ None) }
{
    if joins {
        return Ok(());
    }
    if let Some(runs) = order.add(place, 1)? {
        set_count(order, place, runs + 1);
    }
    Ok(())
}

/// Replaces the number of runs at a place that has an entry, which takes no memory.
fn set_count(order: &mut RangeIndex, place: SortPlace, runs: u32)
    requires { IsSome (map.get order.old place) }
    ensures { order.new ≡ map.insert order.old place runs }
{
    let _ = order.add(place, runs);
}

/// Takes back what `enter` did.
pub fn give_back(order: &mut RangeIndex, place: SortPlace, joins: bool)
    ensures { order.new ≡ cond joins order.old (one_less order.old place) }
{
    if !joins {
        count_down(order, place);
    }
}

/// Counts the runs that end where a version goes from the place, from between these neighbours:
/// its own, where neither stands there; and one of theirs, where their two runs become one.
pub fn leave(
    order: &mut RangeIndex,
    chains: &Chains,
    place: SortPlace,
    newer: Option<VersionNo>,
    older: Option<VersionNo>,
)
    ensures { order.new ≡ left chains.now order.old place newer older }
{
    if is_one_at(chains, newer, place) || is_one_at(chains, older, place) {
        return;
    }
    count_down(order, place);
    if let Some(joined) = joined_place(chains, newer, older) {
        count_down(order, joined);
    }
}

/// One run fewer at the place, whose entry goes with the last one.
fn count_down(order: &mut RangeIndex, place: SortPlace)
    ensures { order.new ≡ one_less order.old place }
{
    match order.get(place) {
        Some(runs) if runs > 1 => set_count(order, place, runs - 1),
        _ => {
            order.remove(place);
        }
    }
}

/// Where both stand, if they stand at one place.
fn joined_place(
    chains: &Chains,
    newer: Option<VersionNo>,
    older: Option<VersionNo>,
) -> Option<SortPlace>
    ensures { result ≡ joined_place chains.now newer older }
{
    let place = place_at(chains, newer)?;
    if !is_one_at(chains, older, place) {
        return None;
    }
    Some(place)
}

/// Where the version stands, if there is one.
fn place_at(chains: &Chains, number: Option<VersionNo>) -> Option<SortPlace>
    ensures { result ≡ place_at_number chains.now number }
{
    let version = chains.get(number?)?;
    Some(SortPlace::new(version.row.row_key(), version.row.sort))
}

/// Whether the version stands at the place.
fn is_at(chains: &Chains, number: VersionNo, place: SortPlace) -> bool
    ensures { result ≡ is_number_at chains.now place number.0 }
{
    match chains.get(number) {
        Some(version) => SortPlace::new(version.row.row_key(), version.row.sort) == place,
        None => false,
    }
}

/// Whether there is such a version, and it stands at the place.
fn is_one_at(chains: &Chains, number: Option<VersionNo>, place: SortPlace) -> bool
    ensures { result ≡ is_one_at chains.now place number }
{
    match number {
        Some(number) => is_at(chains, number, place),
        None => false,
    }
}
