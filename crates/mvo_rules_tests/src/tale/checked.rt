//! Calls of the tale, where what they require stands. It is tested first.

ghost use Rattle.std.specs.Prelude.{◌≡◌, ◌<◌, ◌≤◌, [], ◌∷◌, IsTrue, Some, length, take, true};
ghost use Rattle.std.specs.List.{AllByRecursion};
ghost use Rattle.std.specs.Option.{option_copied};
ghost use Rattle.mvo_theory.specs.Groups.{is_due as due};
ghost use Rattle.mvo_tale.specs.Stored.{stored_commit_of};
ghost use Rattle.mvo_tale.specs.Slots.{ends, open_ends, tale_commits, pending_end_at, is_empty};
ghost use Rattle.mvo_tale.specs.Forgetting.{slot_or_empty};
ghost use Rattle.mvo_tale.specs.Next.{NoneIsDue, IsBehindStored, AreGroupedTo};

use mvo_tale::{NextRecords, Tale, TaleEntry, TalePlace};
use mvo_types::{MAX_STAMP, Stamp};
use std::alloc::{AllocError, Global};

fn is_end_below(slot: Option<&TalePlace>, bound: Stamp) -> bool
    ensures { let x = slot_or_empty (option_copied slot.entry) in
        IsTrue result → AllByRecursion (λ end. end < bound.0) (ends (x ∷ [])) }
{
    match slot {
        Some(TalePlace::Open(end)) => end.0 < bound.0,
        Some(TalePlace::Reading(begin)) => begin.0 < bound.0,
        Some(TalePlace::Settled(entry)) => entry.end.0 < bound.0,
        _ => true,
    }
}

fn are_ends_below(tale: &Tale, bound: Stamp) -> bool
    ensures { IsTrue result → AllByRecursion (λ end. end < bound.0) (ends tale.now) }
{
    for place in 0..tale.len() {
        if !is_end_below(tale.slot(place), bound) {
            return false;
        }
    }
    true
}

/// Opens a place, if the end is above the others.
pub fn open_at(tale: &mut Tale, end: Stamp) -> Result<Option<usize>, AllocError> {
    if !are_ends_below(tale, end) {
        return Ok(None);
    }
    Ok(Some(tale.open(end)?))
}

/// Opens a place for a read-only transaction, if its begin is above the ends.
pub fn open_reading_at(tale: &mut Tale, begin: Stamp) -> Result<Option<usize>, AllocError> {
    if !are_ends_below(tale, begin) {
        return Ok(None);
    }
    Ok(Some(tale.open_reading(begin)?))
}

fn is_pending_at(tale: &Tale, place: usize, end: Stamp) -> bool
    ensures { IsTrue result → pending_end_at tale.now place ≡ Some end.0 }
{
    if place >= tale.len() {
        return false;
    }
    match tale.slot(place) {
        Some(TalePlace::Open(at)) => at.0 == end.0,
        Some(TalePlace::Reading(at)) => at.0 == end.0,
        _ => false,
    }
}

/// Stores a commit at an open place, if the end there is its own.
pub fn settle_at(tale: &mut Tale, place: usize, entry: TaleEntry) -> bool {
    if !is_pending_at(tale, place, entry.end) {
        return false;
    }
    tale.settle(place, entry);
    true
}

/// Leaves an open place, if the end there is this one.
pub fn leave_at(tale: &mut Tale, place: usize, end: Stamp) -> bool {
    if !is_pending_at(tale, place, end) {
        return false;
    }
    tale.leave(place);
    true
}

fn is_open_above(slot: Option<&TalePlace>, mark: Stamp) -> bool
    ensures { let x = slot_or_empty (option_copied slot.entry) in
        IsTrue result → AllByRecursion (λ end. mark.0 < end) (open_ends (x ∷ [])) }
{
    match slot {
        Some(TalePlace::Open(end)) => mark.0 < end.0,
        _ => true,
    }
}

fn are_open_above(tale: &Tale, mark: Stamp) -> bool
    ensures { IsTrue result → AllByRecursion (λ end. mark.0 < end) (open_ends tale.now) }
{
    for place in 0..tale.len() {
        if !is_open_above(tale.slot(place), mark) {
            return false;
        }
    }
    true
}

fn is_grouped(slot: Option<&TalePlace>, mark: Stamp) -> bool
    ensures opens { let x = slot_or_empty (option_copied slot.entry) in
        IsTrue result → open_ends (x ∷ []) ≡ [] }
    ensures due { let x = slot_or_empty (option_copied slot.entry) in
        IsTrue result → NoneIsDue mark.0 (tale_commits (x ∷ [])) }
{
    match slot {
        Some(TalePlace::Open(_)) => false,
        Some(TalePlace::Settled(entry)) => !is_due(entry, mark),
        _ => true,
    }
}

fn is_due(entry: &TaleEntry, mark: Stamp) -> bool
    ensures { result ≡ due mark.0 (stored_commit_of entry.now) }
{
    mark.0 < entry.end.0 && entry.has_written()
}

fn are_grouped(tale: &Tale, before: usize, mark: Stamp) -> bool
    requires { before ≤ length tale.now }
    ensures opens { IsTrue result → open_ends (take before tale.now) ≡ [] }
    ensures due { IsTrue result → NoneIsDue mark.0 (tale_commits (take before tale.now)) }
{
    for place in 0..before {
        if !is_grouped(tale.slot(place), mark) {
            return false;
        }
    }
    true
}

fn are_empty(tale: &Tale, before: usize) -> bool
    requires { before ≤ length tale.now }
    ensures { IsTrue result → AllByRecursion (λ x. is_empty x ≡ true) (take before tale.now) }
{
    for place in 0..before {
        if !is_empty_there(tale.slot(place)) {
            return false;
        }
    }
    true
}

fn is_empty_there(slot: Option<&TalePlace>) -> bool
    ensures { IsTrue result → is_empty (slot_or_empty (option_copied slot.entry)) ≡ true }
{
    match slot {
        Some(TalePlace::Open(_)) => false,
        Some(TalePlace::Reading(_)) => false,
        Some(TalePlace::Settled(_)) => false,
        _ => true,
    }
}

/// Whether a commit is right in front of the place, or only empty places are.
fn is_behind(tale: &Tale, place: usize) -> bool
    requires { place ≤ length tale.now }
    ensures { IsTrue result → IsBehindStored tale.now place }
{
    if are_empty(tale, place) {
        return true;
    }
    is_behind_commit(tale, place)
}

fn is_behind_commit(tale: &Tale, place: usize) -> bool
    ensures { IsTrue result → IsBehindStored tale.now place }
{
    if place == 0 {
        return true;
    }
    match tale.get(place - 1) {
        Some(_) => true,
        None => false,
    }
}

fn are_grouped_to(tale: &Tale, place: usize, mark: Stamp) -> bool
    ensures { IsTrue result → AreGroupedTo tale.now place mark.0 }
{
    place <= tale.len() && is_behind(tale, place) && are_grouped(tale, place, mark)
}

/// The records of the next group, if there can be one from the place on.
pub fn next_group(
    tale: &Tale,
    alloc: Global,
    from: usize,
    prev: Stamp,
    low_water: Stamp,
) -> Result<Option<NextRecords>, AllocError> {
    if prev.0 >= low_water.0 || low_water.0 > MAX_STAMP {
        return Ok(None);
    }
    if !are_open_above(tale, low_water) {
        return Ok(None);
    }
    if !are_grouped_to(tale, from, prev) {
        return Ok(None);
    }
    Ok(Some(tale.next_records(alloc, from, prev, low_water)?))
}
