//! What is due.
ghost use Rattle.std.specs.Prelude.{◌≡◌, IfSome};
ghost use Rattle.mvo_keep.specs.Due.{due_chore, has_to_flush, has_to_merge, has_sealed};
ghost use Rattle.mvo_keep.specs.Due.{may_checkpoint, has_to_rotate, may_trim};
ghost use Rattle.mvo_keep.specs.Due.{merge_chosen_by, merge_if, tidying, of_files, trimming};
ghost use Rattle.mvo_keep.specs.Due.{collecting, trim_first, collection_first, files_first, next_served};
ghost use Rattle.mvo_keep.specs.Due.{MayBeDone};

use crate::choice::Choice;
use crate::choosing::chosen_place;
use crate::chore::Chore;
use crate::policy::Policy;
use crate::served::Served;
use crate::standing::Standing;
use mvo_types::{MAX_PAIRS, MAX_SEGMENTS};

/// Whether a segment is sealed.
fn has_sealed(standing: &Standing) -> bool
    ensures { result ≡ has_sealed standing.now }
{
    standing.segments > 1
}

/// Whether a merge comes before a checkpoint.
fn has_to_merge(policy: &Policy, standing: &Standing) -> bool
    ensures { result ≡ has_to_merge policy.now standing.now }
{
    let pairs = standing.pairs.len();
    policy.many_pairs <= pairs || MAX_PAIRS <= pairs && has_sealed(standing)
}

/// Whether a checkpoint has a segment to read and room for a pair.
fn may_checkpoint(standing: &Standing) -> bool
    ensures { result ≡ may_checkpoint standing.now }
{
    has_sealed(standing) && standing.pairs.len() < MAX_PAIRS
}

/// Whether the last segment is full, and there is room for another.
fn has_to_rotate(policy: &Policy, standing: &Standing) -> bool
    ensures { result ≡ has_to_rotate policy.now standing.now }
{
    policy.full_segment <= standing.last_segment && standing.segments < MAX_SEGMENTS
}

/// Whether commits are stored that nobody needs.
fn may_trim(standing: &Standing) -> bool
    ensures { result ≡ may_trim standing.now }
{
    standing.tale_length > 0
        && standing.tale_start < standing.earlier_mark
        && standing.earlier_mark < standing.oldest_begin
}

/// A merge of the neighbours that are chosen, if any are.
fn merge_by(policy: &Policy, choice: Choice, standing: &Standing) -> Option<Chore>
    ensures value { result ≡ merge_chosen_by policy.now choice standing.now }
    ensures done { IfSome result (MayBeDone policy.now standing.now) }
{
    match chosen_place(policy, choice, &standing.pairs) {
        Some(place) => Some(Chore::Merge(place)),
        None => None,
    }
}

/// The merge that comes before a checkpoint, if one does.
fn first_merge(policy: &Policy, standing: &Standing) -> Option<Chore>
    ensures value { result ≡
        merge_if (has_to_merge policy.now standing.now)
        (merge_chosen_by policy.now Choice.LeastLive standing.now) }
    ensures done { IfSome result (MayBeDone policy.now standing.now) }
{
    if !has_to_merge(policy, standing) {
        return None;
    }
    merge_by(policy, Choice::LeastLive, standing)
}

/// What is due of the pairs.
fn tidying(policy: &Policy, standing: &Standing) -> Option<Chore>
    ensures value { result ≡ tidying policy.now standing.now }
    ensures done { IfSome result (MayBeDone policy.now standing.now) }
{
    if let Some(merge) = merge_by(policy, Choice::LastSmall, standing) {
        return Some(merge);
    }
    merge_by(policy, Choice::MostDead, standing)
}

/// What is due of the files.
fn of_files(policy: &Policy, standing: &Standing) -> Option<Chore>
    ensures value { result ≡ of_files policy.now standing.now }
    ensures done { IfSome result (MayBeDone policy.now standing.now) }
{
    if let Some(call) = standing.step {
        return Some(Chore::Step(call));
    }
    if standing.may_reclaim {
        return Some(Chore::Reclaim);
    }
    if let Some(merge) = first_merge(policy, standing) {
        return Some(merge);
    }
    if may_checkpoint(standing) {
        return Some(Chore::Checkpoint);
    }
    if has_to_rotate(policy, standing) {
        return Some(Chore::Rotate);
    }
    tidying(policy, standing)
}

/// What is due of the stored commits.
fn trimming(policy: &Policy, standing: &Standing) -> Option<Chore>
    ensures value { result ≡ trimming standing.now }
    ensures done { IfSome result (MayBeDone policy.now standing.now) }
{
    if may_trim(standing) {
        return Some(Chore::Trim(standing.earlier_mark));
    }
    None
}

/// What is due of the versions.
fn collecting(policy: &Policy, standing: &Standing) -> Option<Chore>
    ensures value { result ≡ collecting policy.now standing.now }
    ensures done { IfSome result (MayBeDone policy.now standing.now) }
{
    if standing.may_collect {
        return Some(Chore::Collect(policy.collected));
    }
    None
}

/// Behind a chore of the files.
fn trim_first(policy: &Policy, standing: &Standing) -> Option<Chore>
    ensures value { result ≡ trim_first policy.now standing.now }
    ensures done { IfSome result (MayBeDone policy.now standing.now) }
{
    if let Some(trim) = trimming(policy, standing) {
        return Some(trim);
    }
    if let Some(collection) = collecting(policy, standing) {
        return Some(collection);
    }
    of_files(policy, standing)
}

/// Behind a trim, and behind few collections in a row.
fn collection_first(policy: &Policy, standing: &Standing) -> Option<Chore>
    ensures value { result ≡ collection_first policy.now standing.now }
    ensures done { IfSome result (MayBeDone policy.now standing.now) }
{
    if let Some(collection) = collecting(policy, standing) {
        return Some(collection);
    }
    if let Some(chore) = of_files(policy, standing) {
        return Some(chore);
    }
    trimming(policy, standing)
}

/// Behind as many collections in a row as may be.
fn files_first(policy: &Policy, standing: &Standing) -> Option<Chore>
    ensures value { result ≡ files_first policy.now standing.now }
    ensures done { IfSome result (MayBeDone policy.now standing.now) }
{
    if let Some(chore) = of_files(policy, standing) {
        return Some(chore);
    }
    if let Some(trim) = trimming(policy, standing) {
        return Some(trim);
    }
    collecting(policy, standing)
}

/// What is due of files, stored commits and versions, behind what was served last.
fn next_served(policy: &Policy, standing: &Standing) -> Option<Chore>
    ensures value { result ≡ next_served policy.now standing.now standing.now.served }
    ensures done { IfSome result (MayBeDone policy.now standing.now) }
{
    match standing.served {
        Served::Files => trim_first(policy, standing),
        Served::Memory(times) => {
            if times < policy.in_a_row {
                collection_first(policy, standing)
            } else {
                files_first(policy, standing)
            }
        }
    }
}

/// The chore that is due, or none. A flush comes first, where a group isn't durable yet or commits
/// have been in none for a turn. Else files, stored commits and versions are served by turns:
/// behind a chore of the files a trim is due, and then a collection; behind these a collection,
/// `in_a_row` times at most; and then a chore of the files. What comes next is passed over where
/// nothing is due of it. Of the files it is the first of these whose condition stands:
///
/// 1. the next step of the job that runs;
/// 2. the reclaim of a file;
/// 3. with many pairs, a merge of the neighbours with the fewest live records;
/// 4. a checkpoint, where a segment is sealed;
/// 5. a rotation, where the last segment is full;
/// 6. a merge of the last neighbours whose left one has less than twice the live records of the
///    right one, and then of those with the most dead records, where more than half are dead.
///
/// Neighbours that together have too many live records are never merged.
pub fn due(policy: &Policy, standing: &Standing) -> Option<Chore>
    ensures first { result ≡ due_chore policy.now standing.now }
    ensures done { IfSome result (MayBeDone policy.now standing.now) }
{
    if standing.has_group || standing.has_commits {
        return Some(Chore::Flush);
    }
    next_served(policy, standing)
}
