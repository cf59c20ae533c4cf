//! Ends a merge: what came late to its two pairs, and its delta file.
ghost use Rattle.std.specs.Prelude.{◌≡◌, ◌<◌, ◌+◌, ◌^◌, IfOk, IfErr, length};
ghost use Rattle.mvo_disk.specs.Disk.{IsHonest};
ghost use Rattle.mvo_load.specs.Read.{HasRead};
ghost use Rattle.mvo_pair.specs.Writing.{IsStop};
ghost use Rattle.mvo_store.specs.Jobs.Job.{Merge};
ghost use Rattle.mvo_store.specs.Safe.{IsSafeMerge};
ghost use Rattle.mvo_store.specs.Writing.{JobStandsFor, AreLateEntries, IsEndOf, IsWrittenEnd};
ghost use Rattle.mvo_store.specs.declared.merge.stage.MergeStage.TheVariants.{Delta as MergeAtDelta};

use crate::merge::merging::Merging;
use crate::merge::planning::{merged, neighbours};
use mvo_disk::Disk;
use mvo_format::LAST_FORMAT;
use mvo_manifest::Manifest;
use mvo_pair::{Pair, late_numbers, write_delta};
use mvo_types::Refusal;
use std::alloc::Global;

/// The numbers that count in the deltas of the two pairs beyond those that the merge saw, under
/// those of the pair that they become: the first pair's, and then the second's.
fn late_entries<D: Disk>(
    alloc: Global,
    disk: &mut D,
    manifest: &Manifest,
    merge: &Merging,
) -> Result<Vec<u32>, Refusal>
    requires room { D.fault_count disk.old + 1 < 2 ^ 64 }
    requires safe { IsSafeMerge manifest.now merge.now }
    requires stands { IsHonest (D.moment disk.old) →
        JobStandsFor D.Disk disk.old manifest.now (Merge merge.now) }
    ensures late { IfOk result (λ v. AreLateEntries (IsHonest (D.moment disk.new))
        (D.content disk.old) manifest.now merge.now.seen v.items) }
    ensures few { IfOk result (λ v. IsHonest (D.moment disk.new) → length v.items < 2 ^ 32) }
    ensures why { IfErr result IsStop }
    ensures read { HasRead D.Disk disk.old disk.new result }
{
    let seen = &merge.seen;
    let Some((left, right)) = neighbours(manifest.pairs(), seen.place) else {
        return Err(Refusal::NothingToDo);
    };
    let first = match late_numbers(alloc, disk, left, seen.left.entries) {
        Ok(numbers) => numbers,
        Err(refusal) => return Err(refusal),
    };
    let second = match late_numbers(alloc, disk, right, seen.right.entries) {
        Ok(numbers) => numbers,
        Err(refusal) => return Err(refusal),
    };
    Ok(seen.made.renumbering.renumber(alloc, &first, &second)?)
}

/// Writes these numbers to the delta file of the merge, and answers its manifest. Memory is taken
/// before the first call.
fn write_late<D: Disk>(
    alloc: Global,
    disk: &mut D,
    manifest: &Manifest,
    merge: &Merging,
    late: &[u32],
) -> Result<Manifest, Refusal>
    requires room { D.fault_count disk.old + 1 < 2 ^ 64 }
    requires safe { IsSafeMerge manifest.now merge.now }
    ensures { IsWrittenEnd D.Disk disk.old disk.new manifest.now merge.now late.now result }
{
    // A look: from then on the proof knows that the manifest keeps its rules.
    let _generation = manifest.generation();
    let seen = &merge.seen;
    let Ok(entries) = u32::try_from(late.len()) else {
        return Err(Refusal::Corrupt(seen.left.delta_file));
    };
    let pair = Pair {
        entries,
        ..seen.pair
    };
    let next = merged(alloc, manifest, seen.place, pair)?;
    match write_delta(alloc, disk, LAST_FORMAT, pair, late) {
        Ok(()) => Ok(next),
        Err(refusal) => Err(refusal),
    }
}

/// Writes the last file of a merge, its delta file, with what came late, and syncs it. Answers the
/// manifest that names one pair in the place of the two. All memory is taken before the first
/// write.
pub fn end_merge<D: Disk>(
    alloc: Global,
    disk: &mut D,
    manifest: &Manifest,
    merge: &Merging,
) -> Result<Manifest, Refusal>
    requires room { D.fault_count disk.old + 1 < 2 ^ 64 }
    requires safe { IsSafeMerge manifest.now merge.now }
    requires stands { IsHonest (D.moment disk.old) →
        JobStandsFor D.Disk disk.old manifest.now (Merge merge.now) }
    requires last { merge.now.stage ≡ MergeAtDelta }
    ensures { IsEndOf D.Disk disk.old disk.new manifest.now merge.now result }
{
    let late = match late_entries(alloc, disk, manifest, merge) {
        Ok(late) => late,
        Err(refusal) => return Err(refusal),
    };
    match write_late(alloc, disk, manifest, merge, &late) {
        Ok(next) => Ok(next),
        Err(refusal) => Err(refusal),
    }
}
