//! Which of the files that a manifest names are of an older version.
ghost use Rattle.std.specs.Prelude.{◌≡◌, ◌<◌, ◌≤◌, ◌+◌, ◌^◌, ◌==◌, ◌||◌, true, length, filter};
ghost use Rattle.std.specs.Prelude.{IfOk, IfErr};
ghost use Rattle.std.specs.List.{flat_map};
ghost use Rattle.mvo_types.specs.declared.limits.TheConstants.{MAX_PAIRS};
ghost use Rattle.mvo_manifest.specs.Data.{pair_files};
ghost use Rattle.mvo_pair.specs.Writing.{IsStop};
ghost use Rattle.mvo_disk.specs.declared.limits.TheConstants.{FILE_COUNT};
ghost use Rattle.mvo_disk.specs.Disk.{IsHonest};
ghost use Rattle.mvo_load.specs.Read.{HasRead};
ghost use Rattle.mvo_load.specs.Old.{is_old};
ghost use Rattle.mvo_store.specs.Files.{is_named};
ghost use Rattle.mvo_store.specs.Old.{is_marked, KnowsOld, AreUnmarked};

use crate::files::is_named;
use mvo_disk::{Disk, FILE_COUNT};
use mvo_load::is_old_on;
use mvo_manifest::Manifest;
use mvo_pair::Pair;
use mvo_types::Refusal;
use std::alloc::Global;

/// Whether a file is old, where the manifest names it.
fn mark_of<D: Disk>(
    alloc: Global,
    disk: &mut D,
    manifest: &Manifest,
    file: u16,
) -> Result<bool, Refusal>
    requires file { file < 1024 }
    requires room { D.fault_count disk.old + 1 < 2 ^ 64 }
    ensures is { IsHonest (D.moment disk.new) → IfOk result (λ old.
        is_named manifest.now file ≡ true → old ≡ is_old (D.content disk.old file)) }
    ensures stopped { IfErr result IsStop }
    ensures read { HasRead D.Disk disk.old disk.new result }
{
    if !is_named(manifest, file) {
        return Ok(false);
    }
    match is_old_on(alloc, disk, file) {
        Ok(old) => Ok(old),
        Err(e) => Err(e),
    }
}

/// A mark for each file of a disk, which says of those that the manifest names whether they are
/// old. Nothing changes.
///
/// Refused: OutOfMemory, for want of memory alone, and DiskFault, for a call of the device that
/// failed.
pub fn find_old<D: Disk>(
    alloc: Global,
    disk: &mut D,
    manifest: &Manifest,
) -> Result<Vec<bool>, Refusal>
    requires room { D.fault_count disk.old + 1 < 2 ^ 64 }
    ensures knows { IsHonest (D.moment disk.new) → IfOk result (λ old.
        KnowsOld (D.content disk.old) manifest.now FILE_COUNT old.items) }
    ensures long { IfOk result (λ old. length old.items ≡ FILE_COUNT) }
    ensures stopped { IfErr result IsStop }
    ensures read { HasRead D.Disk disk.old disk.new result }
{
    let mut old = Vec::with_capacity(alloc, FILE_COUNT as usize)?;
    for file in 0..FILE_COUNT {
        match mark_of(alloc, disk, manifest, file) {
            Ok(mark) => old.push(mark)?,
            Err(e) => return Err(e),
        }
    }
    Ok(old)
}

/// Takes the mark of a file away.
pub fn unmark(marks: &mut Vec<bool>, file: u16)
    ensures { AreUnmarked (λ n. file == n) marks.old.items marks.new.items }
{
    if let Some(mark) = marks.get_mut(file as usize) {
        *mark = false;
    }
}

/// Takes the marks of both files of a pair away.
pub fn unmark_pair(marks: &mut Vec<bool>, pair: &Pair)
    ensures { AreUnmarked (λ n. pair.now.data_file == n || pair.now.delta_file == n)
        marks.old.items marks.new.items }
{
    unmark(marks, pair.data_file);
    unmark(marks, pair.delta_file);
}

/// Whether a file is marked.
pub fn is_marked(marks: &[bool], file: u16) -> bool
    ensures { result ≡ is_marked marks.now file }
{
    match marks.get(file as usize) {
        Some(mark) => *mark,
        None => false,
    }
}

/// How many of these files are marked.
pub fn marked_count(marks: &[bool], files: &[u16]) -> usize
    ensures { result ≡ length (filter (is_marked marks.now) files.now) }
{
    files.iter().filter(|file| is_marked(marks, **file)).count()
}

/// How many files of these pairs are.
pub fn marked_pair_count(marks: &[bool], pairs: &[Pair]) -> usize
    requires { length pairs.now ≤ MAX_PAIRS }
    ensures { result ≡ length (filter (is_marked marks.now) (flat_map pair_files pairs.now)) }
{
    let mut count = 0;
    for pair in pairs {
        count += marked_count(marks, &[pair.data_file, pair.delta_file]);
    }
    count
}
