//! Gathers the live records of pairs whose files were read, one pair after another.
ghost use Rattle.std.specs.Prelude.{◌≡◌, IfOk, IfErr, IfSome};
ghost use Rattle.std.specs.List.{AllZip};
ghost use Rattle.std.specs.List.Sorted.{IsPermutation};
ghost use Rattle.mvo_pair.specs.Answers.{Tells};
ghost use Rattle.mvo_pair.specs.Loading.{LoadsAs};
ghost use Rattle.mvo_load.specs.Files.{IsPart};

use crate::pair_files::PairFiles;
use crate::part::Part;
use mvo_pair::{Live, load_pair};
use mvo_types::{Refusal, RowKey};
use std::alloc::Global;

/// Sorts live records by their keys.
fn sort(live: &mut [Live])
    ensures { IsPermutation live.old live.new }
{
    live.sort_unstable_by_key(|one: &Live| -> RowKey { one.entry.row.key });
}

/// The live records of a pair whose files were read, or the first broken rule.
fn live_of(alloc: Global, upto: u32, files: &PairFiles) -> Result<Vec<Live>, Refusal>
    ensures { Tells (λ e. e ≡ Refusal.OutOfMemory) (λ v. v.items) result
        (LoadsAs upto files.now.pair files.now.data_bytes files.now.delta_bytes) }
{
    load_pair(
        alloc,
        upto,
        files.pair,
        &files.data_bytes,
        &files.delta_bytes,
    )
}

/// The live records of a pair, sorted, and their data file.
pub fn part_in_turn(alloc: Global, upto: u32, files: &PairFiles) -> Result<Part, Refusal>
    ensures { IfOk result (IsPart upto files.now) }
{
    let mut live = match live_of(alloc, upto, files) {
        Ok(live) => live,
        Err(e) => return Err(e),
    };
    sort(live.as_mut_slice());
    Ok(Part {
        data_file: files.pair.data_file,
        live,
    })
}

/// The part of each pair, or nothing where a pair breaks a rule of its own.
pub fn parts_in_turn(
    alloc: Global,
    upto: u32,
    files: &[PairFiles],
) -> Result<Option<Vec<Part>>, Refusal>
    ensures parts { IfOk result (λ found. IfSome found (λ parts.
        AllZip (IsPart upto) files.now parts.items)) }
    ensures stopped { IfErr result (λ e. e ≡ Refusal.OutOfMemory) }
{
    let mut parts = Vec::new(alloc);
    for one in files {
        match part_in_turn(alloc, upto, one) {
            Ok(part) => parts.push(part)?,
            Err(Refusal::OutOfMemory) => return Err(Refusal::OutOfMemory),
            Err(_) => return Ok(None),
        }
    }
    Ok(Some(parts))
}
