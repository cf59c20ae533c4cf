//! Plans a merge: what it writes, and the manifest that it installs.
ghost use Rattle.std.specs.Prelude.{◌≡◌, ◌+◌, ◌<◌, ◌≤◌, ◌^◌, IfOk, length};
ghost use Rattle.mvo_manifest.specs.Rules.{IsManifest};
ghost use Rattle.mvo_types.specs.declared.limits.TheConstants.{MAX_PAIR_RECORDS};
ghost use Rattle.mvo_store.specs.Merging.{neighbours_at, live_record_count, merged_at};
ghost use Rattle.mvo_store.specs.Files.{files_taken};
ghost use Rattle.mvo_store.specs.MergePlanning.{IsPlannedMerge};

use crate::files::two_free;
use crate::merge::merging::Merging;
use crate::merge::seen_pairs::SeenPairs;
use crate::merge::stage::MergeStage;
use mvo_format::LAST_FORMAT;
use mvo_manifest::Manifest;
use mvo_merge::Merged;
use mvo_pair::Pair;
use std::alloc::{AllocError, Global};

/// The two neighbours from a place on, if both are there.
pub fn neighbours(pairs: &[Pair], place: usize) -> Option<(Pair, Pair)>
    ensures { result ≡ neighbours_at place pairs.now }
{
    if place > pairs.len() {
        return None;
    }
    match &pairs[place..] {
        [left, right, ..] => Some((*left, *right)),
        _ => None,
    }
}

/// How many records of the pair its delta file doesn't name.
pub fn live_count(pair: Pair) -> u64
    ensures count { result ≡ live_record_count pair }
    ensures few { result < 2 ^ 32 }
{
    u64::from(pair.records.saturating_sub(pair.entries))
}

/// The manifest that names one pair in the place of two.
pub fn merged(
    alloc: Global,
    manifest: &Manifest,
    place: usize,
    pair: Pair,
) -> Result<Manifest, AllocError>
    requires there { place + 2 ≤ length manifest.now.pairs }
    requires is { IsManifest (merged_at manifest.now place pair) }
    ensures { IfOk result (λ next. next ≡ merged_at manifest.now place pair) }
{
    let old = manifest.pairs();
    let mut pairs = Vec::with_capacity(alloc, old.len())?;
    pairs.extend_from_slice(&old[..place])?;
    pairs.push(pair)?;
    pairs.extend_from_slice(&old[place + 2..])?;
    let segments = manifest.segments().to_vec(alloc)?;
    let generation = manifest.generation() + 1;
    match Manifest::new(
        LAST_FORMAT.version,
        generation,
        manifest.checkpoint_mark(),
        pairs,
        segments,
    )? {
        Some(next) => Ok(next),
        None => unreachable!(),
    }
}

/// A merge of two pairs that were seen at a place, of which this is made, where another job has
/// taken the files of this pair.
pub fn planned_merge(
    manifest: &Manifest,
    other: Option<Pair>,
    place: usize,
    left: Pair,
    right: Pair,
    made: Merged,
) -> Merging
    requires { length made.records ≤ MAX_PAIR_RECORDS }
    ensures { IsPlannedMerge manifest.now (files_taken other) place left right made result }
{
    let (data_file, delta_file) = two_free(manifest, other);
    let records = made.records.as_slice();
    let pair = Pair {
        data_file,
        delta_file,
        lo: left.lo,
        hi: right.hi,
        records: records.len() as u32,
        entries: 0,
    };
    let seen = SeenPairs {
        place,
        left,
        right,
        pair,
        made,
    };
    Merging {
        seen,
        stage: MergeStage::Data(0),
    }
}
