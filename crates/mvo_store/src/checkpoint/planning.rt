//! Plans a checkpoint: what it writes, and the manifest that it installs.
ghost use Rattle.std.specs.Prelude.{◌≡◌, ◌<◌, ◌+◌, ◌^◌, IfOk, OnOk, IfErr, List, length, map};
ghost use Rattle.std.specs.Option.{SomeIff};
ghost use Rattle.mvo_manifest.specs.Rules.{IsManifest};
ghost use Rattle.mvo_recovery.specs.Checkpoint.{raise};
ghost use Rattle.mvo_group.specs.Data.{GroupData};
ghost use Rattle.mvo_places.specs.Places.{PlaceMap};
ghost use Rattle.mvo_ckpt.specs.Building.{IsBuiltCheckpointOf};
ghost use Rattle.mvo_store.specs.SegmentSlices.{MayPlanOf};
ghost use Rattle.mvo_store.specs.Checkpoint.{gained_in, gained, next_of};
ghost use Rattle.mvo_store.specs.Files.{files_taken};
ghost use Rattle.mvo_store.specs.Planning.{MayPlan, HaveCounts, CountsFit, IsPlanRefusal, IsPlanned};

use crate::checkpoint::checkpointing::Checkpointing;
use crate::checkpoint::stage::CheckpointStage;
use crate::files::two_free;
use mvo_ckpt::{Checkpoint, DeltaEntries, build};
use mvo_format::LAST_FORMAT;
use mvo_frame::Contents;
use mvo_manifest::Manifest;
use mvo_pair::Pair;
use mvo_places::Places;
use mvo_types::{Refusal, Stamp};
use std::alloc::Global;

/// How many numbers the delta file of the pair with this data file gains.
fn gained_len(deltas: &[DeltaEntries], data_file: u16) -> usize
    ensures { result ≡ length (gained_in deltas.now data_file) }
{
    let mut rest = deltas;
    while let [first, after @ ..] = rest {
        if first.data_file == data_file {
            return first.numbers.len();
        }
        rest = after;
    }
    0
}

/// The pair with its count raised, where the count has its word then.
fn raise(pair: Pair, deltas: &[DeltaEntries]) -> Option<Pair>
    ensures { SomeIff result (pair.entries + length (gained deltas.now pair) < 2 ^ 32)
        (raise (gained deltas.now) pair) }
{
    let Ok(more) = u32::try_from(gained_len(deltas, pair.data_file)) else {
        return None;
    };
    let Some(entries) = pair.entries.checked_add(more) else {
        return None;
    };
    Some(Pair { entries, ..pair })
}

/// The pairs with their counts raised. Refused: Corrupt with the delta file of the first whose
/// count has no word then, or OutOfMemory.
fn raised(alloc: Global, pairs: &[Pair], deltas: &[DeltaEntries]) -> Result<Vec<Pair>, Refusal>
    ensures pairs { IfOk result (λ v. v.items ≡ map (raise (gained deltas.now)) pairs.now) }
    ensures counts { OnOk result (HaveCounts deltas.now pairs.now) }
    ensures refused { IfErr result (IsPlanRefusal (HaveCounts deltas.now pairs.now)) }
{
    let mut out = Vec::with_capacity(alloc, pairs.len() + 1)?;
    for pair in pairs {
        let Some(raised) = raise(*pair, deltas) else {
            return Err(Refusal::Corrupt(pair.delta_file));
        };
        out.push(raised)?;
    }
    Ok(out)
}

/// The manifest that names the pair last, with the counts of the older ones raised, and that no
/// longer names the oldest segment.
fn checkpointed(
    alloc: Global,
    manifest: &Manifest,
    pair: Pair,
    deltas: &[DeltaEntries],
) -> Result<Manifest, Refusal>
    requires { HaveCounts deltas.now manifest.now.pairs →
        IsManifest (next_of manifest.now pair deltas.now) }
    ensures next { IfOk result (λ next. next ≡ next_of manifest.now pair deltas.now) }
    ensures counts { OnOk result (HaveCounts deltas.now manifest.now.pairs) }
    ensures refused { IfErr result (IsPlanRefusal (HaveCounts deltas.now manifest.now.pairs)) }
{
    let mut pairs = match raised(alloc, manifest.pairs(), deltas) {
        Ok(pairs) => pairs,
        Err(refusal) => return Err(refusal),
    };
    pairs.push(pair)?;
    let segments = manifest.segments();
    let segments = segments[1..].to_vec(alloc)?;
    let generation = manifest.generation() + 1;
    match Manifest::new(LAST_FORMAT.version, generation, pair.hi, pairs, segments)? {
        Some(next) => Ok(next),
        None => unreachable!(),
    }
}

/// A checkpoint of which this is made, up to a mark, where another job has taken the files of this
/// pair. Refused, what is made comes back: OutOfMemory, or Corrupt with the delta file of a pair
/// that would gain more numbers than its count can say.
pub fn planned_of(
    alloc: Global,
    manifest: &Manifest,
    other: Option<Pair>,
    mark: Stamp,
    made: Checkpoint,
) -> Result<Checkpointing, (Refusal, Checkpoint)>
    requires { MayPlanOf manifest.now mark.0 made }
    ensures planned { (at : PlaceMap) (groups : List GroupData) →
        IsBuiltCheckpointOf at manifest.now.pairs groups made → IfOk result
        (IsPlanned manifest.now (files_taken other) at groups mark.0) }
    ensures made { IfOk result (λ c. c.made ≡ made) }
    ensures refused { (at : PlaceMap) (groups : List GroupData) →
        IsBuiltCheckpointOf at manifest.now.pairs groups made → IfErr result (λ e.
        IsPlanRefusal (CountsFit manifest.now at groups) e.0) }
    ensures back { IfErr result (λ e. e.1 ≡ made) }
{
    let (data_file, delta_file) = two_free(manifest, other);
    let records = made.records.as_slice();
    let pair = Pair {
        data_file,
        delta_file,
        lo: manifest.checkpoint_mark(),
        hi: mark,
        records: records.len() as u32,
        entries: 0,
    };
    match checkpointed(alloc, manifest, pair, &made.deltas) {
        Ok(next) => Ok(Checkpointing {
            pair,
            made,
            next,
            stage: CheckpointStage::Data(0),
            placed: 0,
        }),
        Err(refusal) => Err((refusal, made)),
    }
}

/// A checkpoint of what the oldest sealed segment holds, where another job has taken the files of
/// this pair. Refused: OutOfMemory, or Corrupt with the delta file of a pair that would gain more
/// numbers than its count can say.
pub fn planned(
    alloc: Global,
    manifest: &Manifest,
    other: Option<Pair>,
    places: &Places,
    contents: Contents,
) -> Result<Checkpointing, Refusal>
    requires { MayPlan manifest.now contents.groups.items contents.mark.0 }
    ensures planned { IfOk result (IsPlanned manifest.now (files_taken other) places.now.at
        contents.groups.items contents.mark.0) }
    ensures refused { IfErr result (IsPlanRefusal
        (CountsFit manifest.now places.now.at contents.groups.items)) }
{
    let made = build(alloc, places, manifest.pairs(), contents.groups)?;
    match planned_of(alloc, manifest, other, contents.mark, made) {
        Ok(checkpoint) => Ok(checkpoint),
        Err((refusal, _)) => Err(refusal),
    }
}
