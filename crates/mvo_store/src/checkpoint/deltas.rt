//! Writes the delta files of a checkpoint.
ghost use Rattle.std.specs.Prelude.{◌≡◌, ◌==◌, ◌<◌, ◌+◌, ◌^◌, true};
ghost use Rattle.std.specs.List.{Contains, list_any};
ghost use Rattle.mvo_store.specs.declared.checkpoint.stage.CheckpointStage.TheVariants.{Delta as AtDelta};
ghost use Rattle.mvo_store.specs.Jobs.Job.{Checkpoint};
ghost use Rattle.mvo_disk.specs.Disk.{IsHonest};
ghost use Rattle.mvo_store.specs.Safe.{IsSafeCheckpoint};
ghost use Rattle.mvo_store.specs.Writing.{JobStandsFor, IsJobStep};

use crate::checkpoint::checkpointing::Checkpointing;
use mvo_disk::Disk;
use mvo_format::LAST_FORMAT;
use mvo_manifest::Manifest;
use mvo_pair::{Pair, append_delta, write_delta};
use mvo_types::Refusal;
use std::alloc::Global;

/// The pair with the data file, which is among these.
fn pair_with(pairs: &[Pair], data_file: u16) -> Pair
    requires { list_any (λ p. p.data_file == data_file) pairs.now ≡ true }
    ensures among { Contains pairs.now result }
    ensures file { result.data_file ≡ data_file }
{
    let mut place = 0;
    while pairs[place].data_file != data_file {
        place += 1;
    }
    pairs[place]
}

/// Writes the new numbers of the next older pair, and syncs its delta file.
fn append_older_delta<D: Disk>(
    alloc: Global,
    disk: &mut D,
    manifest: &Manifest,
    checkpoint: &Checkpointing,
    written: usize,
) -> Result<(), Refusal>
    requires room { D.fault_count disk.old + 1 < 2 ^ 64 }
    requires safe { IsSafeCheckpoint manifest.now checkpoint.now }
    requires stands { IsHonest (D.moment disk.old) →
        JobStandsFor D.Disk disk.old manifest.now (Checkpoint checkpoint.now) }
    requires at { checkpoint.now.stage ≡ AtDelta written }
    requires later { 0 < written }
    ensures { IsJobStep D.Disk disk.old disk.new manifest.now (Checkpoint checkpoint.now)
        result }
{
    let deltas = checkpoint.made.deltas.as_slice();
    let delta = &deltas[written - 1];
    let pair = pair_with(manifest.pairs(), delta.data_file);
    append_delta(alloc, disk, pair, &delta.numbers)
}

/// Writes the next delta file, and syncs it: first that of the new pair, without numbers, and then
/// the new numbers of the older ones in their order. So many are written.
pub fn write_next_delta<D: Disk>(
    alloc: Global,
    disk: &mut D,
    manifest: &Manifest,
    checkpoint: &Checkpointing,
    written: usize,
) -> Result<(), Refusal>
    requires room { D.fault_count disk.old + 1 < 2 ^ 64 }
    requires safe { IsSafeCheckpoint manifest.now checkpoint.now }
    requires stands { IsHonest (D.moment disk.old) →
        JobStandsFor D.Disk disk.old manifest.now (Checkpoint checkpoint.now) }
    requires at { checkpoint.now.stage ≡ AtDelta written }
    ensures { IsJobStep D.Disk disk.old disk.new manifest.now (Checkpoint checkpoint.now)
        result }
{
    if written == 0 {
        return write_delta(alloc, disk, LAST_FORMAT, checkpoint.pair, &[]);
    }
    append_older_delta(alloc, disk, manifest, checkpoint, written)
}
