//! What the delta files of the older pairs gain, one pair at a time.
ghost use Rattle.std.specs.Prelude.{◌≡◌, ◌++◌, ◌<◌, ◌+◌, List, length, IfOk, OnOk};
ghost use Rattle.mvo_group.specs.Data.{GroupData};
ghost use Rattle.mvo_pair.specs.declared.pair.Pair.{Pair};
ghost use Rattle.mvo_places.specs.Places.{PlaceMap, AreSmall};
ghost use Rattle.mvo_ckpt.specs.Building.{walked, IsGainingOf, IsBuiltCheckpointOf};
ghost use Rattle.mvo_ckpt.specs.Ended.{delta_by};
ghost use Rattle.mvo_ckpt.specs.Walk.{part_of, walk_of};

use crate::checkpoint::{Checkpoint, DeltaEntries};
use crate::newest::Newest;
use mvo_pair::{DataRecord, Pair};
use mvo_types::{MAX_PAIR_RECORDS, RowKey};
use std::alloc::{AllocError, Global};

/// What the writes leave, the last first, the places of the live records that they end, ascending,
/// and what the delta files of so many pairs gain by them.
#[derive(Drop)]
pub struct Gaining {
    pub records: Vec<DataRecord>,
    pub gone: Vec<RowKey>,
    pub ended: Vec<u32>,
    pub deltas: Vec<DeltaEntries>,
    pub done: usize,
}

/// No pair has its numbers yet.
pub fn no_gains(alloc: Global, newest: Newest) -> Gaining
    ensures gains { (at : PlaceMap) (ps : List Pair) (gs : List GroupData) →
        walk_of newest ≡ walked at gs → AreSmall at → IsGainingOf at ps gs result }
    ensures none { result.done ≡ 0 }
{
    let Newest {
        seen: _,
        records,
        gone,
        places: mut ended,
    } = newest;
    ended.sort_unstable();
    Gaining {
        records,
        gone,
        ended,
        deltas: Vec::new(alloc),
        done: 0,
    }
}

/// The numbers in a data file, of some places as numbers.
fn part_of(alloc: Global, places: &[u32], data_file: u16) -> Result<Vec<u32>, AllocError>
    ensures { IfOk result (λ v. v.items ≡ part_of data_file places.now) }
{
    places
        .iter()
        .copied()
        .filter(|n| *n / MAX_PAIR_RECORDS == data_file as u32)
        .map(|n| n % MAX_PAIR_RECORDS)
        .collect(alloc)
}

/// Appends what a delta file gains, if anything.
fn add_delta(
    deltas: &mut Vec<DeltaEntries>,
    data_file: u16,
    numbers: Vec<u32>,
) -> Result<(), AllocError>
    ensures { OnOk result (deltas.new.items ≡
        deltas.old.items ++ delta_by data_file numbers.items) }
{
    if numbers.is_empty() {
        return Ok(());
    }
    deltas.push(DeltaEntries { data_file, numbers })?;
    Ok(())
}

/// Appends what the delta file of the next pair gains.
pub fn gain_next(gaining: &mut Gaining, alloc: Global, pairs: &[Pair]) -> Result<(), AllocError>
    requires { gaining.old.done < length pairs.now }
    ensures gains { (at : PlaceMap) (gs : List GroupData) →
        IsGainingOf at pairs.now gs gaining.old →
        OnOk result (IsGainingOf at pairs.now gs gaining.new) }
    ensures one { OnOk result (gaining.new.done ≡ gaining.old.done + 1) }
{
    let pair = pairs[gaining.done];
    let numbers = part_of(alloc, &gaining.ended, pair.data_file)?;
    add_delta(&mut gaining.deltas, pair.data_file, numbers)?;
    gaining.done += 1;
    Ok(())
}

/// What a checkpoint writes, where each pair has its numbers.
pub fn gained(gaining: Gaining) -> Checkpoint
    ensures { (at : PlaceMap) (ps : List Pair) (gs : List GroupData) →
        IsGainingOf at ps gs gaining → gaining.done ≡ length ps →
        IsBuiltCheckpointOf at ps gs result }
{
    let Gaining {
        mut records,
        mut gone,
        ended: _,
        deltas,
        done: _,
    } = gaining;
    records.reverse();
    gone.reverse();
    Checkpoint {
        records,
        gone,
        deltas,
    }
}
