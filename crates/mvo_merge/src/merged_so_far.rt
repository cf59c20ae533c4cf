ghost use Rattle.std.specs.Prelude.{◌≡◌, ◌≤◌, ◌<◌, ◌+◌, ◌^◌, ◌++◌, length, map, IfOk, OnOk, OnErr};
ghost use Rattle.std.specs.List.Sorted.{IsStrictlyIncreasing};
ghost use Rattle.mvo_merge.specs.Merged.{entries_alone, live_numbers};
ghost use Rattle.mvo_merge.specs.SoFar.{nothing_merged, with_left, with_right};

use crate::building::add_records;
use crate::merged::Merged;
use crate::renumbering::{Renumbering, numbers_of};
use mvo_pair::{DataRecord, Live};
use mvo_types::MAX_PAIR_RECORDS;
use std::alloc::{AllocError, Global};
use std::marker::Model;

/// What a merge has made so far of the live records of two pairs, which come in slices: first those
/// of the left pair, and then those of the right one.
#[derive(Drop)]
pub struct MergedSoFar {
    records: Vec<DataRecord>,
    left: Vec<u32>,
    right: Vec<u32>,
}

impl Model for MergedSoFar {
    ghost use Rattle.mvo_merge.specs.Merged.{MergedData, RenumberingData};
    ghost use Rattle.mvo_merge.specs.SoFar.{merged_of};

    ghost Value = { MergedData };

    ghost view = { λ m. merged_of m.records.items m.left.items m.right.items };
}

/// Appends the records, and their numbers. On failure both are as they were.
fn append_live(
    alloc: Global,
    records: &mut Vec<DataRecord>,
    numbers: &mut Vec<u32>,
    live: Vec<Live>,
) -> Result<(), AllocError>
    ensures records { OnOk result
        (records.new.items ≡ records.old.items ++ entries_alone live.items) }
    ensures numbers { OnOk result
        (numbers.new.items ≡ numbers.old.items ++ live_numbers live.items) }
    ensures records_stay { OnErr result (records.new.items ≡ records.old.items) }
    ensures numbers_stay { OnErr result (numbers.new.items ≡ numbers.old.items) }
{
    let mut new_numbers = numbers_of(alloc, &live)?;
    let mut new_records = Vec::with_capacity(alloc, live.len())?;
    add_records(&mut new_records, live)?;
    numbers.reserve(new_numbers.len())?;
    records.append(&mut new_records)?;
    let Ok(()) = numbers.append(&mut new_numbers) else {
        unreachable!()
    };
    Ok(())
}

impl MergedSoFar {
    /// Nothing yet, with room for so many records of the left pair and so many of the right one: as
    /// many come without memory for more than a slice.
    pub fn new(alloc: Global, left: usize, right: usize) -> Result<MergedSoFar, AllocError>
        requires { left + right < 2 ^ 64 }
        ensures { IfOk result (λ m. m ≡ nothing_merged) }
    {
        Ok(MergedSoFar {
            records: Vec::with_capacity(alloc, left + right)?,
            left: Vec::with_capacity(alloc, left)?,
            right: Vec::with_capacity(alloc, right)?,
        })
    }

    /// The next live records of the left pair come, before any of the right one. On failure nothing
    /// has changed.
    pub fn add_left(&mut self, alloc: Global, live: Vec<Live>) -> Result<(), AllocError>
        ensures ok { OnOk result (self.new ≡ with_left live.items self.old) }
        ensures err { OnErr result (self.new ≡ self.old) }
    {
        append_live(alloc, &mut self.records, &mut self.left, live)
    }

    /// The next live records of the right pair come. On failure nothing has changed.
    pub fn add_right(&mut self, alloc: Global, live: Vec<Live>) -> Result<(), AllocError>
        ensures ok { OnOk result (self.new ≡ with_right live.items self.old) }
        ensures err { OnErr result (self.new ≡ self.old) }
    {
        append_live(alloc, &mut self.records, &mut self.right, live)
    }

    /// All of it has come.
    pub fn end(self) -> Merged
        requires rise_left { IsStrictlyIncreasing self.renumbering.left }
        requires rise_right { IsStrictlyIncreasing self.renumbering.right }
        requires few { length self.renumbering.left + length self.renumbering.right
            ≤ MAX_PAIR_RECORDS }
        ensures { result ≡ self }
    {
        let MergedSoFar {
            records,
            left,
            right,
        } = self;
        Merged {
            records,
            renumbering: Renumbering::of_numbers(left, right),
        }
    }
}
