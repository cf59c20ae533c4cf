ghost use Rattle.std.specs.Prelude.{◌≡◌, ◌≤◌, ◌+◌, ◌++◌, length, map, IfOk, OnOk};
ghost use Rattle.std.specs.List.Sorted.{IsStrictlyIncreasing};
ghost use Rattle.mvo_places.specs.Places.{Rise};
ghost use Rattle.mvo_merge.specs.Merged.{rank, renumbered, renumbering_of};

use mvo_pair::Live;
use mvo_types::MAX_PAIR_RECORDS;
use std::alloc::{AllocError, Global};
use std::marker::Model;

/// The numbers that the records of a merged pair had before, four bytes each: by them, numbers that
/// come to the delta of one of the two pairs while the merge runs are found in the merged pair.
/// Contracts see the numbers of each of the two pairs. In each they rise.
#[derive(Debug, Drop)]
pub struct Renumbering {
    left: Vec<u32>,
    right: Vec<u32>,
}

impl Model for Renumbering {
    ghost use Rattle.std.specs.Prelude.{◌≤◌, ◌+◌, length};
    ghost use Rattle.std.specs.List.Sorted.{IsStrictlyIncreasing};
    ghost use Rattle.mvo_types.specs.declared.limits.TheConstants.{MAX_PAIR_RECORDS};
    ghost use Rattle.mvo_merge.specs.Merged.{RenumberingData};

    ghost Value = { RenumberingData };

    ghost view = { λ r. record { left = r.left.items; right = r.right.items } };

    ghost invariant = { λ r. IsStrictlyIncreasing r.left.items
        × IsStrictlyIncreasing r.right.items
        × (length r.left.items + length r.right.items ≤ MAX_PAIR_RECORDS) };
}

/// How many of the numbers, which rise, are smaller.
fn rank(numbers: &[u32], number: u32) -> u32
    requires rise { IsStrictlyIncreasing numbers.now }
    requires few { length numbers.now ≤ MAX_PAIR_RECORDS }
    ensures rank { result ≡ rank numbers.now number }
    ensures few { result ≤ length numbers.now }
{
    numbers.partition_point(|n| *n < number) as u32
}

/// Appends the rank of each of the late numbers, behind so many.
fn add_ranks(
    out: &mut Vec<u32>,
    numbers: &[u32],
    before: u32,
    late: &[u32],
) -> Result<(), AllocError>
    requires rise { IsStrictlyIncreasing numbers.now }
    requires few { before + length numbers.now ≤ MAX_PAIR_RECORDS }
    ensures { OnOk result (out.new.items ≡
        out.old.items ++ map (λ n. before + rank numbers.now n) late.now) }
{
    for number in late {
        out.push(before + rank(numbers, *number))?;
    }
    Ok(())
}

impl Renumbering {
    /// The numbers of these live records.
    pub(crate) fn new(
        alloc: Global,
        left: &[Live],
        right: &[Live],
    ) -> Result<Renumbering, AllocError>
        requires rise_left { Rise left.now }
        requires rise_right { Rise right.now }
        requires few { length left.now + length right.now ≤ MAX_PAIR_RECORDS }
        ensures { IfOk result (λ r. r ≡ renumbering_of left.now right.now) }
    {
        Ok(Renumbering {
            left: numbers_of(alloc, left)?,
            right: numbers_of(alloc, right)?,
        })
    }

    /// These numbers.
    pub(crate) fn of_numbers(left: Vec<u32>, right: Vec<u32>) -> Renumbering
        requires rise_left { IsStrictlyIncreasing left.items }
        requires rise_right { IsStrictlyIncreasing right.items }
        requires few { length left.items + length right.items ≤ MAX_PAIR_RECORDS }
        ensures left { result.left ≡ left.items }
        ensures right { result.right ≡ right.items }
    {
        Renumbering { left, right }
    }

    /// The entries that the merged pair's delta gets of numbers that came late to the deltas of the
    /// two pairs, each of a live record: those of the left pair in their order, and then those of
    /// the right one.
    pub fn renumber(
        &self,
        alloc: Global,
        left: &[u32],
        right: &[u32],
    ) -> Result<Vec<u32>, AllocError>
        ensures { IfOk result (λ v. v.items ≡ renumbered self.now left.now right.now) }
    {
        let mut entries = Vec::new(alloc);
        add_ranks(&mut entries, &self.left, 0, left)?;
        add_ranks(&mut entries, &self.right, self.left.len() as u32, right)?;
        Ok(entries)
    }
}

/// The numbers of live records.
pub fn numbers_of(alloc: Global, live: &[Live]) -> Result<Vec<u32>, AllocError>
    ensures { IfOk result (λ v. v.items ≡ map (λ l. l.0) live.now) }
{
    live.iter().map(|l| l.number).collect(alloc)
}
