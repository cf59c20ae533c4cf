//! Merges of a few records.
use crate::equal::same;
use crate::files::merge::calls::{built, renumbered};
use crate::files::merge::making::lives;
use mvo_merge::Merged;
use std::alloc::Global;
use std::process::Abort;
use std::test::Fail;

/// The merged records have these begins and keys.
fn has(rt: &impl Abort, merged: &Merged, wanted: &[(u64, u64)]) {
    same(rt, &merged.records.len(), &wanted.len());
    for (entry, wanted) in merged.records.iter().zip(wanted) {
        same(rt, &(entry.begin.0, entry.row.key.key), wanted);
    }
}

#[test]
fn the_only_live_record_is_that_of_the_right_pair(rt: HostRuntime) -> Result<(), Fail> {
    let alloc = rt.alloc();
    let merged = built(alloc, lives(alloc, &[])?, lives(alloc, &[(0, 4, 5)])?)?;
    has(&rt, &merged, &[(4, 5)]);
    Ok(())
}

/// The merge of two live records of each pair.
pub fn two_and_two(alloc: Global) -> Result<Merged, Fail> {
    let left = lives(alloc, &[(1, 2, 7), (4, 3, 9)])?;
    built(alloc, left, lives(alloc, &[(0, 4, 1), (5, 6, 2)])?)
}

#[test]
fn records_stand_pair_by_pair(rt: HostRuntime) -> Result<(), Fail> {
    let merged = two_and_two(rt.alloc())?;
    has(&rt, &merged, &[(2, 7), (3, 9), (4, 1), (6, 2)]);
    Ok(())
}

fn has_ranks(rt: &impl Abort, alloc: Global, merged: &Merged) -> Result<(), Fail> {
    let late = renumbered(alloc, merged, &[4], &[5, 0])?;
    same(rt, &late.as_slice(), &[1, 3, 2].as_slice());
    let none = renumbered(alloc, merged, &[], &[])?;
    same(rt, &none.len(), &0);
    Ok(())
}

#[test]
fn late_numbers_are_ranks(rt: HostRuntime) -> Result<(), Fail> {
    let merged = two_and_two(rt.alloc())?;
    has_ranks(&rt, rt.alloc(), &merged)
}
