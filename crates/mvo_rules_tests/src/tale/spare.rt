//! The lists of commits that are forgotten.

use crate::equal::{holds, same};
use crate::tale::storing::store_inserts;
use mvo_tale::Tale;
use mvo_types::Stamp;
use std::alloc::Global;
use std::process::Abort;
use std::test::Fail;

/// Stores and forgets so many commits, each of so many inserts.
fn forget_commits(
    rt: &impl Abort,
    alloc: Global,
    tale: &mut Tale,
    commits: u64,
    inserts: u64,
) -> Result<(), Fail> {
    for end in 1..=commits {
        let is_stored = store_inserts(alloc, tale, end, inserts, 0)?;
        holds(rt, is_stored);
    }
    tale.forget(Stamp(commits));
    Ok(())
}

/// How many lists the tale gives, up to a hundred. Each is empty, and has memory.
fn count_spare_lists(rt: &impl Abort, tale: &mut Tale) -> u64 {
    for count in 0..100 {
        let Some(list) = tale.spare_list() else {
            return count;
        };
        holds(rt, list.is_empty());
        holds(rt, list.capacity() > 0);
    }
    100
}

/// So many of the lists are kept.
fn keeps(
    rt: &impl Abort,
    alloc: Global,
    commits: u64,
    inserts: u64,
    kept: u64,
) -> Result<(), Fail> {
    let mut tale = Tale::new(alloc);
    forget_commits(rt, alloc, &mut tale, commits, inserts)?;
    same(rt, &count_spare_lists(rt, &mut tale), &kept);
    Ok(())
}

#[test]
fn a_forgotten_commit_leaves_its_list(rt: HostRuntime) -> Result<(), Fail> {
    keeps(&rt, rt.alloc(), 0, 0, 0)?;
    keeps(&rt, rt.alloc(), 3, 2, 3)
}

#[test]
fn at_most_64_lists_are_kept(rt: HostRuntime) -> Result<(), Fail> {
    keeps(&rt, rt.alloc(), 70, 1, 64)
}

#[test]
fn a_list_with_room_for_128_is_kept(rt: HostRuntime) -> Result<(), Fail> {
    keeps(&rt, rt.alloc(), 3, 128, 3)
}

#[test]
fn a_list_with_room_for_more_than_128_is_not_kept(rt: HostRuntime) -> Result<(), Fail> {
    keeps(&rt, rt.alloc(), 3, 129, 0)
}
