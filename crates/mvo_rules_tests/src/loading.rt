//! What was loaded is found by its key and by its sort, of few rows, whose indexes the calling
//! thread makes, and of many, whose indexes two threads make.
use crate::equal::same_at;
use mvo_types::{Row, RowKey, Rows, Stamp};
use mvo_versions::Versions;
use std::alloc::{AllocError, Global};
use std::process::Abort;
use std::test::Fail;
use std::thread::Threads;

fn key_of(key: u64) -> RowKey {
    RowKey { table: 2, key }
}

/// The greater the key, the lesser the sort.
fn sort_of(count: u64, key: u64) -> u64 {
    count.saturating_sub(key)
}

/// Rows with the keys below a count.
fn loaded(rt: &(impl Threads + Sync), alloc: Global, count: u64) -> Result<Versions, AllocError> {
    let mut rows = Rows::new(alloc);
    for key in 0..count {
        rows.put(Row::from_slice(alloc, key_of(key), sort_of(count, key), &[7])?)?;
    }
    Versions::load(rt, alloc, 5, rows, Stamp(2))
}

/// Each key has one version, with its sort.
fn are_found_by_key(rt: &impl Abort, versions: &Versions, count: u64) {
    for key in 0..count {
        let mut met = 0u64;
        for number in versions.walk(key_of(key)) {
            let found = versions.get(number);
            let row = found.map(|version| (version.row.row_key(), version.row.sort));
            same_at(rt, &row, &Some((key_of(key), sort_of(count, key))), key);
            met = met.saturating_add(1);
        }
        same_at(rt, &met, &1, key);
    }
}

/// The places in the order of sorts are those of the keys from the greatest to the least.
fn are_found_by_sort(rt: &impl Abort, versions: &Versions, count: u64) {
    let mut left = count;
    for (place, runs) in versions.between(2, 0, u64::MAX) {
        left = left.saturating_sub(1);
        same_at(
            rt,
            &(place.row_key(), place.sort),
            &(key_of(left), sort_of(count, left)),
            left,
        );
        same_at(rt, &runs, &1, left);
    }
    same_at(rt, &left, &0, count);
}

#[test]
fn each_row_that_was_loaded_is_found(rt: HostRuntime) -> Result<(), Fail> {
    for count in [0, 1, 300, 20_000] {
        let versions = loaded(&rt, rt.alloc(), count)?;
        are_found_by_key(&rt, &versions, count);
        are_found_by_sort(&rt, &versions, count);
    }
    Ok(())
}
