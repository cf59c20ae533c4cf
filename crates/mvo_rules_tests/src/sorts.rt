//! The ordered index has just the places of the versions, in whichever order these come, go and are
//! brought to the front.
use crate::equal::{holds, same_at};
use crate::numbers::Numbers;
use mvo_chain::VersionNo;
use mvo_range::SortPlace;
use mvo_types::{Row, RowKey, Rows, Stamp, TxId};
use mvo_versions::Versions;
use std::alloc::{AllocError, Global};
use std::process::Abort;
use std::test::Fail;
use std::thread::Threads;

const STEPS: u64 = 6000;

/// Versions, and a plain list of their numbers and places.
struct Both {
    versions: Versions,
    list: Vec<(VersionNo, SortPlace)>,
}

impl Drop for Both {
    fn drop(self) {
        let Both {
            versions: _,
            list: _,
        } = self;
    }
}

fn row(alloc: Global, key: u64, sort: u64) -> Result<Row, AllocError> {
    Row::from_slice(alloc, RowKey { table: 2, key }, sort, &[7])
}

/// One row, the version 0 at sort 1.
fn begin(rt: &(impl Threads + Sync), alloc: Global) -> Result<Both, AllocError> {
    let mut rows = Rows::new(alloc);
    rows.put(row(alloc, 0, 1)?)?;
    let mut list = Vec::new(alloc);
    list.push((
        VersionNo(0),
        SortPlace {
            table: 2,
            sort: 1,
            key: 0,
        },
    ))?;
    Ok(Both {
        versions: Versions::load(rt, alloc, 5, rows, Stamp(2))?,
        list,
    })
}

/// Puts a version of the key with the sort. It names the version that was put last, which may be of
/// another key or have another sort.
fn put(alloc: Global, both: &mut Both, key: u64, sort: u64) -> Result<(), AllocError> {
    let row = row(alloc, key, sort)?;
    let place = SortPlace::new(row.row_key(), sort);
    let like = both.list.last().map(|entry| entry.0);
    let number = both.versions.put(row, TxId(3), like)?;
    both.list.push((number, place))?;
    Ok(())
}

fn take_out(both: &mut Both, at: usize) {
    if at < both.list.len() {
        let number = both.list.remove(at).0;
        if both.versions.get(number).is_some() {
            both.versions.take_out(number);
        }
    }
}

fn bring_to_front(both: &mut Both, at: usize) {
    if let Some(entry) = both.list.get(at) {
        if both.versions.get(entry.0).is_some() {
            both.versions.bring_to_front(entry.0);
        }
    }
}

/// The places of the list in order, each once.
fn places_of(alloc: Global, list: &[(VersionNo, SortPlace)]) -> Result<Vec<SortPlace>, AllocError> {
    let mut places: Vec<SortPlace> = Vec::new(alloc);
    for entry in list {
        places.push(entry.1)?;
    }
    places.sort()?;
    places.dedup();
    Ok(places)
}

fn walked(alloc: Global, versions: &Versions) -> Result<Vec<SortPlace>, AllocError> {
    let mut places = Vec::new(alloc);
    for (place, _) in versions.between(2, 0, u64::MAX) {
        places.push(place)?;
    }
    Ok(places)
}

fn agree(rt: &impl Abort, alloc: Global, both: &Both, at: u64) -> Result<(), Fail> {
    let wanted = places_of(alloc, both.list.as_slice())?;
    let got = walked(alloc, &both.versions)?;
    same_at(rt, &got, &wanted, at);
    Ok(())
}

/// One step: a put, or one of the versions goes or comes to the front.
fn step(
    alloc: Global,
    both: &mut Both,
    numbers: &mut Numbers,
    sorts: u64,
) -> Result<(), AllocError> {
    let most = both.list.len() as u64;
    let at = numbers.below(most) as usize;
    match numbers.below(4) {
        0 => bring_to_front(both, at),
        1 => take_out(both, at),
        _ if most < 40 => put(alloc, both, numbers.below(2), numbers.below(sorts))?,
        _ => take_out(both, at),
    }
    Ok(())
}

fn run(
    rt: &impl Abort,
    alloc: Global,
    both: &mut Both,
    numbers: &mut Numbers,
    sorts: u64,
) -> Result<(), Fail> {
    for at in 0..STEPS {
        step(alloc, both, numbers, sorts)?;
        agree(rt, alloc, both, at)?;
    }
    holds(rt, both.list.len() > 1);
    Ok(())
}

#[test]
fn places_are_those_of_a_plain_list(rt: HostRuntime) -> Result<(), Fail> {
    let mut numbers = Numbers::new();
    for sorts in [1, 2, 3, 1000] {
        let mut both = begin(&rt, rt.alloc())?;
        run(&rt, rt.alloc(), &mut both, &mut numbers, sorts)?;
    }
    Ok(())
}

/// A key whose sort changes with each version, and each sort twice, newest versions put last.
fn put_many(alloc: Global, both: &mut Both, count: u64) -> Result<(), AllocError> {
    for at in 0..count {
        put(alloc, both, 0, at / 2)?;
    }
    Ok(())
}

fn take_all(rt: &impl Abort, alloc: Global, both: &mut Both, count: u64) -> Result<(), Fail> {
    for at in 0..count {
        take_out(both, 0);
        agree(rt, alloc, both, at)?;
    }
    Ok(())
}

fn put_and_take_all(rt: &impl Abort, alloc: Global, both: &mut Both) -> Result<(), Fail> {
    put_many(alloc, both, 400)?;
    agree(rt, alloc, both, 400)?;
    take_all(rt, alloc, both, 401)?;
    holds(rt, both.list.is_empty());
    Ok(())
}

#[test]
fn many_sorts_of_a_hot_key_go_oldest_first(rt: HostRuntime) -> Result<(), Fail> {
    let mut both = begin(&rt, rt.alloc())?;
    put_and_take_all(&rt, rt.alloc(), &mut both)
}
