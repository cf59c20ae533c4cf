//! Stores, and what they give.
use crate::disks::{new_disk, stopped};
use crate::equal::{holds, same, same_at};
use crate::reply::Reply;
use crate::step::Step;
use mvo_disk::MemDisk;
use mvo_store::Store;
use mvo_types::{RowKey, Rows, Stamp};
use std::alloc::Global;
use std::process::Abort;
use std::test::Fail;
use std::thread::Threads;

/// The seed of the tests' stores.
pub(crate) const SEED: u64 = 7;

type Opened = (Store<MemDisk>, Rows, Stamp);

pub(crate) fn opened(
    rt: &(impl Threads + Sync),
    alloc: Global,
    disk: MemDisk,
) -> Result<Opened, Fail> {
    match Store::open(rt, alloc, SEED, disk) {
        Ok(opened) => Ok(opened),
        Err((refusal, _)) => Err(Fail::from(refusal)),
    }
}

/// The store on a disk.
pub(crate) fn store_on(
    rt: &(impl Threads + Sync),
    alloc: Global,
    disk: MemDisk,
) -> Result<Store<MemDisk>, Fail> {
    let (store, _, _) = opened(rt, alloc, disk)?;
    Ok(store)
}

/// The rows on a disk, which must go up to this mark.
pub(crate) fn rows_on(
    rt: &(impl Abort + Threads + Sync),
    alloc: Global,
    disk: MemDisk,
    mark: u64,
) -> Result<Rows, Fail> {
    let (_, rows, found) = opened(rt, alloc, disk)?;
    same(rt, &found, &Stamp(mark));
    Ok(rows)
}

/// A store over a new disk.
pub(crate) fn new_store(rt: &(impl Threads + Sync), alloc: Global) -> Result<Store<MemDisk>, Fail> {
    store_on(rt, alloc, new_disk(alloc)?)
}

/// Each step is answered so.
pub(crate) fn follow(
    rt: &impl Abort,
    alloc: Global,
    store: &mut Store<MemDisk>,
    steps: &[(Step, Reply)],
) -> Result<(), Fail> {
    for (at, (step, reply)) in steps.iter().enumerate() {
        same_at(rt, at, &step.of(store, alloc)?, reply);
    }
    Ok(())
}

/// A store over a new disk, after these steps.
pub(crate) fn following(
    rt: &(impl Abort + Threads + Sync),
    alloc: Global,
    steps: &[(Step, Reply)],
) -> Result<Store<MemDisk>, Fail> {
    let mut store = new_store(rt, alloc)?;
    follow(rt, alloc, &mut store, steps)?;
    Ok(store)
}

/// The store's manifest names these segments.
pub(crate) fn names(rt: &impl Abort, store: &Store<MemDisk>, segments: &[u16]) {
    same(rt, &store.manifest().segments(), &segments);
}

/// The store's manifest has pairs with these lo and hi.
pub(crate) fn spans(rt: &impl Abort, store: &Store<MemDisk>, wanted: &[(u64, u64)]) {
    let pairs = store.manifest().pairs();
    same(rt, &pairs.len(), &wanted.len());
    for (pair, wanted) in pairs.iter().zip(wanted) {
        same(rt, &(pair.lo.0, pair.hi.0), wanted);
    }
}

// How long the data of the row at table 0 and this key is.
fn len_at(rows: &Rows, key: u64) -> Result<Option<usize>, Fail> {
    let row = rows.get(RowKey { table: 0, key })?;
    Ok(row.map(|row| row.data_len()))
}

/// Table 0 has at each of these keys a row with so many bytes of data, or none.
pub(crate) fn have(
    rt: &impl Abort,
    rows: &Rows,
    lens: &[(u64, Option<usize>)],
) -> Result<(), Fail> {
    for (key, len) in lens {
        same_at(rt, *key as usize, &len_at(rows, *key)?, len);
    }
    Ok(())
}

/// The row at table 0 and key 5 has sort 50 and these bytes.
pub(crate) fn has_row(rt: &impl Abort, rows: &Rows, bytes: &[u8]) -> Result<(), Fail> {
    let row = rows.get(RowKey { table: 0, key: 5 })?.ok_or("the row")?;
    same(rt, &row.sort, &50);
    same(rt, &row.bytes(), &bytes);
    Ok(())
}

/// What is on the disk goes up to this mark, with such rows.
pub(crate) fn gives(
    rt: &(impl Abort + Threads + Sync),
    alloc: Global,
    disk: MemDisk,
    mark: u64,
    lens: &[(u64, Option<usize>)],
) -> Result<(), Fail> {
    have(rt, &rows_on(rt, alloc, disk, mark)?, lens)
}

/// The store on a disk, which must go up to this mark, with such rows.
pub(crate) fn store_with(
    rt: &(impl Abort + Threads + Sync),
    alloc: Global,
    disk: MemDisk,
    mark: u64,
    lens: &[(u64, Option<usize>)],
) -> Result<Store<MemDisk>, Fail> {
    let (store, rows, found) = opened(rt, alloc, disk)?;
    same(rt, &found, &Stamp(mark));
    have(rt, &rows, lens)?;
    Ok(store)
}

// The rows of so many rounds.
const ROUNDS: [[(u64, Option<usize>); 3]; 4] = [
    [(1, None), (2, None), (3, None)],
    [(1, Some(1)), (2, None), (3, None)],
    [(1, Some(1)), (2, Some(1)), (3, None)],
    [(1, Some(1)), (2, Some(1)), (3, Some(1))],
];

/// The store after a stop, which must have these rounds.
pub(crate) fn after_stop(
    rt: &(impl Abort + Threads + Sync),
    alloc: Global,
    store: Store<MemDisk>,
    rounds: u8,
) -> Result<Store<MemDisk>, Fail> {
    holds(rt, rounds < 4);
    let disk = stopped(store.into_disk())?;
    let mark = rounds.saturating_mul(2) as u64;
    store_with(rt, alloc, disk, mark, &ROUNDS[rounds as usize])
}
