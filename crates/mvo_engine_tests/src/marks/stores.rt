//! What a store on a new disk gives for a group.
use crate::tests::{SEED, formatted};
use mvo_disk::MemDisk;
use mvo_group::Group;
use mvo_store::{Durable, Store};
use mvo_types::Stamp;
use std::alloc::Global;
use std::test::Fail;
use std::thread::Threads;

fn new_store(rt: &(impl Threads + Sync), alloc: Global) -> Result<Store<MemDisk>, Fail> {
    match Store::open(rt, alloc, SEED, formatted(alloc)?) {
        Ok((store, _, _)) => Ok(store),
        Err((refusal, _)) => Err(Fail::from(refusal)),
    }
}

/// Appends a group without records up to the mark.
fn append(alloc: Global, store: &mut Store<MemDisk>, mark: Stamp) -> Result<Durable, Fail> {
    let prev = store.mark();
    let group = Group::new(prev, mark, Vec::new(alloc)).ok_or("a group without records")?;
    if let Err((refusal, _)) = store.take_group(group) {
        return Err(Fail::from(refusal));
    }
    store.append_body()?;
    Ok(store.append_open()?)
}

/// All up to the mark is on a disk.
pub(crate) fn durable(
    rt: &(impl Threads + Sync),
    alloc: Global,
    mark: Stamp,
) -> Result<Durable, Fail> {
    let mut store = new_store(rt, alloc)?;
    append(alloc, &mut store, mark)
}
