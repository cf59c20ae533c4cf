//! New stores in memory, and worlds over what is on a disk.
use mvo_disk::MemDisk;
use mvo_store::format;
use mvo_world::World;
use std::alloc::{AllocError, Global};
use std::test::Fail;
use std::thread::Threads;

fn new_disk(alloc: Global) -> Result<MemDisk, AllocError> {
    MemDisk::new(alloc)
}

/// A disk with a store that has no rows.
pub fn formatted(alloc: Global) -> Result<MemDisk, Fail> {
    match format(alloc, new_disk(alloc)?) {
        Ok(disk) => Ok(disk),
        Err((refusal, _)) => Err(Fail::from(refusal)),
    }
}

/// The world over what is on a disk.
pub fn opened(
    rt: &(impl Threads + Sync),
    alloc: Global,
    seed: u64,
    disk: MemDisk,
) -> Result<World<MemDisk>, Fail> {
    match World::open(rt, alloc, seed, disk) {
        Ok(world) => Ok(world),
        Err((refusal, _)) => Err(Fail::from(refusal)),
    }
}
