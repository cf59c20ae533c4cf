//! Where a script begins.
use mvo_disk::MemDisk;
use mvo_script::Driver;
use mvo_types::Refusal;
use mvo_world::World;
use std::alloc::Global;
use std::thread::Threads;

/// A world over a fresh store in memory.
pub fn fresh(rt: &(impl Threads + Sync), alloc: Global) -> Result<World<MemDisk>, Refusal> {
    match Driver::new(rt, alloc, 0) {
        Ok(driver) => Ok(driver.into_world()),
        Err(refusal) => Err(refusal),
    }
}
