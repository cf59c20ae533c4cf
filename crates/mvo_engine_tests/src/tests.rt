mod asking;
mod beside;
mod calls;
mod counted_disk;
mod counting;
mod day;
mod depending;
mod down;
mod durable;
mod ending;
mod gathering;
mod held_disk;
mod holds;
mod jobs;
mod kept;
mod kinds;
mod lasting;
mod letting_by;
mod meeting;
mod older;
mod one_call;
mod reads_free;
mod reports;
mod rows;
mod sessions;
mod steps;
mod through;
mod told;
mod transacting;
mod trial;
mod turns;
mod upkeep;
mod waiting;

use mvo_disk::MemDisk;
use mvo_store::format;
use std::alloc::{AllocError, Global};
use std::test::Fail;

pub const SEED: u64 = 7;

fn new_disk(alloc: Global) -> Result<MemDisk, AllocError> {
    MemDisk::new(alloc)
}

/// A disk with a store that has no rows.
pub fn formatted(alloc: Global) -> Result<MemDisk, Fail> {
    match format(alloc, new_disk(alloc)?) {
        Ok(disk) => Ok(disk),
        Err((refusal, _)) => Err(Fail::from(refusal)),
    }
}
