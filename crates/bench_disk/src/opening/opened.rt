use super::writer::SEED;
use anyhow::{Result, bail};
use mvo_disk::MemDisk;
use mvo_store::Store;
use mvo_types::{Rows, Stamp};
use std::rt::Clock;
use std::thread::Threads;
use std::time::Instant;

/// What a store was opened with, and the time of that in milliseconds.
#[derive(Drop)]
pub struct Opened {
    pub rows: Rows,
    pub mark: Stamp,
    pub segments: usize,
    pub millis: u128,
}

/// Opens the store on the disk.
pub fn open<R>(rt: &R, disk: MemDisk) -> Result<Opened>
where
    R: AllocGlobal + Clock + Threads + Sync,
{
    let start = Instant::now(rt)?;
    let opened = Store::open(rt, rt.alloc(), SEED, disk);
    let millis = start.elapsed(rt)?.as_nanos() / 1_000_000;
    match opened {
        Ok((store, rows, mark)) => Ok(Opened {
            rows,
            mark,
            segments: store.manifest().segments().len(),
            millis,
        }),
        Err(_) => bail!("the store isn't opened"),
    }
}
