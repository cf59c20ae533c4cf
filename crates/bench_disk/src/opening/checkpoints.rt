use super::log::sum_of;
use super::opened::{Opened, open};
use super::steps::{MemStore, checkpoint_data, checkpoint_delta, checkpoint_read, install};
use super::writer::{SEED, rotate, written};
use anyhow::{Result, bail};
use mvo_disk::MemDisk;
use mvo_store::{Progress, Store};
use mvo_types::{MAX_PAIRS, Refusal};
use std::alloc::Global;
use std::rt::Clock;
use std::thread::Threads;

fn write_deltas(store: &mut MemStore) -> Result<(), Refusal> {
    for _ in 0..=MAX_PAIRS {
        if checkpoint_delta(store)? == Progress::Ready {
            break;
        }
    }
    Ok(())
}

// All steps of a checkpoint behind its reading.
fn finish(store: &mut MemStore) -> Result<(), Refusal> {
    checkpoint_data(store)?;
    write_deltas(store)?;
    install(store)
}

// Makes a pair of each segment that holds a group, and says how many there are.
fn checkpointed(store: &mut MemStore) -> Result<usize, Refusal> {
    rotate(store)?;
    for _ in 0..MAX_PAIRS {
        match checkpoint_read(store) {
            Ok(()) => finish(store)?,
            Err(Refusal::NothingToDo) => break,
            Err(refusal) => return Err(refusal),
        }
    }
    Ok(store.manifest().pairs().len())
}

// A disk with a store whose rows lie in the pairs that checkpoints of its log made, and how many.
fn pairs_of(rt: &(impl Threads + Sync), alloc: Global, count: u64) -> Result<(MemDisk, usize)> {
    let disk = written(rt, alloc, count)?;
    let Ok((mut store, _, _)) = Store::open(rt, alloc, SEED, disk) else {
        bail!("the store isn't opened");
    };
    let pairs = checkpointed(&mut store)?;
    Ok((store.into_disk(), pairs))
}

// The rows of a store whose log was turned into pairs by checkpoints, and the time of opening it.
pub fn run<R>(rt: &R, count: u64) -> Result<()>
where
    R: AllocGlobal + Clock + Eprint + Print + Threads + Sync,
{
    let (disk, pairs) = pairs_of(rt, rt.alloc(), count)?;
    let opened = open(rt, disk)?;
    tell(rt, count, pairs, &opened)
}

fn tell<R: Eprint + Print>(rt: &R, count: u64, pairs: usize, opened: &Opened) -> Result<()> {
    eprintln!(rt; "{count} rows from checkpoints: {} ms", opened.millis)?;
    let sum = sum_of(&opened.rows, count)?;
    let (rows, mark) = (opened.rows.len(), opened.mark);
    println!(rt; "rows {rows} mark {mark} checkpoints {pairs} sum {sum}")?;
    Ok(())
}
