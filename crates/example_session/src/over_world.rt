//! The same store without threads, step by step: a row is put, committed and made durable, and is
//! found when the disk is opened again.
use anyhow::bail;
use mvo_disk::MemDisk;
use mvo_store::{StoreCall, format};
use mvo_types::{Op, Refusal, Row, RowKey, TxId};
use mvo_world::{Event, Reply, World};
use std::alloc::{AllocError, Global};
use std::random::RandomSource;
use std::rt::Runtime;
use std::thread::Threads;

/// The key of the row.
const KEY: RowKey = RowKey { table: 0, key: 5 };

pub fn run(
    rt: &(impl Runtime + RandomSource + Threads + Sync),
    alloc: Global,
) -> Result<(), anyhow::Error> {
    let disk = formatted(alloc, new_disk(alloc)?)?;
    let disk = put(rt, alloc, disk)?;
    find(rt, alloc, disk)
}

/// Puts the row, and tells what is answered. The disk comes back.
fn put(
    rt: &(impl Runtime + RandomSource + Threads + Sync),
    alloc: Global,
    disk: MemDisk,
) -> Result<MemDisk, anyhow::Error> {
    let mut world = open(rt, alloc, disk)?;
    let told = put_in(rt, alloc, &mut world);
    let disk = into_disk(world);
    told?;
    Ok(disk)
}

fn put_in(
    rt: &impl Runtime,
    alloc: Global,
    world: &mut World<MemDisk>,
) -> Result<(), anyhow::Error> {
    let tx = begin(world)?;
    let replies = run_all(world, &put_and_flush(tx, row(alloc)?))?;
    tell(rt, &replies)
}

/// Reads the row.
fn find(
    rt: &(impl Runtime + RandomSource + Threads + Sync),
    alloc: Global,
    disk: MemDisk,
) -> Result<(), anyhow::Error> {
    let mut world = open(rt, alloc, disk)?;
    find_in(rt, &mut world)
}

fn find_in(rt: &impl Runtime, world: &mut World<MemDisk>) -> Result<(), anyhow::Error> {
    let tx = begin(world)?;
    let found = run_all(world, &[Event::Do(tx, Op::Read(KEY))])?;
    tell(rt, &found)
}

fn tell(rt: &impl Runtime, replies: &[Reply]) -> Result<(), anyhow::Error> {
    for reply in replies {
        println!(rt; "{reply:?}")?;
    }
    Ok(())
}

/// The disk with a store that has no rows.
fn formatted(alloc: Global, disk: MemDisk) -> Result<MemDisk, anyhow::Error> {
    match format(alloc, disk) {
        Ok(disk) => Ok(disk),
        Err((refusal, _)) => bail!("no store is written: {refusal}"),
    }
}

/// The world of the disk. Who chooses the keys can't know the seed.
fn open(
    rt: &(impl Runtime + RandomSource + Threads + Sync),
    alloc: Global,
    disk: MemDisk,
) -> Result<World<MemDisk>, anyhow::Error> {
    let seed = draw_seed(rt)?;
    match World::open(rt, alloc, seed, disk) {
        Ok(world) => Ok(world),
        Err((refusal, _)) => bail!("the disk isn't opened: {refusal}"),
    }
}

fn draw_seed(rt: &impl RandomSource) -> Result<u64, anyhow::Error> {
    let mut bytes = [0; 8];
    rt.fill_bytes(&mut bytes)?;
    Ok(u64::from_le_bytes(bytes))
}

fn begin(world: &mut World<MemDisk>) -> Result<TxId, anyhow::Error> {
    match step(world, Event::Begin) {
        Reply::Began(tx) => Ok(tx),
        _ => bail!("no transaction begins"),
    }
}

// The calls of a disk and of a world without their clauses, which the proof of this program doesn't
// need.

fn new_disk(alloc: Global) -> Result<MemDisk, AllocError> {
    MemDisk::new(alloc)
}

fn step(world: &mut World<MemDisk>, event: Event) -> Reply {
    world.step(event)
}

fn run_all(world: &mut World<MemDisk>, events: &[Event]) -> Result<Vec<Reply>, Refusal> {
    world.run(events)
}

fn into_disk(world: World<MemDisk>) -> MemDisk {
    world.into_disk()
}

fn row(alloc: Global) -> Result<Row, AllocError> {
    Row::new(KEY, 50, [0x61].to_vec(alloc)?)
}

/// The transaction puts the row and commits, and its group becomes durable.
fn put_and_flush(tx: TxId, row: Row) -> [Event; 9] {
    [
        Event::Do(tx, Op::Insert(row)),
        Event::Precommit(tx),
        Event::Validate(tx),
        Event::Settle(tx),
        Event::Finish(tx),
        Event::CloseGroup,
        Event::TakeGroup,
        Event::Store(StoreCall::AppendBody),
        Event::Store(StoreCall::AppendOpen),
    ]
}
