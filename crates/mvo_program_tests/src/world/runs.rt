//! Events that run over a disk, which comes back.

use crate::disks::{formatted, opened};
use crate::equal::same;
use mvo_disk::{Disk, MemDisk};
use mvo_store::StoreCall;
use mvo_types::{Op, Row, RowKey, Stamp, TxId};
use mvo_world::{Event, Reply, World};
use std::alloc::{AllocError, Global};
use std::process::Abort;
use std::test::Fail;
use std::thread::Threads;

const KEY: RowKey = RowKey { table: 0, key: 5 };

const TX: TxId = TxId(1);

/// What the events are answered: those up to the group's body, and the one that opens its gate.
const REPLIES: [&str; 10] = [
    "Began(TxId(1))",
    "Answered(Inserted)",
    "Prepared(Stamp(2))",
    "Validated(Valid)",
    "Settled(Committed(Stamp(2)))",
    "Polled(false)",
    "Closed(Closed { prev: Stamp(0), mark: Stamp(2) })",
    "Taken",
    "Written",
    "Durable(Stamp(2))",
];

fn row(alloc: Global) -> Result<Row, AllocError> {
    Row::from_slice(alloc, KEY, 50, &[0x61])
}

fn events(alloc: Global) -> Result<[Event; 10], AllocError> {
    Ok([
        Event::Begin,
        Event::Do(TX, Op::Insert(row(alloc)?)),
        Event::Precommit(TX),
        Event::Validate(TX),
        Event::Settle(TX),
        Event::Poll(Stamp(2)),
        Event::CloseGroup,
        Event::TakeGroup,
        Event::Store(StoreCall::AppendBody),
        Event::Store(StoreCall::AppendOpen),
    ])
}

fn compare(rt: &impl Abort, alloc: Global, replies: &[Reply], count: usize) -> Result<(), Fail> {
    same(rt, &replies.len(), &count);
    for (reply, wanted) in replies.iter().zip(REPLIES) {
        same(rt, &format!(in alloc; "{reply:?}")?.as_str(), &wanted);
    }
    Ok(())
}

/// The first so many events over a new store: the mark at which the disk opens then.
fn mark_after(
    rt: &(impl Abort + Threads + Sync),
    alloc: Global,
    events: &[Event],
) -> Result<Stamp, Fail> {
    let disk = formatted(alloc)?;
    let (replies, disk) = run_over(rt, alloc, disk, events)?;
    compare(rt, alloc, &replies, events.len())?;
    mark_on(rt, alloc, disk)
}

fn run_over(
    rt: &(impl Threads + Sync),
    alloc: Global,
    disk: MemDisk,
    events: &[Event],
) -> Result<(Vec<Reply>, MemDisk), Fail> {
    match World::run_over(rt, alloc, 7, disk, events) {
        Ok(ran) => Ok(ran),
        Err((refusal, _)) => Err(Fail::from(refusal)),
    }
}

/// The mark at which the disk opens.
fn mark_on(rt: &(impl Threads + Sync), alloc: Global, disk: MemDisk) -> Result<Stamp, Fail> {
    let world = opened(rt, alloc, 8, disk)?;
    let mark = world.mark();
    let _ = world.into_disk();
    Ok(mark)
}

/// The body behind the closed gate isn't there for who opens the disk.
#[test]
fn events_run_over_a_disk(rt: HostRuntime) -> Result<(), Fail> {
    let alloc = rt.alloc();
    let events = events(alloc)?;
    same(&rt, &mark_after(&rt, alloc, &events[..9])?, &Stamp(0));
    same(&rt, &mark_after(&rt, alloc, &events)?, &Stamp(2));
    Ok(())
}
