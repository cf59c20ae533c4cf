//! Stores over a disk of which one answer is wrong.
use crate::bodies::Body::{OnePut, Round, Updated};
use crate::disks::stopped;
use crate::equal::holds;
use crate::lying_disk::{Lie, LyingDisk};
use crate::reply::Reply::{self, Installed, Marked};
use crate::step::Step::{self, Append, Checkpoint, Rotate};
use crate::stores::{SEED, following};
use mvo_disk::{Disk, MemDisk};
use mvo_store::{Generation, Progress, Store};
use mvo_types::{Refusal, Stamp};
use std::alloc::Global;
use std::process::Abort;
use std::test::Fail;
use std::thread::Threads;

// Two pairs, and a sealed segment behind them.
const PAIRS_AND_SEALED: [(Step, Reply); 8] = [
    (Append(OnePut), Marked(Stamp(2))),
    (Rotate, Installed(Generation(1))),
    (Checkpoint, Installed(Generation(2))),
    (Append(Updated), Marked(Stamp(4))),
    (Rotate, Installed(Generation(3))),
    (Checkpoint, Installed(Generation(4))),
    (Append(Round(3)), Marked(Stamp(6))),
    (Rotate, Installed(Generation(5))),
];

// How many answers an opening, a checkpoint and a merge take at most.
const MOST: u32 = 200;

// What the runs came to.
#[derive(Clone, Copy)]
struct Met {
    lies: u32,
    unopened: u32,
    misread: u32,
    unnoticed: u32,
}

fn one_more(count: &mut u32) {
    *count = count.saturating_add(1);
}

// Whether bytes that break a rule may be refused so.
fn is_of_files(refusal: Refusal) -> bool {
    matches!(
        refusal,
        Refusal::Corrupt(_) | Refusal::BadVersion | Refusal::NotFormatted
    )
}

fn install<D: Disk>(store: &mut Store<D>) -> Result<Generation, Refusal> {
    store.install_close()?;
    store.install_body()?;
    store.install_open()
}

fn write_deltas<D: Disk>(store: &mut Store<D>) -> Result<(), Refusal> {
    for _ in 0..65 {
        if store.checkpoint_delta()? == Progress::Ready {
            break;
        }
    }
    Ok(())
}

fn checkpoint<D: Disk>(store: &mut Store<D>) -> Result<Generation, Refusal> {
    store.checkpoint_read()?;
    store.checkpoint_data()?;
    write_deltas(store)?;
    install(store)
}

fn merge<D: Disk>(store: &mut Store<D>) -> Result<Generation, Refusal> {
    store.merge_read(0)?;
    store.merge_data()?;
    store.merge_delta()?;
    install(store)
}

// Reads the sealed segment, and then the older pairs.
fn read_all<D: Disk>(store: &mut Store<D>) -> Result<Generation, Refusal> {
    checkpoint(store)?;
    merge(store)
}

// A store whose files came back otherwise than they were written is down.
fn is_down<D: Disk>(rt: &impl Abort, store: &mut Store<D>) {
    holds(rt, store.can_take() == Some(Refusal::Down));
}

// Opens a store whose disk lies once, and reads all of it. Says whether the lie was due.
fn lied_to(
    rt: &(impl Abort + Threads + Sync),
    alloc: Global,
    disk: LyingDisk,
    met: &mut Met,
) -> Result<bool, Fail> {
    let mut store = match Store::open(rt, alloc, SEED, disk) {
        Ok((store, _, _)) => store,
        Err((refusal, disk)) => {
            holds(rt, is_of_files(refusal) && !disk.is_honest());
            one_more(&mut met.unopened);
            return Ok(true);
        }
    };
    match read_all(&mut store) {
        Ok(_) => one_more(&mut met.unnoticed),
        Err(refusal) if is_of_files(refusal) => {
            is_down(rt, &mut store);
            one_more(&mut met.misread);
        }
        Err(_) => one_more(&mut met.unnoticed),
    }
    let disk = store.into_disk();
    Ok(disk.was_due())
}

// A disk whose answers are all read once, and nothing is wrong.
fn with_pairs(rt: &(impl Abort + Threads + Sync), alloc: Global) -> Result<MemDisk, Fail> {
    stopped(following(rt, alloc, &PAIRS_AND_SEALED)?.into_disk())
}

// Each answer is a lie once.
fn each_answer_lies(
    rt: &(impl Abort + Threads + Sync),
    alloc: Global,
    lie: Lie,
    met: &mut Met,
) -> Result<(), Fail> {
    let mut more = true;
    for answers in 0..MOST {
        if more {
            let disk = LyingDisk::new(with_pairs(rt, alloc)?, lie, answers);
            more = lied_to(rt, alloc, disk, met)?;
            one_more(&mut met.lies);
        }
    }
    holds(rt, !more);
    Ok(())
}

const PLACES: [usize; 10] = [0, 1, 3, 8, 9, 12, 17, 25, 40, usize::MAX];

#[test]
fn each_answer_may_be_a_lie(rt: HostRuntime) -> Result<(), Fail> {
    let alloc = rt.alloc();
    let mut met = Met {
        lies: 0,
        unopened: 0,
        misread: 0,
        unnoticed: 0,
    };
    each_answer_lies(&rt, alloc, Lie::ShorterLength, &mut met)?;
    each_answer_lies(&rt, alloc, Lie::LongerLength, &mut met)?;
    for place in PLACES {
        each_answer_lies(&rt, alloc, Lie::OtherByte(place, 1), &mut met)?;
        each_answer_lies(&rt, alloc, Lie::OtherByte(place, 0x80), &mut met)?;
    }
    assert!(rt; met.unopened > 50 && met.misread > 10 && met.unnoticed > 10);
    Ok(())
}
