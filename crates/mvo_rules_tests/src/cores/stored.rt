//! Which commits a core stores: those above the start of the tale, and those up to it that are in
//! no closed group yet.

use crate::cores::{end, opened};
use crate::equal::same_at;
use mvo_core::Core;
use mvo_group::Group;
use mvo_types::{Refusal, Row, RowKey, Stamp, TxId};
use rtrb::{Producer, RingBuffer};
use std::alloc::Global;
use std::process::Abort;
use std::test::Fail;

/// What is asked for.
#[derive(Clone, Copy)]
enum Ask {
    /// Commits a row at the key, or reads alone there.
    Put(u64),
    Read(u64),
    Close,
    Trim(u64),
}

/// With the end of the first commit that is stored, or 0, and how many are.
const STEPS: [(Ask, u64, u64); 13] = [
    (Ask::Put(1), 2, 1),
    (Ask::Put(2), 2, 2),
    (Ask::Read(1), 2, 3),
    (Ask::Put(3), 2, 4),
    // None is in a group: they stay.
    (Ask::Trim(4), 2, 4),
    // Those that end at 2 and 4 are, and are trimmed.
    (Ask::Close, 5, 2),
    (Ask::Trim(6), 7, 1),
    (Ask::Put(4), 7, 2),
    // One alone is in a group.
    (Ask::Trim(9), 9, 1),
    (Ask::Close, 0, 0),
    (Ask::Put(5), 11, 1),
    (Ask::Close, 11, 1),
    (Ask::Trim(11), 0, 0),
];

fn row(alloc: Global, key: u64) -> Result<Row, Refusal> {
    Ok(Row::from_slice(alloc, RowKey { table: 0, key }, key, &[])?)
}

fn commit(core: &mut Core, tx: TxId) -> Result<(), Refusal> {
    core.precommit(tx)?;
    core.validate_one(tx)?;
    core.settle(tx)?;
    core.finish_one(tx)?;
    Ok(())
}

fn put(alloc: Global, core: &mut Core, key: u64) -> Result<(), Refusal> {
    let tx = core.begin_tx()?;
    core.insert(tx, row(alloc, key)?)?;
    commit(core, tx)
}

fn read(core: &mut Core, key: u64) -> Result<(), Refusal> {
    let tx = core.begin_read_only()?;
    core.read(tx, RowKey { table: 0, key })?;
    commit(core, tx)
}

fn make(
    alloc: Global,
    core: &mut Core,
    ring: &mut Producer<Group>,
    step: Ask,
) -> Result<(), Refusal> {
    match step {
        Ask::Put(key) => put(alloc, core, key),
        Ask::Read(key) => read(core, key),
        Ask::Trim(upto) => core.trim_tale(Stamp(upto)),
        Ask::Close => match core.close_group(ring) {
            Ok(_) => Ok(()),
            Err(refusal) => Err(refusal),
        },
    }
}

/// The end of the first that is stored, or 0, and how many are. A place may be empty.
fn stored(core: &Core) -> (u64, u64) {
    let tale = core.tale();
    let (mut first, mut count) = (0, 0_u64);
    for place in 0..tale.len() {
        if let Some(entry) = tale.get(place) {
            if count == 0 {
                first = entry.end.0;
            }
            count = count.saturating_add(1);
        }
    }
    (first, count)
}

fn compare(
    rt: &impl Abort,
    alloc: Global,
    core: &mut Core,
    ring: &mut Producer<Group>,
) -> Result<(), Refusal> {
    for (at, (step, first, count)) in STEPS.iter().enumerate() {
        make(alloc, core, ring, *step)?;
        same_at(rt, &stored(core), &(*first, *count), at as u64);
    }
    Ok(())
}

#[test]
fn what_is_trimmed_and_in_a_group_is_forgotten(rt: HostRuntime) -> Result<(), Fail> {
    let (mut ring, _groups) = RingBuffer::new(rt.alloc(), 8)?;
    let mut core = opened(&rt, rt.alloc())?;
    let compared = compare(&rt, rt.alloc(), &mut core, &mut ring);
    end(core);
    compared?;
    Ok(())
}
