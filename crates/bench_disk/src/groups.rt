use crate::folder::{HostDisk, Scratch};
use crate::raw::Raw;
use crate::times::Times;
use anyhow::{Result, bail};
use mvo_group::{Group, Record, Write};
use mvo_store::{Store, format};
use mvo_types::{Refusal, Row, RowKey, Stamp};
use std::alloc::{AllocError, Global};
use std::thread::Threads;
use std::time::Instant;

/// The seed of the stores' tables.
const SEED: u64 = 7;

type HostStore = Store<HostDisk>;

/// The bytes that a group of so many commits of a row of 100 bytes takes: its length, its body, a
/// gate, and the gate before them.
fn group_len(commits: u64) -> usize {
    let rows = usize::try_from(commits).unwrap_or(0).min(1_000);
    4 + 18 + rows * (10 + 20 + 100) + 1 + 1
}

/// Groups of so many commits of a row of 100 bytes each, from the rows to the durable mark, in turn
/// with a raw append of as many bytes.
pub fn run(
    rt: &HostRuntime,
    threads: &(impl Threads + Sync),
    scratch: &Scratch,
    rounds: u64,
    commits: u64,
) -> Result<()> {
    let mut store = open(rt, threads, scratch, commits)?;
    let mut raw = open_raw(rt, scratch, commits)?;
    time(rt, &mut store, &mut raw, rounds, commits)
}

/// The rounds, in turn.
fn time(
    rt: &HostRuntime,
    store: &mut HostStore,
    raw: &mut Raw,
    rounds: u64,
    commits: u64,
) -> Result<()> {
    let (mut groups, mut appends) = (Times::new(rt), Times::new(rt));
    for _ in 0..rounds {
        round(rt, store, raw, commits, &mut groups, &mut appends)?;
    }
    println!(rt; "groups of {commits}: mark {}", store.mark())?;
    tell(rt, commits, groups.median(), appends.median())
}

/// One group, and one raw append of as many bytes.
fn round(
    rt: &HostRuntime,
    store: &mut HostStore,
    raw: &mut Raw,
    commits: u64,
    groups: &mut Times,
    appends: &mut Times,
) -> Result<()> {
    groups.note(time_of(rt, store, commits)?)?;
    let bytes = vec![in rt.alloc(); 0x5au8; group_len(commits)]?;
    appends.note(raw.append(rt, &bytes)?)
}

/// Tells the medians of groups and of appends, in nanoseconds.
fn tell(rt: &HostRuntime, commits: u64, group: u64, append: u64) -> Result<()> {
    let rows = commits.saturating_mul(1_000_000_000);
    let a_second = rows.checked_div(group).unwrap_or(0);
    eprintln!(rt; "groups of {commits}: p50 {group} ns, {a_second} rows a second")?;
    eprintln!(rt; "raw appends of as many bytes: p50 {append} ns")?;
    Ok(())
}

/// A new store.
fn open(
    rt: &HostRuntime,
    threads: &(impl Threads + Sync),
    scratch: &Scratch,
    commits: u64,
) -> Result<HostStore> {
    let name = format!(in rt.alloc(); "groups-{commits}")?;
    let Ok(disk) = format(rt.alloc(), scratch.disk(rt, &name)?) else {
        bail!("the store isn't made");
    };
    match Store::open(threads, rt.alloc(), SEED, disk) {
        Ok((store, _, _)) => Ok(store),
        Err(_) => bail!("the new store isn't opened"),
    }
}

fn open_raw(rt: &HostRuntime, scratch: &Scratch, commits: u64) -> Result<Raw> {
    let name = format!(in rt.alloc(); "raw-{commits}")?;
    Raw::new(rt, &scratch.path_of(rt, &name)?)
}

/// The nanoseconds of a group.
fn time_of(rt: &HostRuntime, store: &mut HostStore, commits: u64) -> Result<u64> {
    let start = Instant::now(rt)?;
    let prev = store.mark().0;
    append(store, group(rt.alloc(), prev, commits)?)?;
    Ok(u64::try_from(start.elapsed(rt)?.as_nanos())?)
}

/// A commit of one row.
fn record(alloc: Global, end: u64) -> Result<Record, AllocError> {
    let bytes = vec![in alloc; end.to_le_bytes()[0]; 100]?;
    let mut writes = Vec::with_capacity(alloc, 1)?;
    writes.push(Write::Put(Row::new(RowKey { table: 0, key: end }, end, bytes)?))?;
    Ok(Record {
        end: Stamp(end),
        writes,
    })
}

/// Those of so many commits.
fn records(alloc: Global, prev: u64, commits: u64) -> Result<Vec<Record>, AllocError> {
    let mut records = Vec::with_capacity(alloc, commits as usize)?;
    for number in 1..=commits {
        records.push(record(alloc, prev.wrapping_add(number))?)?;
    }
    Ok(records)
}

/// The next group of so many commits.
fn group(alloc: Global, prev: u64, commits: u64) -> Result<Group> {
    let records = records(alloc, prev, commits)?;
    let mark = prev.wrapping_add(commits);
    match Group::new(Stamp(prev), Stamp(mark), records) {
        Some(group) => Ok(group),
        None => bail!("the records are no group"),
    }
}

fn rotate(store: &mut HostStore) -> Result<(), Refusal> {
    store.rotate_write()?;
    store.install_close()?;
    store.install_body()?;
    store.install_open()?;
    Ok(())
}

/// Appends a group; a segment that is full or old is rotated first.
fn append(store: &mut HostStore, group: Group) -> Result<()> {
    if group.prev().0 != store.mark().0 {
        bail!("the group follows the mark");
    }
    if store.take_group(group).is_err() {
        bail!("the group is taken");
    }
    Ok(write(store)?)
}

/// Writes the group that was taken.
fn write(store: &mut HostStore) -> Result<(), Refusal> {
    match store.append_body() {
        Err(Refusal::SegmentFull | Refusal::OldSegment) => {
            rotate(store)?;
            store.append_body()?;
        }
        appended => appended?,
    }
    store.append_open()?;
    Ok(())
}
