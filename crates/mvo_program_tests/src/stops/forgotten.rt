//! What is found where a store forgets a sync: of some steps each of their syncs, in all places
//! where a script makes that step, and those of its openings.
use crate::equal::same;
use crate::stops::looked_at::recorded;
use mvo_disk::DeviceWork;
use mvo_stops::{Quiet, Recorded, Report, check_stops, line_of};
use std::alloc::{AllocError, Global};
use std::process::Abort;
use std::test::Fail;
use std::thread::Threads;

/// A row is put and its segment is sealed, and then two more are put.
const ROTATION: &str = "begin t1
insert t1 0 5 50 61
commit t1
flush
rotate
begin t2
insert t2 0 6 50 62
commit t2
flush
begin t3
insert t3 0 7 50 63
commit t3
flush
";

/// Two segments become pairs, of which the second replaces the row of the first.
const CHECKPOINTS: &str = "begin t1
insert t1 0 5 50 61
commit t1
flush
rotate
checkpoint
begin t2
update t2 0 5 50 62
commit t2
flush
rotate
checkpoint
";

/// Two pairs become one, and what they leave is reclaimed.
const MERGE: &str = "begin t1
insert t1 0 5 50 61
commit t1
flush
rotate
checkpoint
begin t2
update t2 0 5 50 62
commit t2
flush
rotate
checkpoint
merge 0
reclaim
reclaim
reclaim
reclaim
reclaim
";

/// A sync that a script makes.
#[derive(Clone, Copy)]
struct SyncAt {
    /// The number of its call.
    number: usize,
    line: usize,
    step: &'static str,
    /// Which sync of its step it is, from 1.
    place: usize,
}

/// Whether both are made by one line of the store's code.
fn is_same(one: &SyncAt, two: &SyncAt) -> bool {
    one.step == two.step && one.place == two.place
}

/// The syncs of a script, in order.
fn syncs_of(
    rt: &(impl Threads + Sync),
    alloc: Global,
    recorded: &Recorded,
) -> Result<Vec<SyncAt>, Fail> {
    let mut syncs: Vec<SyncAt> = Vec::new(alloc);
    for (at, call) in recorded.calls().iter().enumerate() {
        if matches!(&call.work, DeviceWork::Sync) {
            push_sync(rt, recorded, at.saturating_add(1), &mut syncs)?;
        }
    }
    Ok(syncs)
}

/// Adds the sync that is the call of this number.
fn push_sync(
    rt: &(impl Threads + Sync),
    recorded: &Recorded,
    number: usize,
    syncs: &mut Vec<SyncAt>,
) -> Result<(), Fail> {
    if let Some((line, step)) = line_of(rt, recorded, number)? {
        let step = step.unwrap_or("reclaim");
        let place = place_behind(syncs.last(), line, step);
        syncs.push(SyncAt {
            number,
            line,
            step,
            place,
        })?;
    }
    Ok(())
}

/// Which sync of its step one is behind another.
fn place_behind(last: Option<&SyncAt>, line: usize, step: &str) -> usize {
    match last {
        Some(last) if last.line == line && last.step == step => last.place.saturating_add(1),
        _ => 1,
    }
}

/// Writes what is found where a store forgets a sync.
fn write_one(
    rt: &(impl Threads + Sync),
    recorded: &mut Recorded,
    syncs: &[SyncAt],
    sync: SyncAt,
    found: &mut String,
) -> Result<(), Fail> {
    forget(recorded, syncs, sync)?;
    let report = check_stops(rt, recorded, &mut Quiet)?;
    let (step, place) = (sync.step, sync.place);
    write!(found, "without sync {place} of {step}: ")?;
    Ok(write_found(report, found)?)
}

fn forget(recorded: &mut Recorded, syncs: &[SyncAt], sync: SyncAt) -> Result<(), Fail> {
    recorded.forget_none();
    for other in syncs {
        if is_same(other, &sync) {
            recorded.forget_sync(other.number)?;
        }
    }
    Ok(())
}

/// Writes whether something is wrong, and what.
fn write_found(report: Report, found: &mut String) -> Result<(), AllocError> {
    match report.failed {
        None => writeln!(found, "ok"),
        Some(failed) => {
            let (call, wrong) = (failed.call, failed.wrong);
            writeln!(found, "failed {call}, {wrong}")
        }
    }
}

/// Writes of each sync of these steps what is found where it is forgotten.
fn write_each(
    rt: &(impl Threads + Sync),
    recorded: &mut Recorded,
    syncs: &[SyncAt],
    steps: &[&str],
    found: &mut String,
) -> Result<(), Fail> {
    for (at, sync) in syncs.iter().enumerate() {
        let is_first = !syncs[..at].iter().any(|other| is_same(other, sync));
        if is_first && steps.iter().any(|step| *step == sync.step) {
            write_one(rt, recorded, syncs, *sync, found)?;
        }
    }
    Ok(())
}

/// Asserts what is found of a script where each sync of these steps is forgotten.
fn assert_found(
    rt: &(impl Abort + Threads + Sync),
    alloc: Global,
    script: &str,
    steps: &[&str],
    expected: &str,
) -> Result<(), Fail> {
    let mut recorded = recorded(rt, alloc, script.as_bytes())?;
    let mut found = String::new(alloc);
    write_all(rt, alloc, &mut recorded, steps, &mut found)?;
    same(rt, &found.as_str(), &expected);
    Ok(())
}

/// The same of all syncs that a script makes.
fn write_all(
    rt: &(impl Threads + Sync),
    alloc: Global,
    recorded: &mut Recorded,
    steps: &[&str],
    found: &mut String,
) -> Result<(), Fail> {
    let syncs = syncs_of(rt, alloc, recorded)?;
    write_each(rt, recorded, syncs.as_slice(), steps, found)
}

/// The steps of an append, of a rotation and of an install.
const OF_ROTATION: [&str; 6] = [
    "body",
    "open",
    "rotate-write",
    "install-close",
    "install-body",
    "install-open",
];

const ROTATED: &str = "without sync 1 of body: failed 3, opening it is refused 54 2
without sync 1 of open: failed 5, its mark is 0, and 2 was acknowledged
without sync 1 of rotate-write: failed 12, opening it is refused 54 3
without sync 1 of install-body: failed 12, opening it is refused 54 1
without sync 1 of install-open: failed 18, its mark is 2, and 4 was acknowledged
";

#[test]
fn a_sync_forgotten_by_a_rotation_is_found(rt: HostRuntime) -> Result<(), Fail> {
    assert_found(&rt, rt.alloc(), ROTATION, &OF_ROTATION, ROTATED)
}

const CHECKED: &str = "without sync 1 of checkpoint-data: failed 28, opening it is refused 54 4
without sync 1 of checkpoint-delta: failed 28, opening it is refused 54 5
without sync 1 of install-close: failed 26, opening it is refused 54 0
without sync 2 of checkpoint-delta: failed 61, opening it is refused 54 5
";

#[test]
fn a_sync_forgotten_by_a_checkpoint_is_found(rt: HostRuntime) -> Result<(), Fail> {
    let steps = ["install-close", "checkpoint-data", "checkpoint-delta"];
    assert_found(&rt, rt.alloc(), CHECKPOINTS, &steps, CHECKED)
}

const MERGED: &str = "without sync 1 of merge-data: failed 85, opening it is refused 54 3
without sync 1 of merge-delta: failed 85, opening it is refused 54 8
";

#[test]
fn a_sync_forgotten_by_a_merge_is_found(rt: HostRuntime) -> Result<(), Fail> {
    assert_found(
        &rt,
        rt.alloc(),
        MERGE,
        &["merge-data", "merge-delta"],
        MERGED,
    )
}

#[test]
fn nothing_rests_on_the_sync_of_a_reclaim(rt: HostRuntime) -> Result<(), Fail> {
    assert_found(
        &rt,
        rt.alloc(),
        MERGE,
        &["reclaim"],
        "without sync 1 of reclaim: ok\n",
    )
}
