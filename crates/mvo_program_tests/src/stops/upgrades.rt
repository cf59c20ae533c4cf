//! Stops and faults of scripts that carry a folder of version 1 over.
use crate::disks::opened;
use crate::equal::{holds, same};
use mvo_disk::{Disk, FILE_COUNT, MemDisk, rewrite_synced};
use mvo_script::{Driver, LineReply};
use mvo_stops::{Quiet, Recorded, ScriptStart, check_stops, lines_of};
use mvo_world::Reply;
use std::alloc::{AllocError, Global};
use std::process::Abort;
use std::test::Fail;
use std::thread::Threads;

/// A new store: its files, in hexadecimal digits.
const FRESH: [(u16, &str); 3] = [
    (
        0,
        "a5 1e000000 4d564f4d 01000000 0000000000000000 0000000000000000 0000 0100 0200",
    ),
    (1, "00"),
    (2, "4d564f4c 01000000 00"),
];

/// A pair of one record, and a segment without groups.
const CHECKPOINTED: [(u16, &str); 6] = [
    (
        0,
        "a5 3a000000 4d564f4d 01000000 0200000000000000 0200000000000000 \
        0100 0400 0500 0000000000000000 0200000000000000 01000000 00000000 0100 0300",
    ),
    (
        1,
        "a5 20000000 4d564f4d 01000000 0100000000000000 0000000000000000 0000 0200 0200 0300",
    ),
    (
        2,
        "4d564f4c 01000000 a5 31000000 0000000000000000 0200000000000000 \
        0100 0200000000000000 0100 01 00 0500000000000000 3200000000000000 0100 61 00",
    ),
    (3, "4d564f4c 01000000 00"),
    (
        4,
        "4d564f44 01000000 0200000000000000 00 0500000000000000 3200000000000000 0100 61",
    ),
    (5, "4d564f45 01000000"),
];

/// Two tables, two pairs of which one has an entry, two segments with a group each, and behind the
/// last one a body that was abandoned.
const WORKED: [(u16, &str); 8] = [
    (
        0,
        "a5 56000000 4d564f4d 01000000 0400000000000000 0400000000000000 \
        0200 0500 0600 0000000000000000 0200000000000000 03000000 01000000 \
        0200 0700 0200000000000000 0400000000000000 02000000 00000000 0100 0400",
    ),
    (
        1,
        "a5 58000000 4d564f4d 01000000 0500000000000000 0400000000000000 \
        0200 0500 0600 0000000000000000 0200000000000000 03000000 01000000 \
        0200 0700 0200000000000000 0400000000000000 02000000 00000000 0200 0400 0300",
    ),
    (
        2,
        "4d564f44 01000000 0400000000000000 00 0100000000000000 0b00000000000000 0100 63 \
        0400000000000000 0f 0200000000000000 2800000000000000 0100 64",
    ),
    (
        3,
        "4d564f4c 01000000 a5 31000000 0600000000000000 0800000000000000 \
        0100 0800000000000000 0100 01 0f 0300000000000000 3c00000000000000 0100 66 00 \
        31000000 0800000000000000 0a00000000000000 \
        0100 0a00000000000000 0100 01 00 0400000000000000 4600000000000000 0100 67 00",
    ),
    (
        4,
        "4d564f4c 01000000 a5 3b000000 0400000000000000 0600000000000000 \
        0100 0600000000000000 0200 02 00 0200000000000000 \
        01 00 0300000000000000 3200000000000000 0100 65 00",
    ),
    (
        5,
        "4d564f44 01000000 0200000000000000 00 0100000000000000 0a00000000000000 0100 61 \
        0200000000000000 00 0200000000000000 1400000000000000 0200 6262 \
        0200000000000000 0f 0100000000000000 1e00000000000000 0000",
    ),
    (6, "4d564f45 01000000 00000000"),
    (7, "4d564f45 01000000"),
];

/// Puts a file on a disk.
fn put(alloc: Global, disk: &mut MemDisk, file: u16, text: &str) -> Result<(), Fail> {
    if file >= FILE_COUNT || disk.faults() > 0 {
        return Err(Fail::from("no such file, or a fault"));
    }
    let mut bytes = Vec::new(alloc);
    push_decoded(alloc, &mut bytes, text)?;
    rewrite_synced(disk, file, &bytes)?;
    Ok(())
}

fn push_decoded(alloc: Global, bytes: &mut Vec<u8>, text: &str) -> Result<(), Fail> {
    for word in text.split(' ') {
        bytes.extend_from_slice(&hex::decode(alloc, word)?)?;
    }
    Ok(())
}

fn start_of(alloc: Global, files: &[(u16, &str)]) -> Result<ScriptStart, Fail> {
    let mut disk = MemDisk::new(alloc)?;
    for (file, text) in files {
        put(alloc, &mut disk, *file, text)?;
    }
    Ok(ScriptStart::of(alloc, &disk)?)
}

/// Whether a line is refused, or is none of a script.
fn is_refused(reply: &LineReply) -> bool {
    matches!(
        reply,
        LineReply::BadLine | LineReply::Answered(Reply::Refused(_))
    )
}

/// What a script leaves of a start, and how many of its lines are refused.
fn behind(
    rt: &(impl Threads + Sync),
    alloc: Global,
    start: &ScriptStart,
    script: &str,
) -> Result<(ScriptStart, u64), Fail> {
    let mut driver = Driver::over(alloc, opened(rt, alloc, 7, start.disk()?)?);
    let refused = count_refused(alloc, &mut driver, script)?;
    let disk = driver.into_world().into_disk();
    Ok((ScriptStart::of(alloc, &disk)?, refused))
}

/// Answers the lines, and counts those that are refused.
fn count_refused(
    alloc: Global,
    driver: &mut Driver<MemDisk>,
    script: &str,
) -> Result<u64, AllocError> {
    let lines = lines_of(alloc, script.as_bytes())?;
    let mut refused = 0u64;
    for line in lines.iter() {
        if is_refused(&driver.answer(line)) {
            refused = refused.saturating_add(1);
        }
    }
    Ok(refused)
}

/// Looks whether stops and faults leave of a script over a start what was promised, and whether so
/// many of its lines are refused. Answers what the script leaves.
fn is_ok_over(
    rt: &(impl Abort + Threads + Sync),
    alloc: Global,
    start: ScriptStart,
    script: &str,
    refused: u64,
) -> Result<ScriptStart, Fail> {
    let (left, were_refused) = behind(rt, alloc, &start, script)?;
    same(rt, &were_refused, &refused);
    are_ok(rt, alloc, start, script)?;
    Ok(left)
}

/// Stops and faults of the script leave what was promised.
fn are_ok(
    rt: &(impl Abort + Threads + Sync),
    alloc: Global,
    start: ScriptStart,
    script: &str,
) -> Result<(), Fail> {
    let lines = lines_of(alloc, script.as_bytes())?;
    let recorded = Recorded::of(rt, alloc, 7, start, lines)?;
    let report = check_stops(rt, &recorded, &mut Quiet)?;
    same(rt, &report.failed, &None);
    same(rt, &report.counts.calls, &(recorded.calls().len() as u64));
    Ok(())
}

/// Each script over what the one before it leaves, with how many of its lines are refused; and what
/// the last one leaves.
fn steps_are_ok(
    rt: &(impl Abort + Threads + Sync),
    alloc: Global,
    files: &[(u16, &str)],
    scripts: &[(&str, u64)],
) -> Result<ScriptStart, Fail> {
    let mut start = start_of(alloc, files)?;
    for (script, refused) in scripts {
        start = is_ok_over(rt, alloc, start, script, *refused)?;
    }
    Ok(start)
}

/// Whether each file but the slots is of version 2, or has no bytes.
fn are_new(start: &ScriptStart) -> bool {
    for file in 2..FILE_COUNT {
        if let Some(version) = start.bytes(file).get(4..8) {
            if version != [2, 0, 0, 0].as_slice() {
                return false;
            }
        }
    }
    true
}

/// The mark that a start is opened with.
fn mark_of(rt: &(impl Threads + Sync), alloc: Global, start: &ScriptStart) -> Result<u64, Fail> {
    Ok(opened(rt, alloc, 7, start.disk()?)?.mark().0)
}

// The empty segment 2 of version 1 makes room for segment 3 of version 2.
const FROM_NEW: [(&str, u64); 2] = [
    ("begin t1\ninsert t1 20 5 50 61\ncommit t1\nflush\n", 0),
    ("reclaim\nreclaim\n", 0),
];

// The merge leaves the pair 2 and 8 alone.
const FROM_A_PAIR: [(&str, u64); 5] = [
    ("begin t2\nupdate t2 0 5 50 62\ncommit t2\nflush\n", 0),
    ("rotate\n", 0),
    ("checkpoint\n", 0),
    ("merge 0\n", 0),
    ("reclaim\nreclaim\nreclaim\nreclaim\nreclaim\n", 0),
];

/// The way of a folder at work to no old file. A fourth checkpoint has no segment to read.
const AT_WORK: [(&str, u64); 9] = [
    ("flush\n", 0),
    ("begin t1\ninsert t1 63 9 1 61\ncommit t1\nflush\n", 0),
    ("rotate\n", 0),
    ("checkpoint\n", 0),
    ("checkpoint\n", 0),
    ("checkpoint\ncheckpoint\n", 1),
    ("merge 0\n", 0),
    ("merge 0\nmerge 0\nmerge 0\n", 0),
    (
        "reclaim\nreclaim\nreclaim\nreclaim\nreclaim\nreclaim\nreclaim\nreclaim\nreclaim\nreclaim\n\
        reclaim\n",
        0,
    ),
];

// Each step from a new store, from a pair and from a folder at work, until no file is old.
#[test]
fn the_steps_of_old_folders_are_ok(rt: HostRuntime) -> Result<(), Fail> {
    carry_over(&rt, rt.alloc(), &FRESH, &FROM_NEW, 2)?;
    carry_over(&rt, rt.alloc(), &CHECKPOINTED, &FROM_A_PAIR, 4)?;
    carry_over(&rt, rt.alloc(), &WORKED, &AT_WORK, 10)
}

/// The steps are ok, and leave no old file, and the mark.
fn carry_over(
    rt: &(impl Abort + Threads + Sync),
    alloc: Global,
    files: &[(u16, &str)],
    scripts: &[(&str, u64)],
    mark: u64,
) -> Result<(), Fail> {
    let left = steps_are_ok(rt, alloc, files, scripts)?;
    holds(rt, are_new(&left));
    let left_mark = mark_of(rt, alloc, &left)?;
    same(rt, &left_mark, &mark);
    Ok(())
}
