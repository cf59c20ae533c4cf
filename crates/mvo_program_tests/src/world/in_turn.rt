//! Opens the same disks in threads and in the calling thread alone: both answer the same.

use crate::disks::{formatted, opened};
use crate::equal::{holds, same};
use mvo_disk::{Disk, MemDisk};
use mvo_script::Driver;
use mvo_stops::lines_of;
use mvo_types::Refusal;
use mvo_world::World;
use std::alloc::Global;
use std::process::Abort;
use std::test::Fail;
use std::thread::Threads;

/// A row that is put and replaced, in two pairs that become one: slot 1, segment 2, and a pair of
/// the files 3 and 8.
const SCRIPT: &[u8] = b"begin a\ninsert a 0 5 50 61\ncommit a\nflush\nrotate\ncheckpoint\n\
    begin b\nupdate b 0 5 50 62\ncommit b\nflush\nrotate\ncheckpoint\nmerge 0";

const ALL: usize = 100;

/// A byte that is put at the start of a file, and what is answered then: by a begin and scans, or
/// by the opening, which is refused.
type Case = (Option<(u16, u8)>, &'static str);

const CASES: [Case; 5] = [
    (None, "began 5, rows 1 5:50:62, rows 0"),
    (Some((2, 0)), "refused 54 2"),
    (Some((3, 0)), "refused 54 3"),
    (Some((8, 0)), "refused 54 8"),
    // The slot is closed: the other one counts, with the two pairs that were merged.
    (Some((1, 7)), "began 5, rows 1 5:50:62, rows 0"),
];

/// Rows of two tables that are put, replaced and deleted beside each step of a rotation, of
/// checkpoints and of a merge.
const STEPS: &[u8] = b"begin a\ninsert a 0 5 50 61\ninsert a 1 6 60 62\ncommit a\nflush\nrotate\n\
    checkpoint\nbegin b\nupdate b 0 5 50 62\ninsert b 0 7 70 -\ncommit b\ngroup\ntake\nbody\nopen\n\
    rotate-write\ninstall-close\ninstall-body\ninstall-open\ncheckpoint-read\ncheckpoint-data\n\
    checkpoint-delta\ncheckpoint-delta\ninstall-close\ninstall-body\ninstall-open\nreclaim\n\
    merge-read 0\nbegin c\ndelete c 1 6\nupdate c 0 7 71 63\ncommit c\ngroup\ntake\nmerge-data\n\
    body\nopen\nmerge-delta\ninstall-close\ninstall-body\ninstall-open\nreclaim\nreclaim\nrotate\n\
    begin d\ninsert d 1 6 61 64\ncommit d\nflush\nrotate\ncheckpoint\ncheckpoint";

/// How many they are.
const STEP_COUNT: usize = 51;

/// The disk behind the first lines of a script.
fn written(
    rt: &(impl Threads + Sync),
    alloc: Global,
    script: &[u8],
    count: usize,
) -> Result<MemDisk, Fail> {
    let lines = lines_of(alloc, script)?;
    let mut driver = Driver::over(alloc, opened(rt, alloc, 7, formatted(alloc)?)?);
    for line in lines.iter().take(count) {
        driver.answer(line);
    }
    Ok(driver.into_world().into_disk())
}

/// Puts the byte at the start of the file.
fn put(disk: &mut MemDisk, file: u16, byte: u8) -> Result<(), Fail> {
    if file > 8 || disk.faults() != 0 {
        return Err(Fail::from("a file, and no fault"));
    }
    disk.write_at(file, 0, &[byte])?;
    Ok(())
}

/// The disk behind the script, with this change.
fn changed(
    rt: &(impl Threads + Sync),
    alloc: Global,
    change: Option<(u16, u8)>,
) -> Result<MemDisk, Fail> {
    let mut disk = written(rt, alloc, SCRIPT, ALL)?;
    if let Some((file, byte)) = change {
        put(&mut disk, file, byte)?;
    }
    Ok(disk)
}

/// What the lines are answered over the world.
fn asked(alloc: Global, world: World<MemDisk>) -> Result<String, Fail> {
    let mut driver = Driver::over(alloc, world);
    let begun = driver.answer(b"begin t");
    let first = driver.answer(b"scan t 0 0 100");
    let second = driver.answer(b"scan t 1 0 100");
    let _ = driver.into_world().into_disk();
    Ok(format!(in alloc; "{begun}, {first}, {second}")?)
}

/// What is answered, as such a text.
fn line_of(
    alloc: Global,
    opened: Result<World<MemDisk>, (Refusal, MemDisk)>,
) -> Result<String, Fail> {
    match opened {
        Ok(world) => asked(alloc, world),
        Err((refusal, _)) => Ok(format!(in alloc; "{refusal}")?),
    }
}

fn in_threads(rt: &(impl Threads + Sync), alloc: Global, disk: MemDisk) -> Result<String, Fail> {
    line_of(alloc, World::open(rt, alloc, 7, disk))
}

fn in_turn(alloc: Global, disk: MemDisk) -> Result<String, Fail> {
    line_of(alloc, World::open_in_turn(alloc, 7, disk))
}

/// The changed disk is opened so in threads, and in the calling thread.
fn says(
    rt: &(impl Abort + Threads + Sync),
    alloc: Global,
    change: Option<(u16, u8)>,
    line: &str,
) -> Result<(), Fail> {
    let found = in_threads(rt, alloc, changed(rt, alloc, change)?)?;
    same(rt, &found.as_str(), &line);
    let found = in_turn(alloc, changed(rt, alloc, change)?)?;
    same(rt, &found.as_str(), &line);
    Ok(())
}

#[test]
fn worlds_open_alike_in_turn(rt: HostRuntime) -> Result<(), Fail> {
    let alloc = rt.alloc();
    for (change, line) in CASES {
        says(&rt, alloc, change, line)?;
    }
    Ok(())
}

/// The disk behind so many of the steps is opened alike. What is found there.
fn are_alike(
    rt: &(impl Abort + Threads + Sync),
    alloc: Global,
    count: usize,
) -> Result<String, Fail> {
    let found = in_threads(rt, alloc, written(rt, alloc, STEPS, count)?)?;
    let wanted = in_turn(alloc, written(rt, alloc, STEPS, count)?)?;
    same(rt, &found.as_str(), &wanted.as_str());
    Ok(found)
}

#[test]
fn worlds_open_alike_behind_each_step(rt: HostRuntime) -> Result<(), Fail> {
    let alloc = rt.alloc();
    for count in 0..STEP_COUNT {
        are_alike(&rt, alloc, count)?;
    }
    let last = are_alike(&rt, alloc, STEP_COUNT)?;
    holds(&rt, lines_of(alloc, STEPS)?.len() == STEP_COUNT);
    same(
        &rt,
        &last.as_str(),
        &"began 9, rows 2 5:50:62 7:71:63, rows 1 6:61:64",
    );
    Ok(())
}
