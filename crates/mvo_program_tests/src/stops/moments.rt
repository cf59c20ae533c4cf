//! Each moment is looked at where a store goes on behind a fault, and each opening there is judged.
use crate::disks::opened;
use crate::equal::same;
use crate::stops::looked_at::is_ok;
use mvo_disk::MemDisk;
use mvo_script::Driver;
use mvo_stops::{
    Failed, Look, Quiet, Recorded, ScriptStart, When, Which, Wrong, check_stops, lines_of,
};
use mvo_store::Store;
use mvo_types::Refusal;
use std::alloc::{AllocError, Global};
use std::test::Fail;
use std::thread::Threads;

/// File 2 is left, which no manifest names.
const LEAVES_A_FILE: &[u8] =
    b"begin t1\ninsert t1 0 5 50 61\ncommit t1\nflush\nrotate\ncheckpoint\n";

/// The disk behind a script over a new store.
fn disk_behind(rt: &(impl Threads + Sync), alloc: Global, script: &[u8]) -> Result<MemDisk, Fail> {
    let disk = ScriptStart::formatted(alloc)?.disk()?;
    let mut driver = Driver::over(alloc, opened(rt, alloc, 7, disk)?);
    answer_all(alloc, &mut driver, script)?;
    Ok(driver.into_world().into_disk())
}

fn answer_all(
    alloc: Global,
    driver: &mut Driver<MemDisk>,
    script: &[u8],
) -> Result<(), AllocError> {
    let lines = lines_of(alloc, script)?;
    for line in lines.iter() {
        driver.answer(line);
    }
    Ok(())
}

/// How many calls an opening makes.
fn opening_calls(
    rt: &(impl Threads + Sync),
    alloc: Global,
    start: &ScriptStart,
) -> Result<u64, Fail> {
    match Store::open(rt, alloc, 7, start.disk()?) {
        Ok((store, _, _)) => Ok(store.into_disk().calls().len() as u64),
        Err((refusal, _)) => Err(Fail::from(refusal)),
    }
}

/// What that script leaves.
fn left(rt: &(impl Threads + Sync), alloc: Global) -> Result<ScriptStart, Fail> {
    Ok(ScriptStart::of(alloc, &disk_behind(rt, alloc, LEAVES_A_FILE)?)?)
}

/// A reclaim over such a disk, by a store that goes on behind a fault: it asks the file's length,
/// cuts it and syncs it.
fn reclaimed(
    rt: &(impl Threads + Sync),
    alloc: Global,
    start: ScriptStart,
) -> Result<Recorded, Fail> {
    let mut recorded = Recorded::of(rt, alloc, 7, start, lines_of(alloc, b"reclaim\n")?)?;
    recorded.forget_faults();
    Ok(recorded)
}

// Whatever is made of a reclaim, nothing is wrong. Where a store goes on behind a fault, what a
// stop leaves there is opened and compared as behind any other call, and so is the disk as it
// stands, here with the calls of an opening over a pair. That makes of
//
// - the length 1 image, then 1 disk with 1 image; and behind it 1 image, and 1 disk with 1;
// - the cut 1 and 5 images, then 1 disk with 1 image and 1 with 5; and behind each of these two 1
//   image, and 1 disk with 1;
// - its sync 5 images and 1 disk with 5, and 1 image at the script's end;
// - each of the three 1 disk more, where it failed and the rest of the script ran.
//
// So there are 16 images of stops, 7 disks as they stand with 15 images, and 3 disks.
#[test]
fn what_goes_on_after_a_fault_is_looked_at(rt: HostRuntime) -> Result<(), Fail> {
    let alloc = rt.alloc();
    let start = left(&rt, alloc)?;
    let calls = opening_calls(&rt, alloc, &start)?;
    let report = is_ok(&rt, &reclaimed(&rt, alloc, start)?, 3)?;
    let images = calls
        .saturating_mul(16 * 2 + 7 + 15)
        .saturating_add(16 + 7 + 15 + 3);
    same(&rt, &report.counts.images, &images);
    let more = calls.saturating_mul(16 * 2 + 7 + 15).saturating_add(15);
    same(&rt, &report.counts.openings, &images.saturating_add(more));
    Ok(())
}

/// The first call of the reclaim that has such a moment.
fn first_call(when: When) -> u64 {
    match when {
        When::StopBefore
        | When::FaultIdle
        | When::FaultPassed
        | When::StopBehindFault
        | When::FaultAtEnd => 1,
        // Nothing of another call but the cut may be done in part.
        When::StopWithin | When::FaultInPart => 2,
        When::StopAtEnd => 3,
    }
}

/// Whether what is left at such a moment is opened so.
fn has(when: When, which: Which) -> bool {
    match when {
        When::StopBefore | When::StopWithin | When::StopBehindFault | When::StopAtEnd => {
            !matches!(which, Which::Again | Which::BehindStop)
        }
        When::FaultIdle | When::FaultInPart | When::FaultPassed => true,
        When::FaultAtEnd => matches!(which, Which::First),
    }
}

// The store refuses just the openings of one look: no one stands for another.
#[test]
fn an_opening_that_is_refused_is_found_at_each_moment(rt: HostRuntime) -> Result<(), Fail> {
    let alloc = rt.alloc();
    let mut recorded = reclaimed(&rt, alloc, left(&rt, alloc)?)?;
    let mut other = String::new(alloc);
    refuse_all(&rt, &mut recorded, &mut other)?;
    same(&rt, &other.as_str(), &"");
    recorded.forget_none();
    is_ok(&rt, &recorded, 3)?;
    Ok(())
}

/// Writes each look whose refused openings aren't found as they are to be.
fn refuse_all(
    rt: &(impl Threads + Sync),
    recorded: &mut Recorded,
    other: &mut String,
) -> Result<(), Fail> {
    for when in When::ALL {
        for which in Which::ALL {
            refuse(rt, recorded, when, which, other)?;
        }
    }
    Ok(())
}

fn refuse(
    rt: &(impl Threads + Sync),
    recorded: &mut Recorded,
    when: When,
    which: Which,
    other: &mut String,
) -> Result<(), Fail> {
    recorded.refuse(Look(when, which));
    let refused = Failed {
        call: first_call(when),
        wrong: Wrong::NotOpened(Refusal::NotFormatted),
    };
    let found = check_stops(rt, recorded, &mut Quiet)?.failed;
    if found != has(when, which).then_some(refused) {
        writeln!(other, "{when:?} {which:?}")?;
    }
    Ok(())
}
