//! Which step of a line meets a fault of the disk.
use crate::error::StopsError;
use crate::recorded::Recorded;
use crate::run::is_fault;
use mvo_disk::Disk;
use mvo_script::{Driver, Line, LineReply};
use mvo_store::Progress;
use mvo_types::{MAX_PAIRS, RING_GROUPS, Refusal};
use mvo_world::Reply;
use std::alloc::{AllocError, Global};
use std::thread::Threads;

const ROTATION: [&str; 4] = [
    "rotate-write",
    "install-close",
    "install-body",
    "install-open",
];

const CHECKPOINT: [&str; 6] = [
    "checkpoint-read",
    "checkpoint-data",
    "checkpoint-delta",
    "install-close",
    "install-body",
    "install-open",
];

const BEHIND_MERGE_READ: [&str; 5] = [
    "merge-data",
    "merge-delta",
    "install-close",
    "install-body",
    "install-open",
];

/// The line that makes the call of this number, from 1, both counted from 1, and of a shorthand the
/// step that makes it. None where there is no such call.
pub fn line_of(
    rt: &(impl Threads + Sync),
    recorded: &Recorded,
    number: usize,
) -> Result<Option<(usize, Option<&'static str>)>, StopsError> {
    let place = number.wrapping_sub(1);
    let (_, fault) = recorded.run_failing(rt, place)?.into_history();
    match fault {
        Some(line) => {
            let step = step_of(rt, recorded, place, line)?;
            Ok(Some((line.saturating_add(1), step)))
        }
        None => Ok(None),
    }
}

/// The step of a line at which the call at this place is made, all from 0. None where the line is
/// a step itself.
pub fn step_of(
    rt: &(impl Threads + Sync),
    recorded: &Recorded,
    place: usize,
    line: usize,
) -> Result<Option<&'static str>, StopsError> {
    let mut driver = recorded.driver_failing(rt, place)?;
    for bytes in recorded.lines.iter().take(line) {
        driver.answer(bytes);
    }
    match recorded.lines.get(line) {
        Some(bytes) => Ok(step_at_fault(recorded.alloc, &mut driver, bytes)?),
        None => Ok(None),
    }
}

/// The step of a shorthand at which the disk meets a fault: the line that makes this step alone.
/// None for another line.
fn step_at_fault<D: Disk>(
    alloc: Global,
    driver: &mut Driver<D>,
    line: &[u8],
) -> Result<Option<&'static str>, AllocError> {
    match Line::parse(line) {
        Some(Line::Flush) => Ok(flush_step(driver)),
        Some(Line::Rotate) => Ok(first_fault(driver, &ROTATION)),
        Some(Line::Checkpoint) => Ok(first_fault(driver, &CHECKPOINT)),
        Some(Line::Merge(place)) => merge_step(alloc, driver, place),
        _ => Ok(None),
    }
}

/// The first of these steps that meets a fault.
fn first_fault<D: Disk>(driver: &mut Driver<D>, steps: &[&'static str]) -> Option<&'static str> {
    for step in steps {
        if meets_fault(driver, step) {
            return Some(*step);
        }
    }
    None
}

/// Whether a step meets a fault, which is made again while it has more to do.
fn meets_fault<D: Disk>(driver: &mut Driver<D>, step: &str) -> bool {
    for _ in 0..=MAX_PAIRS {
        match driver.answer(step.as_bytes()) {
            LineReply::Answered(Reply::Progress(Progress::More)) => {}
            reply => return is_fault(&reply),
        }
    }
    false
}

fn merge_step<D: Disk>(
    alloc: Global,
    driver: &mut Driver<D>,
    place: usize,
) -> Result<Option<&'static str>, AllocError> {
    let read = format!(in alloc; "merge-read {place}")?;
    if meets_fault(driver, &read) {
        return Ok(Some("merge-read"));
    }
    Ok(first_fault(driver, &BEHIND_MERGE_READ))
}

fn flush_step<D: Disk>(driver: &mut Driver<D>) -> Option<&'static str> {
    driver.answer(b"group");
    for _ in 0..=RING_GROUPS {
        driver.answer(b"take");
        if let Some(step) = append_step(driver) {
            return Some(step);
        }
    }
    None
}

/// Whether the segment is full for the group, or of an older version.
fn needs_rotation(reply: &LineReply) -> bool {
    matches!(
        reply,
        LineReply::Answered(Reply::Refused(Refusal::SegmentFull | Refusal::OldSegment))
    )
}

/// The step of an append that meets a fault. Where the segment is full or old, the log is rotated
/// first.
fn append_step<D: Disk>(driver: &mut Driver<D>) -> Option<&'static str> {
    let reply = driver.answer(b"body");
    if is_fault(&reply) {
        return Some("body");
    }
    if needs_rotation(&reply) {
        if let Some(step) = first_fault(driver, &ROTATION) {
            return Some(step);
        }
        if meets_fault(driver, "body") {
            return Some("body");
        }
    }
    if meets_fault(driver, "open") {
        Some("open")
    } else {
        None
    }
}
