//! What a kept run does is looked at, stop by stop: its chores are written out as the lines that do
//! them, behind its own.
use crate::equal::{holds, same};
use crate::stops::looked_at::recorded;
use mvo_disk::MemDisk;
use mvo_keep::{Chore, Keeper, Policy};
use mvo_script::Driver;
use mvo_stops::{Quiet, check_stops, lines_of};
use mvo_store::{Due, InstallStep, StoreCall};
use std::alloc::{AllocError, Global};
use std::io::Write;
use std::test::Fail;
use std::thread::Threads;

/// With a segment of some 40 bytes it is full.
fn policy() -> Policy {
    Policy {
        many_pairs: 48,
        full_segment: 40,
        most_live: 4_194_304,
        many_dead: 65_536,
        collected: 2,
        in_a_row: 16,
    }
}

/// The words of a call.
fn words_of(call: StoreCall) -> &'static str {
    match call {
        StoreCall::AppendBody => "body",
        StoreCall::AppendOpen => "open",
        StoreCall::RotateWrite => "rotate-write",
        StoreCall::CheckpointRead => "checkpoint-read",
        StoreCall::MergeRead(_) => "merge-read",
        StoreCall::Reclaim => "reclaim",
        StoreCall::Step(Due::Data) => "checkpoint-data",
        StoreCall::Step(Due::Delta) => "checkpoint-delta",
        StoreCall::Step(Due::MergeData) => "merge-data",
        StoreCall::Step(Due::MergeDelta) => "merge-delta",
        StoreCall::Step(Due::Install(InstallStep::Close)) => "install-close",
        StoreCall::Step(Due::Install(InstallStep::Body)) => "install-body",
        StoreCall::Step(Due::Install(InstallStep::Open)) => "install-open",
    }
}

/// Writes the lines that do a chore. One `collect` more than there is garbage does nothing.
fn push_chore(lines: &mut Vec<u8>, chore: Chore) -> Result<(), Fail> {
    match chore {
        Chore::Flush => writeln!(lines, "flush")?,
        Chore::Merge(place) => writeln!(lines, "merge-read {place}")?,
        Chore::Trim(upto) => writeln!(lines, "trim {upto}")?,
        Chore::Collect(most) => {
            for _ in 0..most {
                writeln!(lines, "collect")?;
            }
        }
        Chore::Step(call) => writeln!(lines, "{}", words_of(call))?,
        Chore::Reclaim => writeln!(lines, "reclaim")?,
        Chore::Checkpoint => writeln!(lines, "checkpoint-read")?,
        Chore::Rotate => writeln!(lines, "rotate-write")?,
    }
    Ok(())
}

/// Makes a turn, and writes its chore out. Whether there was one.
fn turn(
    driver: &mut Driver<MemDisk>,
    keeper: &mut Keeper,
    lines: &mut Vec<u8>,
) -> Result<bool, Fail> {
    match driver.keep(&policy(), keeper)? {
        Some(chore) => {
            push_chore(lines, chore)?;
            Ok(true)
        }
        None => Ok(false),
    }
}

/// Answers the lines, and makes turns until nothing is due any more. Answers the lines with those
/// of the chores behind them.
fn written_out(rt: &(impl Threads + Sync), alloc: Global, script: &[u8]) -> Result<Vec<u8>, Fail> {
    let mut driver = Driver::new(rt, alloc, 7)?;
    let mut keeper = Keeper::new();
    let mut lines = script.to_vec(alloc)?;
    for line in lines_of(alloc, script)? {
        driver.answer(&line);
    }
    let mut idle = 0_u64;
    for _ in 0..1_000 {
        if turn(&mut driver, &mut keeper, &mut lines)? {
            idle = 0;
        } else {
            idle = idle.saturating_add(1);
        }
        if idle == 2 {
            break;
        }
    }
    Ok(lines)
}

/// How often the lines have such a line.
fn count(alloc: Global, lines: &[u8], line: &[u8]) -> Result<usize, AllocError> {
    let all = lines_of(alloc, lines)?;
    Ok(all.iter().filter(|one| one.as_slice() == line).count())
}

/// A row that is put, and replaced.
const SCRIPT: &[u8] =
    b"begin a\ninsert a 0 1 1 61\ncommit a\nbegin b\nupdate b 0 1 1 63\ncommit b\n";

#[test]
fn stops_of_a_kept_run_leave_what_was_promised(rt: HostRuntime) -> Result<(), Fail> {
    let alloc = rt.alloc();
    let lines = written_out(&rt, alloc, SCRIPT)?;
    // Its log becomes a pair, and what was overwritten leaves memory.
    for line in [
        "flush",
        "rotate-write",
        "checkpoint-read",
        "install-open",
        "reclaim",
        "trim 4",
        "collect",
    ] {
        holds(&rt, count(alloc, &lines, line.as_bytes())? > 0);
    }
    let report = check_stops(&rt, &recorded(&rt, alloc, &lines)?, &mut Quiet)?;
    same(&rt, &report.failed, &None);
    holds(&rt, report.counts.images > 0);
    Ok(())
}
