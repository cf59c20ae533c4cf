//! What is found of a script.
use crate::equal::{holds, same};
use mvo_stops::{Failed, Quiet, Recorded, Report, ScriptStart, Wrong, check_stops, lines_of};
use mvo_types::{Refusal, Stamp};
use std::alloc::Global;
use std::process::Abort;
use std::test::Fail;
use std::thread::Threads;

/// A row is put and made durable.
const FLUSHED: &[u8] = b"begin t1\ninsert t1 0 5 50 61\ncommit t1\nflush\n";

/// The calls of a script over a new store.
pub fn recorded(
    rt: &(impl Threads + Sync),
    alloc: Global,
    script: &[u8],
) -> Result<Recorded, Fail> {
    let lines = lines_of(alloc, script)?;
    Ok(Recorded::of(rt, alloc, 7, ScriptStart::formatted(alloc)?, lines)?)
}

/// Whether a script makes so many calls, and stops and faults leave what was promised.
pub fn is_ok(
    rt: &(impl Abort + Threads + Sync),
    recorded: &Recorded,
    calls: u64,
) -> Result<Report, Fail> {
    let report = check_stops(rt, recorded, &mut Quiet)?;
    same(rt, &report.failed, &None);
    same(rt, &report.counts.calls, &calls);
    Ok(report)
}

/// What is found where the sync of this number is forgotten.
fn without(
    rt: &(impl Abort + Threads + Sync),
    recorded: &mut Recorded,
    number: usize,
) -> Result<Option<Failed>, Fail> {
    recorded.forget_none();
    holds(rt, recorded.forget_sync(number)?);
    Ok(check_stops(rt, recorded, &mut Quiet)?.failed)
}

// An opening that trusts an open gate before it is durable answers a mark that a stop takes back. A
// write of the gate that fails may leave it open.
#[test]
fn an_opening_that_forgets_its_syncs_is_found(rt: HostRuntime) -> Result<(), Fail> {
    let mut recorded = recorded(&rt, rt.alloc(), FLUSHED)?;
    recorded.forget_openings();
    let trusted = Failed {
        call: 3,
        wrong: Wrong::MarkTooLow {
            mark: Stamp(0),
            acknowledged: Stamp(2),
        },
    };
    is_found(&rt, &mut recorded, trusted)
}

/// What was made of the calls is found so, and nothing is wrong without it.
fn is_found(
    rt: &(impl Abort + Threads + Sync),
    recorded: &mut Recorded,
    failed: Failed,
) -> Result<(), Fail> {
    let found = check_stops(rt, recorded, &mut Quiet)?.failed;
    same(rt, &found, &Some(failed));
    recorded.forget_none();
    is_ok(rt, recorded, 4)?;
    Ok(())
}

// A store that goes on opens the gate though the write of the body failed. At the fault nothing is
// wrong there: it is behind the rest of the script.
#[test]
fn a_store_that_goes_on_after_a_fault_is_found(rt: HostRuntime) -> Result<(), Fail> {
    let mut recorded = recorded(&rt, rt.alloc(), FLUSHED)?;
    recorded.forget_faults();
    let opened = Failed {
        call: 1,
        wrong: Wrong::NotOpened(Refusal::Corrupt(2)),
    };
    is_found(&rt, &mut recorded, opened)
}

// Without the body's sync a stop within the gate's write may leave an open gate before no group.
// Without the gate's the mark that was answered may be gone at the end.
#[test]
fn a_forgotten_sync_is_found(rt: HostRuntime) -> Result<(), Fail> {
    let mut recorded = recorded(&rt, rt.alloc(), FLUSHED)?;
    forgets_no_other(&rt, &mut recorded)?;
    let body = Failed {
        call: 3,
        wrong: Wrong::NotOpened(Refusal::Corrupt(2)),
    };
    is_found_without(&rt, &mut recorded, 2, body)?;
    let gate = Failed {
        call: 4,
        wrong: Wrong::MarkTooLow {
            mark: Stamp(0),
            acknowledged: Stamp(2),
        },
    };
    is_found_without(&rt, &mut recorded, 4, gate)
}

/// What is no sync isn't forgotten.
fn forgets_no_other(rt: &impl Abort, recorded: &mut Recorded) -> Result<(), Fail> {
    for number in [0, 1, 9] {
        let is_sync = recorded.forget_sync(number)?;
        holds(rt, !is_sync);
    }
    Ok(())
}

fn is_found_without(
    rt: &(impl Abort + Threads + Sync),
    recorded: &mut Recorded,
    number: usize,
    failed: Failed,
) -> Result<(), Fail> {
    let found = without(rt, recorded, number)?;
    same(rt, &found, &Some(failed));
    Ok(())
}
