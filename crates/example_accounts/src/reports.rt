//! Reports beside the transfers: what all accounts have together.

use crate::transfers::{ACCOUNTS, total_of};
use mvo_disk::Disk;
use mvo_engine::{Engine, Gate, Run, Session};
use mvo_types::Refusal;
use std::sync::Wait;
use std::sync::atomic::{AtomicU64, Ordering};

/// So many accounts are read at once.
const RANGE: u64 = 10;

/// One report after another, until all is over, and at least one: the session, and what each of
/// them added up; none where two differ.
pub fn report_all<'e, L: Run, D: Disk, G: Gate + Drop, R: Wait>(
    rt: &R,
    engine: &'e Engine<L, D, G>,
    over: &AtomicU64,
) -> Result<(Session<'e, L, D, G>, Option<u64>), Refusal> {
    let mut session = engine.session(rt)?;
    let first = report_again(rt, &mut session)?;
    let mut all_alike = true;
    for _ in rt.forever() {
        if over.load(Ordering::SeqCst) == 1 {
            break;
        }
        all_alike &= report_again(rt, &mut session)? == first;
    }
    Ok((session, all_alike.then_some(first)))
}

/// A report, which is made again where one that it rests on came to nothing.
fn report_again<L: Run, D: Disk, G: Gate + Drop, R: Wait>(
    rt: &R,
    session: &mut Session<'_, L, D, G>,
) -> Result<u64, Refusal> {
    for _ in rt.forever() {
        match report(rt, session) {
            Err(Refusal::DependencyAborted(_)) => {}
            reported => return reported,
        }
    }
    unreachable!()
}

/// What all accounts have at one moment, read by ranges beside the transfers.
fn report<L: Run, D: Disk, G: Gate + Drop, R: Wait>(
    rt: &R,
    session: &mut Session<'_, L, D, G>,
) -> Result<u64, Refusal> {
    session.begin_read_only(rt)?;
    let mut total = 0u64;
    for range in 0..ACCOUNTS / RANGE {
        let first = range.wrapping_mul(RANGE);
        let rows = session.rows(rt, 0, first, first.wrapping_add(RANGE - 1))?;
        total = total.wrapping_add(total_of(&rows));
    }
    session.commit_tx(rt)?;
    Ok(total)
}
