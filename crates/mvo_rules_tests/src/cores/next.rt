//! Which transactions are Active, in the order of their begins.

use crate::cores::{end, opened};
use crate::equal::same_at;
use mvo_core::Core;
use mvo_types::{Refusal, Stamp, TxId};
use std::process::Abort;
use std::test::Fail;

/// Which of the six that begin are read-only.
const READ_ONLY: [bool; 6] = [false, true, false, false, true, false];

/// From the first stamp on and below the second, the first Active one. Of the six 2, a read-only
/// one, and 6 are Active: 1 has left, 3 and 5 are Preparing, and 4 is Aborted.
const NEXT: [(u64, u64, u64); 9] = [
    (0, 100, 2),
    (0, 3, 2),
    (2, 3, 2),
    (0, 2, 0),
    (3, 100, 6),
    (3, 7, 6),
    (3, 6, 0),
    (7, 100, 0),
    (100, 0, 0),
];

fn begin(core: &mut Core) -> Result<(), Refusal> {
    for reads_only in READ_ONLY {
        if reads_only {
            core.begin_read_only()?;
        } else {
            core.begin_tx()?;
        }
    }
    Ok(())
}

fn go_on(core: &mut Core) -> Result<(), Refusal> {
    for id in [3, 5] {
        core.precommit(TxId(id))?;
    }
    for id in [4, 1] {
        core.rollback_tx(TxId(id))?;
    }
    core.finish_one(TxId(1))?;
    Ok(())
}

fn compare(rt: &impl Abort, core: &mut Core) -> Result<(), Refusal> {
    begin(core)?;
    go_on(core)?;
    for (at, (from, below, wanted)) in NEXT.iter().enumerate() {
        let id = match core.next_active(Stamp(*from), Stamp(*below)) {
            Some(id) => id.0,
            None => 0,
        };
        same_at(rt, &id, wanted, at as u64);
    }
    Ok(())
}

#[test]
fn the_next_one_is_found(rt: HostRuntime) -> Result<(), Fail> {
    let mut core = opened(&rt, rt.alloc())?;
    let compared = compare(&rt, &mut core);
    end(core);
    compared?;
    Ok(())
}
