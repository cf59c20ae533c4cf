//! What keeps the memory and the log of an engine steady while sessions use it.

use mvo_disk::Disk;
use mvo_engine::{Engine, Gate, Kept, Run};
use mvo_keep::{Keeper, Policy};
use mvo_types::Refusal;
use std::sync::Wait;
use std::sync::atomic::AtomicU64;

/// A segment of 4,096 bytes is full, so that there is something to do.
fn small_policy() -> Policy {
    let mut policy = Policy::standard();
    policy.full_segment = 4_096;
    policy
}

/// One turn after another, until all is over.
pub fn keep_up<L: Run, D: Disk, G: Gate + Drop, R: Wait>(
    rt: &R,
    engine: &Engine<L, D, G>,
    over: &AtomicU64,
) -> Result<(), Refusal> {
    let policy = small_policy();
    engine.keep_until(rt, &policy, over)
}

/// Whether all is let go where no transaction is open: the tale is trimmed up to the clock, all is
/// durable, and the log is shorter than a segment that is full.
pub fn is_let_go<L: Run, D: Disk, G: Gate + Drop, R: Wait>(
    rt: &R,
    engine: &Engine<L, D, G>,
) -> Result<bool, Refusal> {
    rest(rt, engine)?;
    let stats = engine.stats(rt);
    let (core, store) = (stats.core, stats.store);
    Ok(
        core.tale_start == core.clock
            && store.durable == core.clock
            && store.segments == 1
            && store.last_segment < 4_096,
    )
}

/// One turn after another, until nothing is due.
fn rest<L: Run, D: Disk, G: Gate + Drop, R: Wait>(
    rt: &R,
    engine: &Engine<L, D, G>,
) -> Result<(), Refusal> {
    let policy = small_policy();
    let mut keeper = Keeper::new();
    let mut rests = 0u32;
    for _ in rt.forever() {
        match engine.keep(rt, &policy, &mut keeper)? {
            Kept::Did(_) => rests = 0,
            Kept::Idle => rests = rests.saturating_add(1),
        }
        if rests == 3 {
            break;
        }
    }
    Ok(())
}
