//! How long the lock of the store is held, by the clock of a gate.

use super::rows::{change, put};
use super::trial::{Alone, Trial, tried_anew};
use crate::equal::{holds, same};
use mvo_disk::Disk;
use mvo_engine::{Engine, Gate, Place, Run, TimedGate};
use mvo_types::Refusal;
use std::alloc::Global;
use std::process::Abort;
use std::sync::Wait;
use std::sync::atomic::{AtomicU64, Ordering};
use std::test::Fail;

/// What a clock says, each time that it is asked: at the beginning of a hold, and at its end. A
/// flush holds the lock twice, a rotation six times, and who makes its own commit durable once.
const MOMENTS: [u64; 18] = [
    2, 7, 10, 30, 40, 43, 50, 100, 100, 100, 100, 100, 100, 100, 100, 100, 200, 290,
];

/// A gate whose clock says these. It counts how often it was asked.
#[derive(Drop)]
struct Saying<'a> {
    asked: &'a AtomicU64,
}

impl<'a> Gate for Saying<'a> {
    fn pass(&self, _place: Place) {}

    fn nanos(&self) -> u64 {
        let number = self.asked.fetch_add(1, Ordering::SeqCst);
        match usize::try_from(number) {
            Ok(place) => MOMENTS.get(place).copied().unwrap_or(290),
            Err(_) => 290,
        }
    }
}

/// The longest hold is told, whichever step made it, and a shorter one behind it changes nothing.
pub fn hold<L: Run, D: Disk, G: Gate + Drop, R: Abort + Wait>(
    rt: &R,
    alloc: Global,
    engine: &Engine<L, D, G>,
) -> Result<(), Refusal> {
    let mut session = engine.session(rt)?;
    put(rt, alloc, &mut session, 1)?;
    same(rt, &engine.totals().longest_hold, &0);
    engine.flush(rt)?;
    same(rt, &engine.totals().longest_hold, &20);
    engine.rotate(rt)?;
    same(rt, &engine.totals().longest_hold, &50);
    let end = change(rt, alloc, &mut session, 2)?;
    session.make_durable(rt, end)?;
    same(rt, &engine.totals().longest_hold, &90);
    engine.flush(rt)?;
    same(rt, &engine.totals().longest_hold, &90);
    Ok(())
}

/// By the system's clock a flush takes a while, and less than an hour.
pub fn hold_timed<L: Run, D: Disk, G: Gate + Drop, R: Abort + Wait>(
    rt: &R,
    alloc: Global,
    engine: &Engine<L, D, G>,
) -> Result<(), Refusal> {
    let mut session = engine.session(rt)?;
    put(rt, alloc, &mut session, 1)?;
    engine.flush(rt)?;
    let longest = engine.totals().longest_hold;
    holds(rt, 0 < longest && longest < 3_600_000_000_000);
    Ok(())
}

#[test]
fn the_longest_hold_is_told(rt: HostRuntime) -> Result<(), Fail> {
    let asked = AtomicU64::new(0);
    let gate = Saying { asked: &asked };
    tried_anew(&rt, rt.alloc(), gate, Trial::Alone(Alone::Held))?;
    Ok(())
}

#[test]
fn a_hold_is_timed_by_a_clock(rt: HostRuntime) -> Result<(), Fail> {
    let gate = TimedGate::new(&rt);
    tried_anew(&rt, rt.alloc(), gate, Trial::Alone(Alone::Timed))?;
    Ok(())
}
