use crate::place::Place;
use std::time::Clock;

/// Told where a thread stands, outside the locks. It may hold the thread there, as tests do.
pub trait Gate {
    fn pass(&self, place: Place);

    /// How many nanoseconds have gone by since a moment of its own; always 0 where it has no clock.
    /// It is asked with the lock of the store held, so that an engine can tell how long that was.
    fn nanos(&self) -> u64 {
        0
    }
}

/// A gate that holds nobody.
#[derive(Clone, Copy, Debug)]
pub struct OpenGate;

impl Gate for OpenGate {
    fn pass(&self, _place: Place) {}
}

/// A gate that holds nobody and has a clock: with it an engine counts how long the lock of its
/// store is held at most (`Totals::longest_hold`).
pub struct TimedGate<'r, R: Clock> {
    rt: &'r R,
}

impl<'r, R: Clock> Drop for TimedGate<'r, R> {
    fn drop(self) {
        let TimedGate { rt: _ } = self;
    }
}

impl<'r, R: Clock> TimedGate<'r, R> {
    /// With the clock of this handle.
    pub fn new(rt: &'r R) -> TimedGate<'r, R> {
        TimedGate { rt }
    }
}

impl<R: Clock> Gate for TimedGate<'_, R> {
    fn pass(&self, _place: Place) {}

    fn nanos(&self) -> u64 {
        match self.rt.monotonic() {
            Ok(time) => u64::try_from(time.as_nanos()).unwrap_or(u64::MAX),
            Err(_) => 0,
        }
    }
}
