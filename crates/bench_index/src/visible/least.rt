use anyhow::Result;
use std::rt::Clock;
use std::time::Instant;

// The least time of some rounds.
#[derive(Drop)]
pub struct Least {
    nanos: u128,
}

impl Least {
    pub fn new() -> Least {
        Least { nanos: u128::MAX }
    }

    // Notes a round that began at the start.
    pub fn note<R: Clock>(&mut self, rt: &R, start: Instant) -> Result<()> {
        self.nanos = self.nanos.min(start.elapsed(rt)?.as_nanos());
        Ok(())
    }

    // Prints the tenths of a nanosecond for one of so many operations.
    pub fn tell<R: Eprint>(&self, rt: &R, name: &str, operations: u64) -> Result<()> {
        let tenths = self.nanos.saturating_mul(10);
        let each = tenths.checked_div(operations as u128).unwrap_or(0);
        eprintln!(rt; "{name:<60} {:>6}.{} ns", each / 10, each % 10)?;
        Ok(())
    }
}
