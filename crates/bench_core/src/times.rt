use anyhow::Result;
use std::alloc::Global;
use std::time::Duration;

/// The times of the calls of a round in their order, in nanoseconds: of several rounds of the same
/// calls the least of each.
pub struct Times {
    nanos: Vec<u128>,
    at: usize,
}

impl Drop for Times {
    fn drop(self) {
        let Times { nanos: _, at: _ } = self;
    }
}

impl Times {
    pub fn new(alloc: Global) -> Times {
        Times {
            nanos: Vec::new(alloc),
            at: 0,
        }
    }

    /// Another round.
    pub fn restart(&mut self) {
        self.at = 0;
    }

    /// How many calls a round has.
    pub fn calls(&self) -> u64 {
        self.nanos.len() as u64
    }

    pub fn longest(&self) -> u128 {
        self.nanos.iter().copied().max().unwrap_or(0)
    }

    /// The next call of the round took so long.
    pub fn note(&mut self, time: Duration) -> Result<()> {
        let nanos = time.as_nanos();
        match self.nanos.get_mut(self.at) {
            Some(least) => *least = (*least).min(nanos),
            None => self.nanos.push(nanos)?,
        }
        self.at = self.at.saturating_add(1);
        Ok(())
    }
}
