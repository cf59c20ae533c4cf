use anyhow::Result;

/// The times of one kind of call, in nanoseconds.
#[derive(Drop)]
pub struct Times {
    nanos: Vec<u64>,
}

impl Times {
    pub fn new(rt: &HostRuntime) -> Times {
        Times {
            nanos: Vec::new(rt.alloc()),
        }
    }

    /// These.
    pub fn of(nanos: Vec<u64>) -> Times {
        let mut nanos = nanos;
        nanos.sort_unstable();
        Times { nanos }
    }

    pub fn note(&mut self, nanos: u64) -> Result<()> {
        self.nanos.push(nanos)?;
        Ok(())
    }

    /// How many there are.
    pub fn len(&self) -> u64 {
        self.nanos.len() as u64
    }

    /// What so many of 100 don't pass, 0 where there are none.
    pub fn within(&self, percent: u64) -> u64 {
        let above = self.len().saturating_mul(100u64.saturating_sub(percent)) / 100;
        let place = self.len().saturating_sub(above).saturating_sub(1);
        self.nanos.get(place as usize).copied().unwrap_or(0)
    }

    /// The median, 0 where there are none.
    pub fn median(&mut self) -> u64 {
        self.nanos.sort_unstable();
        self.nanos.get(self.nanos.len() / 2).copied().unwrap_or(0)
    }
}
