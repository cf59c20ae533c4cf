/// A generator of numbers, by a seed that isn't 0 (Marsaglia, Xorshift RNGs, 2003).
#[derive(Drop)]
pub struct Numbers {
    state: u64,
}

impl Numbers {
    /// With a fixed start.
    pub fn new() -> Numbers {
        Numbers::of(88172645463325252)
    }

    pub fn of(seed: u64) -> Numbers {
        Numbers { state: seed }
    }

    pub fn draw(&mut self) -> u64 {
        self.state ^= self.state << 13;
        self.state ^= self.state >> 7;
        self.state ^= self.state << 17;
        self.state
    }

    /// A number below the end, or 0.
    pub fn below(&mut self, end: u64) -> u64 {
        self.draw().checked_rem(end).unwrap_or(0)
    }
}
