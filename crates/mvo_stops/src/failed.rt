use crate::wrong::Wrong;
use std::fmt;

/// The first call at which something is wrong.
#[derive(Clone, Copy, Debug, PartialEq, Eq)]
pub struct Failed {
    /// Its number, from 1.
    pub call: u64,
    pub wrong: Wrong,
}

impl fmt::Display for Failed {
    fn fmt<W: fmt::Write>(&self, f: &mut fmt::Formatter<W>) -> fmt::Result {
        let (call, wrong) = (self.call, self.wrong);
        write!(f, "of what is left at call {call}, one is wrong: {wrong}")
    }
}
