use std::fmt;

/// The byte of an open gate.
const OPEN_GATE: u8 = 0xa5;

/// What a stop leaves in the ranges that it may change.
#[derive(Clone, Copy, Debug, PartialEq, Eq)]
pub enum Fill {
    /// 00.
    Zeros,
    /// a5, an open gate.
    Gates,
    /// ff.
    Ones,
    /// The bytes that were written there.
    Written,
}

/// How long a stop leaves a file whose length it may change.
#[derive(Clone, Copy, Debug, PartialEq, Eq)]
pub enum Length {
    /// As short as it may be.
    Least,
    /// As long as it was since its last sync.
    Full,
}

impl Fill {
    /// All of them.
    pub const ALL: [Fill; 4] = [Fill::Zeros, Fill::Gates, Fill::Ones, Fill::Written];

    /// What it leaves of a byte that was written.
    pub fn byte(self, written: u8) -> u8 {
        match self {
            Fill::Zeros => 0,
            Fill::Gates => OPEN_GATE,
            Fill::Ones => 0xff,
            Fill::Written => written,
        }
    }
}

impl Length {
    /// Both.
    pub const ALL: [Length; 2] = [Length::Least, Length::Full];
}

impl fmt::Display for Fill {
    fn fmt<W: fmt::Write>(&self, f: &mut fmt::Formatter<W>) -> fmt::Result {
        f.write_str(match self {
            Fill::Zeros => "00",
            Fill::Gates => "a5",
            Fill::Ones => "ff",
            Fill::Written => "written",
        })
    }
}

impl fmt::Display for Length {
    fn fmt<W: fmt::Write>(&self, f: &mut fmt::Formatter<W>) -> fmt::Result {
        f.write_str(match self {
            Length::Least => "least",
            Length::Full => "full",
        })
    }
}
