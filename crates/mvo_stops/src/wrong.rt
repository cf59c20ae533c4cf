use mvo_types::{Refusal, Stamp};
use std::fmt;

/// What is wrong with what a stop or a fault left.
#[derive(Clone, Copy, Debug, PartialEq, Eq)]
pub enum Wrong {
    /// It is no store that can be opened.
    NotOpened(Refusal),
    /// An opening of which a call of the device failed answered all the same.
    FaultMissed,
    /// The mark is below a timestamp that was acknowledged.
    MarkTooLow { mark: Stamp, acknowledged: Stamp },
    /// The mark is above each timestamp that may have been drawn.
    MarkTooHigh(Stamp),
    /// The rows aren't those after the commits up to the mark.
    OtherRows(Stamp),
}

impl fmt::Display for Wrong {
    fn fmt<W: fmt::Write>(&self, f: &mut fmt::Formatter<W>) -> fmt::Result {
        match self {
            Wrong::NotOpened(refusal) => write!(f, "opening it is {refusal}"),
            Wrong::FaultMissed => f.write_str("opening it answers though a call failed"),
            Wrong::MarkTooLow { mark, acknowledged } => {
                write!(f, "its mark is {mark}, and {acknowledged} was acknowledged")
            }
            Wrong::MarkTooHigh(mark) => write!(f, "its mark {mark} was never drawn"),
            Wrong::OtherRows(mark) => {
                write!(
                    f,
                    "its rows aren't those after the commits up to its mark {mark}"
                )
            }
        }
    }
}
