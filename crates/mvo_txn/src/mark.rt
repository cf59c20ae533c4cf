ghost use Rattle.std.specs.Prelude.{◌≡◌};
ghost use Rattle.mvo_txn.specs.Queue.{queue_stamp, stamp_without, is_current};

use crate::seats::Seats;
use crate::state::TxState;

/// Which timestamp of a transaction a queue goes by.
#[derive(Clone, Copy, Debug, PartialEq, Eq)]
pub(crate) enum Kind {
    /// The begin of each that is unfinished.
    Begin,
    /// The end of each that is Preparing.
    OpenEnd,
}

impl Kind {
    /// The timestamp of a transaction, if it counts.
    pub(crate) fn stamp_in<P>(self, seats: &Seats<P>, id: u64) -> Option<u64>
        ensures { result ≡ queue_stamp self seats.now id }
    {
        let Some(seat) = seats.at_place(id) else {
            return None;
        };
        match self {
            Kind::Begin => Some(id),
            Kind::OpenEnd => match seat.state {
                TxState::Preparing(end) => Some(end.0),
                _ => None,
            },
        }
    }

    /// Whether the mark's transaction counts, with the mark's timestamp.
    pub(crate) fn is_current<P>(self, seats: &Seats<P>, mark: Mark) -> bool
        ensures { result ≡ is_current (queue_stamp self seats.now) mark }
    {
        self.stamp_in(seats, mark.id) == Some(mark.stamp)
    }

    /// The same, where one transaction is to count no longer: that one isn't looked up.
    pub(crate) fn is_left<P>(self, seats: &Seats<P>, mark: Mark, gone: u64) -> bool
        ensures { result ≡ is_current (stamp_without gone (queue_stamp self seats.now)) mark }
    {
        mark.id != gone && self.is_current(seats, mark)
    }
}

/// A transaction with a timestamp of it.
#[derive(Clone, Copy, Debug, PartialEq, Eq)]
pub(crate) struct Mark {
    pub(crate) stamp: u64,
    pub(crate) id: u64,
}
