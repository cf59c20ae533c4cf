//! The kinds of atomic step, what each tells the seat that takes it, and how seats are split.
use crate::rule::Known;
use atomic_table::{Join, Play, Split};

/// A load of the durable word.
pub struct SeesDurable;

impl Play<u8, Known> for SeesDurable {
    ghost use Rattle.mvo_marks.specs.Telling.{HasSeenDurable};

    ghost then = { HasSeenDurable };
}

/// A load of the closed word.
pub struct SeesClosed;

impl Play<u8, Known> for SeesClosed {
    ghost use Rattle.mvo_marks.specs.Telling.{HasSeenClosed};

    ghost then = { HasSeenClosed };
}

/// The closed word becomes a stamp at least.
pub struct RaisesClosed;

impl Play<u8, Known> for RaisesClosed {
    ghost use Rattle.mvo_marks.specs.Telling.{HasRaised};

    ghost then = { HasRaised };
}

/// The durable word becomes a mark at least, by the publishing seat.
pub struct Publishes;

impl Play<u8, Known> for Publishes {
    ghost use Rattle.mvo_marks.specs.Telling.{HasPublished};

    ghost then = { HasPublished };
}

/// A load of the durable word by the publishing seat.
pub struct Confirms;

impl Play<u8, Known> for Confirms {
    ghost use Rattle.mvo_marks.specs.Telling.{HasConfirmed};

    ghost then = { HasConfirmed };
}

/// A seat that has seen as much, and doesn't publish.
pub struct Another;

impl Split<Known> for Another {
    ghost use Rattle.mvo_marks.specs.Marks.{onlooker};

    ghost left = { λ v. v };

    ghost right = { onlooker };
}

/// A seat takes in what another has seen.
pub struct TakesIn;

impl Join<Known> for TakesIn {
    ghost use Rattle.mvo_marks.specs.Marks.{seat_noted, nobody};

    ghost both = { seat_noted };

    ghost spent = { nobody };
}
