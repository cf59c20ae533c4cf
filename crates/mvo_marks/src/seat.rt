use crate::rule::Known;
use std::marker::Model;

/// What one session has seen of the marks. Contracts see of which marks, and what it has seen.
#[derive(Drop)]
pub struct Seat {
    pub(crate) seat: atomic_table::Seat<u8, Known>,
}

impl Model for Seat {
    ghost use Rattle.std.specs.Prelude.{◌≡◌, []};
    ghost use Rattle.mvo_marks.specs.Marks.{SeatData, seat_data};

    ghost Value = { SeatData };

    ghost view = { λ g. seat_data g.seat.table_id g.seat.me.0 };

    ghost invariant = { λ g. g.seat.me.1 ≡ [] };
}
