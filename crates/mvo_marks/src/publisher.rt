use crate::rule::Known;
use std::marker::Model;

/// The one seat that raises the durable word. Contracts see of which marks, what it has seen, and
/// what it published.
#[derive(Drop)]
pub struct Publisher {
    pub(crate) seat: atomic_table::Seat<u8, Known>,
}

impl Model for Publisher {
    ghost use Rattle.std.specs.Prelude.{◌≡◌, [], true};
    ghost use Rattle.mvo_marks.specs.Marks.{SeatData, seat_data};

    ghost Value = { SeatData };

    ghost view = { λ p. seat_data p.seat.table_id p.seat.me.0 };

    ghost invariant = { λ p. (p.seat.me.1 ≡ []) × (p.seat.me.0.publishes ≡ true) };
}
