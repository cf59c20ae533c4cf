use std::marker::Brand;

/// Names one queue of jobs. Its ends and its tickets agree on it, so that a ticket of one queue
/// fits no other.
pub trait JobQueue {
    ghost use Rattle.atomic_table.specs.Seated.{TableId};
    ghost use Rattle.mvo_front.specs.Tickets.{Keys};

    ghost table: { TableId };

    ghost keys: { Keys };
}

impl JobQueue for Brand {
    ghost use Rattle.mvo_front.specs.Tickets.{no_queue_keys, no_queue_table};

    ghost table = { no_queue_table };

    ghost keys = { no_queue_keys };
}
