ghost use Rattle.std.specs.Prelude.{◌≡◌, vec_len};
ghost use Rattle.mvo_front.specs.Queue.{worker};

use crate::job_queue::JobQueue;
use crate::outcome::Outcome;
use crate::ticket::Ticket;

/// A worker before it begins: its ticket, and the room for what comes of its jobs.
#[derive(Drop)]
pub struct Hired<L: JobQueue> {
    pub ticket: Ticket<L>,
    pub outcomes: Vec<Outcome>,
    pub ghost new: { ticket ≡ worker },
    pub ghost none: { vec_len outcomes ≡ 0 },
}

impl<L: JobQueue> Hired<L> {
    /// A worker that has taken no job.
    pub fn new(ticket: Ticket<L>, outcomes: Vec<Outcome>) -> Hired<L>
        requires new { ticket ≡ worker }
        requires none { vec_len outcomes ≡ 0 }
    {
        Hired { ticket, outcomes }
    }
}
