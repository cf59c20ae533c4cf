ghost use Rattle.std.specs.Prelude.{◌≡◌};

use crate::job_queue::JobQueue;
use crate::outcome::Outcome;
use crate::ticket::Ticket;

/// What a worker has when it ends: its ticket, and what came of the jobs that it took, in order.
#[derive(Drop)]
pub struct WorkerEnd<L: JobQueue> {
    pub ticket: Ticket<L>,
    pub outcomes: Vec<Outcome>,
    pub ghost part: { ticket.parts ≡ 1 },
}
