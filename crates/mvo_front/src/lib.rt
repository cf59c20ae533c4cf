//! Workers and their jobs: each job is taken once, first in first out, or is left.
#![tactic(auto)]

mod front;
mod handing_out;
mod hired;
mod job;
mod job_queue;
mod job_work;
mod new_queue;
mod outcome;
mod rule;
mod serving;
mod ticket;
mod worker_end;
mod workers;

pub use front::Front;
pub use job::Job;
pub use job_queue::JobQueue;
pub use job_work::JobWork;
pub use new_queue::{JOBS, NewQueue};
pub use outcome::Outcome;
pub use ticket::Ticket;
pub use workers::{MAX_WORKERS, run};
