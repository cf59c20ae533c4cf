//! What one worker does.
ghost use Rattle.std.specs.Prelude.{◌≡◌, ◌<◌, vec_len, vec_capacity};
ghost use Rattle.mvo_front.specs.Outcomes.{AreOutcomes, IsRun};
ghost use Rattle.mvo_front.specs.Queue.{IsButForTaken};

use crate::front::Front;
use crate::hired::Hired;
use crate::job::Job;
use crate::job_queue::JobQueue;
use crate::job_work::JobWork;
use crate::outcome::Outcome;
use crate::ticket::Ticket;
use crate::worker_end::WorkerEnd;
use std::sync::Wait;

/// Runs a job that was taken.
fn run_one<W: JobWork, R: Wait>(rt: &R, work: &W, outcomes: &mut Vec<Outcome>, job: Job)
    requires { vec_len outcomes.old < vec_capacity outcomes.old }
    ensures { IsRun W.comes_to outcomes.old.items job outcomes.new.items }
{
    outcomes.push_reserved(work.run(rt, job));
}

/// Takes the next job and runs it. False where no more jobs come.
fn serve_one<L: JobQueue, W: JobWork, R: Wait>(
    rt: &R,
    work: &W,
    front: &Front<L>,
    ticket: &mut Ticket<L>,
    outcomes: &mut Vec<Outcome>,
) -> bool
    requires part { 0 < ticket.old.parts }
    requires room { vec_len outcomes.old < vec_capacity outcomes.old }
    requires each { AreOutcomes W.comes_to outcomes.old.items ticket.old.taken }
    ensures taken { IsButForTaken ticket.old ticket.new }
    ensures each { AreOutcomes W.comes_to outcomes.new.items ticket.new.taken }
{
    match front.take(rt, ticket) {
        Some(job) => {
            run_one(rt, work, outcomes, job);
            true
        }
        None => false,
    }
}

/// Takes the job that has waited longest, if one is seen, and runs it.
pub fn serve_waiting<L: JobQueue, W: JobWork, R: Wait>(
    rt: &R,
    work: &W,
    front: &Front<L>,
    ticket: &mut Ticket<L>,
    outcomes: &mut Vec<Outcome>,
)
    requires part { 0 < ticket.old.parts }
    requires room { vec_len outcomes.old < vec_capacity outcomes.old }
    requires each { AreOutcomes W.comes_to outcomes.old.items ticket.old.taken }
    ensures taken { IsButForTaken ticket.old ticket.new }
    ensures each { AreOutcomes W.comes_to outcomes.new.items ticket.new.taken }
{
    if let Some(job) = front.try_take(rt, ticket) {
        run_one(rt, work, outcomes, job);
    }
}

/// Takes jobs, and runs each, until no more come, or until there is no room for what comes of one.
pub fn serve_all<L: JobQueue, W: JobWork, R: Wait>(
    rt: &R,
    work: &W,
    front: &Front<L>,
    ticket: &mut Ticket<L>,
    outcomes: &mut Vec<Outcome>,
)
    requires part { 0 < ticket.old.parts }
    requires each { AreOutcomes W.comes_to outcomes.old.items ticket.old.taken }
    ensures taken { IsButForTaken ticket.old ticket.new }
    ensures each { AreOutcomes W.comes_to outcomes.new.items ticket.new.taken }
{
    for _ in rt.forever() {
        // A job is taken only where there is room for what comes of it.
        if outcomes.reserve(1).is_err() {
            break;
        }
        if !serve_one(rt, work, front, ticket, outcomes) {
            break;
        }
    }
}

/// What a worker does in its thread. One outcome for each job that was taken, in order, with its
/// number.
pub fn serve<L: JobQueue, W: JobWork, R: Wait>(
    rt: &R,
    work: &W,
    front: &Front<L>,
    hired: Hired<L>,
) -> WorkerEnd<L>
    ensures { AreOutcomes W.comes_to result.outcomes.items result.ticket.taken }
{
    let Hired {
        mut ticket,
        mut outcomes,
    } = hired;
    serve_all(rt, work, front, &mut ticket, &mut outcomes);
    WorkerEnd { ticket, outcomes }
}
