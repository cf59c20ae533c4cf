//! What the thread does that pushes the jobs.
ghost use Rattle.std.specs.Prelude.{◌≡◌, ◌<◌, ◌∷◌, [], true, IfOk, OnOk, vec_len};
ghost use Rattle.mvo_front.specs.Outcomes.{AreOutcomes};
ghost use Rattle.mvo_front.specs.Queue.{HasPushed};

use crate::front::Front;
use crate::job::Job;
use crate::job_queue::JobQueue;
use crate::job_work::JobWork;
use crate::outcome::Outcome;
use crate::serving::{serve_all, serve_waiting};
use crate::ticket::Ticket;
use std::alloc::AllocError;
use std::sync::Wait;

/// Pushes the jobs in order, closes the queue, and works on until no job is left. Where the queue
/// is full it runs the job that has waited longest, so it waits for no worker, and all is done also
/// where there is none.
pub fn hand_out<L: JobQueue, W: JobWork, R: Wait>(
    rt: &R,
    work: &W,
    front: &Front<L>,
    ticket: Ticket<L>,
    jobs: Vec<Job>,
    outcomes: Vec<Outcome>,
) -> Result<(Ticket<L>, Vec<Outcome>), AllocError>
    requires pushes { ticket.pushes ≡ true }
    requires part { 0 < ticket.parts }
    requires none { (ticket.taken ≡ []) × (vec_len outcomes ≡ 0) }
    ensures pushed { IfOk result (λ x. HasPushed ticket jobs.items x.0) }
    ensures each { IfOk result (λ x. AreOutcomes W.comes_to x.1.items x.0.taken) }
{
    let mut ticket = ticket;
    let mut outcomes = outcomes;
    let pushed = push_all(rt, work, front, &mut ticket, jobs, &mut outcomes);
    front.close();
    pushed?;
    serve_all(rt, work, front, &mut ticket, &mut outcomes);
    Ok((ticket, outcomes))
}

/// Pushes the jobs in order. Refused where there is no room for what comes of a job.
fn push_all<L: JobQueue, W: JobWork, R: Wait>(
    rt: &R,
    work: &W,
    front: &Front<L>,
    ticket: &mut Ticket<L>,
    jobs: Vec<Job>,
    outcomes: &mut Vec<Outcome>,
) -> Result<(), AllocError>
    requires pushes { ticket.old.pushes ≡ true }
    requires part { 0 < ticket.old.parts }
    requires each { AreOutcomes W.comes_to outcomes.old.items ticket.old.taken }
    ensures pushed { OnOk result (HasPushed ticket.old jobs.items ticket.new) }
    ensures each { AreOutcomes W.comes_to outcomes.new.items ticket.new.taken }
{
    for job in jobs {
        push_one(rt, work, front, ticket, job, outcomes)?;
    }
    Ok(())
}

/// Pushes a job, and runs others as long as there is no room for it.
fn push_one<L: JobQueue, W: JobWork, R: Wait>(
    rt: &R,
    work: &W,
    front: &Front<L>,
    ticket: &mut Ticket<L>,
    job: Job,
    outcomes: &mut Vec<Outcome>,
) -> Result<(), AllocError>
    requires pushes { ticket.old.pushes ≡ true }
    requires part { 0 < ticket.old.parts }
    requires each { AreOutcomes W.comes_to outcomes.old.items ticket.old.taken }
    ensures pushed { OnOk result (HasPushed ticket.old (job ∷ []) ticket.new) }
    ensures each { AreOutcomes W.comes_to outcomes.new.items ticket.new.taken }
{
    let mut waiting = job;
    for _ in rt.forever() {
        match front.try_push(rt, ticket, waiting) {
            Ok(()) => return Ok(()),
            Err(back) => waiting = back,
        }
        // A job is taken only where there is room for what comes of it.
        outcomes.reserve(1)?;
        serve_waiting(rt, work, front, ticket, outcomes);
    }
    unreachable!()
}
