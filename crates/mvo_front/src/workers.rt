//! Workers in threads, and the jobs that are pushed to them.
ghost use Rattle.std.specs.Prelude.{◌≡◌, ◌+◌, ◌<◌, [], true, All, IfOk, OnOk, vec_len};
ghost use Rattle.mvo_front.specs.declared.workers.TheConstants.{MAX_WORKERS};
ghost use Rattle.mvo_front.specs.Named.{IsQueueNamedBy};
ghost use Rattle.mvo_front.specs.Outcomes.{AreAnswered, AreOutcomes, AreRun};
ghost use Rattle.mvo_front.specs.Queue.{first_hand, hand};

use crate::front::Front;
use crate::handing_out::hand_out;
use crate::hired::Hired;
use crate::job::Job;
use crate::job_queue::JobQueue;
use crate::job_work::JobWork;
use crate::new_queue::NewQueue;
use crate::outcome::Outcome;
use crate::serving::serve;
use crate::ticket::Ticket;
use crate::worker_end::WorkerEnd;
use std::alloc::{AllocError, Global};
use std::marker::Brand;
use std::sync::Wait;
use std::thread;
use std::thread::Threads;

/// The most workers of a run.
pub const MAX_WORKERS: usize = 64;

/// Runs the jobs, as many at once as there are workers (`MAX_WORKERS` at most), and pushes them
/// while they work. The calling thread is the first of the workers, and alone where the system
/// gives no other. Each job is run once, and each outcome is what that came to, in any order: so
/// each number has as many outcomes as there are jobs with it.
pub fn run<W: JobWork + Sync, R: Threads + Wait + Sync>(
    rt: &R,
    alloc: Global,
    jobs: Vec<Job>,
    workers: usize,
    work: &W,
) -> Result<Vec<Outcome>, AllocError>
    ensures run { IfOk result (λ outcomes. AreRun W.comes_to jobs.items outcomes.items) }
    ensures answered { IfOk result (λ outcomes. AreAnswered jobs.items outcomes.items) }
{
    let opened = NewQueue::open(alloc)?;
    run_in::<Brand, W, R>(rt, alloc, opened, jobs, workers, work)
}

/// The same for every queue, which its parts name.
fn run_in<L: JobQueue + Send + Sync, W: JobWork + Sync, R: Threads + Wait + Sync>(
    rt: &R,
    alloc: Global,
    opened: NewQueue,
    jobs: Vec<Job>,
    workers: usize,
    work: &W,
) -> Result<Vec<Outcome>, AllocError>
    requires { IsQueueNamedBy L.table L.keys opened }
    ensures { IfOk result (λ outcomes. AreRun W.comes_to jobs.items outcomes.items) }
{
    let (front, mut ticket) = Front::<L>::new(opened);
    let own = Vec::with_capacity(alloc, jobs.len())?;
    let others = workers.min(MAX_WORKERS).saturating_sub(1);
    let hired = hire_all(alloc, &front, &mut ticket, others, jobs.len())?;
    let shared = &front;
    // Where there is no other thread, the second closure is called first.
    let (done, handed_out) = thread::join(
        rt,
        move || serve_each(rt, work, shared, hired),
        move || hand_out(rt, work, shared, ticket, jobs, own),
    );
    let (ticket, outcomes) = handed_out?;
    gather::<L, W, R>(rt, &front, ticket, outcomes, done?)
}

/// Hires so many workers, each with room for what comes of so many jobs.
fn hire_all<L: JobQueue>(
    alloc: Global,
    front: &Front<L>,
    ticket: &mut Ticket<L>,
    workers: usize,
    jobs: usize,
) -> Result<Vec<Hired<L>>, AllocError>
    requires few { workers < MAX_WORKERS }
    requires first { ticket.old ≡ first_hand }
    ensures hand { OnOk result (ticket.new ≡ hand true [] ticket.new.parts []) }
    ensures parts { IfOk result (λ hired. ticket.new.parts + vec_len hired ≡ 1024) }
    ensures part { OnOk result (0 < ticket.new.parts) }
{
    let mut hired = Vec::new(alloc);
    for k in 0..workers {
        let outcomes = Vec::with_capacity(alloc, jobs)?;
        let mine = front.hire(ticket);
        hired.push(Hired::new(mine, outcomes))?;
    }
    Ok(hired)
}

/// What the hired workers have when they end, each in a thread of its own.
fn serve_each<L: JobQueue + Send + Sync, W: JobWork + Sync, R: Threads + Wait + Sync>(
    rt: &R,
    work: &W,
    front: &Front<L>,
    hired: Vec<Hired<L>>,
) -> Result<Vec<WorkerEnd<L>>, AllocError>
    ensures count { IfOk result (λ ends. vec_len ends ≡ vec_len hired) }
    ensures each { IfOk result (λ ends.
        All (λ e. AreOutcomes W.comes_to e.outcomes.items e.ticket.taken) ends.items) }
{
    thread::map_vec(rt, hired, &|mine: Hired<L>| serve(rt, work, front, mine))
}

/// What came of all jobs, with the tickets of all workers taken back. Out of memory where a worker
/// ended before all jobs were taken, which it does for want of memory alone.
fn gather<L: JobQueue, W: JobWork, R: Wait>(
    rt: &R,
    front: &Front<L>,
    ticket: Ticket<L>,
    outcomes: Vec<Outcome>,
    done: Vec<WorkerEnd<L>>,
) -> Result<Vec<Outcome>, AllocError>
    requires pushes { ticket.pushes ≡ true }
    requires parts { ticket.parts + vec_len done ≡ 1024 }
    requires each { AreOutcomes W.comes_to outcomes.items ticket.taken }
    requires ends { All (λ e. AreOutcomes W.comes_to e.outcomes.items e.ticket.taken) done.items }
    ensures { IfOk result (λ all. AreRun W.comes_to ticket.put all.items) }
{
    let mut ticket = ticket;
    let mut outcomes = outcomes;
    take_back::<L, W>(front, &mut ticket, done, &mut outcomes)?;
    match front.try_take(rt, &mut ticket) {
        None => Ok(outcomes),
        Some(_) => Err(AllocError),
    }
}

/// Takes back the tickets of the workers, and adds up what came of their jobs.
fn take_back<L: JobQueue, W: JobWork>(
    front: &Front<L>,
    ticket: &mut Ticket<L>,
    done: Vec<WorkerEnd<L>>,
    outcomes: &mut Vec<Outcome>,
) -> Result<(), AllocError>
    requires each { AreOutcomes W.comes_to outcomes.old.items ticket.old.taken }
    requires ends { All (λ e. AreOutcomes W.comes_to e.outcomes.items e.ticket.taken) done.items }
    ensures each { OnOk result (AreOutcomes W.comes_to outcomes.new.items ticket.new.taken) }
    ensures parts { OnOk result (ticket.new.parts ≡ ticket.old.parts + vec_len done) }
    ensures same { OnOk result ((ticket.new.pushes ≡ ticket.old.pushes)
        × (ticket.new.put ≡ ticket.old.put)) }
{
    let mut done = done;
    while let Some(one) = done.pop() {
        let WorkerEnd {
            ticket: theirs,
            outcomes: mut more,
        } = one;
        front.dismiss(ticket, theirs);
        outcomes.append(&mut more)?;
    }
    Ok(())
}
