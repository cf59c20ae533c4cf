ghost use Rattle.mvo_front.specs.Named.{IsQueueNamedBy};

use crate::equal::same;
use mvo_front::{Front, Job, JobQueue, JobWork, NewQueue, Outcome, run};
use std::alloc::{AllocError, Global};
use std::marker::Brand;
use std::sync::Wait;
use std::sync::atomic::{AtomicU64, Ordering};
use std::test::*;
use std::thread;

/// Holds job 1 until job 2 is answered, 10,000 turns at most.
#[derive(Drop)]
struct Meeting {
    alloc: Global,
    second: AtomicU64,
    met: AtomicU64,
}

impl JobWork for Meeting {
    ghost comes_to = { λ job outcome. Unit {0} };

    fn run<R: Wait>(&self, _rt: &R, job: Job) -> Outcome {
        let number = job.number;
        if number == 2 {
            self.second.store(1, Ordering::SeqCst);
        }
        if number == 1 {
            for _ in 0..10_000 {
                if self.second.load(Ordering::SeqCst) == 1 {
                    self.met.store(1, Ordering::SeqCst);
                    break;
                }
                turn();
            }
        }
        Outcome {
            number,
            replies: Ok(String::new(self.alloc)),
        }
    }
}

/// How often a thread yields in a turn.
const YIELDS: u32 = 100;

fn turn() {
    for _ in 0..YIELDS {
        thread::yield_now();
    }
}

/// Answers a job with its number, and counts the jobs.
#[derive(Drop)]
struct Echo {
    alloc: Global,
    runs: AtomicU64,
}

impl JobWork for Echo {
    ghost comes_to = { λ job outcome. Unit {0} };

    fn run<R: Wait>(&self, _rt: &R, job: Job) -> Outcome {
        self.runs.fetch_add(1, Ordering::SeqCst);
        let number = job.number;
        Outcome {
            number,
            replies: format!(in self.alloc; "{number}"),
        }
    }
}

/// So many jobs, from number 1 on.
fn jobs_of(alloc: Global, count: u32) -> Result<Vec<Job>, AllocError> {
    let mut jobs = Vec::new(alloc);
    for number in 1..=count {
        jobs.push(job_of(alloc, number))?;
    }
    Ok(jobs)
}

/// How many outcomes have this number and are this job's.
fn times_answered(outcomes: &[Outcome], number: u32) -> usize {
    outcomes
        .iter()
        .filter(|outcome| outcome.number == number && is_own(outcome))
        .count()
}

/// Whether the replies are the job's number.
fn is_own(outcome: &Outcome) -> bool {
    match &outcome.replies {
        Ok(replies) => replies.as_str().parse::<u32>() == Ok(outcome.number),
        Err(_) => false,
    }
}

#[test]
fn two_jobs_meet(rt: HostRuntime) -> Result<(), Fail> {
    let alloc = rt.alloc();
    let meeting = Meeting {
        alloc,
        second: AtomicU64::new(0),
        met: AtomicU64::new(0),
    };
    let outcomes = run(&rt, alloc, jobs_of(alloc, 5)?, 2, &meeting)?;
    same(&rt, &outcomes.len(), &5);
    same(&rt, &meeting.met.load(Ordering::SeqCst), &1);
    Ok(())
}

/// More jobs than the queue holds, and more workers than there are processors: each job is run
/// once, and answered under its own number.
#[test]
fn each_job_is_run_once(rt: HostRuntime) -> Result<(), Fail> {
    let alloc = rt.alloc();
    let echo = Echo {
        alloc,
        runs: AtomicU64::new(0),
    };
    let outcomes = run(&rt, alloc, jobs_of(alloc, 300)?, 64, &echo)?;
    same(&rt, &outcomes.len(), &300);
    same(&rt, &echo.runs.load(Ordering::SeqCst), &300);
    for number in 1..=300 {
        same(&rt, &times_answered(&outcomes, number), &1);
    }
    Ok(())
}

/// The first job that was pushed is taken first. A closed queue gives a job back, and the jobs that
/// wait in it are still taken.
#[test]
fn a_closed_queue_gives_the_job_back(rt: HostRuntime) -> Result<(), Fail> {
    let alloc = rt.alloc();
    let told = push_and_take::<Brand, HostRuntime>(&rt, alloc, NewQueue::open(alloc)?)?;
    same(&rt, &told.back, &Some(3));
    same(&rt, &told.first, &Some(1));
    same(&rt, &told.second, &Some(2));
    same(&rt, &told.third, &None);
    Ok(())
}

/// The numbers of the jobs that came back and that were taken.
#[derive(Drop)]
struct Told {
    back: Option<u32>,
    first: Option<u32>,
    second: Option<u32>,
    third: Option<u32>,
}

/// Pushes jobs 1 and 2, closes the queue, pushes job 3, and takes three times.
fn push_and_take<L: JobQueue, R: Wait>(
    rt: &R,
    alloc: Global,
    opened: NewQueue,
) -> Result<Told, AllocError>
    requires { IsQueueNamedBy L.table L.keys opened }
{
    let (front, mut ticket) = Front::<L>::new(opened);
    front.settle(&mut ticket);
    let mut mine = front.hire(&mut ticket);
    let _ = front.push(rt, &mut ticket, job_of(alloc, 1));
    let _ = front.push(rt, &mut ticket, job_of(alloc, 2));
    front.close();
    let back = front.push(rt, &mut ticket, job_of(alloc, 3)).err();
    let first = front.take(rt, &mut mine);
    let second = front.take(rt, &mut mine);
    let third = front.take(rt, &mut mine);
    front.dismiss(&mut ticket, mine);
    Ok(Told {
        back: number_of(back),
        first: number_of(first),
        second: number_of(second),
        third: number_of(third),
    })
}

fn job_of(alloc: Global, number: u32) -> Job {
    Job {
        number,
        script: Vec::new(alloc),
    }
}

fn number_of(job: Option<Job>) -> Option<u32> {
    match job {
        Some(job) => Some(job.number),
        None => None,
    }
}
