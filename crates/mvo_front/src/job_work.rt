use crate::job::Job;
use crate::outcome::Outcome;
use std::sync::Wait;

/// What a worker does with a job.
pub trait JobWork {
    ghost use Rattle.std.specs.Prelude.{◌≡◌};
    ghost use Rattle.mvo_front.specs.Job.{JobData};
    ghost use Rattle.mvo_front.specs.declared.outcome.Outcome.{Outcome};

    /// What running a job comes to: the job, and its outcome.
    ghost comes_to: { JobData → Outcome → Type 0 };

    /// Runs a job, and answers what came of it, with the job's number.
    fn run<R: Wait>(&self, rt: &R, job: Job) -> Outcome
        ensures number { result.number ≡ job.number }
        ensures came { comes_to job result };
}
