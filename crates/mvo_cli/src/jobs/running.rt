//! Runs jobs over a store, prints what came of them, and makes their commits durable.
ghost use Rattle.mvo_engine.specs.Opened.{IsNamedBy};

use crate::jobs::session_work::SessionWork;
use mvo_disk::Disk;
use mvo_engine::{Engine, Fresh, Gate, OpenGate, Run};
use mvo_front::{Job, JobWork, Outcome, run};
use mvo_keep::Policy;
use mvo_script::LineReply;
use mvo_types::{Refusal, Stamp};
use mvo_world::Reply;
use std::alloc::{AllocError, Global};
use std::io::{self, Write};
use std::marker::Brand;
use std::sync::Wait;
use std::sync::atomic::{AtomicU64, Ordering};
use std::thread;
use std::thread::Threads;
use thiserror::Error;

/// Why what came of the jobs isn't printed to its end.
#[derive(Debug, Drop, Error)]
pub enum WorkError {
    /// Memory was refused for the workers, or for the replies to a job.
    #[error("out of memory")]
    OutOfMemory,
    /// A line can't be written.
    #[error("can't write the replies: {0}")]
    Write(io::Error),
}

impl From<AllocError> for WorkError {
    fn from(_e: AllocError) -> WorkError {
        WorkError::OutOfMemory
    }
}

/// Runs the jobs over an opened store, as many at once as there are workers, each in a session of
/// its own. After all have ended it writes for each job, by number, `job I` and its replies; then
/// it flushes until each commit is durable, and writes `durable M`, or the refusal at which that
/// stopped. The gate is told before and behind each job, and `commits` counts their commits. Where
/// it `keeps` the store, one more thread does what is due meanwhile.
pub fn work_over<D, J, W, R>(
    rt: &R,
    alloc: Global,
    fresh: Fresh<D>,
    jobs: Vec<Job>,
    workers: usize,
    keeps: bool,
    gate: &J,
    commits: &AtomicU64,
    writer: &mut W,
) -> Result<(), WorkError>
where
    D: Disk + Drop + Send,
    J: Gate + Sync,
    W: Write,
    R: Threads + Wait + Sync,
{
    work_in::<Brand, D, J, W, R>(
        rt, alloc, fresh, jobs, workers, keeps, gate, commits, writer,
    )
}

/// The same for every run, which the parts of the store name.
fn work_in<L, D, J, W, R>(
    rt: &R,
    alloc: Global,
    fresh: Fresh<D>,
    jobs: Vec<Job>,
    workers: usize,
    keeps: bool,
    gate: &J,
    commits: &AtomicU64,
    writer: &mut W,
) -> Result<(), WorkError>
where
    L: Run + Send + Sync,
    D: Disk + Drop + Send,
    J: Gate + Sync,
    W: Write,
    R: Threads + Wait + Sync,
    requires { IsNamedBy D.Disk L.opening L.marks L.ring L.name L.parts fresh }
{
    let engine = Engine::<L, D, OpenGate>::new(fresh, OpenGate);
    let work = SessionWork::new(alloc, &engine, gate, commits);
    let mut outcomes = match keeps {
        true => run_kept(rt, alloc, jobs, workers, &work, &engine)?,
        false => run(rt, alloc, jobs, workers, &work)?,
    };
    outcomes.sort_unstable_by_key(|outcome| outcome.number);
    write_outcomes(&outcomes, writer)?;
    let last = flushed(rt, &engine);
    writeln!(writer, "{last}").map_err(WorkError::Write)?;
    writer.flush().map_err(WorkError::Write)
}

/// Runs the jobs, while one more thread keeps the store: what stops that stops the last flush, too.
/// Where the system gives no other thread, the second closure is called first, and what is due is
/// done behind the jobs.
pub fn run_kept<L, D, W, R>(
    rt: &R,
    alloc: Global,
    jobs: Vec<Job>,
    workers: usize,
    work: &W,
    engine: &Engine<L, D, OpenGate>,
) -> Result<Vec<Outcome>, AllocError>
where
    L: Run + Send + Sync,
    D: Disk + Drop + Send,
    W: JobWork + Sync,
    R: Threads + Wait + Sync,
{
    let policy = Policy::standard();
    let over = AtomicU64::new(0);
    let (_, outcomes) = thread::join(
        rt,
        || engine.keep_until(rt, &policy, &over),
        || {
            let outcomes = run(rt, alloc, jobs, workers, work);
            over.store(1, Ordering::SeqCst);
            over.wake_all();
            outcomes
        },
    );
    outcomes
}

/// Writes what came of the jobs, each behind its number.
fn write_outcomes<W: Write>(outcomes: &[Outcome], writer: &mut W) -> Result<(), WorkError> {
    for outcome in outcomes {
        if outcome.replies.is_err() {
            return Err(WorkError::OutOfMemory);
        }
    }
    for outcome in outcomes {
        write_outcome(outcome, writer).map_err(WorkError::Write)?;
    }
    Ok(())
}

fn write_outcome<W: Write>(outcome: &Outcome, writer: &mut W) -> io::Result<()> {
    let number = outcome.number;
    writeln!(writer, "job {number}")?;
    match &outcome.replies {
        Ok(replies) => writer.write_all(replies.as_bytes()),
        Err(_) => Ok(()),
    }
}

/// Makes each commit durable, and answers as a flush of a script does.
pub fn flushed<L: Run, D: Disk, R: Wait>(rt: &R, engine: &Engine<L, D, OpenGate>) -> LineReply {
    match flush_all(rt, engine) {
        Ok(mark) => LineReply::Answered(Reply::Durable(mark)),
        Err(refusal) => LineReply::Answered(Reply::Refused(refusal)),
    }
}

/// Flushes until nothing is left to close: one flush closes one group, which doesn't take more
/// commits than a group may have.
fn flush_all<L: Run, D: Disk, R: Wait>(
    rt: &R,
    engine: &Engine<L, D, OpenGate>,
) -> Result<Stamp, Refusal> {
    let mut last = engine.flush(rt)?;
    for _ in rt.forever() {
        let mark = engine.flush(rt)?;
        if mark == last {
            return Ok(mark);
        }
        last = mark;
    }
    unreachable!()
}
