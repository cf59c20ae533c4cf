//! Serves clients over the store in a folder.
ghost use Rattle.mvo_engine.specs.Opened.{IsNamedBy};

use crate::clients::{ClientPipes, ClientWork};
use crate::fault::Fault;
use crate::folders::Folders;
use crate::jobs::{flushed, run_kept};
use crate::serve_task::ServeTask;
use crate::work::open_fresh;
use mvo_disk::Disk;
use mvo_engine::{Engine, Fresh, OpenGate, Run};
use mvo_front::{Job, JobWork, Outcome, run};
use std::alloc::{AllocError, Global};
use std::io::{self, Write};
use std::marker::Brand;
use std::random::RandomSource;
use std::sync::Wait;
use std::thread::Threads;

/// Opens the store in the folder and answers the lines of clients until one says `stop`. Then it
/// makes each commit durable. Nothing is done where the folder isn't opened, or a pipe isn't there.
pub fn serve_in<R>(rt: &R, task: &ServeTask<'_>, is_terminal: bool) -> Result<(), Fault>
where
    R: AllocGlobal + Print + Eprint + RandomSource + Folders + Threads + Wait + Sync,
{
    let pipes = rt.pipes_in(task.pipes)?;
    pipes.check(task.clients.count())?;
    match rt.open_folder(task.folder, is_terminal) {
        Ok(disk) => serve_on(rt, task, &pipes, disk),
        Err(fault) => Err(fault),
    }
}

/// The same over the store on a disk.
fn serve_on<D, P, R>(rt: &R, task: &ServeTask<'_>, pipes: &P, disk: D) -> Result<(), Fault>
where
    D: Disk + Drop + Send,
    P: ClientPipes + Drop + Sync,
    R: AllocGlobal + Print + RandomSource + Threads + Wait + Sync,
{
    match open_fresh(rt, rt.alloc(), disk) {
        Ok(fresh) => serve_by::<Brand, D, P, R>(rt, task, pipes, fresh),
        Err(fault) => Err(fault),
    }
}

/// The same over an opened store, for every run, which its parts name.
fn serve_by<L, D, P, R>(
    rt: &R,
    task: &ServeTask<'_>,
    pipes: &P,
    fresh: Fresh<D>,
) -> Result<(), Fault>
where
    L: Run + Send + Sync,
    D: Disk + Drop + Send,
    P: ClientPipes + Drop + Sync,
    R: AllocGlobal + Print + Threads + Wait + Sync,
    requires { IsNamedBy D.Disk L.opening L.marks L.ring L.name L.parts fresh }
{
    let (alloc, clients) = (rt.alloc(), task.clients.count());
    let engine = Engine::<L, D, OpenGate>::new(fresh, OpenGate);
    let work = ClientWork::new(alloc, &engine, pipes, clients);
    writeln!(io::writer(rt), "serving {clients}").map_err(Fault::Print)?;
    let outcomes = serve_all(rt, alloc, task, &work, &engine)?;
    let last = flushed(rt, &engine);
    writeln!(io::writer(rt), "{last}").map_err(Fault::Print)?;
    are_served(outcomes)
}

/// Serves all clients, and keeps the store meanwhile, where that is wanted.
fn serve_all<L, D, W, R>(
    rt: &R,
    alloc: Global,
    task: &ServeTask<'_>,
    work: &W,
    engine: &Engine<L, D, OpenGate>,
) -> Result<Vec<Outcome>, Fault>
where
    L: Run + Send + Sync,
    D: Disk + Drop + Send,
    W: JobWork + Sync,
    R: Threads + Wait + Sync,
{
    let clients = task.clients.count();
    let jobs = numbered(alloc, clients)?;
    let served = match task.keeps {
        true => run_kept(rt, alloc, jobs, clients, work, engine),
        false => run(rt, alloc, jobs, clients, work),
    };
    Ok(served?)
}

/// A job for each client, without a script: its lines come as it writes them.
fn numbered(alloc: Global, clients: usize) -> Result<Vec<Job>, AllocError> {
    let mut jobs = Vec::new(alloc);
    let mut number = 0u32;
    for _ in 0..clients {
        number = number.saturating_add(1);
        let script = Vec::new(alloc);
        jobs.push(Job { number, script })?;
    }
    Ok(jobs)
}

/// Whether each client was served to the end.
fn are_served(outcomes: Vec<Outcome>) -> Result<(), Fault> {
    for outcome in outcomes {
        let Outcome { number: _, replies } = outcome;
        let text = replies?;
        if !text.is_empty() {
            return Err(Fault::Unserved(text));
        }
    }
    Ok(())
}
