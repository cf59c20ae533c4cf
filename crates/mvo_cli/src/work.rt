//! Runs scripts as jobs over the store in a folder.
use crate::fault::Fault;
use crate::folders::Folders;
use crate::jobs::{WorkError, work_over};
use crate::script_file::read_script;
use crate::seed::draw_seed;
use crate::shown_jobs::ShownJobs;
use crate::work_task::WorkTask;
use mvo_disk::Disk;
use mvo_engine::Fresh;
use mvo_front::Job;
use std::alloc::{AllocError, Global};
use std::fs::{File, Files};
use std::io::{self, BufWriter};
use std::random::RandomSource;
use std::sync::Wait;
use std::sync::atomic::AtomicU64;
use std::thread::Threads;
use std::time::Clock;

/// Opens the store in the folder, reads the scripts, and runs them, as many at once as there are
/// workers. Nothing is run where the folder isn't opened or a script isn't read.
pub fn work_in<R>(rt: &R, task: &WorkTask<'_>, is_terminal: bool) -> Result<(), Fault>
where
    R: AllocGlobal
        + Print
        + Eprint
        + Files<File = File>
        + RandomSource
        + Clock
        + Folders
        + Threads
        + Wait
        + Sync,
{
    match rt.open_folder(task.folder, is_terminal) {
        Ok(disk) => work_on(rt, task, is_terminal, disk),
        Err(fault) => Err(fault),
    }
}

/// The same over the store on a disk.
fn work_on<D: Disk + Drop + Send, R>(
    rt: &R,
    task: &WorkTask<'_>,
    is_terminal: bool,
    disk: D,
) -> Result<(), Fault>
where
    R: AllocGlobal
        + Print
        + Eprint
        + Files<File = File>
        + RandomSource
        + Clock
        + Threads
        + Wait
        + Sync,
{
    match open_fresh(rt, rt.alloc(), disk) {
        Ok(fresh) => work_over_files(rt, task, is_terminal, fresh),
        Err(fault) => Err(fault),
    }
}

/// The parts of the store on a disk.
pub fn open_fresh<D: Disk + Drop>(
    rt: &(impl RandomSource + Threads + Sync),
    alloc: Global,
    disk: D,
) -> Result<Fresh<D>, Fault> {
    let seed = draw_seed(rt)?;
    match Fresh::open(rt, alloc, seed, disk) {
        Ok(fresh) => Ok(fresh),
        Err((refusal, _)) => Err(Fault::Refused(refusal)),
    }
}

/// The same over an opened store.
fn work_over_files<D: Disk + Drop + Send, R>(
    rt: &R,
    task: &WorkTask<'_>,
    is_terminal: bool,
    fresh: Fresh<D>,
) -> Result<(), Fault>
where
    R: AllocGlobal + Print + Eprint + Files<File = File> + Clock + Threads + Wait + Sync,
{
    match read_jobs(rt, task.files()) {
        Ok(jobs) => run_jobs(rt, task, is_terminal, fresh, jobs),
        Err(fault) => Err(fault),
    }
}

/// The jobs of the files' scripts, numbered from 1.
fn read_jobs(
    rt: &(impl AllocGlobal + Files<File = File>),
    paths: &[&str],
) -> Result<Vec<Job>, Fault> {
    let mut jobs = Vec::new(rt.alloc());
    let mut number = 0u32;
    for path in paths {
        number = number.saturating_add(1);
        let script = read_script(rt, path)?;
        jobs.push(Job { number, script }).map_err(AllocError::from)?;
    }
    Ok(jobs)
}

/// Runs the jobs, and prints what came of them.
fn run_jobs<D: Disk + Drop + Send, R>(
    rt: &R,
    task: &WorkTask<'_>,
    is_terminal: bool,
    fresh: Fresh<D>,
    jobs: Vec<Job>,
) -> Result<(), Fault>
where
    R: AllocGlobal + Print + Eprint + Clock + Threads + Wait + Sync,
{
    let alloc = rt.alloc();
    let commits = AtomicU64::new(0);
    let shown = ShownJobs::new(rt, is_terminal, jobs.len(), &commits);
    let Ok(mut writer) = BufWriter::new(alloc, io::writer(rt)) else {
        return Err(Fault::OutOfMemory);
    };
    match work_over(
        rt,
        alloc,
        fresh,
        jobs,
        task.workers.count(),
        task.keeps,
        &shown,
        &commits,
        &mut writer,
    ) {
        Ok(()) => Ok(()),
        Err(WorkError::OutOfMemory) => Err(Fault::OutOfMemory),
        Err(WorkError::Write(error)) => Err(Fault::Print(error)),
    }
}
