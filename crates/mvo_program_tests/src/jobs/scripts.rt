use crate::disks::formatted;
use crate::equal::same;
use mvo_cli::work_over;
use mvo_disk::MemDisk;
use mvo_engine::{Fresh, Gate, OpenGate, Place};
use mvo_front::Job;
use std::alloc::{AllocError, Global};
use std::sync::Wait;
use std::sync::atomic::{AtomicU64, Ordering};
use std::test::*;
use std::thread;
use std::thread::Threads;

const SEED: u64 = 7;

/// Two scripts that commit a row each.
const SCRIPTS: [&str; 2] = [
    "begin a\ninsert a 0 1 10 61\ncommit a\n",
    "begin b\ninsert b 0 2 10 62\ncommit b\n",
];

/// A store without rows whose disk fails at the first call behind its opening.
fn opened_to_fail(rt: &(impl Threads + Sync), alloc: Global) -> Result<Fresh<MemDisk>, Fail> {
    for calls in 0..100 {
        let mut disk = formatted(alloc)?;
        disk.fail_at(calls);
        if let Ok(fresh) = Fresh::open(rt, alloc, SEED, disk) {
            return Ok(fresh);
        }
    }
    Err(Fail::from("the store isn't opened"))
}

/// A store without rows.
fn opened(rt: &(impl Threads + Sync), alloc: Global) -> Result<Fresh<MemDisk>, Fail> {
    match Fresh::open(rt, alloc, SEED, formatted(alloc)?) {
        Ok(fresh) => Ok(fresh),
        Err((refusal, _)) => Err(Fail::from(refusal)),
    }
}

/// The jobs of these scripts, from number 1 on.
fn jobs_of(alloc: Global, scripts: &[&str]) -> Result<Vec<Job>, AllocError> {
    let mut jobs = Vec::new(alloc);
    let mut number = 0u32;
    for script in scripts {
        number = number.saturating_add(1);
        let script = script.as_bytes().to_vec(alloc)?;
        jobs.push(Job { number, script })?;
    }
    Ok(jobs)
}

/// What is printed of the jobs, by as many workers.
fn printed<G: Gate + Sync, R: Threads + Wait + Sync>(
    rt: &R,
    alloc: Global,
    fresh: Fresh<MemDisk>,
    scripts: &[&str],
    gate: &G,
) -> Result<Vec<u8>, Fail> {
    let jobs = jobs_of(alloc, scripts)?;
    let commits = AtomicU64::new(0);
    let mut printed = Vec::new(alloc);
    work_over(
        rt,
        alloc,
        fresh,
        jobs,
        scripts.len(),
        false,
        gate,
        &commits,
        &mut printed,
    )?;
    Ok(printed)
}

/// Where the last flush is refused, the refusal stands in the place of the mark.
#[test]
fn a_refused_flush_is_printed(rt: HostRuntime) -> Result<(), Fail> {
    let alloc = rt.alloc();
    let fresh = opened_to_fail(&rt, alloc)?;
    let told = printed(&rt, alloc, fresh, &[SCRIPTS[0]], &OpenGate)?;
    let text = b"job 1\nbegan 1\ninserted\ncommitted 2\nrefused 50\n";
    same(&rt, &told.as_slice(), &text.as_slice());
    Ok(())
}

/// Holds job 1 until job 2 is answered, 10,000 turns at most.
#[derive(Drop)]
struct Meeting {
    second: AtomicU64,
    met: AtomicU64,
}

impl Gate for Meeting {
    fn pass(&self, place: Place) {
        match place {
            Place::JobEnd(2) => self.second.store(1, Ordering::SeqCst),
            Place::JobStart(1) => self.wait(),
            _ => {}
        }
    }
}

impl Meeting {
    fn wait(&self) {
        for _ in 0..10_000 {
            if self.second.load(Ordering::SeqCst) == 1 {
                self.met.store(1, Ordering::SeqCst);
                return;
            }
            for _ in 0..100 {
                thread::yield_now();
            }
        }
    }
}

#[test]
fn two_jobs_meet(rt: HostRuntime) -> Result<(), Fail> {
    let alloc = rt.alloc();
    let gate = Meeting {
        second: AtomicU64::new(0),
        met: AtomicU64::new(0),
    };
    let told = printed(&rt, alloc, opened(&rt, alloc)?, &SCRIPTS, &gate)?;
    same(&rt, &gate.met.load(Ordering::SeqCst), &1);
    let text = b"job 1\nbegan 3\ninserted\ncommitted 4\njob 2\nbegan 1\ninserted\ncommitted 2\n\
        durable 4\n";
    same(&rt, &told.as_slice(), &text.as_slice());
    Ok(())
}
