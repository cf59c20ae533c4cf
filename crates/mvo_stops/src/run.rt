//! Runs a script's lines over a disk.
use crate::error::StopsError;
use crate::history::History;
use mvo_disk::{Disk, MemDisk};
use mvo_script::{Driver, LineReply};
use mvo_types::Refusal;
use mvo_world::{Reply, World};
use std::alloc::{AllocError, Global};
use std::thread::Threads;

/// What a script left.
pub struct Ran {
    pub disk: MemDisk,
    pub history: History,
    /// The place of the first line that was answered with a fault of the disk.
    pub fault: Option<usize>,
}

impl Drop for Ran {
    fn drop(self) {
        let Ran {
            disk: _,
            history: _,
            fault: _,
        } = self;
    }
}

impl Ran {
    /// What the replies say, and the place of the line with the fault.
    pub fn into_history(self) -> (History, Option<usize>) {
        let Ran {
            disk: _,
            history,
            fault,
        } = self;
        (history, fault)
    }

    /// The same, and the disk as it stands.
    pub fn into_parts(self) -> (History, Option<usize>, MemDisk) {
        let Ran {
            disk,
            history,
            fault,
        } = self;
        (history, fault, disk)
    }

    /// The disk as it stands.
    pub fn into_disk(self) -> MemDisk {
        let Ran {
            disk,
            history: _,
            fault: _,
        } = self;
        disk
    }
}

/// Whether the disk met a fault at the line.
pub fn is_fault(reply: &LineReply) -> bool {
    matches!(
        reply,
        LineReply::Answered(Reply::Refused(Refusal::DiskFault))
    )
}

/// A driver over the store on a disk.
pub fn driver_over(
    rt: &(impl Threads + Sync),
    alloc: Global,
    seed: u64,
    disk: MemDisk,
) -> Result<Driver<MemDisk>, StopsError> {
    match World::open(rt, alloc, seed, disk) {
        Ok(world) => Ok(Driver::over(alloc, world)),
        Err((Refusal::OutOfMemory, _)) => Err(StopsError::OutOfMemory),
        Err((refusal, _)) => Err(StopsError::Start(refusal)),
    }
}

/// Runs the lines over the store on a disk, also past a fault.
pub fn run_lines(
    rt: &(impl Threads + Sync),
    alloc: Global,
    seed: u64,
    disk: MemDisk,
    lines: &[Vec<u8>],
) -> Result<Ran, StopsError> {
    let mut driver = driver_over(rt, alloc, seed, disk)?;
    let mut history = History::new(alloc, driver.mark());
    let fault = answer_all(&mut driver, &mut history, lines)?;
    let disk = driver.into_world().into_disk();
    Ok(Ran {
        disk,
        history,
        fault,
    })
}

/// Answers the lines and notes the replies. The place of the first line that met a fault.
fn answer_all<D: Disk>(
    driver: &mut Driver<D>,
    history: &mut History,
    lines: &[Vec<u8>],
) -> Result<Option<usize>, AllocError> {
    let mut fault = None;
    for (place, line) in lines.iter().enumerate() {
        let reply = driver.answer(line);
        history.note(line, &reply)?;
        if fault.is_none() && is_fault(&reply) {
            fault = Some(place);
        }
    }
    Ok(fault)
}
