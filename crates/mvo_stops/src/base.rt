use crate::error::StopsError;
use crate::recorded::Recorded;
use crate::replay::make;
use crate::script_start::ScriptStart;
use mvo_disk::{Call, DeviceWork, MemDisk};
use std::alloc::{AllocError, Global};

/// What the disk held behind some of a script's calls, when all of it was synced. Moments that come
/// soon behind that are made from here.
#[derive(Drop)]
pub struct Base {
    pub start: ScriptStart,
    /// So many calls were made.
    pub made: usize,
}

impl Base {
    /// The last one before the call at this place, from 0.
    pub fn before(recorded: &Recorded, place: usize) -> Result<Base, StopsError> {
        let made = last_synced(recorded, place)?;
        let disk = disk_after(recorded, made)?;
        Ok(Base {
            start: ScriptStart::of(recorded.alloc, &disk)?,
            made,
        })
    }
}

/// How many of the calls before a place are made, at most, where all is synced.
fn last_synced(recorded: &Recorded, place: usize) -> Result<usize, AllocError> {
    let mut loose = Vec::new(recorded.alloc);
    let mut made = 0;
    for (at, call) in recorded.calls().iter().take(place).enumerate() {
        if !recorded.is_forgotten(at) {
            note(&mut loose, call)?;
        }
        if loose.is_empty() {
            made = at.saturating_add(1);
        }
    }
    Ok(made)
}

/// Notes which files aren't synced after a call.
fn note(loose: &mut Vec<u16>, call: &Call) -> Result<(), AllocError> {
    match &call.work {
        DeviceWork::Length | DeviceWork::Read { .. } => {}
        DeviceWork::Write { .. } | DeviceWork::Cut { .. } => {
            if !loose.contains(&call.file) {
                loose.push(call.file)?;
            }
        }
        DeviceWork::Sync => {
            if let Some(at) = loose.iter().position(|file| *file == call.file) {
                loose.swap_remove(at);
            }
        }
    }
    Ok(())
}

/// The disk behind so many of the calls.
fn disk_after(recorded: &Recorded, made: usize) -> Result<MemDisk, StopsError> {
    let mut disk = recorded.start.disk()?;
    recorded.make_between(&mut disk, 0, made)?;
    Ok(disk)
}
