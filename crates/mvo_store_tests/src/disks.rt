//! Disks, and what their files hold.
use crate::equal::{holds, holds_at, same_at};
use mvo_disk::{DeviceWork, Disk, FileImage, MemDisk};
use mvo_store::format;
use std::alloc::Global;
use std::process::Abort;
use std::test::Fail;

/// The disk with these bytes in a file that was empty, synced or not.
pub(crate) fn written(mut disk: MemDisk, file: u16, bytes: &[u8]) -> Result<MemDisk, Fail> {
    if file > 7 || disk.faults() != 0 || !disk.bytes(file).is_empty() {
        return Err(Fail::from("an empty file"));
    }
    disk.write_at(file, 0, bytes)?;
    Ok(disk)
}

/// A disk whose file has these bytes.
pub(crate) fn holding(alloc: Global, file: u16, bytes: &[u8]) -> Result<MemDisk, Fail> {
    written(MemDisk::new(alloc)?, file, bytes)
}

pub(crate) fn formatted(alloc: Global, disk: MemDisk) -> Result<MemDisk, Fail> {
    match format(alloc, disk) {
        Ok(disk) => Ok(disk),
        Err((refusal, _)) => Err(Fail::from(refusal)),
    }
}

/// A new disk with a new store.
pub(crate) fn new_disk(alloc: Global) -> Result<MemDisk, Fail> {
    formatted(alloc, MemDisk::new(alloc)?)
}

/// The disk after a stop that takes nothing away.
pub(crate) fn stopped(mut disk: MemDisk) -> Result<MemDisk, Fail> {
    disk.stop(&[])?;
    Ok(disk)
}

/// Each of these files holds its bytes.
pub(crate) fn hold(rt: &impl Abort, disk: &MemDisk, files: &[(u16, &[u8])]) {
    for (file, bytes) in files {
        holds(rt, *file < 16);
        same_at(rt, *file as usize, &disk.bytes(*file), bytes);
    }
}

/// The files of both disks hold the same.
pub(crate) fn are_same(rt: &impl Abort, first: &MemDisk, second: &MemDisk) {
    for file in 0..16 {
        same_at(rt, file as usize, &first.bytes(file), &second.bytes(file));
    }
}

/// The file begins with these bytes.
pub(crate) fn begins(rt: &impl Abort, disk: &MemDisk, file: u16, bytes: &[u8]) {
    holds(rt, file < 16);
    holds_at(rt, file as usize, disk.bytes(file).starts_with(bytes));
}

/// Each of these files is so long.
pub(crate) fn are_long(rt: &impl Abort, disk: &MemDisk, files: &[(u16, usize)]) {
    for (file, len) in files {
        holds(rt, *file < 8);
        same_at(rt, *file as usize, &disk.bytes(*file).len(), len);
    }
}

// The file that the last call wrote, with half of what it wrote at the file's end.
fn half_written(alloc: Global, disk: &MemDisk) -> Result<Option<FileImage>, Fail> {
    let Some(call) = disk.calls().last() else {
        return Ok(None);
    };
    let DeviceWork::Write { at, len, .. } = &call.work else {
        return Ok(None);
    };
    if call.file > 15 {
        return Ok(None);
    }
    let kept = at.saturating_add(len / 2);
    let whole = disk.bytes(call.file);
    if at.saturating_add(*len) != whole.len() || kept > whole.len() {
        return Ok(None);
    }
    let bytes = whole[..kept].to_vec(alloc)?;
    Ok(Some(FileImage {
        file: call.file,
        bytes,
    }))
}

/// Whether the disk stops with half of the last write. Of a slot that was longer before, half isn't
/// left.
pub(crate) fn stops_halfway(alloc: Global, disk: &mut MemDisk) -> Result<bool, Fail> {
    match half_written(alloc, disk)? {
        Some(image) => Ok(disk.stop(&[image]).is_ok()),
        None => Ok(false),
    }
}
