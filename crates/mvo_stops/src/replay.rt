//! Makes calls of the device again, on a disk in memory.
use crate::error::StopsError;
use mvo_disk::{Call, DeviceWork, Disk, FILE_COUNT, FileImage, MemDisk};

/// Writes a file that is empty, and syncs it.
pub fn write_whole(disk: &mut MemDisk, image: &FileImage) -> Result<(), StopsError> {
    if image.file >= FILE_COUNT || disk.faults() != 0 {
        return Err(StopsError::NotAnImage);
    }
    disk.write_at(image.file, 0, &image.bytes)?;
    sync(disk, image.file)
}

/// Makes a call again, if it changes a file or what a stop may leave of it.
pub fn make(disk: &mut MemDisk, call: &Call) -> Result<(), StopsError> {
    if call.file >= FILE_COUNT || disk.faults() != 0 {
        return Err(StopsError::NotAnImage);
    }
    let len = disk.bytes(call.file).len();
    match &call.work {
        DeviceWork::Length | DeviceWork::Read { .. } => {}
        DeviceWork::Write { at, bytes, .. } if *at <= len => disk.write_at(call.file, *at, bytes)?,
        DeviceWork::Cut { new_len, .. } if *new_len <= len => disk.cut(call.file, *new_len)?,
        DeviceWork::Sync => disk.sync(call.file)?,
        DeviceWork::Write { .. } | DeviceWork::Cut { .. } => return Err(StopsError::NotAnImage),
    }
    Ok(())
}

fn sync(disk: &mut MemDisk, file: u16) -> Result<(), StopsError> {
    if file >= FILE_COUNT || disk.faults() != 0 {
        return Err(StopsError::NotAnImage);
    }
    disk.sync(file)?;
    Ok(())
}
