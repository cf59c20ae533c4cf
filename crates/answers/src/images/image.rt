use anyhow::{Result, bail};
use mvo_disk::{Disk, FILE_COUNT, MemDisk, rewrite_synced};
use std::alloc::Global;

/// The disk with the files of a line.
pub fn disk_of(alloc: Global, line: &str) -> Result<MemDisk> {
    let mut disk = MemDisk::new(alloc)?;
    for word in line.split(' ') {
        if !word.is_empty() {
            put(alloc, &mut disk, word)?;
        }
    }
    Ok(disk)
}

/// Gives a file its bytes.
fn put(alloc: Global, disk: &mut MemDisk, word: &str) -> Result<()> {
    let Some((number, digits)) = word.split_once(':') else {
        bail!("no FILE:DIGITS: {word}");
    };
    let file = number.parse::<u16>()?;
    let bytes = hex::decode(alloc, digits)?;
    if file >= FILE_COUNT || disk.faults() > 0 {
        bail!("no such file, or a fault: {word}");
    }
    match rewrite_synced(disk, file, &bytes) {
        Ok(()) => Ok(()),
        Err(_) => bail!("out of memory"),
    }
}
