//! Calls of a disk, made where a few faults were counted at most and the range lies in the file.
ghost use Rattle.std.specs.Prelude.{◌<◌};
ghost use Rattle.mvo_disk.specs.declared.limits.TheConstants.{FILE_COUNT};

use mvo_disk::{Disk, DiskFault, ReadFailure, read_up_to};
use std::alloc::Global;

/// How many faults are a few.
const FEW_FAULTS: u64 = 64;

/// The length of a file.
pub fn len<D: Disk>(disk: &mut D, file: u16) -> Result<usize, DiskFault>
    requires { file < FILE_COUNT }
{
    if disk.faults() > FEW_FAULTS {
        return Err(DiskFault);
    }
    disk.len(file)
}

/// Writes from a place in the file, or from its end.
pub fn write<D: Disk>(disk: &mut D, file: u16, at: usize, bytes: &[u8]) -> Result<(), DiskFault>
    requires { file < FILE_COUNT }
{
    if disk.faults() > FEW_FAULTS || disk.len(file)? < at {
        return Err(DiskFault);
    }
    disk.write_at(file, at, bytes)
}

/// Writes, and syncs the file.
pub fn put<D: Disk>(disk: &mut D, file: u16, at: usize, bytes: &[u8]) -> Result<(), DiskFault>
    requires { file < FILE_COUNT }
{
    write(disk, file, at, bytes)?;
    sync(disk, file)
}

/// Cuts the file, if it is longer.
pub fn cut<D: Disk>(disk: &mut D, file: u16, len: usize) -> Result<(), DiskFault>
    requires { file < FILE_COUNT }
{
    if disk.faults() > FEW_FAULTS || disk.len(file)? < len {
        return Err(DiskFault);
    }
    disk.cut(file, len)
}

/// Syncs the file.
pub fn sync<D: Disk>(disk: &mut D, file: u16) -> Result<(), DiskFault>
    requires { file < FILE_COUNT }
{
    if disk.faults() > FEW_FAULTS {
        return Err(DiskFault);
    }
    disk.sync(file)
}

/// Reads two bytes from a place in the file.
pub fn read_two<D: Disk>(disk: &mut D, file: u16, at: usize) -> Result<[u8; 2], DiskFault>
    requires { file < FILE_COUNT }
{
    if disk.faults() > FEW_FAULTS {
        return Err(DiskFault);
    }
    let len = disk.len(file)?;
    if len < 2 || len - 2 < at {
        return Err(DiskFault);
    }
    let mut into = [0; 2];
    disk.read_at(file, at, &mut into)?;
    Ok(into)
}

/// The first bytes of the file, so many at most.
pub fn read<D: Disk>(
    alloc: Global,
    disk: &mut D,
    file: u16,
    most: usize,
) -> Result<Vec<u8>, ReadFailure>
    requires { file < FILE_COUNT }
{
    if disk.faults() > FEW_FAULTS {
        return Err(ReadFailure::Fault);
    }
    read_up_to(alloc, disk, file, most)
}
