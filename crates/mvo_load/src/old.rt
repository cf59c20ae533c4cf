//! Finds out whether a file is of an older version than the one that is written.
ghost use Rattle.std.specs.Prelude.{◌≡◌, ◌<◌, ◌+◌, ◌^◌, take, IfOk, IfErr};
ghost use Rattle.mvo_format.specs.declared.header.TheConstants.{HEADER_LEN};
ghost use Rattle.mvo_format.specs.Found.{header_at};
ghost use Rattle.mvo_pair.specs.Writing.{IsStop};
ghost use Rattle.mvo_disk.specs.Disk.{IsHonest};
ghost use Rattle.mvo_load.specs.Read.{HasRead};
ghost use Rattle.mvo_load.specs.Old.{is_of_first, is_old};

use crate::stop::stop_of;
use mvo_bytes::u32_at;
use mvo_disk::{Disk, read_up_to};
use mvo_format::{FIRST_FORMAT, HEADER_LEN};
use mvo_types::Refusal;
use std::alloc::Global;

/// Whether the version in a header is the first one.
#[tactic(auto, unfolding(mvo_format::specs::Found::header_at))]
fn is_of_first(bytes: &[u8]) -> bool
    ensures { result ≡ is_of_first (header_at bytes.now) }
{
    let Some((_, rest)) = u32_at(bytes) else {
        return false;
    };
    let Some((version, _)) = u32_at(rest) else {
        return false;
    };
    version == FIRST_FORMAT.version
}

/// The header of a file, or as much of it as there is.
fn header_on<D: Disk>(alloc: Global, disk: &mut D, file: u16) -> Result<Vec<u8>, Refusal>
    requires file { file < 1024 }
    requires room { D.fault_count disk.old + 1 < 2 ^ 64 }
    ensures bytes { IsHonest (D.moment disk.new) → IfOk result (λ v.
        v.items ≡ take HEADER_LEN (D.content disk.old file)) }
    ensures stopped { IfErr result IsStop }
    ensures read { HasRead D.Disk disk.old disk.new result }
{
    match read_up_to(alloc, disk, file, HEADER_LEN) {
        Ok(bytes) => Ok(bytes),
        Err(failure) => Err(stop_of(failure)),
    }
}

/// Whether a file on a disk is of an older version than the one that is written. No more of it is
/// read than its header.
///
/// Refused: OutOfMemory, for want of memory alone, and DiskFault, for a call of the device that
/// failed.
pub fn is_old_on<D: Disk>(alloc: Global, disk: &mut D, file: u16) -> Result<bool, Refusal>
    requires file { file < 1024 }
    requires room { D.fault_count disk.old + 1 < 2 ^ 64 }
    ensures is { IsHonest (D.moment disk.new) → IfOk result (λ old.
        old ≡ is_old (D.content disk.old file)) }
    ensures stopped { IfErr result IsStop }
    ensures read { HasRead D.Disk disk.old disk.new result }
{
    match header_on(alloc, disk, file) {
        Ok(bytes) => Ok(is_of_first(&bytes)),
        Err(e) => Err(e),
    }
}
