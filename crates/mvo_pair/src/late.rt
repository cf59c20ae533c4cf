//! Reads the numbers of a delta file that came late.
ghost use Rattle.std.specs.Prelude.{◌≡◌, ◌<◌, ◌≤◌, ◌+◌, ◌-◌, ◌/◌, ◌^◌, length, IfOk, IfErr};
ghost use Rattle.mvo_disk.specs.Disk.{AllStay, AllOf, LeavesOnly, IsHonest};
ghost use Rattle.mvo_pair.specs.Late.{AreThoseFrom, numbers_upto};
ghost use Rattle.mvo_pair.specs.Writing.{CountsFaults, IsStop, place_behind};

use crate::delta::NUMBER;
use crate::header::HEADER;
use crate::number::u32_at;
use crate::pair::Pair;
use mvo_disk::Disk;
use mvo_types::Refusal;
use std::alloc::{AllocError, Global};

/// The numbers in the bytes, one behind another.
fn decode_numbers(alloc: Global, bytes: &[u8]) -> Result<Vec<u32>, AllocError>
    ensures { IfOk result (λ v. v.items ≡ numbers_upto (length bytes.now / 4) bytes.now) }
{
    let count = bytes.len() / NUMBER;
    let mut numbers = Vec::with_capacity(alloc, count)?;
    for place in 0..count {
        numbers.push(u32_at(bytes, NUMBER * place))?;
    }
    Ok(numbers)
}

/// Of the numbers that count in the pair's delta file, those from a place on, counted from 0, if
/// the disk is still honest then. Nothing of the file before them is read, and nothing behind them.
/// Nothing changes, and no stop within it leaves anything new.
///
/// It takes eight bytes of memory a number. Refused: OutOfMemory, or DiskFault where the call
/// failed.
pub fn late_numbers<D: Disk>(
    alloc: Global,
    disk: &mut D,
    pair: Pair,
    from: u32,
) -> Result<Vec<u32>, Refusal>
    requires file { pair.delta_file < 1024 }
    requires room { D.fault_count disk.old + 1 < 2 ^ 64 }
    requires before { from ≤ pair.entries }
    requires counted { IsHonest (D.moment disk.old) →
        place_behind pair.entries ≤ length (D.content disk.old pair.delta_file) }
    ensures late { IfOk result (λ v. IsHonest (D.moment disk.new) → AreThoseFrom from pair.entries
        (D.content disk.old pair.delta_file) v.items) }
    ensures many { IfOk result (λ v. length v.items ≡ pair.entries - from) }
    ensures why { IfErr result IsStop }
    ensures count { CountsFaults (D.fault_count disk.old) (D.fault_count disk.new) result }
    ensures rest { AllStay (D.content disk.old) (D.content disk.new) (D.may_leave disk.old)
        (D.may_leave disk.new) }
    ensures any_moment { LeavesOnly D.moment D.left_since disk.old disk.new
        (AllOf (D.may_leave disk.old)) }
{
    let len = NUMBER * (pair.entries - from) as usize;
    let mut bytes = vec![in alloc; 0u8; len]?;
    match disk.read_at(pair.delta_file, HEADER + NUMBER * from as usize, &mut bytes) {
        Ok(()) => Ok(decode_numbers(alloc, &bytes)?),
        Err(_) => Err(Refusal::DiskFault),
    }
}
