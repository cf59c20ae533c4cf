//! Reads as much of a file as counts of it.
ghost use Rattle.std.specs.Prelude.{◌≡◌, ◌<◌, ◌≤◌, ◌+◌, ◌^◌, length, take, drop, IfOk, IfErr};
ghost use Rattle.mvo_types.specs.declared.limits.TheConstants.{MAX_SEGMENT_LEN};
ghost use Rattle.mvo_pair.specs.Loading.{data_reach, delta_reach};
ghost use Rattle.mvo_pair.specs.Writing.{IsStop};
ghost use Rattle.mvo_disk.specs.Disk.{IsHonest};
ghost use Rattle.mvo_load.specs.Read.{HasRead};

use crate::stop::stop_of;
use mvo_disk::{Disk, read_up_to};
use mvo_pair::Pair;
use mvo_types::{MAX_SEGMENT_LEN, Refusal};
use std::alloc::Global;

/// The bytes of a segment, as far as one may reach.
pub fn log_on<D: Disk>(alloc: Global, disk: &mut D, file: u16) -> Result<Vec<u8>, Refusal>
    requires file { file < 1024 }
    requires room { D.fault_count disk.old + 1 < 2 ^ 64 }
    ensures bytes { IsHonest (D.moment disk.new) → IfOk result (λ v.
        v.items ≡ take MAX_SEGMENT_LEN (D.content disk.old file)) }
    ensures stopped { IfErr result IsStop }
    ensures read { HasRead D.Disk disk.old disk.new result }
{
    match read_up_to(alloc, disk, file, MAX_SEGMENT_LEN as usize) {
        Ok(bytes) => Ok(bytes),
        Err(failure) => Err(stop_of(failure)),
    }
}

/// The bytes of the data file of a pair, as far as its records may reach.
pub fn data_on<D: Disk>(
    alloc: Global,
    disk: &mut D,
    upto: u32,
    pair: Pair,
) -> Result<Vec<u8>, Refusal>
    requires file { pair.data_file < 1024 }
    requires room { D.fault_count disk.old + 1 < 2 ^ 64 }
    ensures bytes { IsHonest (D.moment disk.new) → IfOk result (λ v.
        v.items ≡ take (data_reach upto pair) (D.content disk.old pair.data_file)) }
    ensures stopped { IfErr result IsStop }
    ensures read { HasRead D.Disk disk.old disk.new result }
{
    match read_up_to(alloc, disk, pair.data_file, pair.data_reach(upto)) {
        Ok(bytes) => Ok(bytes),
        Err(failure) => Err(stop_of(failure)),
    }
}

/// The bytes of its delta file, as far as its numbers reach.
pub fn delta_on<D: Disk>(alloc: Global, disk: &mut D, pair: Pair) -> Result<Vec<u8>, Refusal>
    requires file { pair.delta_file < 1024 }
    requires room { D.fault_count disk.old + 1 < 2 ^ 64 }
    ensures bytes { IsHonest (D.moment disk.new) → IfOk result (λ v.
        v.items ≡ take (delta_reach pair) (D.content disk.old pair.delta_file)) }
    ensures stopped { IfErr result IsStop }
    ensures read { HasRead D.Disk disk.old disk.new result }
{
    match read_up_to(alloc, disk, pair.delta_file, pair.delta_reach()) {
        Ok(bytes) => Ok(bytes),
        Err(failure) => Err(stop_of(failure)),
    }
}

/// So many bytes of a file at most, from a place on, and how many the file has; none where the
/// place lies behind its end.
pub fn bytes_from<D: Disk>(
    alloc: Global,
    disk: &mut D,
    file: u16,
    place: usize,
    most: usize,
) -> Result<(Vec<u8>, usize), Refusal>
    requires file { file < 1024 }
    requires room { D.fault_count disk.old + 1 < 2 ^ 64 }
    ensures len { IsHonest (D.moment disk.new) → IfOk result (λ x.
        x.1 ≡ length (D.content disk.old file)) }
    ensures bytes { IsHonest (D.moment disk.new) → IfOk result (λ x.
        x.0.items ≡ take most (drop place (D.content disk.old file))) }
    ensures within { IfOk result (λ x. place + length x.0.items < 2 ^ 64) }
    ensures few { IfOk result (λ x. length x.0.items ≤ x.1) }
    ensures most { IfOk result (λ x. length x.0.items ≤ most) }
    ensures stopped { IfErr result IsStop }
    ensures read { HasRead D.Disk disk.old disk.new result }
{
    let Ok(len) = disk.len(file) else {
        return Err(Refusal::DiskFault);
    };
    if place > len {
        return Ok((Vec::new(alloc), len));
    }
    let mut bytes = vec![in alloc; 0u8; most.min(len - place)]?;
    match disk.read_at(file, place, &mut bytes) {
        Ok(()) => Ok((bytes, len)),
        Err(_) => Err(Refusal::DiskFault),
    }
}
