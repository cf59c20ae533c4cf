//! Reads one pair from a disk in slices.
ghost use Rattle.std.specs.Prelude.{◌⊎◌, ◌<◌, ◌+◌, ◌^◌, ◌++◌, ℕ, List, [], Ok, IfOk, IfErr};
ghost use Rattle.mvo_disk.specs.Disk.{IsHonest};
ghost use Rattle.mvo_pair.specs.declared.pair.Pair.{Pair};
ghost use Rattle.mvo_pair.specs.Coming.{at_start};
ghost use Rattle.mvo_pair.specs.Data.{Numbered};
ghost use Rattle.mvo_pair.specs.Loading.{LoadsAs};
ghost use Rattle.mvo_pair.specs.Writing.{IsStop};
ghost use Rattle.mvo_load.specs.Read.{HasRead, IsMisread};
ghost use Rattle.mvo_load.specs.Sliced.{IsReadUpTo, IsSliceOf, IsBrokenSlice};

use crate::reach::{bytes_from, delta_on};
use mvo_disk::Disk;
use mvo_format::HEADER_LEN;
use mvo_pair::{Live, Pair, PairReading, ReadSoFar};
use mvo_types::Refusal;
use std::alloc::Global;

/// How many bytes of a data file are read at a time.
pub const READ_LEN: usize = 262_144;

/// Begins to read a pair on a disk, of a version up to this one, in slices: reads its delta file as
/// far as its numbers reach, and the header of its data file.
///
/// Refused: Corrupt with the data file or BadVersion, by its header and its length. OutOfMemory or
/// DiskFault may stand in the place of any answer.
pub fn begin_pair<D: Disk>(
    alloc: Global,
    disk: &mut D,
    upto: u32,
    pair: Pair,
) -> Result<PairReading, Refusal>
    requires data_file { pair.data_file < 1024 }
    requires delta_file { pair.delta_file < 1024 }
    requires room { D.fault_count disk.old + 1 < 2 ^ 64 }
    ensures begun { IfOk result (λ r. IsReadUpTo upto pair (IsHonest (D.moment disk.new))
        (D.content disk.old) r [] at_start) }
    ensures why { IfErr result (λ e. IsStop e ⊎ IsMisread e) }
    ensures stop { IsHonest (D.moment disk.new) → IfErr result (λ e. (live : List Numbered) →
        LoadsAs upto pair (D.content disk.old pair.data_file)
        (D.content disk.old pair.delta_file) (Ok live) → IsStop e) }
    ensures read { HasRead D.Disk disk.old disk.new result }
{
    let delta = match delta_on(alloc, disk, pair) {
        Ok(bytes) => bytes,
        Err(e) => return Err(e),
    };
    let (front, len) = match bytes_from(alloc, disk, pair.data_file, 0, HEADER_LEN) {
        Ok(read) => read,
        Err(e) => return Err(e),
    };
    match PairReading::begin(alloc, upto, pair, len, &front, &delta) {
        Ok(reading) => Ok(reading),
        Err(e) => Err(e),
    }
}

/// Reads on: at most so many of the next records, of which no more bytes are read than `READ_LEN`.
/// Answers those of them that are live, and how far the pair is read then.
///
/// Refused: Corrupt with the data file, by the first rule that it breaks. OutOfMemory or DiskFault
/// may stand in the place of any answer.
pub fn read_on<D: Disk>(
    alloc: Global,
    disk: &mut D,
    reading: &PairReading,
    so_far: ReadSoFar,
    most: u32,
) -> Result<(Vec<Live>, ReadSoFar), Refusal>
    requires file { reading.now.pair.data_file < 1024 }
    requires room { D.fault_count disk.old + 1 < 2 ^ 64 }
    ensures on { IfOk result (λ x. (upto : ℕ) (p : Pair) (live : List Numbered) →
        IsReadUpTo upto p (IsHonest (D.moment disk.old)) (D.content disk.old) reading.now live
        so_far → IsReadUpTo upto p (IsHonest (D.moment disk.new)) (D.content disk.old) reading.now
        (live ++ x.0.items) x.1) }
    ensures slice { IfOk result (λ x. IsSliceOf (IsHonest (D.moment disk.new))
        (D.content disk.old reading.now.pair.data_file) reading.now so_far x.0.items x.1) }
    ensures broken { IfErr result (λ e. IsStop e ⊎ IsBrokenSlice (IsHonest (D.moment disk.new))
        (D.content disk.old reading.now.pair.data_file) reading.now so_far e) }
    ensures further { IfOk result (λ x.
        0 < most → so_far.count < reading.now.pair.records → so_far.count < x.1.count) }
    ensures why { IfErr result (λ e. (upto : ℕ) (p : Pair) (live : List Numbered) →
        IsReadUpTo upto p (IsHonest (D.moment disk.old)) (D.content disk.old) reading.now live
        so_far → IsStop e ⊎ IsMisread e) }
    ensures stop { IsHonest (D.moment disk.new) → IfErr result (λ e. (upto : ℕ) (p : Pair)
        (live whole : List Numbered) → IsReadUpTo upto p (IsHonest (D.moment disk.old))
        (D.content disk.old) reading.now live so_far → LoadsAs upto p
        (D.content disk.old p.data_file) (D.content disk.old p.delta_file) (Ok whole) →
        IsStop e) }
    ensures read { HasRead D.Disk disk.old disk.new result }
{
    let file = reading.pair().data_file;
    let (bytes, _) = match bytes_from(alloc, disk, file, so_far.place, READ_LEN) {
        Ok(read) => read,
        Err(e) => return Err(e),
    };
    match reading.more(alloc, so_far, most, &bytes) {
        Ok(some) => Ok(some),
        Err(e) => Err(e),
    }
}
