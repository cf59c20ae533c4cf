//! Writes the files of a pair to a disk.
ghost use Rattle.std.specs.Prelude.{◌≡◌, ◌≤◌, ◌<◌, ◌+◌, ◌^◌, ℕ, List, length, OnOk, IfErr, ⊤};
ghost use Rattle.std.specs.List.{flat_map};
ghost use Rattle.mvo_disk.specs.Disk.{Holds, Only, OthersStay, LeavesOnly, Touched, IsHonest};
ghost use Rattle.mvo_bytes.specs.Fields.{field};
ghost use Rattle.mvo_pair.specs.Files.{AreEntries, AreNumbers, HasEntries, HasDeadNumbers, data_bytes, delta_bytes};
ghost use Rattle.mvo_pair.specs.Writing.{IsWriteRefusal, KeepsNumbers, GainsNumbers, place_behind};

use crate::data_record::DataRecord;
use crate::delta::NUMBER;
use crate::encode::{encode_data, encode_delta, encode_numbers};
use crate::header::HEADER;
use crate::pair::Pair;
use mvo_disk::{Disk, rewrite_synced, write_synced};
use mvo_format::Format;
use mvo_types::Refusal;
use std::alloc::Global;

/// Gives the data file of a pair these records, whatever it held, and syncs it. A stop at any
/// moment leaves the other files as they were. Memory is taken before the first call.
pub fn write_data<D: Disk>(
    alloc: Global,
    disk: &mut D,
    format: Format,
    pair: Pair,
    entries: &[DataRecord],
) -> Result<(), Refusal>
    requires file { pair.data_file < 1024 }
    requires room { D.fault_count disk.old + 1 < 2 ^ 64 }
    requires are { AreEntries format pair.lo.0 pair.hi.0 entries.now }
    ensures written { OnOk result
        (D.content disk.new pair.data_file ≡ data_bytes format.version entries.now) }
    ensures holds { OnOk result (HasEntries format pair.lo.0 pair.hi.0 (length entries.now)
        entries.now (D.content disk.new pair.data_file)) }
    ensures durable { OnOk result (Only (D.content disk.new pair.data_file)
        (D.may_leave disk.new pair.data_file)) }
    ensures count { OnOk result (D.fault_count disk.new ≡ D.fault_count disk.old) }
    ensures refused { IfErr result (IsWriteRefusal D.fault_count disk.old disk.new) }
    ensures rest { OthersStay pair.data_file (D.content disk.old) (D.content disk.new)
        (D.may_leave disk.old) (D.may_leave disk.new) }
    ensures honest { (D.moment disk.new).honest ≡ (D.moment disk.old).honest }
    ensures any_moment { LeavesOnly D.moment D.left_since disk.old disk.new
        (Touched pair.data_file (D.may_leave disk.old) (λ _. ⊤)) }
{
    let bytes = encode_data(alloc, format.version, entries)?;
    match rewrite_synced(disk, pair.data_file, &bytes) {
        Ok(()) => Ok(()),
        Err(_) => Err(Refusal::DiskFault),
    }
}

/// Gives the delta file of a pair these record numbers, whatever it held, and syncs it. A stop at
/// any moment leaves the other files as they were. Memory is taken before the first call.
pub fn write_delta<D: Disk>(
    alloc: Global,
    disk: &mut D,
    format: Format,
    pair: Pair,
    numbers: &[u32],
) -> Result<(), Refusal>
    requires file { pair.delta_file < 1024 }
    requires room { D.fault_count disk.old + 1 < 2 ^ 64 }
    ensures written { OnOk result
        (D.content disk.new pair.delta_file ≡ delta_bytes format.version numbers.now) }
    ensures holds { OnOk result ((below : ℕ) → AreNumbers below numbers.now →
        HasDeadNumbers format.version below (length numbers.now) numbers.now
        (D.content disk.new pair.delta_file)) }
    ensures durable { OnOk result (Only (D.content disk.new pair.delta_file)
        (D.may_leave disk.new pair.delta_file)) }
    ensures count { OnOk result (D.fault_count disk.new ≡ D.fault_count disk.old) }
    ensures refused { IfErr result (IsWriteRefusal D.fault_count disk.old disk.new) }
    ensures rest { OthersStay pair.delta_file (D.content disk.old) (D.content disk.new)
        (D.may_leave disk.old) (D.may_leave disk.new) }
    ensures honest { (D.moment disk.new).honest ≡ (D.moment disk.old).honest }
    ensures any_moment { LeavesOnly D.moment D.left_since disk.old disk.new
        (Touched pair.delta_file (D.may_leave disk.old) (λ _. ⊤)) }
{
    let bytes = encode_delta(alloc, format.version, numbers)?;
    match rewrite_synced(disk, pair.delta_file, &bytes) {
        Ok(()) => Ok(()),
        Err(_) => Err(Refusal::DiskFault),
    }
}

/// Writes record numbers behind the counted ones of a pair's delta file, over what stands there,
/// and syncs it. A stop at any moment leaves the counted ones. Memory is taken before the first
/// call.
pub fn append_delta<D: Disk>(
    alloc: Global,
    disk: &mut D,
    pair: Pair,
    numbers: &[u32],
) -> Result<(), Refusal>
    requires file { pair.delta_file < 1024 }
    requires room { D.fault_count disk.old + 1 < 2 ^ 64 }
    requires start { IsHonest (D.moment disk.old) →
        place_behind pair.entries ≤ length (D.content disk.old pair.delta_file) }
    ensures written { OnOk result (Holds (D.content disk.old pair.delta_file)
        (place_behind pair.entries) (flat_map (field 4) numbers.now)
        (D.content disk.new pair.delta_file)) }
    ensures gains { OnOk result (GainsNumbers (D.content disk.old pair.delta_file)
        (D.content disk.new pair.delta_file) pair.entries numbers.now) }
    ensures durable { OnOk result (Only (D.content disk.new pair.delta_file)
        (D.may_leave disk.new pair.delta_file)) }
    ensures count { OnOk result (D.fault_count disk.new ≡ D.fault_count disk.old) }
    ensures refused { IfErr result (IsWriteRefusal D.fault_count disk.old disk.new) }
    ensures rest { OthersStay pair.delta_file (D.content disk.old) (D.content disk.new)
        (D.may_leave disk.old) (D.may_leave disk.new) }
    ensures honest { (D.moment disk.new).honest ≡ (D.moment disk.old).honest }
    ensures any_moment { Only (D.content disk.old pair.delta_file)
        (D.may_leave disk.old pair.delta_file) → KeepsNumbers D.moment D.left_since D.content
        D.may_leave disk.old disk.new pair.delta_file pair.entries }
{
    let bytes = encode_numbers(alloc, numbers)?;
    let place = HEADER + NUMBER * pair.entries as usize;
    match write_synced(disk, pair.delta_file, place, &bytes) {
        Ok(()) => Ok(()),
        Err(_) => Err(Refusal::DiskFault),
    }
}
