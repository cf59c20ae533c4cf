//! Writes the data file of a pair in slices.
ghost use Rattle.std.specs.Prelude.{◌≡◌, ◌⊎◌, ◌++◌, ◌≤◌, ◌<◌, ◌+◌, ◌^◌, length, All, IfOk, OnOk, IfErr, ⊤};
ghost use Rattle.std.specs.List.{flat_map};
ghost use Rattle.mvo_disk.specs.Disk.{Only, OthersStay, LeavesOnly, Touched, IsHonest};
ghost use Rattle.mvo_pair.specs.Files.{AreEntries, HasRowWords, entry_bytes};
ghost use Rattle.mvo_pair.specs.Spelling.{IsShort};
ghost use Rattle.mvo_pair.specs.Slices.{HasFirst, fitting, with_slice};
ghost use Rattle.mvo_pair.specs.Writing.{IsWriteRefusal};

use crate::data::RECORD;
use crate::data_record::DataRecord;
use crate::encode::encode_records;
use crate::pair::Pair;
use crate::writing::write_data;
use mvo_disk::{Disk, write_synced};
use mvo_format::Format;
use mvo_types::Refusal;
use std::alloc::Global;

/// How many bytes of records a slice of a data file has at most: 256 KiB with the header.
pub const SLICE_LEN: usize = 262_136;

/// How many records, from the first on, fit into a slice.
fn slice_count(entries: &[DataRecord]) -> usize
    ensures count { result ≡ fitting SLICE_LEN entries.now }
    ensures within { result ≤ length entries.now }
{
    let mut room = SLICE_LEN;
    let mut count = 0;
    let mut rest = entries;
    while let [first, after @ ..] = rest {
        let data_len = first.row.data_len();
        if room < RECORD || room - RECORD < data_len {
            return count;
        }
        room = room - RECORD - data_len;
        count += 1;
        rest = after;
    }
    count
}

/// Writes records behind all that the file of a pair's records holds, and syncs it.
fn append_records<D: Disk>(
    alloc: Global,
    disk: &mut D,
    file: u16,
    entries: &[DataRecord],
) -> Result<(), Refusal>
    requires file { file < 1024 }
    requires room { D.fault_count disk.old + 1 < 2 ^ 64 }
    requires short { All IsShort entries.now }
    ensures written { OnOk result (IsHonest (D.moment disk.new) → D.content disk.new file ≡
        D.content disk.old file ++ flat_map entry_bytes entries.now) }
    ensures words { OnOk result (All HasRowWords entries.now) }
    ensures durable { OnOk result (Only (D.content disk.new file) (D.may_leave disk.new file)) }
    ensures count { OnOk result (D.fault_count disk.new ≡ D.fault_count disk.old) }
    ensures refused { IfErr result (IsWriteRefusal D.fault_count disk.old disk.new) }
    ensures rest { OthersStay file (D.content disk.old) (D.content disk.new)
        (D.may_leave disk.old) (D.may_leave disk.new) }
    ensures honest { IsHonest (D.moment disk.new) → IsHonest (D.moment disk.old) }
    ensures any_moment { Only (D.content disk.old file) (D.may_leave disk.old file) →
        LeavesOnly D.moment D.left_since disk.old disk.new
        (Touched file (D.may_leave disk.old) (λ _. ⊤)) }
{
    let bytes = encode_records(alloc, entries)?;
    let Ok(at) = disk.len(file) else {
        return Err(Refusal::DiskFault);
    };
    match write_synced(disk, file, at, &bytes) {
        Ok(()) => Ok(()),
        Err(_) => Err(Refusal::DiskFault),
    }
}

/// Writes the next slice of the data file of a pair, which holds so many of these records, and
/// syncs it: as many of the next ones as fit into a slice, one at least where any is left. The
/// first slice gives the file new content, whatever it held. Answers how many records the file
/// holds then. A stop at any moment leaves the other files as they were. Memory is taken before the
/// first call.
pub fn write_slice<D: Disk>(
    alloc: Global,
    disk: &mut D,
    format: Format,
    pair: Pair,
    entries: &[DataRecord],
    from: usize,
) -> Result<usize, Refusal>
    requires file { pair.data_file < 1024 }
    requires room { D.fault_count disk.old + 1 < 2 ^ 64 }
    requires are { AreEntries format pair.lo.0 pair.hi.0 entries.now }
    requires within { from ≤ length entries.now }
    requires first { 0 < from → IsHonest (D.moment disk.old) →
        HasFirst format entries.now from (D.content disk.old pair.data_file) }
    ensures count { IfOk result (λ n. n ≡ with_slice entries.now from) }
    ensures within { IfOk result (λ n. n ≤ length entries.now) }
    ensures more { IfOk result (λ n. (from < n) ⊎ (n ≡ length entries.now)) }
    ensures has { IfOk result (λ n. IsHonest (D.moment disk.new) →
        HasFirst format entries.now n (D.content disk.new pair.data_file)) }
    ensures durable { OnOk result (Only (D.content disk.new pair.data_file)
        (D.may_leave disk.new pair.data_file)) }
    ensures no_fault { OnOk result (D.fault_count disk.new ≡ D.fault_count disk.old) }
    ensures refused { IfErr result (IsWriteRefusal D.fault_count disk.old disk.new) }
    ensures rest { OthersStay pair.data_file (D.content disk.old) (D.content disk.new)
        (D.may_leave disk.old) (D.may_leave disk.new) }
    ensures honest { IsHonest (D.moment disk.new) → IsHonest (D.moment disk.old) }
    ensures any_moment { (0 < from → Only (D.content disk.old pair.data_file)
        (D.may_leave disk.old pair.data_file)) → LeavesOnly D.moment D.left_since disk.old disk.new
        (Touched pair.data_file (D.may_leave disk.old) (λ _. ⊤)) }
{
    let upto = from + slice_count(&entries[from..]);
    if from == 0 {
        return match write_data(alloc, disk, format, pair, &entries[..upto]) {
            Ok(()) => Ok(upto),
            Err(refusal) => Err(refusal),
        };
    }
    match append_records(alloc, disk, pair.data_file, &entries[from..upto]) {
        Ok(()) => Ok(upto),
        Err(refusal) => Err(refusal),
    }
}
