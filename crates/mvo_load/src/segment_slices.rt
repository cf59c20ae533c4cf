//! Reads one segment from a disk in slices.
ghost use Rattle.std.specs.Prelude.{◌≡◌, ◌⊎◌, ◌<◌, ◌≤◌, ◌+◌, ◌^◌, ℕ, [], IfOk, IfErr, OnOk, OnErr};
ghost use Rattle.std.specs.Prelude.{Some, None};
ghost use Rattle.mvo_disk.specs.Disk.{IsHonest};
ghost use Rattle.mvo_frame.specs.declared.reached.Reached.TheVariants.{More, End};
ghost use Rattle.mvo_frame.specs.declared.lengths.TheConstants.{MAX_FRAME_LEN, SLICE_LEN};
ghost use Rattle.mvo_pair.specs.Writing.{IsStop};
ghost use Rattle.mvo_load.specs.Read.{HasRead, IsMisread};
ghost use Rattle.mvo_load.specs.Framed.{IsFramedTo, IsAllFramed, IsStopOrOnly};

use crate::reach::bytes_from;
use mvo_disk::Disk;
use mvo_format::HEADER_LEN;
use mvo_frame::{MAX_FRAME_LEN, Reached, SLICE_LEN, SegmentReader};
use mvo_types::{Refusal, Stamp};
use std::alloc::Global;

/// How many bytes a slice reads first. Most frames that begin among the bytes of a slice end among
/// these.
pub const NEAR_LEN: usize = 327_680;

/// Begins to read a segment on a disk, of a version up to this one, whose first group follows a
/// mark, in slices: reads its header.
///
/// Refused: Corrupt with the file or BadVersion, by its header. OutOfMemory or DiskFault may stand
/// in the place of any answer.
pub fn begin_segment<D: Disk>(
    alloc: Global,
    disk: &mut D,
    upto: u32,
    file: u16,
    mark: Stamp,
) -> Result<SegmentReader, Refusal>
    requires file { file < 1024 }
    requires room { D.fault_count disk.old + 1 < 2 ^ 64 }
    ensures begun { IfOk result (IsFramedTo upto mark.0 (IsHonest (D.moment disk.new))
        (D.content disk.old file)) }
    ensures none { IfOk result (λ r. r.groups ≡ []) }
    ensures file { IfOk result (λ r. r.file ≡ file) }
    ensures why { IfErr result (λ e. IsStop e ⊎ IsMisread e) }
    ensures refused { IsHonest (D.moment disk.new) →
        IfErr result (IsStopOrOnly upto file mark.0 (D.content disk.old file)) }
    ensures read { HasRead D.Disk disk.old disk.new result }
{
    let (head, _) = match bytes_from(alloc, disk, file, 0, HEADER_LEN) {
        Ok(read) => read,
        Err(e) => return Err(e),
    };
    match SegmentReader::begin(alloc, upto, file, mark, &head) {
        Ok(reader) => Ok(reader),
        Err(e) => Err(e),
    }
}

/// Reads on among the next `NEAR_LEN` bytes. None, and the reader as it was, where the first frame
/// isn't read of these: it isn't all there, or memory is short.
fn read_near<D: Disk>(
    alloc: Global,
    disk: &mut D,
    reader: &mut SegmentReader,
) -> Result<Option<Reached>, Refusal>
    requires file { reader.old.file < 1024 }
    requires room { D.fault_count disk.old + 1 < 2 ^ 64 }
    ensures on { (upto mark : ℕ) → IsFramedTo upto mark (IsHonest (D.moment disk.old))
        (D.content disk.old reader.old.file) reader.old → OnOk result (IsFramedTo upto mark
        (IsHonest (D.moment disk.new)) (D.content disk.old reader.old.file) reader.new) }
    ensures end { (upto mark : ℕ) → IsFramedTo upto mark (IsHonest (D.moment disk.old))
        (D.content disk.old reader.old.file) reader.old → IfOk result (λ found. found ≡ Some End →
        IsAllFramed upto mark (IsHonest (D.moment disk.new)) (D.content disk.old reader.old.file)
        reader.new) }
    ensures file { reader.new.file ≡ reader.old.file }
    ensures further { IfOk result (λ found. found ≡ Some More → reader.old.gate < reader.new.gate) }
    ensures none { IfOk result (λ found. found ≡ None → reader.new ≡ reader.old) }
    ensures most { OnOk result (reader.new.gate ≤ reader.old.gate + SLICE_LEN + MAX_FRAME_LEN) }
    ensures err { OnErr result (reader.new ≡ reader.old) }
    ensures why { IfErr result IsStop }
    ensures read { HasRead D.Disk disk.old disk.new result }
{
    let (file, gate) = (reader.file(), reader.gate());
    let (window, _) = match bytes_from(alloc, disk, file, gate, NEAR_LEN) {
        Ok(read) => read,
        Err(e) => return Err(e),
    };
    let reached = reader.read_on(alloc, &window, SLICE_LEN);
    match reached {
        Reached::End => Ok(Some(Reached::End)),
        Reached::More => {
            if reader.gate() == gate {
                return Ok(None);
            }
            Ok(Some(Reached::More))
        }
    }
}

/// Reads on: the groups of which the frames begin among the next `SLICE_LEN` bytes of the segment,
/// one at least, up to the closed gate. No more bytes are read than the longest frame has, and
/// `NEAR_LEN` where the first frame is among these.
///
/// Refused, and then the reader is as it was: Corrupt with the file, by the first rule that its
/// bytes break. OutOfMemory or DiskFault may stand in the place of any answer.
pub fn read_frames<D: Disk>(
    alloc: Global,
    disk: &mut D,
    reader: &mut SegmentReader,
) -> Result<Reached, Refusal>
    requires file { reader.old.file < 1024 }
    requires room { D.fault_count disk.old + 1 < 2 ^ 64 }
    ensures on { (upto mark : ℕ) → IsFramedTo upto mark (IsHonest (D.moment disk.old))
        (D.content disk.old reader.old.file) reader.old → OnOk result (IsFramedTo upto mark
        (IsHonest (D.moment disk.new)) (D.content disk.old reader.old.file) reader.new) }
    ensures end { (upto mark : ℕ) → IsFramedTo upto mark (IsHonest (D.moment disk.old))
        (D.content disk.old reader.old.file) reader.old → IfOk result (λ reached. reached ≡ End →
        IsAllFramed upto mark (IsHonest (D.moment disk.new)) (D.content disk.old reader.old.file)
        reader.new) }
    ensures file { reader.new.file ≡ reader.old.file }
    ensures further { IfOk result (λ reached. reached ≡ More → reader.old.gate < reader.new.gate) }
    ensures most { OnOk result (reader.new.gate ≤ reader.old.gate + SLICE_LEN + MAX_FRAME_LEN) }
    ensures err { OnErr result (reader.new ≡ reader.old) }
    ensures why { IfErr result (λ e. IsStop e ⊎ IsMisread e) }
    ensures refused { IsHonest (D.moment disk.new) → IfErr result (λ e. (upto mark : ℕ) →
        IsFramedTo upto mark (IsHonest (D.moment disk.old)) (D.content disk.old reader.old.file)
        reader.old →
        IsStopOrOnly upto reader.old.file mark (D.content disk.old reader.old.file) e) }
    ensures read { HasRead D.Disk disk.old disk.new result }
{
    match read_near(alloc, disk, reader) {
        Ok(Some(reached)) => return Ok(reached),
        Ok(None) => {}
        Err(e) => return Err(e),
    }
    let (file, gate) = (reader.file(), reader.gate());
    let (window, _) = match bytes_from(alloc, disk, file, gate, MAX_FRAME_LEN) {
        Ok(read) => read,
        Err(e) => return Err(e),
    };
    match reader.more(alloc, &window, SLICE_LEN) {
        Ok(reached) => Ok(reached),
        Err(e) => Err(e),
    }
}
