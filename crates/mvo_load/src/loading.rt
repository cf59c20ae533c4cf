//! Finds out what a disk holds.
ghost use Rattle.std.specs.Prelude.{◌≡◌, ◌<◌, ◌≤◌, ◌+◌, ◌^◌, IfOk};
ghost use Rattle.mvo_disk.specs.Disk.{AllStay, AllOf, LeavesOnly, IsHonest};
ghost use Rattle.mvo_types.specs.declared.limits.TheConstants.{MAX_SEGMENT_LEN, MAX_STAMP};
ghost use Rattle.mvo_pair.specs.Answers.{Tells};
ghost use Rattle.mvo_pair.specs.Writing.{IsStop, CountsFaults};
ghost use Rattle.mvo_recovery.specs.image.Files.{OpensAs};
ghost use Rattle.mvo_load.specs.Loaded.{IsLoaded};
ghost use Rattle.mvo_load.specs.Parts.{HavePlaces};

use crate::loaded::Loaded;
use crate::pair_reader::PairReader;
use crate::pairs::load_pairs;
use crate::segments::load_segments;
use crate::slots::read_manifest;
use mvo_disk::Disk;
use mvo_types::Refusal;
use std::alloc::Global;

/// What a disk holds of files of the known versions. Nothing changes, and no stop within it leaves
/// anything new. Files are read one after another, and the records of pairs as the reader reads
/// them, in threads or not, unless the manifest says that there are fewer than 8,192, which the
/// calling thread reads; memory is taken in proportion to the bytes of four pairs' files or of one
/// segment, and to the rows. The place of a live record takes 13 bytes where there are 8,192 or
/// more, and else 32 or more, as that of a key which is put later; the seed is for the table of
/// these, and who chose the keys can't know it.
///
/// Refused by the first rule that is broken, in this order: Corrupt with 0 or BadVersion by slot 0,
/// Corrupt with 1 or BadVersion by slot 1, NotFormatted where no slot is open; of the pairs in
/// their order Corrupt with the data file or BadVersion, Corrupt with the delta file or BadVersion,
/// and Corrupt with the data file where a live record has the key of another of that pair or of one
/// before; of the segments in their order Corrupt with the segment or BadVersion. OutOfMemory, for
/// want of memory alone, and DiskFault, for a call of the device that failed, may stand in the
/// place of any later answer.
pub fn load<D: Disk, P: PairReader>(
    reader: &P,
    alloc: Global,
    disk: &mut D,
    seed: u64,
) -> Result<Loaded, Refusal>
    requires reader { P.may_read }
    requires room { D.fault_count disk.old + 1 < 2 ^ 64 }
    ensures says { IsHonest (D.moment disk.new) → Tells IsStop (λ l. (l.rows, l.mark.0)) result
        (OpensAs (D.content disk.old)) }
    ensures parts { IsHonest (D.moment disk.new) → IfOk result (λ l. IsLoaded
        (D.content disk.old) l.manifest l.rows l.mark.0 l.gate) }
    ensures places { IsHonest (D.moment disk.new) → IfOk result (λ l. HavePlaces l.manifest.version
        (D.content disk.old) l.manifest.pairs l.places.at) }
    ensures few { IfOk result (λ l. l.gate < MAX_SEGMENT_LEN) }
    ensures stamp { IfOk result (λ l. l.mark.0 ≤ MAX_STAMP) }
    ensures count { CountsFaults (D.fault_count disk.old) (D.fault_count disk.new) result }
    ensures rest { AllStay (D.content disk.old) (D.content disk.new) (D.may_leave disk.old)
        (D.may_leave disk.new) }
    ensures any_moment { LeavesOnly D.moment D.left_since disk.old disk.new
        (AllOf (D.may_leave disk.old)) }
{
    let manifest = match read_manifest(alloc, disk) {
        Ok(manifest) => manifest,
        Err(e) => return Err(e),
    };
    let upto = manifest.version();
    let (mut rows, places) = match load_pairs(reader, alloc, disk, upto, &manifest, seed) {
        Ok(found) => found,
        Err(e) => return Err(e),
    };
    let end = match load_segments(alloc, disk, upto, &manifest, &mut rows) {
        Ok(end) => end,
        Err(e) => return Err(e),
    };
    Ok(Loaded {
        manifest,
        rows,
        places,
        mark: end.mark,
        gate: end.gate,
    })
}
