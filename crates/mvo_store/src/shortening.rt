//! Cuts the ends of long files off that neither the manifest nor a job names.
ghost use Rattle.std.specs.Prelude.{◌≡◌, ◌<◌, ◌≤◌, ◌+◌, ◌^◌, ℕ, length, take, ⊤};
ghost use Rattle.std.specs.Prelude.{OnOk, IfOk, IfSome, MatchOption};
ghost use Rattle.mvo_disk.specs.Disk.{IsHonest};
ghost use Rattle.mvo_disk.specs.Disk.{Only, AllOf, AllStay, OthersStay, LeavesOnly, Touched, Counts};
ghost use Rattle.mvo_store.specs.Calls.StoreStep.{Shorten};
ghost use Rattle.mvo_store.specs.Calls.{IsStoreStep};
ghost use Rattle.mvo_store.specs.Reclaiming.{IsUnused, IsNoLonger, IsLeastLong, HasShortened};

use crate::files::is_named;
use crate::jobs::jobs::Jobs;
use crate::jobs::progress::Progress;
use crate::limits::CUT_A_SLICE;
use crate::store::Store;
use mvo_disk::{Disk, DiskFault};
use mvo_manifest::{FIRST_FILE, Manifest};
use mvo_types::{MAX_FILE, Refusal};

/// The length of a file behind the slots that neither the manifest nor a job names, where it is
/// longer than a slice cuts off.
fn long_len<D: Disk>(
    disk: &mut D,
    manifest: &Manifest,
    jobs: &Jobs,
    file: u16,
) -> Result<Option<usize>, DiskFault>
    requires first { FIRST_FILE ≤ file }
    requires last { file ≤ MAX_FILE }
    requires room { D.fault_count disk.old + 1 < 2 ^ 64 }
    ensures unused { IfOk result (λ found. IfSome found (λ _.
        IsUnused manifest.now jobs.now file)) }
    ensures more { IfOk result (λ found. IfSome found (λ len. CUT_A_SLICE < len)) }
    ensures long { IfOk result (λ found. IsHonest (D.moment disk.new) → MatchOption found
        (IsNoLonger (D.content disk.old) manifest.now jobs.now file)
        (λ len. len ≡ length (D.content disk.old file))) }
    ensures rest { AllStay (D.content disk.old) (D.content disk.new) (D.may_leave disk.old)
        (D.may_leave disk.new) }
    ensures any_moment { LeavesOnly D.moment D.left_since disk.old disk.new
        (AllOf (D.may_leave disk.old)) }
    ensures count { Counts (D.fault_count disk.old) (D.fault_count disk.new) result }
{
    if jobs.take_file(file) || is_named(manifest, file) {
        return Ok(None);
    }
    let len = disk.len(file)?;
    if len > CUT_A_SLICE {
        return Ok(Some(len));
    }
    Ok(None)
}

/// The least such file, and its length.
fn least_long<D: Disk>(
    disk: &mut D,
    manifest: &Manifest,
    jobs: &Jobs,
) -> Result<Option<(u16, usize)>, DiskFault>
    requires room { D.fault_count disk.old + 1 < 2 ^ 64 }
    ensures unused { IfOk result (λ found. IfSome found (λ x.
        IsUnused manifest.now jobs.now x.0)) }
    ensures more { IfOk result (λ found. IfSome found (λ x. CUT_A_SLICE < x.1)) }
    ensures least { IfOk result (λ found. IsHonest (D.moment disk.new) → MatchOption found
        ((n : ℕ) → IsNoLonger (D.content disk.old) manifest.now jobs.now n)
        (λ x. IsLeastLong (D.content disk.old) manifest.now jobs.now x.0 x.1)) }
    ensures rest { AllStay (D.content disk.old) (D.content disk.new) (D.may_leave disk.old)
        (D.may_leave disk.new) }
    ensures any_moment { LeavesOnly D.moment D.left_since disk.old disk.new
        (AllOf (D.may_leave disk.old)) }
    ensures count { Counts (D.fault_count disk.old) (D.fault_count disk.new) result }
{
    let mut file = FIRST_FILE;
    while file <= MAX_FILE {
        if let Some(len) = long_len(disk, manifest, jobs, file)? {
            return Ok(Some((file, len)));
        }
        file += 1;
    }
    Ok(None)
}

/// Cuts a file to so many bytes, and syncs. A stop at any moment leaves the other files as they
/// were.
fn cut_synced<D: Disk>(disk: &mut D, file: u16, len: usize) -> Result<(), DiskFault>
    requires file { file ≤ MAX_FILE }
    requires room { D.fault_count disk.old + 1 < 2 ^ 64 }
    requires shorter { IsHonest (D.moment disk.old) → len ≤ length (D.content disk.old file) }
    ensures cut { OnOk result (D.content disk.new file ≡ take len (D.content disk.old file)) }
    ensures durable { OnOk result (Only (D.content disk.new file) (D.may_leave disk.new file)) }
    ensures rest { OthersStay file (D.content disk.old) (D.content disk.new) (D.may_leave disk.old)
        (D.may_leave disk.new) }
    ensures any_moment { LeavesOnly D.moment D.left_since disk.old disk.new
        (Touched file (D.may_leave disk.old) (λ _. ⊤)) }
    ensures count { Counts (D.fault_count disk.old) (D.fault_count disk.new) result }
{
    disk.cut(file, len)?;
    disk.sync(file)?;
    Ok(())
}

impl<D: Disk> Store<D> {
    /// Cuts 8 MiB off the end of the least file from 2 on that is longer, and that neither the
    /// installed manifest nor a job that runs names, and syncs. Answers More with that, and Ready
    /// where there is none: so slices up to Ready leave no more than 8 MiB for `reclaim` to cut at
    /// once, or for the first write of a job whose file it becomes. A long file is cut so in
    /// slices, since to give back what it holds takes the time of all of that. Whatever the disk
    /// answers, no file is cut that is named.
    ///
    /// Refused: Down, then DiskFault.
    pub fn shorten_slice(&mut self) -> Result<Progress, Refusal>
        ensures step { IsStoreStep D.Disk self.old Shorten result self.new }
        ensures cut { IfOk result (λ progress. HasShortened D.Disk self.old progress self.new) }
    {
        if self.down {
            return Err(Refusal::Down);
        }
        let Ok(found) = least_long(&mut self.disk, &self.manifest, &self.jobs) else {
            self.down = true;
            return Err(Refusal::DiskFault);
        };
        let Some((file, len)) = found else {
            return Ok(Progress::Ready);
        };
        let Ok(()) = cut_synced(&mut self.disk, file, len - CUT_A_SLICE) else {
            self.down = true;
            return Err(Refusal::DiskFault);
        };
        Ok(Progress::More)
    }
}
