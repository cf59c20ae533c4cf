//! Begins a rotation of the log.
ghost use Rattle.std.specs.Prelude.{◌≡◌, IfOk};
ghost use Rattle.mvo_manifest.specs.Rules.{IsManifest};
ghost use Rattle.mvo_recovery.specs.Rotation.{rotated, segments_left};
ghost use Rattle.mvo_store.specs.Calls.StoreStep.{Call};
ghost use Rattle.mvo_store.specs.declared.call.StoreCall.TheVariants.{RotateWrite};
ghost use Rattle.mvo_store.specs.Calls.{IsStoreStep};
ghost use Rattle.mvo_store.specs.Causes.{has_old_last, replaces_last, why_not_rotate};

use crate::files::least_free;
use crate::install::install::Install;
use crate::install::install_step::InstallStep;
use crate::jobs::jobs::Jobs;
use crate::limits::MAX_GENERATION;
use crate::old::is_marked;
use crate::store::Store;
use mvo_disk::Disk;
use mvo_format::{HEADER_LEN, LAST_FORMAT};
use mvo_frame::Segment;
use mvo_manifest::Manifest;
use mvo_types::{MAX_SEGMENTS, Refusal};
use std::alloc::{AllocError, Global};

/// The segments that a manifest names, without the last one where that is replaced.
fn segments_left(manifest: &Manifest, replaces: bool) -> &[u16]
    ensures { result.now ≡ segments_left replaces manifest.now.segments }
{
    let segments = manifest.segments();
    if replaces {
        return &segments[..segments.len() - 1];
    }
    segments
}

/// The manifest that names a fresh segment last, or in the place of the last one.
fn rotated(
    alloc: Global,
    manifest: &Manifest,
    replaces: bool,
    fresh: u16,
) -> Result<Manifest, AllocError>
    requires { IsManifest (rotated replaces manifest.now fresh) }
    ensures { IfOk result (λ next. next ≡ rotated replaces manifest.now fresh) }
{
    let pairs = manifest.pairs().to_vec(alloc)?;
    let mut segments = Vec::with_capacity(alloc, manifest.segments().len() + 1)?;
    segments.extend_from_slice(segments_left(manifest, replaces))?;
    segments.push(fresh)?;
    let generation = manifest.generation() + 1;
    match Manifest::new(
        LAST_FORMAT.version,
        generation,
        manifest.checkpoint_mark(),
        pairs,
        segments,
    )? {
        Some(next) => Ok(next),
        None => unreachable!(),
    }
}

impl<D: Disk> Store<D> {
    // Whether the last segment is of an older version.
    pub(crate) fn has_old_last(&self) -> bool
        ensures { result ≡ has_old_last self.now }
    {
        is_marked(&self.old_marks, self.segment.file)
    }

    // Whether a rotation replaces the last segment, which is old and holds no group.
    fn replaces_last(&self) -> bool
        ensures { result ≡ replaces_last self.now }
    {
        self.has_old_last() && self.segment.gate == HEADER_LEN
    }

    // Why no rotation begins, before memory and the disk are asked.
    fn why_not_rotate(&self) -> Option<Refusal>
        ensures { result ≡ why_not_rotate self.now }
    {
        if self.down {
            return Some(Refusal::Down);
        }
        if self.jobs.keep_all_out() {
            return Some(Refusal::Busy);
        }
        if self.manifest.generation() >= MAX_GENERATION {
            return Some(Refusal::ClockSpent);
        }
        let old = self.has_old_last();
        let is_empty = self.segment.gate == HEADER_LEN;
        if is_empty && !old {
            return Some(Refusal::NothingToDo);
        }
        if self.manifest.segments().len() >= MAX_SEGMENTS && !(old && is_empty) {
            return Some(Refusal::SegmentsFull);
        }
        None
    }

    /// Writes a fresh segment to the least free file, and syncs it. From then on its manifest is to
    /// be installed. Appends go on meanwhile. It takes the place of a last segment that is of an
    /// older version and holds no group.
    ///
    /// Refused: Down, then Busy where a job runs, then ClockSpent where the generation is 2^63 or
    /// above, then NothingToDo where the last segment holds no group and isn't old, then
    /// SegmentsFull where 64 are named and none is replaced, then OutOfMemory, then DiskFault.
    pub fn rotate_write(&mut self) -> Result<(), Refusal>
        ensures { IsStoreStep D.Disk self.old (Call RotateWrite) result self.new }
    {
        if let Some(refusal) = self.why_not_rotate() {
            return Err(refusal);
        }
        let file = least_free(&self.manifest, &[]);
        let replaces = self.replaces_last();
        let next = rotated(self.alloc, &self.manifest, replaces, file)?;
        let Ok(fresh) = Segment::fresh(&mut self.disk, LAST_FORMAT.version, file) else {
            self.down = true;
            return Err(Refusal::DiskFault);
        };
        let install = Install {
            next,
            step: InstallStep::Close,
        };
        self.jobs = Jobs::Rotation(fresh, install);
        Ok(())
    }
}
