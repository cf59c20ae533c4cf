//! What the store in a folder has, file by file.
ghost use Rattle.std.specs.Prelude.{◌≡◌, ◌<◌, OnOk};
ghost use Rattle.mvo_disk.specs.declared.limits.TheConstants.{FILE_COUNT};
ghost use Rattle.mvo_store.specs.declared.limits.TheConstants.{MAX_FAULTS};
ghost use Rattle.mvo_store.specs.Seen.{disk_of};

use crate::fault::Fault;
use crate::folder::open_disk;
use crate::seed::draw_seed;
use crate::segment_stats::SegmentStats;
use mvo_disk::{Disk, DiskFault, FILE_COUNT};
use mvo_frame::Kind;
use mvo_load::segment_on;
use mvo_manifest::{FIRST_FILE, Manifest};
use mvo_pair::Pair;
use mvo_store::{Store, is_named};
use mvo_types::{Refusal, Stamp};
use std::alloc::{AllocError, Global};
use std::fs::{File, Files};
use std::random::RandomSource;
use std::thread::Threads;

/// What the store in a folder has.
pub struct FolderStats {
    /// Its mark.
    pub mark: Stamp,
    /// How many rows it gives.
    pub rows: usize,
    /// Its segments, the oldest first.
    pub segments: Vec<SegmentStats>,
    /// Its pairs, the oldest first.
    pub pairs: Vec<Pair>,
    /// How many files hold bytes that nobody needs.
    pub unused: usize,
}

impl Drop for FolderStats {
    fn drop(self) {
        let FolderStats {
            mark: _,
            rows: _,
            segments: _,
            pairs: _,
            unused: _,
        } = self;
    }
}

/// What the store in a folder has. It changes nothing.
pub fn stats_in<R>(rt: &R, folder: &str, is_terminal: bool) -> Result<FolderStats, Fault>
where
    R: AllocGlobal + Eprint + Files<File = File> + RandomSource + Threads + Sync + Clone + Drop,
{
    match open_disk(rt, folder, is_terminal) {
        Ok(disk) => stats_on(rt, rt.alloc(), disk),
        Err(fault) => Err(fault),
    }
}

/// What the store on a disk has.
fn stats_on<D: Disk + Drop>(
    rt: &(impl RandomSource + Threads + Sync),
    alloc: Global,
    disk: D,
) -> Result<FolderStats, Fault> {
    let seed = draw_seed(rt)?;
    match Store::open(rt, alloc, seed, disk) {
        Ok((store, rows, mark)) => stats_of(alloc, store, rows.len(), mark),
        Err((refusal, _)) => Err(Fault::Refused(refusal)),
    }
}

/// What a store has that was just opened.
fn stats_of<D: Disk + Drop>(
    alloc: Global,
    store: Store<D>,
    rows: usize,
    mark: Stamp,
) -> Result<FolderStats, Fault>
    requires few { D.fault_count (disk_of store) < MAX_FAULTS }
{
    let manifest = store.manifest();
    let (upto, from) = (manifest.version(), manifest.checkpoint_mark());
    let pairs: Vec<Pair> = manifest.pairs().iter().copied().collect(alloc)?;
    let files: Vec<u16> = manifest.segments().iter().copied().collect(alloc)?;
    let unnamed = unnamed_by(alloc, manifest)?;
    let mut disk = store.into_disk();
    match files_of(alloc, &mut disk, upto, from, &files, &unnamed) {
        Ok((segments, unused)) => Ok(FolderStats {
            mark,
            rows,
            segments,
            pairs,
            unused,
        }),
        Err(refusal) => Err(Fault::Refused(refusal)),
    }
}

/// The files behind the slots that a manifest doesn't name. Of a store that was just opened no job
/// has taken one.
fn unnamed_by(alloc: Global, manifest: &Manifest) -> Result<Vec<u16>, AllocError> {
    let mut files = Vec::new(alloc);
    for file in FIRST_FILE..FILE_COUNT {
        if !is_named(manifest, file) {
            files.push(file)?;
        }
    }
    Ok(files)
}

/// What the segments have, and how many files are in use by nobody.
fn files_of<D: Disk>(
    alloc: Global,
    disk: &mut D,
    upto: u32,
    from: Stamp,
    files: &[u16],
    unnamed: &[u16],
) -> Result<(Vec<SegmentStats>, usize), Refusal>
    requires few { D.fault_count disk.old < MAX_FAULTS }
{
    let segments = match segments_on(alloc, disk, upto, from, files) {
        Ok(segments) => segments,
        Err(refusal) => return Err(refusal),
    };
    match unused_on(disk, unnamed) {
        Ok(unused) => Ok((segments, unused)),
        Err(_) => Err(Refusal::DiskFault),
    }
}

/// What the segments in these files have, which follow one another from a mark on.
fn segments_on<D: Disk>(
    alloc: Global,
    disk: &mut D,
    upto: u32,
    from: Stamp,
    files: &[u16],
) -> Result<Vec<SegmentStats>, Refusal>
    requires few { D.fault_count disk.old < MAX_FAULTS }
    ensures count { OnOk result (D.fault_count disk.new ≡ D.fault_count disk.old) }
{
    let mut segments = Vec::new(alloc);
    let mut mark = from;
    let mut rest = files;
    while let [file, after @ ..] = rest {
        let kind = kind_before(after);
        let (segment, end) = match segment_in(alloc, disk, upto, *file, mark, kind) {
            Ok(found) => found,
            Err(refusal) => return Err(refusal),
        };
        segments.push(segment)?;
        mark = end;
        rest = after;
    }
    Ok(segments)
}

/// Whether a segment is the last, by those behind it.
fn kind_before(after: &[u16]) -> Kind {
    if after.is_empty() {
        Kind::Last
    } else {
        Kind::Sealed
    }
}

/// What the segment in a file has, and its last mark.
fn segment_in<D: Disk>(
    alloc: Global,
    disk: &mut D,
    upto: u32,
    file: u16,
    mark: Stamp,
    kind: Kind,
) -> Result<(SegmentStats, Stamp), Refusal>
    requires few { D.fault_count disk.old < MAX_FAULTS }
    ensures count { OnOk result (D.fault_count disk.new ≡ D.fault_count disk.old) }
{
    if file >= FILE_COUNT {
        return Err(Refusal::Corrupt(file));
    }
    match segment_on(alloc, disk, upto, file, mark, kind) {
        Ok(contents) => {
            let segment = SegmentStats {
                file,
                bytes: contents.gate,
                groups: contents.groups.len(),
            };
            Ok((segment, contents.mark))
        }
        Err(refusal) => Err(refusal),
    }
}

/// How many of the files that nobody names hold bytes.
fn unused_on<D: Disk>(disk: &mut D, unnamed: &[u16]) -> Result<usize, DiskFault>
    requires few { D.fault_count disk.old < MAX_FAULTS }
{
    let mut count = 0usize;
    for file in unnamed {
        if is_unused(disk, *file)? {
            count = count.saturating_add(1);
        }
    }
    Ok(count)
}

/// Whether a file that nobody names holds bytes.
fn is_unused<D: Disk>(disk: &mut D, file: u16) -> Result<bool, DiskFault>
    requires few { D.fault_count disk.old < MAX_FAULTS }
    ensures count { OnOk result (D.fault_count disk.new ≡ D.fault_count disk.old) }
{
    if file >= FILE_COUNT {
        return Ok(false);
    }
    let len = disk.len(file)?;
    Ok(len > 0)
}
