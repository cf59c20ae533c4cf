use crate::fault::Fault;
use crate::seed::draw_seed;
use crate::shown_progress::ShownProgress;
use mvo_disk::{DirDisk, Disk, Folder, FolderRefusal, Unknown, make_folder};
use mvo_store::{Store, format};
use mvo_types::{Refusal, Row, Rows, Stamp};
use mvo_world::World;
use std::alloc::Global;
use std::fs::{File, Files};
use std::random::RandomSource;
use std::thread::Threads;

/// What the program answers where a folder isn't opened. There is no store where there is none.
fn fault_of(refusal: FolderRefusal) -> Fault {
    match refusal {
        FolderRefusal::Missing => Fault::Refused(Refusal::NotFormatted),
        FolderRefusal::InUse => Fault::InUse,
        FolderRefusal::Io(_) => Fault::Refused(Refusal::DiskFault),
        FolderRefusal::Memory => Fault::Refused(Refusal::OutOfMemory),
    }
}

/// The disk in a folder, with what its files hold.
type HostDisk<R> = DirDisk<Folder<R>, Unknown, ShownProgress<R>>;

/// The disk in a folder. Its reading is shown on standard error where that is a terminal.
pub fn open_disk<R: AllocGlobal + Eprint + Files<File = File> + Clone + Drop>(
    rt: &R,
    folder: &str,
    is_terminal: bool,
) -> Result<HostDisk<R>, Fault> {
    let Ok(own) = rt.clone() else {
        return Err(Fault::OutOfMemory);
    };
    let Ok(errors) = rt.clone() else {
        return Err(Fault::OutOfMemory);
    };
    let shown = ShownProgress::new(errors, is_terminal);
    match DirDisk::open(own, rt.alloc(), folder, Unknown, shown) {
        Ok(disk) => Ok(disk),
        Err(refusal) => Err(fault_of(refusal)),
    }
}

/// Makes a folder where nothing is at the path. Its name is durable then, also where it was there
/// already: who made it may not have synced what holds it.
fn make_durably<R: Files<File = File>>(
    rt: &R,
    alloc: Global,
    folder: &str,
) -> Result<(), FolderRefusal> {
    make_folder(rt, alloc, folder)?;
    let parent = format!(in alloc; "{folder}/..")?;
    File::open(rt, parent.as_str())?.sync_all()?;
    Ok(())
}

/// Makes a new store in a folder, which is made where it isn't there. The folder's own name is
/// durable before the store is.
pub fn format_folder<R: AllocGlobal + Eprint + Files<File = File> + Clone + Drop>(
    rt: &R,
    folder: &str,
    is_terminal: bool,
) -> Result<(), Fault> {
    match make_durably(rt, rt.alloc(), folder) {
        Ok(()) => {}
        // What should hold the folder isn't there.
        Err(FolderRefusal::Missing) => return Err(Fault::Refused(Refusal::DiskFault)),
        Err(refusal) => return Err(fault_of(refusal)),
    }
    match open_disk(rt, folder, is_terminal) {
        Ok(disk) => format_disk(rt.alloc(), disk),
        Err(fault) => Err(fault),
    }
}

/// Makes a new store on a disk.
fn format_disk<D: Disk + Drop>(alloc: Global, disk: D) -> Result<(), Fault> {
    match format(alloc, disk) {
        Ok(_) => Ok(()),
        Err((refusal, _)) => Err(Fault::Refused(refusal)),
    }
}

/// The world over the store in a folder.
pub fn open_world<R>(rt: &R, folder: &str, is_terminal: bool) -> Result<World<HostDisk<R>>, Fault>
where
    R: AllocGlobal + Eprint + Files<File = File> + RandomSource + Threads + Sync + Clone + Drop,
{
    match open_disk(rt, folder, is_terminal) {
        Ok(disk) => world_over(rt, rt.alloc(), disk),
        Err(fault) => Err(fault),
    }
}

/// The world over the store on a disk.
fn world_over<D: Disk + Drop>(
    rt: &(impl RandomSource + Threads + Sync),
    alloc: Global,
    disk: D,
) -> Result<World<D>, Fault> {
    let seed = draw_seed(rt)?;
    match World::open(rt, alloc, seed, disk) {
        Ok(world) => Ok(world),
        Err((refusal, _)) => Err(Fault::Refused(refusal)),
    }
}

/// What a store holds.
pub struct Holdings {
    pub rows: Rows,
    pub mark: Stamp,
    pub pairs: usize,
    pub segments: usize,
    /// How many of their files are of an older version than the one that is written.
    pub old: usize,
}

impl Drop for Holdings {
    fn drop(self) {
        let Holdings {
            rows: _,
            mark: _,
            pairs: _,
            segments: _,
            old: _,
        } = self;
    }
}

/// What the store in a folder holds. The folder isn't used any longer then.
pub fn open_held<R>(rt: &R, folder: &str, is_terminal: bool) -> Result<Holdings, Fault>
where
    R: AllocGlobal + Eprint + Files<File = File> + RandomSource + Threads + Sync + Clone + Drop,
{
    match open_disk(rt, folder, is_terminal) {
        Ok(disk) => held_on(rt, rt.alloc(), disk),
        Err(fault) => Err(fault),
    }
}

/// What the store on a disk holds.
fn held_on<D: Disk + Drop>(
    rt: &(impl RandomSource + Threads + Sync),
    alloc: Global,
    disk: D,
) -> Result<Holdings, Fault> {
    let seed = draw_seed(rt)?;
    match Store::open(rt, alloc, seed, disk) {
        Ok((store, rows, mark)) => Ok(held_of(&store, rows, mark)),
        Err((refusal, _)) => Err(Fault::Refused(refusal)),
    }
}

/// The rows of the store in a folder, by table and key. The folder isn't used any longer then.
pub fn rows_in<R>(rt: &R, folder: &str, is_terminal: bool) -> Result<Vec<Row>, Fault>
where
    R: AllocGlobal + Eprint + Files<File = File> + RandomSource + Threads + Sync + Clone + Drop,
{
    match open_disk(rt, folder, is_terminal) {
        Ok(disk) => rows_on(rt, rt.alloc(), disk),
        Err(fault) => Err(fault),
    }
}

/// The rows of the store on a disk.
fn rows_on<D: Disk + Drop>(
    rt: &(impl RandomSource + Threads + Sync),
    alloc: Global,
    disk: D,
) -> Result<Vec<Row>, Fault> {
    let seed = draw_seed(rt)?;
    match Store::open(rt, alloc, seed, disk) {
        Ok((_, rows, _)) => Ok(rows.into_rows(alloc)?),
        Err((refusal, _)) => Err(Fault::Refused(refusal)),
    }
}

/// What a store holds, with its rows and its mark.
pub fn held_of<D: Disk>(store: &Store<D>, rows: Rows, mark: Stamp) -> Holdings {
    let manifest = store.manifest();
    let (pairs, segments) = (manifest.pairs().len(), manifest.segments().len());
    Holdings {
        rows,
        mark,
        pairs,
        segments,
        old: store.old_files(),
    }
}
