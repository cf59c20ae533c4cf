//! A disk in a folder of the operating system.
use crate::equal::{holds, same};
use crate::files::disk::guarded::{cut, len, put, read, read_two, sync, write};
use mvo_disk::{
    DirDisk, Disk, DiskFault, Folder, FolderRefusal, ReadProgress, Silent, Unknown, make_folder,
};
use std::alloc::Global;
use std::fs::{self, File};
use std::process::Abort;
use std::rt::Files;
use std::sync::atomic::{AtomicU64, Ordering};
use std::test::Fail;
use std::{env, process};

type HostDisk = DirDisk<Folder<HostRuntime>, Unknown, Silent>;

/// A path in the folder of temporary files that is this process's own.
fn path_of(rt: &HostRuntime, name: &str) -> Result<String, Fail> {
    let (folder, id) = (env::temp_dir(rt)?, process::id(rt.process()));
    let folder = folder.as_str();
    Ok(format!(in rt.alloc(); "{folder}/ravundi-disk-{name}-{id}")?)
}

/// A folder with such a path.
fn folder_of(rt: &HostRuntime, name: &str) -> Result<String, Fail> {
    let path = path_of(rt, name)?;
    make_folder(rt, rt.alloc(), &path)?;
    Ok(path)
}

fn open(rt: &HostRuntime, path: &str) -> Result<HostDisk, FolderRefusal> {
    DirDisk::open(rt.clone()?, rt.alloc(), path, Unknown, Silent)
}

/// Keeps the last that was told.
#[derive(Drop)]
struct Told<'a> {
    read: &'a AtomicU64,
    all: &'a AtomicU64,
}

impl ReadProgress for Told<'_> {
    fn tell(&mut self, read: u64, all: u64) {
        self.read.store(read, Ordering::SeqCst);
        self.all.store(all, Ordering::SeqCst);
    }
}

/// File 3 holds the bytes `axydz` then, and the last file none.
fn fill(disk: &mut HostDisk) -> Result<(), DiskFault> {
    put(disk, 3, 0, b"abcd")?;
    put(disk, 1023, 0, b"e")?;
    put(disk, 3, 1, b"xy")?;
    cut(disk, 1023, 0)?;
    sync(disk, 1023)?;
    write(disk, 3, 4, b"z")
}

/// A folder's file holds these bytes.
fn file_holds(
    rt: &(impl Abort + Alloc + Files),
    alloc: Global,
    path: &str,
    name: &str,
    bytes: &[u8],
) -> Result<(), Fail> {
    let file = format!(in alloc; "{path}/{name}")?;
    same(rt, &fs::read(rt, file.as_str())?.as_slice(), &bytes);
    Ok(())
}

/// A folder's file is so long.
fn file_is_long(
    rt: &(impl Abort + Files),
    alloc: Global,
    path: &str,
    name: &str,
    len: u64,
) -> Result<(), Fail> {
    let file = format!(in alloc; "{path}/{name}")?;
    same(rt, &fs::metadata(rt, file.as_str())?.len(), &len);
    Ok(())
}

fn fills_its_files(
    rt: &(impl Abort + Alloc + Files),
    alloc: Global,
    path: &str,
    disk: &mut HostDisk,
) -> Result<(), Fail> {
    fill(disk)?;
    same(rt, &len(disk, 3), &Ok(5));
    same(rt, &len(disk, 4), &Ok(0));
    file_holds(rt, alloc, path, "0003", b"axydz")?;
    file_is_long(rt, alloc, path, "1023", 0)
}

fn has_what_was_filled<D: Disk>(rt: &impl Abort, alloc: Global, disk: &mut D) -> Result<(), Fail> {
    same(
        rt,
        &read(alloc, disk, 3, 9)?.as_slice(),
        &b"axydz".as_slice(),
    );
    same(rt, &read(alloc, disk, 3, 2)?.as_slice(), &b"ax".as_slice());
    same(rt, &read_two(disk, 3, 3)?, &(*b"dz"));
    same(rt, &disk.faults(), &0);
    Ok(())
}

fn fills(rt: &(impl Abort + Alloc + Files), host: &HostRuntime, path: &str) -> Result<(), Fail> {
    let mut disk = open(host, path)?;
    fills_its_files(rt, host.alloc(), path, &mut disk)
}

fn is_filled(rt: &impl Abort, host: &HostRuntime, path: &str) -> Result<(), Fail> {
    let (read, all) = (AtomicU64::new(0), AtomicU64::new(0));
    let told = Told {
        read: &read,
        all: &all,
    };
    let mut disk = DirDisk::open(host.clone()?, host.alloc(), path, Unknown, told)?;
    has_what_was_filled(rt, host.alloc(), &mut disk)?;
    same(rt, &read.load(Ordering::SeqCst), &9);
    same(rt, &all.load(Ordering::SeqCst), &5);
    Ok(())
}

fn keeps(rt: &(impl Abort + Alloc + Files), host: &HostRuntime, path: &str) -> Result<(), Fail> {
    fills(rt, host, path)?;
    is_filled(rt, host, path)?;
    fs::remove_dir_all(host, path)?;
    Ok(())
}

#[test]
fn keeps_its_files(rt: HostRuntime) -> Result<(), Fail> {
    let path = folder_of(&rt, "keeps")?;
    keeps(&rt, &rt, path.as_str())
}

/// How opening the folder ends. The system may refuse to open it as a folder of files.
fn opening(host: &HostRuntime, path: &str) -> &'static str {
    match open(host, path) {
        Ok(_) => "open",
        Err(FolderRefusal::InUse) => "in use",
        Err(FolderRefusal::Missing) => "missing",
        Err(FolderRefusal::Io(_)) => "io",
        Err(FolderRefusal::Memory) => "memory",
    }
}

/// How opening the folder ends while it is used.
fn opening_again(host: &HostRuntime, path: &str) -> Result<&'static str, FolderRefusal> {
    let _disk = open(host, path)?;
    Ok(opening(host, path))
}

fn is_used_alone(rt: &impl Abort, host: &HostRuntime, path: &str) -> Result<(), Fail> {
    same(rt, &opening_again(host, path)?, &"in use");
    same(rt, &opening(host, path), &"open");
    fs::remove_dir_all(host, path)?;
    Ok(())
}

#[test]
fn is_used_by_one_at_a_time(rt: HostRuntime) -> Result<(), Fail> {
    let path = folder_of(&rt, "one")?;
    is_used_alone(&rt, &rt, path.as_str())
}

/// Neither the folder nor the inner one is there at first.
fn refuses(rt: &impl Abort, host: &HostRuntime, path: &str, inner: &str) -> Result<(), Fail> {
    let alloc = host.alloc();
    same(rt, &opening(host, path), &"missing");
    holds(
        rt,
        matches!(make_folder(host, alloc, inner), Err(FolderRefusal::Missing)),
    );
    make_folder(host, alloc, path)?;
    make_folder(host, alloc, path)?;
    // A folder where a file should be.
    make_folder(host, alloc, inner)?;
    same(rt, &opening(host, path), &"io");
    fs::remove_dir_all(host, path)?;
    // A file where the folder should be.
    fs::write(host, path, "text")?;
    same(rt, &opening(host, path), &"io");
    fs::remove_file(host, path)?;
    Ok(())
}

#[test]
fn refuses_what_is_no_folder(rt: HostRuntime) -> Result<(), Fail> {
    let path = path_of(&rt, "refuses")?;
    let inner = format!(in rt.alloc(); "{path}/0007")?;
    refuses(&rt, &rt, path.as_str(), inner.as_str())
}

/// A disk whose folder is removed takes nothing more, and gives nothing.
fn outlives_its_folder(
    rt: &(impl Abort + Alloc + Files),
    alloc: Global,
    path: &str,
    disk: &mut HostDisk,
) -> Result<(), Fail> {
    put(disk, 2, 0, b"ab")?;
    fs::remove_dir_all(rt, path)?;
    // The file can't be made.
    same(rt, &write(disk, 9, 0, b"c"), &Err(DiskFault));
    same(rt, &write(disk, 2, 0, b"c"), &Err(DiskFault));
    same(rt, &cut(disk, 2, 0), &Err(DiskFault));
    same(rt, &sync(disk, 2), &Err(DiskFault));
    same(rt, &disk.faults(), &4);
    holds(rt, read(alloc, disk, 2, 2).is_err());
    same(rt, &disk.faults(), &5);
    Ok(())
}

#[test]
fn takes_nothing_after_a_fault(rt: HostRuntime) -> Result<(), Fail> {
    let path = folder_of(&rt, "fault")?;
    let mut disk = open(&rt, &path)?;
    outlives_its_folder(&rt, rt.alloc(), &path, &mut disk)
}
