//! The files of a disk in a folder of the operating system.
//!
//! Each call of the system that a `DirDisk` over a `Folder` makes stands in this file. No clause
//! can say what the system answers, so none here speaks of bytes: that a call does what its name
//! says is a premise.
ghost use Rattle.std.specs.Prelude.{◌≡◌, ◌<◌, length, IfOk};
ghost use Rattle.mvo_disk.specs.declared.limits.TheConstants.{FILE_COUNT};

use crate::FILE_COUNT;
use crate::folder_files::FolderFiles;
use std::alloc::{AllocError, Global};
use std::fs::{self, File, Files, Metadata, OpenOptions, TryLockError};
use std::io;
use std::os::fd::AsRawFd;
use std::os::unix::fs::{FileExt, MetadataExt};

/// Why a folder isn't opened.
#[derive(Debug, Drop)]
pub enum FolderRefusal {
    /// Nothing is at the path, or what should hold it isn't there.
    Missing,
    /// Another process has it open, or this one.
    InUse,
    /// It is no folder, one of its files is no file, is a link or has a second name, or the system
    /// failed a call.
    Io(io::Error),
    Memory,
}

impl From<AllocError> for FolderRefusal {
    fn from(_: AllocError) -> Self {
        FolderRefusal::Memory
    }
}

impl From<io::Error> for FolderRefusal {
    fn from(error: io::Error) -> Self {
        match error.kind() {
            io::ErrorKind::NotFound => FolderRefusal::Missing,
            io::ErrorKind::OutOfMemory => FolderRefusal::Memory,
            _ => FolderRefusal::Io(error),
        }
    }
}

/// Makes a folder where nothing is at the path, durably. What holds it must be there.
pub fn make_folder<R: Files<File = File>>(
    rt: &R,
    alloc: Global,
    path: &str,
) -> Result<(), FolderRefusal> {
    match fs::create_dir(rt, path) {
        Ok(()) => {
            let parent = format!(in alloc; "{path}/..")?;
            File::open(rt, parent.as_str())?.sync_all()?;
            Ok(())
        }
        Err(error) if error.kind() == io::ErrorKind::AlreadyExists => Ok(()),
        Err(error) => Err(error.into()),
    }
}

/// A folder that this process alone uses, and the handles of its files.
///
/// A handle is kept of each file of which something isn't durable, and of the other one that was
/// used last. The others are opened anew as they are used, so few handles do for all files. A file
/// is opened under its name alone: a link is never followed, and a file with a second name is
/// refused.
pub struct Folder<R: Files<File = File> + Drop> {
    rt: R,
    path: String,
    // The path of the file that is being used. It keeps its room.
    name: String,
    // The folder itself. It holds the lock.
    entry: File,
    // Whether each file is there.
    is_there: Vec<bool>,
    // The handle of each file that was written or cut since its last sync.
    handles: Vec<Option<File>>,
    // The file that was read or synced last, if it hasn't been written or cut since, with its
    // handle.
    used: Option<(u16, File)>,
    // Whether a stop may still take away a file that was made.
    has_new: bool,
    ghost full: { length handles.items ≡ FILE_COUNT },
    ghost known: { length is_there.items ≡ FILE_COUNT },
}

impl<R: Files<File = File> + Drop> Drop for Folder<R> {
    fn drop(self) {
        let Folder {
            rt: _,
            path: _,
            name: _,
            entry: _,
            is_there: _,
            handles: _,
            used: _,
            has_new: _,
        } = self;
    }
}

// A handle whose number is none of the standard streams', so that nothing meant for a stream that
// was closed lands in a file.
fn above_streams(file: File) -> io::Result<File> {
    if file.as_raw_fd() <= 2 {
        file.try_clone()
    } else {
        Ok(file)
    }
}

// Opens the folder at a path and locks it.
fn open_locked<R: Files<File = File>>(rt: &R, path: &str) -> Result<File, FolderRefusal> {
    let entry = above_streams(File::open(rt, path)?)?;
    if !entry.metadata()?.is_dir() {
        let error = io::Error::from(io::ErrorKind::NotADirectory);
        return Err(FolderRefusal::Io(error));
    }
    match entry.try_lock() {
        Ok(()) => Ok(entry),
        Err(TryLockError::WouldBlock) => Err(FolderRefusal::InUse),
        Err(TryLockError::Error(error)) => Err(FolderRefusal::Io(error)),
    }
}

// What stands in the place of a file and is none of the folder's.
fn stranger() -> io::Error {
    io::Error::from(io::ErrorKind::Unsupported)
}

// Looks at what a path names itself, which has to be a file with no other name. A link isn't
// followed.
fn look<R: Files<File = File>>(rt: &R, path: &str) -> io::Result<Metadata> {
    let seen = fs::symlink_metadata(rt, path)?;
    if seen.is_file() && seen.nlink() <= 1 {
        Ok(seen)
    } else {
        Err(stranger())
    }
}

// Whether two looks were at one file.
fn is_same(one: &Metadata, other: &Metadata) -> bool {
    one.dev() == other.dev() && one.ino() == other.ino()
}

// Opens the file that a path names itself. The look before keeps pipes and devices from being
// opened. The one behind is what counts: no other file has the number of one that is open, so the
// file is the one that stands under the name, however the folder changed between the two.
fn open_file<R: Files<File = File>>(rt: &R, path: &str) -> io::Result<File> {
    look(rt, path)?;
    let mut options = OpenOptions::new();
    options.read(true).write(true);
    let file = above_streams(options.open(rt, path)?)?;
    if is_same(&look(rt, path)?, &file.metadata()?) {
        Ok(file)
    } else {
        Err(stranger())
    }
}

// No file is there.
fn no_files(alloc: Global) -> Result<Vec<bool>, AllocError>
    ensures { IfOk result (λ v. length v.items ≡ FILE_COUNT) }
{
    vec![in alloc; false; FILE_COUNT as usize]
}

// No handle for any file.
fn no_handles(alloc: Global) -> Result<Vec<Option<File>>, AllocError>
    ensures { IfOk result (λ v. length v.items ≡ FILE_COUNT) }
{
    let mut handles = Vec::new(alloc);
    for _ in 0..FILE_COUNT as usize {
        handles.push(None)?;
    }
    Ok(handles)
}

impl<R: Files<File = File> + Drop> Folder<R> {
    ghost use Rattle.std.specs.Prelude.{◌<◌};
    ghost use Rattle.mvo_disk.specs.declared.limits.TheConstants.{FILE_COUNT};

    /// The folder at a path, which is this process's until the value is dropped.
    pub fn open(rt: R, alloc: Global, path: &str) -> Result<Folder<R>, FolderRefusal> {
        let entry = open_locked(&rt, path)?;
        let path = String::from_str(alloc, path)?;
        let is_there = no_files(alloc)?;
        let handles = no_handles(alloc)?;
        Ok(Folder {
            rt,
            path,
            name: String::new(alloc),
            entry,
            is_there,
            handles,
            used: None,
            has_new: true,
        })
    }

    // Writes the path of a file: its number in four decimal digits. The folder's own path has to
    // lead to the folder that is locked still.
    fn locate(&mut self, file: u16) -> io::Result<()> {
        let folder = self.path.as_str();
        if !is_same(&fs::metadata(&self.rt, folder)?, &self.entry.metadata()?) {
            return Err(stranger());
        }
        self.name.clear();
        write!(&mut self.name, "{folder}/{file:04}")?;
        Ok(())
    }

    // Makes a file that isn't there. A link to nothing counts as there.
    fn make(&mut self, file: u16) -> io::Result<File>
        requires { file < FILE_COUNT }
    {
        self.locate(file)?;
        let mut options = OpenOptions::new();
        options.read(true).write(true).create_new(true);
        let made = above_streams(options.open(&self.rt, self.name.as_str())?)?;
        self.is_there[file as usize] = true;
        self.has_new = true;
        Ok(made)
    }

    // The handle of a file that is there: the one that was kept, or a new one.
    fn reopen(&mut self, file: u16) -> io::Result<File> {
        match self.used.take() {
            Some((used, handle)) if used == file => Ok(handle),
            kept => {
                self.used = kept;
                self.locate(file)?;
                open_file(&self.rt, self.name.as_str())
            }
        }
    }
}

impl<R: Files<File = File> + Drop> FolderFiles for Folder<R> {
    ghost use Rattle.std.specs.Prelude.{◌<◌};
    ghost use Rattle.mvo_disk.specs.declared.limits.TheConstants.{FILE_COUNT};

    fn find(&mut self, file: u16) -> io::Result<u64>
        requires { file < FILE_COUNT }
    {
        self.locate(file)?;
        let found = match open_file(&self.rt, self.name.as_str()) {
            Ok(found) => found,
            Err(error) if error.kind() == io::ErrorKind::NotFound => return Ok(0),
            Err(error) => return Err(error),
        };
        let len = found.metadata()?.len();
        found.sync_data()?;
        self.is_there[file as usize] = true;
        Ok(len)
    }

    fn sync_names(&mut self) -> io::Result<()> {
        if self.has_new {
            self.entry.sync_all()?;
            self.has_new = false;
        }
        Ok(())
    }

    fn len(&mut self, file: u16) -> io::Result<u64>
        requires { file < FILE_COUNT }
    {
        if let Some(handle) = &self.handles[file as usize] {
            return Ok(handle.metadata()?.len());
        }
        if !self.is_there[file as usize] {
            return Ok(0);
        }
        let handle = self.reopen(file)?;
        let len = handle.metadata()?.len();
        self.used = Some((file, handle));
        Ok(len)
    }

    fn read(&mut self, file: u16, at: u64, into: &mut [u8]) -> io::Result<()>
        requires { file < FILE_COUNT }
    {
        if let Some(handle) = &self.handles[file as usize] {
            return handle.read_exact_at(into, at);
        }
        if into.is_empty() {
            return Ok(());
        }
        if !self.is_there[file as usize] {
            return Err(io::Error::from(io::ErrorKind::NotFound));
        }
        let handle = self.reopen(file)?;
        handle.read_exact_at(into, at)?;
        self.used = Some((file, handle));
        Ok(())
    }

    fn write(&mut self, file: u16, at: u64, bytes: &[u8]) -> io::Result<()>
        requires { file < FILE_COUNT }
    {
        if self.handles[file as usize].is_none() {
            let handle = if self.is_there[file as usize] {
                self.reopen(file)?
            } else {
                self.make(file)?
            };
            self.handles[file as usize] = Some(handle);
        }
        match &self.handles[file as usize] {
            Some(handle) => handle.write_all_at(bytes, at),
            None => Err(io::Error::from(io::ErrorKind::NotFound)),
        }
    }

    fn cut(&mut self, file: u16, len: u64) -> io::Result<()>
        requires { file < FILE_COUNT }
    {
        if self.handles[file as usize].is_none() {
            if !self.is_there[file as usize] {
                return Ok(());
            }
            let handle = self.reopen(file)?;
            self.handles[file as usize] = Some(handle);
        }
        match &self.handles[file as usize] {
            Some(handle) => handle.set_len(len),
            None => Err(io::Error::from(io::ErrorKind::NotFound)),
        }
    }

    fn sync(&mut self, file: u16) -> io::Result<()>
        requires { file < FILE_COUNT }
    {
        if let Some(handle) = self.handles[file as usize].take() {
            handle.sync_data()?;
            self.used = Some((file, handle));
        }
        self.sync_names()
    }
}
