use crate::error::StopsError;
use crate::replay::write_whole;
use mvo_disk::{FILE_COUNT, FileImage, MemDisk};
use mvo_store::format;
use std::alloc::{AllocError, Global};

/// What the files of a disk hold as a script begins, all of it synced.
pub struct ScriptStart {
    alloc: Global,
    files: Vec<FileImage>,
}

impl Drop for ScriptStart {
    fn drop(self) {
        let ScriptStart { alloc: _, files: _ } = self;
    }
}

impl ScriptStart {
    /// A new store.
    pub fn formatted(alloc: Global) -> Result<ScriptStart, StopsError> {
        match format(alloc, MemDisk::new(alloc)?) {
            Ok(disk) => Ok(ScriptStart::of(alloc, &disk)?),
            Err((refusal, _)) => Err(StopsError::Start(refusal)),
        }
    }

    /// What a disk holds.
    pub fn of(alloc: Global, disk: &MemDisk) -> Result<ScriptStart, AllocError> {
        let mut files = Vec::new(alloc);
        for file in 0..FILE_COUNT {
            let bytes = disk.bytes(file);
            if !bytes.is_empty() {
                let bytes = bytes.to_vec(alloc)?;
                files.push(FileImage { file, bytes })?;
            }
        }
        Ok(ScriptStart { alloc, files })
    }

    /// The bytes of a file.
    pub fn bytes(&self, file: u16) -> &[u8] {
        for image in &self.files {
            if image.file == file {
                return &image.bytes;
            }
        }
        &[]
    }

    /// A disk that holds it, with an empty record.
    pub fn disk(&self) -> Result<MemDisk, StopsError> {
        let mut disk = MemDisk::new(self.alloc)?;
        for image in &self.files {
            write_whole(&mut disk, image)?;
        }
        disk.stop(&[])?;
        Ok(disk)
    }
}
