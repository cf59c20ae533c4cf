//! The named pipes of clients in a folder.

use crate::clients::client_pipes::ClientPipes;
use crate::fault::Fault;
use std::alloc::{AllocError, Global};
use std::fs::{self, File, Files, OpenOptions};
use std::io;
use std::os::unix::fs::FileTypeExt;

/// The named pipes in a folder: `I.in`, from which the lines of the client with the number I are
/// read, and `I.out`, to which its replies are written.
#[derive(Drop)]
pub struct PipeFolder<F: Files<File = File> + Drop> {
    alloc: Global,
    files: F,
    folder: String,
}

/// The pipes in a folder.
pub fn pipes_in<F>(rt: &F, folder: &str) -> Result<PipeFolder<F>, Fault>
where
    F: AllocGlobal + Files<File = File> + Clone + Drop,
{
    let alloc = rt.alloc();
    Ok(PipeFolder {
        alloc,
        files: rt.clone()?,
        folder: String::from_str(alloc, folder)?,
    })
}

impl<F: Files<File = File> + Drop> PipeFolder<F> {
    fn open_both(&self, number: usize, end: &str) -> Result<File, Fault> {
        let path = self.path(number, end)?;
        let opened = OpenOptions::new()
            .read(true)
            .write(true)
            .open(&self.files, path.as_str());
        match opened {
            Ok(file) => Ok(file),
            Err(error) => Err(Fault::Pipe(path, error)),
        }
    }

    /// Looks whether a pipe is there.
    fn check_one(&self, number: usize, end: &str) -> Result<(), Fault> {
        let path = self.path(number, end)?;
        match fs::metadata(&self.files, path.as_str()) {
            Ok(there) if there.file_type().is_fifo() => Ok(()),
            Ok(_) => Err(Fault::Pipe(path, io::Error::from(io::ErrorKind::InvalidInput))),
            Err(error) => Err(Fault::Pipe(path, error)),
        }
    }

    fn path(&self, number: usize, end: &str) -> Result<String, AllocError> {
        let folder = self.folder.as_str();
        format!(in self.alloc; "{folder}/{number}.{end}")
    }
}

impl<F: Files<File = File> + Drop> ClientPipes for PipeFolder<F> {
    fn check(&self, clients: usize) -> Result<(), Fault> {
        for number in 0..clients {
            self.check_one(number.saturating_add(1), "in")?;
            self.check_one(number.saturating_add(1), "out")?;
        }
        Ok(())
    }

    fn open_lines(&self, number: usize) -> Result<File, Fault> {
        let path = self.path(number, "in")?;
        match File::open(&self.files, path.as_str()) {
            Ok(file) => Ok(file),
            Err(error) => Err(Fault::Pipe(path, error)),
        }
    }

    fn open_replies(&self, number: usize) -> Result<File, Fault> {
        let path = self.path(number, "out")?;
        match OpenOptions::new()
            .write(true)
            .open(&self.files, path.as_str())
        {
            Ok(file) => Ok(file),
            Err(error) => Err(Fault::Pipe(path, error)),
        }
    }

    fn open_ends(&self, number: usize) -> Result<(File, File), Fault> {
        let lines = self.open_both(number, "in")?;
        let replies = self.open_both(number, "out")?;
        Ok((lines, replies))
    }
}
