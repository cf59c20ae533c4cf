use anyhow::Result;
use std::fs::{File, OpenOptions};
use std::io::Write;
use std::time::Instant;

/// A file to which bytes are appended, each append with its sync.
#[derive(Drop)]
pub struct Raw {
    file: File,
}

impl Raw {
    /// A new file.
    pub fn new(rt: &HostRuntime, path: &str) -> Result<Raw> {
        let mut options = OpenOptions::new();
        options.write(true).create_new(true);
        let file = options.open(rt, path)?;
        file.sync_all()?;
        Ok(Raw { file })
    }

    /// The nanoseconds of one append and its sync.
    pub fn append(&mut self, rt: &HostRuntime, bytes: &[u8]) -> Result<u64> {
        let start = Instant::now(rt)?;
        self.file.write_all(bytes)?;
        self.file.sync_data()?;
        Ok(u64::try_from(start.elapsed(rt)?.as_nanos())?)
    }
}
