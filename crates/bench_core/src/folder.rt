use anyhow::{Result, bail};
use mvo_disk::{DirDisk, Folder, Silent, Unknown, make_folder};
use std::fs::{self, Files};
use std::{env, process};

/// A disk in a folder of the system.
pub type HostDisk = DirDisk<Folder<HostRuntime>, Unknown, Silent>;

/// A folder for the benchmark's files, which is removed behind it.
#[derive(Drop)]
pub struct Scratch {
    path: String,
}

impl Scratch {
    /// A folder among the temporary files.
    pub fn new(rt: &HostRuntime) -> Result<Scratch> {
        let top = env::temp_dir(rt)?;
        Scratch::under(rt, top.as_str())
    }

    /// A folder in another one.
    pub fn under(rt: &HostRuntime, top: &str) -> Result<Scratch> {
        let id = process::id(rt.process());
        let path = format!(in rt.alloc(); "{top}/ravundi-bench-{id}")?;
        fs::create_dir(rt, path.as_str())?;
        Ok(Scratch { path })
    }

    /// The path of something in it.
    pub fn path_of(&self, rt: &HostRuntime, name: &str) -> Result<String> {
        let path = self.path.as_str();
        Ok(format!(in rt.alloc(); "{path}/{name}")?)
    }

    /// The disk in a folder in it, which is made.
    pub fn disk(&self, rt: &HostRuntime, name: &str) -> Result<HostDisk> {
        let path = self.path_of(rt, name)?;
        if make_folder(rt, rt.alloc(), &path).is_err() {
            bail!("the folder isn't made");
        }
        match DirDisk::open(rt.clone()?, rt.alloc(), &path, Unknown, Silent) {
            Ok(disk) => Ok(disk),
            Err(refusal) => bail!("the folder isn't opened: {refusal:?}"),
        }
    }

    pub fn remove(&self, rt: &HostRuntime) -> Result<()> {
        rt.remove_dir_all(rt.alloc(), &self.path)?;
        Ok(())
    }
}
