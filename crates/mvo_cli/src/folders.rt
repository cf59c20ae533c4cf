use crate::clients::{ClientPipes, PipeFolder, pipes_in};
use crate::fault::Fault;
use crate::folder::open_disk;
use crate::shown_progress::ShownProgress;
use mvo_disk::{DirDisk, Disk, Folder, Unknown};

/// Opens what is in folders, such that many threads may use it.
pub trait Folders {
    /// The disk in a folder.
    type Disk: Disk + Drop + Send;

    /// The named pipes in a folder.
    type Pipes: ClientPipes + Drop + Sync;

    /// The disk in a folder. Its reading is shown on standard error where that is a terminal.
    fn open_folder(&self, folder: &str, is_terminal: bool) -> Result<Self::Disk, Fault>;

    /// The named pipes in a folder. None is opened yet.
    fn pipes_in(&self, folder: &str) -> Result<Self::Pipes, Fault>;
}

impl Folders for HostRuntime {
    type Disk = DirDisk<Folder<HostRuntime>, Unknown, ShownProgress<HostRuntime>>;

    type Pipes = PipeFolder<HostRuntime>;

    fn open_folder(&self, folder: &str, is_terminal: bool) -> Result<Self::Disk, Fault> {
        open_disk(self, folder, is_terminal)
    }

    fn pipes_in(&self, folder: &str) -> Result<Self::Pipes, Fault> {
        pipes_in(self, folder)
    }
}
