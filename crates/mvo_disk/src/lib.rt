//! A disk of files: what a read gives, and what a stop may leave.
#![tactic(auto)]

mod call;
mod dir_disk;
mod disk;
mod disk_history;
mod file;
mod files;
mod folder;
mod folder_files;
mod image;
mod limits;
mod memory;
mod read;
mod read_progress;
mod start;
mod steps;
mod stop;

pub use call::{Call, DeviceWork};
pub use dir_disk::DirDisk;
pub use disk::{Disk, DiskFault};
pub use folder::{Folder, FolderRefusal, make_folder};
pub use folder_files::FolderFiles;
pub use image::{FileImage, StopRefusal};
pub use limits::FILE_COUNT;
pub use memory::MemDisk;
pub use read::{ReadFailure, read_up_to};
pub use read_progress::{ReadProgress, Silent};
pub use start::{Start, Unknown};
pub use steps::{rewrite_synced, write_synced};
