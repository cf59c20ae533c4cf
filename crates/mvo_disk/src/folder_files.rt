//! The files of a folder, as a disk in one asks for them.

use std::io;

/// The files of a folder, each at its number: what a disk asks of the system. No clause says what
/// the system answers; that each call does what its name says is a premise (`Start`).
pub trait FolderFiles {
    ghost use Rattle.std.specs.Prelude.{◌<◌};
    ghost use Rattle.mvo_disk.specs.declared.limits.TheConstants.{FILE_COUNT};

    /// Looks for a file, and answers its length once it is durable. A missing one has 0 bytes.
    fn find(&mut self, file: u16) -> io::Result<u64>
        requires { file < FILE_COUNT };

    /// Makes the names of the files durable.
    fn sync_names(&mut self) -> io::Result<()>;

    /// The length of a file. One that isn't there has 0 bytes.
    fn len(&mut self, file: u16) -> io::Result<u64>
        requires { file < FILE_COUNT };

    /// Fills the slice from the bytes of a file, at an offset. Fewer bytes than that fail.
    fn read(&mut self, file: u16, at: u64, into: &mut [u8]) -> io::Result<()>
        requires { file < FILE_COUNT };

    /// Writes the bytes at an offset of a file, which is made if it isn't there.
    fn write(&mut self, file: u16, at: u64, bytes: &[u8]) -> io::Result<()>
        requires { file < FILE_COUNT };

    /// Cuts a file to a length that is at most its own. One that isn't there has 0 bytes already.
    fn cut(&mut self, file: u16, len: u64) -> io::Result<()>
        requires { file < FILE_COUNT };

    /// Makes a file durable, and the names of all files. One that was neither written nor cut since
    /// its last sync is durable already.
    fn sync(&mut self, file: u16) -> io::Result<()>
        requires { file < FILE_COUNT };
}
