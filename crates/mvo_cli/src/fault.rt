ghost use Rattle.std.specs.Prelude.{◌≡◌, ◌↔◌, IsTrue};
ghost use Rattle.mvo_cli.specs.Status.{status_of};

use crate::told_refusal::ToldRefusal;
use clap::error::ErrorKind;
use mvo_script::ScriptError;
use mvo_stops::{Failed, StopsError};
use mvo_types::Refusal;
use std::alloc::AllocError;
use std::io;
use thiserror::Error;

/// Why the program ends before it has done a command.
#[derive(Debug, Drop, Error)]
pub enum Fault {
    /// The command line is none of the program's, or asks for help.
    #[error("{0}")]
    CommandLine(clap::Error),
    /// The words of the command line can't be read.
    #[error("error: can't read the command line: {0}\n")]
    Words(io::Error),
    /// The store in a folder isn't made or opened.
    #[error("{told}", told = ToldRefusal(*.0))]
    Refused(Refusal),
    /// Another process has the folder open. This is refused as a fault of the disk.
    #[error("refused 50\nthe folder is in use by another process\n")]
    InUse,
    /// The system gives no random bytes for the seed of the keys' table.
    #[error("error: can't draw a seed: {0}\n")]
    Seed(io::Error),
    /// The script isn't run to its end.
    #[error("error: {0}\n")]
    Script(ScriptError),
    /// A file with a script can't be read.
    #[error("error: can't read {0}: {1}\n")]
    ScriptFile(String, io::Error),
    /// A named pipe can't be used.
    #[error("error: can't use the pipe {0}: {1}\n")]
    Pipe(String, io::Error),
    /// A client wasn't served to the end, and why.
    #[error("{0}")]
    Unserved(String),
    /// Nothing can be said of a script, or it has no such call.
    #[error("error: {0}\n")]
    Stops(StopsError),
    /// A stop or a fault at a call of a script leaves what wasn't promised.
    #[error("error: {0}\n")]
    Found(Failed),
    /// What was asked for can't be printed.
    #[error("error: can't write: {0}\n")]
    Print(io::Error),
    /// Memory was refused before the command was known, or while it was done.
    #[error("error: out of memory\n")]
    OutOfMemory,
}

impl Fault {
    /// Whether it is help, which goes to standard output.
    pub fn is_help(&self) -> bool
        ensures { IsTrue result ↔ (status_of self.now ≡ 0) }
    {
        self.status() == 0
    }

    /// The exit status: 0 after help, 1 where the store wasn't made or opened, or what wasn't
    /// promised was found, 2 for a bad command line, 3 where reading or writing failed, or memory
    /// or a seed was refused.
    pub fn status(&self) -> u8
        ensures { result ≡ status_of self.now }
    {
        match self {
            Fault::CommandLine(error) => match error.kind() {
                ErrorKind::DisplayHelp | ErrorKind::DisplayVersion => 0,
                ErrorKind::OutOfMemory => 3,
                _ => 2,
            },
            Fault::Words(_) => 2,
            Fault::Stops(StopsError::NoSuchCall(_)) => 2,
            Fault::Refused(_) | Fault::InUse | Fault::Found(_) => 1,
            Fault::Seed(_)
            | Fault::Script(_)
            | Fault::ScriptFile(_, _)
            | Fault::Pipe(_, _)
            | Fault::Unserved(_)
            | Fault::Stops(_)
            | Fault::Print(_)
            | Fault::OutOfMemory => 3,
        }
    }
}

impl From<AllocError> for Fault {
    fn from(_e: AllocError) -> Fault {
        Fault::OutOfMemory
    }
}

impl From<Refusal> for Fault {
    fn from(refusal: Refusal) -> Fault {
        Fault::Refused(refusal)
    }
}
