use mvo_disk::{DiskFault, StopRefusal};
use mvo_types::Refusal;
use std::alloc::AllocError;
use thiserror::Error;

/// Why nothing can be said of a script.
#[derive(Clone, Copy, Debug, PartialEq, Eq, Error)]
pub enum StopsError {
    /// The store that the script is to run over can't be opened.
    #[error("the store that the script starts from is {0}")]
    Start(Refusal),
    /// The script has no call of this number.
    #[error("the script makes {0} calls of the device")]
    NoSuchCall(u64),
    /// Bytes were to be left that no stop leaves: a mistake of this crate.
    #[error("a stop was to leave what none leaves")]
    NotAnImage,
    /// Memory was refused.
    #[error("out of memory")]
    OutOfMemory,
}

impl From<AllocError> for StopsError {
    fn from(_: AllocError) -> StopsError {
        StopsError::OutOfMemory
    }
}

// The calls of a disk in memory that aren't made to fail fail for want of memory alone.
impl From<DiskFault> for StopsError {
    fn from(_: DiskFault) -> StopsError {
        StopsError::OutOfMemory
    }
}

impl From<StopRefusal> for StopsError {
    fn from(refusal: StopRefusal) -> StopsError {
        match refusal {
            StopRefusal::NotAnImage => StopsError::NotAnImage,
            StopRefusal::Memory => StopsError::OutOfMemory,
        }
    }
}
