use mvo_types::Refusal;
use std::alloc::{AllocError, AllocFailed};
use thiserror::Error;

/// Why the run ends before its end.
#[derive(Clone, Copy, Debug, Error)]
pub enum Wrong {
    /// A call that isn't to be refused was.
    #[error("the core refused a call: {0}")]
    Refused(Refusal),
    /// A call was answered otherwise than it must be.
    #[error("another answer is due")]
    Answer,
}

impl From<Refusal> for Wrong {
    fn from(refusal: Refusal) -> Wrong {
        Wrong::Refused(refusal)
    }
}

impl From<AllocError> for Wrong {
    fn from(_: AllocError) -> Wrong {
        Wrong::Refused(Refusal::OutOfMemory)
    }
}

impl<T: Drop> From<AllocFailed<T>> for Wrong {
    fn from(_: AllocFailed<T>) -> Wrong {
        Wrong::Refused(Refusal::OutOfMemory)
    }
}
