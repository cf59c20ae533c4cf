use mvo_types::Refusal;
use std::alloc::AllocError;
use thiserror::Error;

/// Why a run ends before its time. It is small, as the errors of a service should be that come with
/// each call.
#[derive(Clone, Copy, Debug, Error)]
pub enum Stopped {
    /// The core refused a call, and none is to be refused.
    #[error("the core refused a call: {0}")]
    Refused(Refusal),
    /// The core answered what the rows don't allow, or had more to do than it can have.
    #[error("a call was answered otherwise than the rows ask for")]
    Unexpected,
}

impl From<Refusal> for Stopped {
    fn from(refusal: Refusal) -> Stopped {
        Stopped::Refused(refusal)
    }
}

impl From<AllocError> for Stopped {
    fn from(_: AllocError) -> Stopped {
        Stopped::Refused(Refusal::OutOfMemory)
    }
}
