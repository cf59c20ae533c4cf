//! What a step of a store is answered.
use mvo_store::{Durable, Generation, Progress, Reclaimed};
use mvo_types::{Refusal, Stamp};

#[derive(Clone, Copy, Debug, PartialEq, Eq)]
pub(crate) enum Reply {
    Done,
    Refused(Refusal),
    /// Durable up to this mark.
    Marked(Stamp),
    /// The manifest of this generation counts.
    Installed(Generation),
    Written(Progress),
    Emptied(Reclaimed),
}

pub(crate) fn done(answer: Result<(), Refusal>) -> Reply {
    match answer {
        Ok(()) => Reply::Done,
        Err(refusal) => Reply::Refused(refusal),
    }
}

/// Done where nothing is in the way.
pub(crate) fn free(answer: Option<Refusal>) -> Reply {
    match answer {
        None => Reply::Done,
        Some(refusal) => Reply::Refused(refusal),
    }
}

pub(crate) fn marked(answer: Result<Durable, Refusal>) -> Reply {
    match answer {
        Ok(durable) => Reply::Marked(durable.mark()),
        Err(refusal) => Reply::Refused(refusal),
    }
}

pub(crate) fn installed(answer: Result<Generation, Refusal>) -> Reply {
    match answer {
        Ok(generation) => Reply::Installed(generation),
        Err(refusal) => Reply::Refused(refusal),
    }
}

pub(crate) fn written(answer: Result<Progress, Refusal>) -> Reply {
    match answer {
        Ok(progress) => Reply::Written(progress),
        Err(refusal) => Reply::Refused(refusal),
    }
}

pub(crate) fn emptied(answer: Result<Reclaimed, Refusal>) -> Reply {
    match answer {
        Ok(reclaimed) => Reply::Emptied(reclaimed),
        Err(refusal) => Reply::Refused(refusal),
    }
}
