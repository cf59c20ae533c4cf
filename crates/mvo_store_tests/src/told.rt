//! What a call of a store is answered.
use mvo_store::{Done, Generation, Progress, Reclaimed};
use mvo_types::{Refusal, Stamp};

#[derive(Clone, Copy, Debug, PartialEq, Eq)]
pub(crate) enum Told {
    Written,
    /// Durable up to this mark.
    Durable(Stamp),
    Ready,
    Progress(Progress),
    Shut,
    Installed(Generation),
    Reclaimed(Reclaimed),
    Refused(Refusal),
}

pub(crate) fn told_of(answer: Result<Done, Refusal>) -> Told {
    match answer {
        Ok(Done::Written) => Told::Written,
        Ok(Done::Durable(durable)) => Told::Durable(durable.mark()),
        Ok(Done::Ready) => Told::Ready,
        Ok(Done::Progress(progress)) => Told::Progress(progress),
        Ok(Done::Shut) => Told::Shut,
        Ok(Done::Installed(generation)) => Told::Installed(generation),
        Ok(Done::Reclaimed(reclaimed)) => Told::Reclaimed(reclaimed),
        Err(refusal) => Told::Refused(refusal),
    }
}
