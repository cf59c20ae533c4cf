ghost use Rattle.std.specs.Prelude.{◌≡◌};
ghost use Rattle.mvo_world.specs.Replies.{reply_of, reply_to_taking};

use mvo_core::{Closed, Collection, Finishing, Settlement, Validation};
use mvo_store::{Done, Generation, Progress, Reclaimed};
use mvo_types::{Answer, Refusal, Stamp, TxId};

/// What is answered to a step.
#[derive(Debug, Drop)]
pub enum Reply {
    /// The transaction that began.
    Began(TxId),
    /// The answer to an operation.
    Answered(Answer),
    /// The transaction is Preparing, with this end timestamp.
    Prepared(Stamp),
    /// The entry is as it was, and whether others are left.
    Validated(Validation),
    /// The transaction is Committed, or whom it waits for.
    Settled(Settlement),
    /// The transaction is Aborted.
    RolledBack,
    /// Whether words that name the transaction are left.
    Finished(Finishing),
    /// Whether a version was taken out of memory, or there was none to take.
    Collected(Collection),
    /// The tale starts at this timestamp.
    Trimmed(Stamp),
    /// The group that was closed.
    Closed(Closed),
    /// The store took the group.
    Taken,
    /// The group's body, or the manifest, is written.
    Written,
    /// The group is durable: each commit with an end up to this mark stays over a stop.
    Durable(Stamp),
    /// Whether the store's mark is at least the timestamp.
    Polled(bool),
    /// A rotation runs: its fresh segment is written.
    Ready,
    /// A checkpoint or a merge runs: it has more to write, or all is written.
    Progress(Progress),
    /// The gate of the slot is closed.
    Shut,
    /// The manifest of this generation is installed.
    Installed(Generation),
    /// Whether a file was emptied, or none was left.
    Reclaimed(Reclaimed),
    /// The step is refused.
    Refused(Refusal),
}

/// The reply to a call of the store.
pub fn reply_of(came: Result<Done, Refusal>) -> Reply
    ensures { result ≡ reply_of came }
{
    match came {
        Ok(Done::Written) => Reply::Written,
        Ok(Done::Durable(durable)) => Reply::Durable(durable.mark()),
        Ok(Done::Ready) => Reply::Ready,
        Ok(Done::Progress(progress)) => Reply::Progress(progress),
        Ok(Done::Shut) => Reply::Shut,
        Ok(Done::Installed(generation)) => Reply::Installed(generation),
        Ok(Done::Reclaimed(reclaimed)) => Reply::Reclaimed(reclaimed),
        Err(refusal) => Reply::Refused(refusal),
    }
}

/// The reply to a taking of the oldest closed group.
pub(crate) fn reply_to_taking(came: Result<(), Refusal>) -> Reply
    ensures { result ≡ reply_to_taking came }
{
    match came {
        Ok(()) => Reply::Taken,
        Err(refusal) => Reply::Refused(refusal),
    }
}
