//! One turn of a flush, which makes one group durable.
ghost use Rattle.mvo_store.specs.Flushing.{IsAppend, IsAppendHere, IsRotatedAppend, IsTurn};

use crate::append::log::Log;
use crate::call::StoreCall;
use crate::done::Done;
use crate::jobs::whole::run_rotation;
use mvo_types::Refusal;

/// Makes the group durable that is being appended, or else the next one; false where there is none.
/// Where the segment is full for it, or is of an older version, the log is rotated first. It is
/// refused as the first of its calls that stops it, and what its earlier ones did stays done: so
/// Busy where the segment is so beside a job, since a job is brought on by its own steps alone.
pub fn turn<L: Log>(log: &mut L) -> Result<bool, Refusal>
    ensures { IsTurn L.takes L.comes_to log.old result log.new }
{
    match log.take_next() {
        // A group that is pending already comes first: the store is Busy with it.
        Ok(()) | Err(Refusal::Busy) => {}
        Err(Refusal::NothingToDo) => return Ok(false),
        Err(refusal) => return Err(refusal),
    }
    match append(log) {
        Ok(_) => Ok(true),
        Err(refusal) => Err(refusal),
    }
}

// Makes the pending group durable. Its body may be written already.
fn append<L: Log>(log: &mut L) -> Result<Done, Refusal>
    ensures { IsAppend L.comes_to log.old result log.new }
{
    match log.call(StoreCall::AppendBody) {
        Ok(_) | Err(Refusal::Busy) => log.call(StoreCall::AppendOpen),
        Err(Refusal::SegmentFull) => append_rotated(log),
        Err(Refusal::OldSegment) => append_rotated(log),
        Err(refusal) => Err(refusal),
    }
}

// Makes the pending group durable in the segment that a rotation of the log gives.
fn append_rotated<L: Log>(log: &mut L) -> Result<Done, Refusal>
    ensures { IsRotatedAppend L.comes_to log.old result log.new }
{
    match run_rotation(log) {
        Ok(_) => append_here(log),
        Err(refusal) => Err(refusal),
    }
}

// Makes the pending group durable in the segment that there is.
fn append_here<L: Log>(log: &mut L) -> Result<Done, Refusal>
    ensures { IsAppendHere L.comes_to log.old result log.new }
{
    match log.call(StoreCall::AppendBody) {
        Ok(_) | Err(Refusal::Busy) => log.call(StoreCall::AppendOpen),
        Err(refusal) => Err(refusal),
    }
}
