ghost use Rattle.mvo_world.specs.Replies.{IsReplyTo};
ghost use Rattle.mvo_script.specs.Flushing.{IsFlush, IsFlushed};

use mvo_disk::Disk;
use mvo_store::turn;
use mvo_types::Refusal;
use mvo_world::{Event, Reply, World};

/// Closes the next group, where there is one to close and room for it, and makes each closed
/// group durable, with a rotation where the segment is full. It answers Durable with the store's
/// mark, also where there was nothing to do, or the refusal at which it stopped: so Busy where a
/// job runs and the segment is full, since a job is brought on by its own steps alone.
pub fn flush<D: Disk>(world: &mut World<D>) -> Reply
    ensures flushed { IsFlushed world.new result }
    ensures steps { let step = IsReplyTo D.Disk in IsFlush step world.old result world.new }
{
    match world.step(Event::CloseGroup) {
        Reply::Closed(_) | Reply::Refused(Refusal::NothingToDo | Refusal::RingFull) => {}
        refused => return refused,
    }
    loop {
        match turn(world) {
            Ok(true) => {}
            Ok(false) => return Reply::Durable(world.mark()),
            Err(refusal) => return Reply::Refused(refusal),
        }
    }
}
