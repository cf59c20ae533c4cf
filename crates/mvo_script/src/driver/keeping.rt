//! What is due of a driver's world is done, a chore a turn.
ghost use Rattle.std.specs.Prelude.{◌≡◌};
ghost use Rattle.mvo_script.specs.Keeping.{remains_behind};

use super::Driver;
use crate::flush::flush;
use mvo_core::Collection;
use mvo_disk::Disk;
use mvo_keep::{Chore, Keeper, Policy, Remains};
use mvo_store::{Reclaimed, StoreCall};
use mvo_types::Refusal;
use mvo_world::{Event, Reply};

impl<D: Disk> Driver<D> {
    ghost use Rattle.std.specs.Prelude.{◌≡◌};
    ghost use Rattle.mvo_script.specs.Keeping.{AreCollections, HasKeptTurn, IsChoreBy};
    ghost use Rattle.mvo_world.specs.Replies.{IsReplyTo};

    /// A turn of who keeps its world: looks how it stands, and does the one chore that is due by
    /// the policy, as a line of a script would do it (`flush`, `trim`, `collect`, a call of the
    /// store); what is answered to that isn't told. Answers the chore, or none where nothing was
    /// due. The names stay. Pass the same keeper at each turn.
    ///
    /// Refused with OutOfMemory alone, where there is none for a look; nothing changes then.
    pub fn keep(&mut self, policy: &Policy, keeper: &mut Keeper) -> Result<Option<Chore>, Refusal>
        ensures { HasKeptTurn D.Disk policy.now self.old keeper.old result keeper.new self.new }
    {
        let (sight, due) = match self.world.due(policy, keeper) {
            Ok(seen) => seen,
            Err(refusal) => return Err(refusal),
        };
        let Some(chore) = due else {
            *keeper = keeper.after_look(&sight);
            return Ok(None);
        };
        let reply = self.do_chore(chore);
        *keeper = keeper.after(&sight, chore, &remains_behind(&reply));
        Ok(Some(chore))
    }

    /// Does the chore.
    fn do_chore(&mut self, chore: Chore) -> Reply
        ensures { let step = IsReplyTo D.Disk in IsChoreBy step chore self.old result self.new }
    {
        match chore {
            Chore::Flush => flush(&mut self.world),
            Chore::Step(call) => self.ask(Event::Store(call)),
            Chore::Reclaim => self.ask(Event::Store(StoreCall::Reclaim)),
            Chore::Merge(place) => self.ask(Event::Store(StoreCall::MergeRead(place))),
            Chore::Checkpoint => self.ask(Event::Store(StoreCall::CheckpointRead)),
            Chore::Rotate => self.ask(Event::Store(StoreCall::RotateWrite)),
            Chore::Trim(upto) => self.ask(Event::Trim(upto)),
            Chore::Collect(most) => self.collect_up_to(most),
        }
    }

    /// Collects so many versions, or all that are garbage where these are fewer.
    fn collect_up_to(&mut self, most: u64) -> Reply
        ensures { let step = IsReplyTo D.Disk in
            AreCollections step most self.old result self.new }
    {
        let mut left = most;
        while left > 0 {
            match self.ask(Event::Collect) {
                Reply::Collected(Collection::Collected) => left -= 1,
                reply => return reply,
            }
        }
        Reply::Collected(Collection::Collected)
    }
}

/// What remains of its kind behind a chore that was answered so.
fn remains_behind(reply: &Reply) -> Result<Remains, Refusal>
    ensures { result ≡ remains_behind reply.now }
{
    match reply {
        Reply::Reclaimed(Reclaimed::Done) => Ok(Remains::NoFile),
        Reply::Collected(Collection::Nothing) => Ok(Remains::NoGarbage),
        Reply::Refused(refusal) => Err(*refusal),
        _ => Ok(Remains::More),
    }
}
