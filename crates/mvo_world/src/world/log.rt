use super::World;
use mvo_disk::Disk;
use mvo_store::{Done, Log, StoreCall, StoreCaller};
use mvo_types::Refusal;

impl<D: Disk> StoreCaller for World<D> {
    ghost use Rattle.mvo_world.specs.Logging.{IsCallBy};
    ghost use Rattle.mvo_world.specs.Replies.{IsReplyTo};

    ghost comes_to = { IsCallBy (IsReplyTo D.Disk) };

    fn call(&mut self, call: StoreCall) -> Result<Done, Refusal> {
        self.call_store(call)
    }
}

impl<D: Disk> Log for World<D> {
    ghost use Rattle.mvo_world.specs.Logging.{IsTakingBy};
    ghost use Rattle.mvo_world.specs.Replies.{IsReplyTo};

    ghost takes = { IsTakingBy (IsReplyTo D.Disk) };

    fn take_next(&mut self) -> Result<(), Refusal> {
        self.take_group()
    }
}
