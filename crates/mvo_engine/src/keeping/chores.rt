//! What is due is done, by the calls that are there.
ghost use Rattle.std.specs.Prelude.{◌≡◌};
ghost use Rattle.mvo_engine.specs.Keeping.{came_of, remains_by, remains_of};

use crate::engine::{AT_ONCE, Engine};
use crate::gate::Gate;
use crate::run::Run;
use mvo_disk::Disk;
use mvo_keep::{Chore, Remains};
use mvo_store::{Done, Reclaimed, StoreCall};
use mvo_types::{Refusal, Stamp};
use std::sync::Wait;
use std::thread;

impl<L: Run, D: Disk, G: Gate + Drop> Engine<L, D, G> {
    ghost use Rattle.mvo_engine.specs.Keeping.{IsChoreDone, IsCallDone, HaveCollectedSome};

    // Does the chore.
    pub(crate) fn do_chore<R: Wait>(&self, rt: &R, chore: Chore) -> Result<Remains, Refusal>
        ensures { IsChoreDone D.Disk chore result }
    {
        match chore {
            Chore::Flush => came_of(self.flush(rt)),
            Chore::Step(call) => self.do_call(rt, call),
            Chore::Reclaim => self.do_call(rt, StoreCall::Reclaim),
            Chore::Merge(place) => self.do_call(rt, StoreCall::MergeRead(place)),
            Chore::Checkpoint => self.do_call(rt, StoreCall::CheckpointRead),
            Chore::Rotate => self.do_call(rt, StoreCall::RotateWrite),
            Chore::Trim(upto) => came_of(self.enter_core(rt).trim_tale(upto)),
            Chore::Collect(most) => Ok(remains_of(most, self.collect_some(rt, most))),
        }
    }

    // Makes a call of the store in a turn of its own.
    fn do_call<R: Wait>(&self, rt: &R, call: StoreCall) -> Result<Remains, Refusal>
        ensures { IsCallDone D.Disk call result }
    {
        remains_by(self.call_in_turn(rt, call))
    }

    // Takes so many garbage versions out of memory, or all that there are where these are fewer.
    // The lock of the core is given back after each 128. Answers how many.
    fn collect_some<R: Wait>(&self, rt: &R, most: u64) -> u64
        ensures { HaveCollectedSome most result }
    {
        let mut left = most;
        for _ in rt.forever() {
            let asked = left.min(AT_ONCE);
            let taken = self.enter_core(rt).collect_up_to(asked);
            left -= taken;
            if left == 0 || taken < asked {
                return most - left;
            }
            thread::yield_now();
        }
        unreachable!()
    }
}

// What came of it, but for what it answers.
fn came_of<A: Drop>(came: Result<A, Refusal>) -> Result<Remains, Refusal>
    ensures { result ≡ came_of came }
{
    match came {
        Ok(_) => Ok(Remains::More),
        Err(refusal) => Err(refusal),
    }
}

// What remains behind a call of the store.
fn remains_by(came: Result<Done, Refusal>) -> Result<Remains, Refusal>
    ensures { result ≡ remains_by came }
{
    match came {
        Ok(Done::Reclaimed(Reclaimed::Done)) => Ok(Remains::NoFile),
        Ok(_) => Ok(Remains::More),
        Err(refusal) => Err(refusal),
    }
}

// What remains behind a collection that was to take so many, and took so many.
fn remains_of(most: u64, all: u64) -> Remains
    ensures { result ≡ remains_of most all }
{
    if all < most {
        Remains::NoGarbage
    } else {
        Remains::More
    }
}
