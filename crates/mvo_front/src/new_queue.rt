ghost use Rattle.std.specs.Prelude.{◌≡◌};
ghost use Rattle.crossbeam_channel.specs.Claims.{view, IsSeatAt};
ghost use Rattle.crossbeam_channel.specs.Ends.{receives_on, sends_on};
ghost use Rattle.mvo_front.specs.Queue.{first_hand};

use crate::job::Job;
use crate::rule::{Fifo, Hand};
use crossbeam_channel::{Pass, RuledReceiver, RuledSender, bounded_with};
use std::alloc::{AllocError, Global};

/// So many jobs may wait.
pub const JOBS: usize = 64;

/// Both ends of a queue with no jobs before it has a name, and its first pass.
#[derive(Drop)]
pub struct NewQueue {
    pub sender: RuledSender<Job, Hand, Fifo>,
    pub receiver: RuledReceiver<Job, Hand, Fifo>,
    pub pass: Pass<Job, Hand>,
    pub ghost one: { receives_on receiver ≡ sends_on sender },
    pub ghost seat: { IsSeatAt (sends_on sender) pass },
    pub ghost fresh: { view pass ≡ first_hand },
}

impl NewQueue {
    /// Takes the memory for as many jobs as may wait.
    pub fn open(alloc: Global) -> Result<NewQueue, AllocError> {
        let (sender, receiver, pass) = bounded_with(alloc, JOBS)?;
        Ok(NewQueue {
            sender,
            receiver,
            pass,
        })
    }
}
