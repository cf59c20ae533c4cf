use super::Engine;
use crate::gate::Gate;
use crate::run::Run;
use mvo_disk::Disk;
use mvo_store::{Done, StoreCall, StoreCaller};
use mvo_types::Refusal;
use std::marker::Model;
use std::sync::Wait;

/// The store of an engine, whose lock is taken anew for each call, in a turn of its own: others may
/// call in between, and those who wait for their commits are let by.
/// Contracts see nothing of it.
#[derive(Drop)]
pub struct CallByCall<'a, L: Run, D: Disk, G: Gate + Drop, R: Wait> {
    pub engine: &'a Engine<L, D, G>,
    pub rt: &'a R,
}

impl<'a, L: Run, D: Disk, G: Gate + Drop, R: Wait> Model for CallByCall<'a, L, D, G, R> {
    ghost Value = { Unit {0} };

    ghost view = { λ _. tt };
}

impl<'a, L: Run, D: Disk, G: Gate + Drop, R: Wait> StoreCaller for CallByCall<'a, L, D, G, R> {
    ghost use Rattle.mvo_engine.specs.Jobs.{IsCallAlone};

    ghost comes_to = { IsCallAlone D.Disk };

    fn call(&mut self, call: StoreCall) -> Result<Done, Refusal> {
        self.engine.call_in_turn(self.rt, call)
    }
}
