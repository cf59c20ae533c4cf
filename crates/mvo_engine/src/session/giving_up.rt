//! Transactions that the work gave up.

use super::Session;
use crate::gate::Gate;
use crate::run::Run;
use crate::transacted::Transacted;
use mvo_disk::Disk;
use std::sync::Wait;

impl<'e, L: Run, D: Disk, G: Gate + Drop> Session<'e, L, D, G> {
    ghost use Rattle.std.specs.Prelude.{◌≡◌, None, IfSome};
    ghost use Rattle.mvo_engine.specs.Asked.{HasGone};

    // Rolls back the transaction, which the work gave up, and passes on what that gave.
    pub(super) fn given_up<T, R: Wait>(&mut self, rt: &R, told: T) -> Transacted<T>
        ensures told { result.told ≡ told }
        ensures end { result.end ≡ None }
        ensures session { self.new ≡ record self.old { tx = None } }
        ensures gone { IfSome self.old.tx (HasGone L.opening) }
    {
        self.leave(rt);
        Transacted { told, end: None }
    }
}
