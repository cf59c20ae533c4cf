//! The step of each event of a transaction.

use super::World;
use crate::event::Event;
use crate::reply::Reply;
use mvo_disk::Disk;
use mvo_types::{Op, TxId};

impl<D: Disk> World<D> {
    ghost use Rattle.mvo_world.specs.Steps.{IsWorldStep};

    pub(super) fn begin(&mut self) -> Reply
        ensures { IsWorldStep D.Disk self.old Event.Begin result self.new }
    {
        match self.core.begin_tx() {
            Ok(tx) => Reply::Began(tx),
            Err(refusal) => Reply::Refused(refusal),
        }
    }

    pub(super) fn begin_read_only(&mut self) -> Reply
        ensures { IsWorldStep D.Disk self.old Event.BeginReadOnly result self.new }
    {
        match self.core.begin_read_only() {
            Ok(tx) => Reply::Began(tx),
            Err(refusal) => Reply::Refused(refusal),
        }
    }

    pub(super) fn operate(&mut self, tx: TxId, op: Op) -> Reply
        ensures { IsWorldStep D.Disk self.old (Event.Do tx op) result self.new }
    {
        match self.core.operate(tx, op) {
            Ok(answer) => Reply::Answered(answer),
            Err(refusal) => Reply::Refused(refusal),
        }
    }

    pub(super) fn precommit(&mut self, tx: TxId) -> Reply
        ensures { IsWorldStep D.Disk self.old (Event.Precommit tx) result self.new }
    {
        match self.core.precommit(tx) {
            Ok(end) => Reply::Prepared(end),
            Err(refusal) => Reply::Refused(refusal),
        }
    }

    pub(super) fn validate(&mut self, tx: TxId) -> Reply
        ensures { IsWorldStep D.Disk self.old (Event.Validate tx) result self.new }
    {
        match self.core.validate_one(tx) {
            Ok(validation) => Reply::Validated(validation),
            Err(refusal) => Reply::Refused(refusal),
        }
    }

    pub(super) fn settle(&mut self, tx: TxId) -> Reply
        ensures { IsWorldStep D.Disk self.old (Event.Settle tx) result self.new }
    {
        match self.core.settle(tx) {
            Ok(settlement) => Reply::Settled(settlement),
            Err(refusal) => Reply::Refused(refusal),
        }
    }

    pub(super) fn roll_back(&mut self, tx: TxId) -> Reply
        ensures { IsWorldStep D.Disk self.old (Event.Rollback tx) result self.new }
    {
        match self.core.rollback_tx(tx) {
            Ok(()) => Reply::RolledBack,
            Err(refusal) => Reply::Refused(refusal),
        }
    }

    pub(super) fn finish(&mut self, tx: TxId) -> Reply
        ensures { IsWorldStep D.Disk self.old (Event.Finish tx) result self.new }
    {
        match self.core.finish_one(tx) {
            Ok(finishing) => Reply::Finished(finishing),
            Err(refusal) => Reply::Refused(refusal),
        }
    }
}
