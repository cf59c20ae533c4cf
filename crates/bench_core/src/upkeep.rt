use crate::stopped::Stopped;
use mvo_core::{Collection, Core};
use mvo_group::Group;
use mvo_types::{Refusal, Stamp, TxId};
use rtrb::{Consumer, Producer, RingBuffer};
use std::alloc::{AllocError, Global};

/// No more versions are collected in one turn, so that none takes long. Between two turns about as
/// many come to be garbage as rows are put, so a long list of them gets shorter all the same.
pub const MOST: u64 = 128;

/// What an engine does between transactions, so that the memory of what is over is used again:
/// commits go into groups, which the log would take, the tale is trimmed up to the oldest
/// transaction that is open, and versions that nobody is shown any more are collected.
pub struct Upkeep {
    producer: Producer<Group>,
    consumer: Consumer<Group>,
    /// The transactions that are open, in the order of their begins.
    open: Vec<TxId>,
    /// So many rows are read or put from one turn to the next; 0 if none is to come.
    every: u64,
    /// How many rows were read or put since the last turn, and commits.
    done: u64,
    /// Whether versions are collected.
    collects: bool,
}

impl Drop for Upkeep {
    fn drop(self) {
        let Upkeep {
            producer: _,
            consumer: _,
            open: _,
            every: _,
            done: _,
            collects: _,
        } = self;
    }
}

impl Upkeep {
    /// A turn after every so many rows.
    pub fn new(alloc: Global, every: u64) -> Result<Upkeep, AllocError> {
        let (producer, consumer) = RingBuffer::new(alloc, 1)?;
        Ok(Upkeep {
            producer,
            consumer,
            open: Vec::new(alloc),
            every,
            done: 0,
            collects: true,
        })
    }

    /// A transaction began.
    #[inline(always)]
    pub fn begun(&mut self, tx: TxId) -> Result<(), AllocError> {
        self.open.push(tx)?;
        Ok(())
    }

    /// So many rows were read or put.
    #[inline(always)]
    pub fn count(&mut self, rows: u64) {
        self.done = self.done.saturating_add(rows);
    }

    /// A transaction is over.
    #[inline(always)]
    pub fn ended(&mut self, tx: TxId) {
        self.count(1);
        if self.open.last().copied() == Some(tx) {
            self.open.pop();
        } else {
            self.open.retain(|open| *open != tx);
        }
    }

    /// Whether versions are to be collected from now on.
    pub fn collect(&mut self, collects: bool) {
        self.collects = collects;
    }

    /// Whether a turn is due. Then the next one is after as many rows again.
    #[inline(always)]
    pub fn is_due(&mut self) -> bool {
        let is_due = self.every > 0 && self.done >= self.every;
        if is_due {
            self.done = 0;
        }
        is_due
    }

    /// Closes a group and takes it out of the ring.
    pub fn close_group(&mut self, core: &mut Core) -> Result<(), Stopped> {
        unless_nothing(core.close_group(&mut self.producer))?;
        // What the log would do with it isn't part of a run.
        let _ = self.consumer.pop();
        Ok(())
    }

    /// Trims the tale up to the oldest begin.
    pub fn trim(&mut self, core: &mut Core) -> Result<(), Stopped> {
        let upto = match self.open.first() {
            Some(oldest) => Stamp(oldest.0),
            None => core.clock(),
        };
        unless_nothing(core.trim_tale(upto))
    }

    /// Collects a version, and says whether there was one.
    pub fn collect_one(&self, core: &mut Core) -> bool {
        self.collects && core.collect_one() == Collection::Collected
    }
}

/// That there is nothing to do ends no run.
fn unless_nothing<T: Drop>(answer: Result<T, Refusal>) -> Result<(), Stopped> {
    match answer {
        Ok(_) | Err(Refusal::NothingToDo) => Ok(()),
        Err(refusal) => Err(Stopped::Refused(refusal)),
    }
}
