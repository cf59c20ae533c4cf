use crate::draft::Draft;
use crate::rows::{TABLE, key_of};
use crate::stopped::Stopped;
use crate::upkeep::{MOST as MOST_COLLECTED, Upkeep};
use mvo_core::{Core, Finishing, Settlement, Validation};
use mvo_types::{Answer, Row, Rows, Stamp, TxId};
use std::alloc::Global;
use std::thread::Threads;

/// More checks and more words than a transaction has.
pub const MOST: u64 = 10_000;

/// A core, whose transactions are all to be committed: what is refused ends the run. Between two of
/// them it does what is due of the upkeep.
pub struct Session {
    alloc: Global,
    core: Core,
    upkeep: Upkeep,
    /// Where its rows are made.
    pub draft: Draft,
}

impl Drop for Session {
    fn drop(self) {
        let Session {
            alloc: _,
            core: _,
            upkeep: _,
            draft: _,
        } = self;
    }
}

impl Session {
    /// No rows yet. The upkeep has its turn after every so many rows that are read or put.
    pub fn new(rt: &(impl Threads + Sync), alloc: Global, every: u64) -> Result<Session, Stopped> {
        let core = Core::open(rt, alloc, 7, Rows::new(alloc), Stamp(0))?;
        Ok(Session {
            alloc,
            core,
            upkeep: Upkeep::new(alloc, every)?,
            draft: Draft::new(alloc),
        })
    }

    pub fn alloc(&self) -> Global {
        self.alloc
    }

    #[inline(always)]
    pub fn begin(&mut self) -> Result<TxId, Stopped> {
        let tx = self.core.begin_tx()?;
        self.upkeep.begun(tx)?;
        Ok(tx)
    }

    /// Begins a read-only one.
    #[inline(always)]
    pub fn begin_read_only(&mut self) -> Result<TxId, Stopped> {
        let tx = self.core.begin_read_only()?;
        self.upkeep.begun(tx)?;
        Ok(tx)
    }

    /// The row at a key, which has one.
    #[inline(always)]
    pub fn read(&mut self, tx: TxId, key: u64) -> Result<Row, Stopped> {
        self.upkeep.count(1);
        match self.core.read(tx, key_of(key))? {
            Answer::Found(Some(row)) => Ok(row),
            _ => Err(Stopped::Unexpected),
        }
    }

    pub fn insert(&mut self, tx: TxId, row: Row) -> Result<(), Stopped> {
        self.upkeep.count(1);
        match self.core.insert(tx, row)? {
            Answer::Inserted => Ok(()),
            _ => Err(Stopped::Unexpected),
        }
    }

    #[inline(always)]
    pub fn update(&mut self, tx: TxId, row: Row) -> Result<(), Stopped> {
        self.upkeep.count(1);
        match self.core.update(tx, row)? {
            Answer::Updated => Ok(()),
            _ => Err(Stopped::Unexpected),
        }
    }

    pub fn scan(&mut self, tx: TxId, low: u64, high: u64) -> Result<Vec<Row>, Stopped> {
        match self.core.scan(tx, TABLE, low, high)? {
            Answer::Rows(rows) => {
                self.upkeep.count(rows.len() as u64);
                Ok(rows)
            }
            _ => Err(Stopped::Unexpected),
        }
    }

    /// The whole end of a transaction, and what is due then.
    #[inline(always)]
    pub fn commit(&mut self, tx: TxId) -> Result<(), Stopped> {
        self.precommit(tx)?;
        self.validate(tx)?;
        self.settle(tx)?;
        self.finish(tx)?;
        self.keep_up()
    }

    #[inline(always)]
    pub fn precommit(&mut self, tx: TxId) -> Result<(), Stopped> {
        self.core.precommit(tx)?;
        Ok(())
    }

    /// One check, and whether it was the last.
    #[inline(always)]
    pub fn validate_one(&mut self, tx: TxId) -> Result<bool, Stopped> {
        Ok(self.core.validate_one(tx)? == Validation::Valid)
    }

    #[inline(always)]
    pub fn settle(&mut self, tx: TxId) -> Result<(), Stopped> {
        match self.core.settle(tx)? {
            Settlement::Committed(_) => Ok(()),
            Settlement::Waiting(_) => Err(Stopped::Unexpected),
        }
    }

    /// One word, and whether it was the last.
    #[inline(always)]
    pub fn finish_one(&mut self, tx: TxId) -> Result<bool, Stopped> {
        let is_done = self.core.finish_one(tx)? == Finishing::Done;
        if is_done {
            self.upkeep.ended(tx);
        }
        Ok(is_done)
    }

    /// Takes a transaction back, and does what is due then.
    pub fn roll_back(&mut self, tx: TxId) -> Result<(), Stopped> {
        self.core.rollback_tx(tx)?;
        self.finish(tx)?;
        self.keep_up()
    }

    /// Whether the upkeep is to have its turn.
    pub fn is_due(&mut self) -> bool {
        self.upkeep.is_due()
    }

    /// The first step of a turn: what was committed goes into a group.
    pub fn close_group(&mut self) -> Result<(), Stopped> {
        self.upkeep.close_group(&mut self.core)
    }

    /// The second: the tale is trimmed.
    pub fn trim(&mut self) -> Result<(), Stopped> {
        self.upkeep.trim(&mut self.core)
    }

    /// One of those behind: a version is collected. Whether there was one.
    pub fn collect_one(&mut self) -> bool {
        self.upkeep.collect_one(&mut self.core)
    }

    /// Whether versions are to be collected from now on.
    pub fn collect(&mut self, collects: bool) {
        self.upkeep.collect(collects);
    }

    /// A turn of the upkeep, if one is due.
    #[inline(always)]
    fn keep_up(&mut self) -> Result<(), Stopped> {
        if !self.is_due() {
            return Ok(());
        }
        self.take_turn()
    }

    #[inline(never)]
    fn take_turn(&mut self) -> Result<(), Stopped> {
        self.close_group()?;
        self.trim()?;
        for _ in 0..MOST_COLLECTED {
            if !self.collect_one() {
                break;
            }
        }
        Ok(())
    }

    #[inline(always)]
    fn validate(&mut self, tx: TxId) -> Result<(), Stopped> {
        for _ in 0..MOST {
            if self.validate_one(tx)? {
                return Ok(());
            }
        }
        Err(Stopped::Unexpected)
    }

    #[inline(always)]
    fn finish(&mut self, tx: TxId) -> Result<(), Stopped> {
        for _ in 0..MOST {
            if self.finish_one(tx)? {
                return Ok(());
            }
        }
        Err(Stopped::Unexpected)
    }
}
