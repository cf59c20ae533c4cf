use super::wrong::Wrong;
use mvo_collect::Collection;
use mvo_core::{Core, Finishing, Settlement, Validation};
use mvo_group::Group;
use mvo_types::{Answer, Refusal, Row, RowKey, Rows, Stamp, TxId};
use rtrb::{Consumer, Producer, RingBuffer};
use std::alloc::Global;
use std::thread::Threads;

/// More checks, words, groups and versions than there are.
const MOST: u64 = 10_000_000;

/// A core with a ring of one group. Rows are of table 0, with their key as the sort and one byte.
pub struct Session {
    alloc: Global,
    core: Core,
    producer: Producer<Group>,
    consumer: Consumer<Group>,
}

impl Drop for Session {
    fn drop(self) {
        let Session {
            alloc: _,
            core: _,
            producer: _,
            consumer: _,
        } = self;
    }
}

impl Session {
    /// No rows yet.
    pub fn new(rt: &(impl Threads + Sync), alloc: Global) -> Result<Session, Wrong> {
        let core = Core::open(rt, alloc, 7, Rows::new(alloc), Stamp(0))?;
        let (producer, consumer) = RingBuffer::new(alloc, 1)?;
        Ok(Session {
            alloc,
            core,
            producer,
            consumer,
        })
    }

    pub fn alloc(&self) -> Global {
        self.alloc
    }

    /// The stamp that was drawn last.
    pub fn clock(&self) -> Stamp {
        self.core.clock()
    }

    pub fn begin(&mut self) -> Result<TxId, Wrong> {
        Ok(self.core.begin_tx()?)
    }

    /// Puts a row where there is none.
    pub fn insert(&mut self, tx: TxId, key: u64, byte: u8) -> Result<(), Wrong> {
        let row = self.row(key, byte)?;
        match self.core.insert(tx, row)? {
            Answer::Inserted => Ok(()),
            _ => Err(Wrong::Answer),
        }
    }

    /// Replaces a row.
    pub fn update(&mut self, tx: TxId, key: u64, byte: u8) -> Result<(), Wrong> {
        let row = self.row(key, byte)?;
        match self.core.update(tx, row)? {
            Answer::Updated => Ok(()),
            _ => Err(Wrong::Answer),
        }
    }

    fn row(&self, key: u64, byte: u8) -> Result<Row, Wrong> {
        let at = RowKey { table: 0, key };
        Ok(Row::from_slice(self.alloc, at, key, &[byte])?)
    }

    /// The byte of a row.
    pub fn read(&mut self, tx: TxId, key: u64) -> Result<u8, Wrong> {
        match self.core.read(tx, RowKey { table: 0, key })? {
            Answer::Found(Some(row)) => row.bytes().first().copied().ok_or(Wrong::Answer),
            _ => Err(Wrong::Answer),
        }
    }

    /// All rows, by their sorts.
    pub fn scan(&mut self, tx: TxId) -> Result<Vec<Row>, Wrong> {
        match self.core.scan(tx, 0, 0, u64::MAX)? {
            Answer::Rows(rows) => Ok(rows),
            _ => Err(Wrong::Answer),
        }
    }

    /// The whole end of a transaction.
    pub fn commit(&mut self, tx: TxId) -> Result<(), Wrong> {
        self.prepare(tx)?;
        match self.settle(tx)? {
            Settlement::Committed(_) => self.finish(tx),
            Settlement::Waiting(_) => Err(Wrong::Answer),
        }
    }

    /// It draws its end, and all is checked.
    pub fn prepare(&mut self, tx: TxId) -> Result<(), Wrong> {
        self.core.precommit(tx)?;
        self.validate(tx)
    }

    pub fn validate(&mut self, tx: TxId) -> Result<(), Wrong> {
        for _ in 0..MOST {
            if self.core.validate_one(tx)? == Validation::Valid {
                return Ok(());
            }
        }
        Err(Wrong::Answer)
    }

    pub fn precommit(&mut self, tx: TxId) -> Result<(), Wrong> {
        self.core.precommit(tx)?;
        Ok(())
    }

    pub fn settle(&mut self, tx: TxId) -> Result<Settlement, Refusal> {
        self.core.settle(tx)
    }

    pub fn roll_back(&mut self, tx: TxId) -> Result<(), Wrong> {
        self.core.rollback_tx(tx)?;
        self.finish(tx)
    }

    /// All its words are replaced.
    pub fn finish(&mut self, tx: TxId) -> Result<(), Wrong> {
        for _ in 0..MOST {
            if self.core.finish_one(tx)? == Finishing::Done {
                return Ok(());
            }
        }
        Err(Wrong::Answer)
    }

    /// What was committed goes into groups, and is forgotten with all that nobody is shown any
    /// more. Answers how many versions were collected.
    pub fn keep_up(&mut self) -> Result<u64, Wrong> {
        self.close_groups()?;
        let clock = self.core.clock();
        self.core.trim_tale(clock)?;
        let mut count: u64 = 0;
        for _ in 0..MOST {
            match self.core.collect_one() {
                Collection::Nothing => break,
                Collection::Collected => count = count.saturating_add(1),
            }
        }
        Ok(count)
    }

    fn close_groups(&mut self) -> Result<(), Wrong> {
        for _ in 0..MOST {
            match self.core.close_group(&mut self.producer) {
                Ok(_) => drop(self.consumer.pop()),
                Err(Refusal::NothingToDo) => return Ok(()),
                Err(refusal) => return Err(Wrong::Refused(refusal)),
            }
        }
        Err(Wrong::Answer)
    }
}
