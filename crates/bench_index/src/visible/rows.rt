use crate::watch::mixed;
use anyhow::Result;
use mvo_chain::{Chains, VersionNo};
use mvo_hash::HashIndex;
use mvo_range::{RangeIndex, SortPlace};
use mvo_txn::{Located, TxState, TxnTable};
use mvo_types::{MAX_STAMP, Row, RowKey, Stamp, TxId};
use mvo_word::Word;
use std::alloc::Global;

// How many bytes of data a row has.
const BYTES: usize = 100;

const TABLE: u8 = 3;

/// Versions and transactions, as a core keeps them.
pub struct Rows {
    alloc: Global,
    pub chains: Chains,
    pub index: HashIndex,
    pub ranges: RangeIndex,
    pub table: TxnTable<u64>,
}

impl Drop for Rows {
    fn drop(self) {
        let Rows {
            alloc: _,
            chains: _,
            index: _,
            ranges: _,
            table: _,
        } = self;
    }
}

pub fn key_of(index: u64) -> RowKey {
    RowKey {
        table: TABLE,
        key: mixed(index),
    }
}

pub fn sort_of(index: u64) -> u64 {
    mixed(index) >> 8
}

pub fn stamped(stamp: u64) -> Word {
    Word::stamp(Stamp(stamp.min(MAX_STAMP)))
}

pub fn by(id: TxId) -> Word {
    Word::id(TxId(id.0.min(MAX_STAMP)))
}

impl Rows {
    /// None yet, with the clock at the mark.
    pub fn new(alloc: Global, mark: u64) -> Result<Rows> {
        Ok(Rows {
            alloc,
            chains: Chains::new(alloc),
            index: HashIndex::new(alloc, mixed(mark)),
            ranges: RangeIndex::new(alloc),
            table: TxnTable::new(alloc, Stamp(mark.min(MAX_STAMP)))?,
        })
    }

    /// Puts a version in front of those of a key.
    pub fn put(&mut self, index: u64, begin: Word) -> Result<VersionNo> {
        let (key, sort) = (key_of(index), sort_of(index));
        let mut bytes = Vec::new(self.alloc);
        bytes.resize(BYTES, 7)?;
        let number = self.chains.add(Row::new(key, sort, bytes)?, begin)?;
        self.ranges.add(SortPlace::new(key, sort), number.0)?;
        if !self.index.is_held(number) {
            self.index.add(key, number)?;
        }
        Ok(number)
    }

    pub fn end(&mut self, number: VersionNo, end: Word) {
        if self.chains.get(number).is_some() {
            self.chains.set_end(number, end);
        }
    }

    /// A transaction begins, updates a row, and draws its end if that is asked for.
    pub fn write(&mut self, index: u64, prepares: bool) -> Result<()> {
        let id = self.table.begin(index)?;
        if let Some(number) = self.index.newest(key_of(index)) {
            self.end(number, by(id));
        }
        self.put(index, by(id))?;
        let seat = self.table.seat_of(id);
        if prepares && self.table.state(id) == Some(TxState::Active) {
            self.table.prepare(Located { id, seat })?;
        }
        Ok(())
    }
}
