//! The keys that a story or a random run has.
use crate::numbers::Numbers;
use mvo_types::RowKey;

const KEYS: u64 = 4;

impl Numbers {
    pub fn key(&mut self) -> RowKey {
        key_of(self.below(KEYS))
    }
}

pub fn key_of(key: u64) -> RowKey {
    RowKey { table: 3, key }
}
