use crate::rows::{CHANGED, ROUND, amount_of, key_of, sort_of};
use mvo_types::Row;
use std::alloc::{AllocError, Global};

/// Where the bytes of a row are put together. The memory stays for the next row, so that what is
/// timed takes memory for the row alone, as the peers do.
pub struct Draft {
    bytes: Vec<u8>,
}

impl Drop for Draft {
    fn drop(self) {
        let Draft { bytes: _ } = self;
    }
}

impl Draft {
    /// It takes no memory.
    pub fn new(alloc: Global) -> Draft {
        Draft {
            bytes: Vec::new(alloc),
        }
    }

    /// The row that is loaded at a key, with so many bytes of data.
    #[inline(always)]
    pub fn loaded(&mut self, key: u64, data: u64) -> Result<Row, AllocError> {
        let key_bytes = key.to_le_bytes();
        self.bytes.clear();
        self.bytes.extend_from_slice(&key_bytes)?;
        self.bytes.extend_from_slice(&[0; 8])?;
        self.bytes.resize(data as usize, key_bytes[0])?;
        let alloc = *self.bytes.allocator();
        Row::from_slice(alloc, key_of(key), sort_of(key), &self.bytes)
    }

    /// The row with so much added to the byte that updates change.
    #[inline(always)]
    pub fn changed(&mut self, row: &Row, by: u8) -> Result<Row, AllocError> {
        self.copy(row)?;
        change(&mut self.bytes, by);
        self.row_like(row)
    }

    /// The same, and the round is written.
    #[inline(always)]
    pub fn changed_in(&mut self, row: &Row, by: u8, round: u64) -> Result<Row, AllocError> {
        self.copy(row)?;
        change(&mut self.bytes, by);
        write_number(&mut self.bytes, round);
        self.row_like(row)
    }

    /// The row with so much added to its amount.
    pub fn moved(&mut self, row: &Row, by: u64) -> Result<Row, AllocError> {
        self.copy(row)?;
        write_number(&mut self.bytes, amount_of(row).wrapping_add(by));
        self.row_like(row)
    }

    #[inline(always)]
    fn copy(&mut self, row: &Row) -> Result<(), AllocError> {
        self.bytes.clear();
        self.bytes.extend_from_slice(row.bytes())
    }

    /// The row at the key and the sort of another.
    #[inline(always)]
    fn row_like(&self, row: &Row) -> Result<Row, AllocError> {
        Row::from_slice(*self.bytes.allocator(), row.key, row.sort, &self.bytes)
    }
}

fn change(bytes: &mut [u8], by: u8) {
    if let Some(byte) = bytes.get_mut(CHANGED) {
        *byte = byte.wrapping_add(by);
    }
}

fn write_number(bytes: &mut [u8], number: u64) {
    if bytes.len() >= ROUND + 8 {
        bytes[ROUND..ROUND + 8].copy_from_slice(&number.to_le_bytes());
    }
}
