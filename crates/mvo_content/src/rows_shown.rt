ghost use Rattle.std.specs.Prelude.{◌≡◌, IfOk, option_copied, slice_get};
ghost use Rattle.mvo_content.specs.Shown.{rows_in};

use crate::copying::copies_of;
use mvo_types::Row;
use std::alloc::{AllocError, Global};

/// The rows that others showed in an entry: that of its key, or those of its range by sort and then
/// by key.
#[derive(Debug, Drop)]
pub enum RowsShown {
    /// None.
    Nothing,
    /// One.
    One(Row),
    /// As many as there are.
    Many(Vec<Row>),
}

impl RowsShown {
    /// The first of them, if there is one.
    pub fn first(&self) -> Option<&Row>
        ensures { option_copied result ≡ slice_get (rows_in self.now) 0 }
    {
        match self {
            RowsShown::Nothing => None,
            RowsShown::One(row) => Some(row),
            RowsShown::Many(rows) => rows.get(0),
        }
    }

    /// Copies of them, which share their bytes.
    pub fn copies(&self, alloc: Global) -> Result<Vec<Row>, AllocError>
        ensures { IfOk result (λ copies. copies.items ≡ rows_in self.now) }
    {
        match self {
            RowsShown::Nothing => Ok(Vec::new(alloc)),
            RowsShown::One(row) => {
                let mut copies = Vec::new(alloc);
                copies.push(row.copy()?)?;
                Ok(copies)
            }
            RowsShown::Many(rows) => copies_of(alloc, rows),
        }
    }
}
