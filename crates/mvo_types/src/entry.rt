use crate::row::RowKey;

/// What an operation looked at.
#[derive(Clone, Copy, Debug, PartialEq, Eq, Hash)]
pub enum Entry {
    /// A key.
    Key(RowKey),
    /// The rows of a table with a sort from the first number to the second, both included.
    Range(u8, u64, u64),
}
