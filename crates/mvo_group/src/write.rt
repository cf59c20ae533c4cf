ghost use Rattle.std.specs.Prelude.{◌≡◌};

use crate::lengths::{DELETE_LEN, PUT_HEADER_LEN};
use mvo_types::{Row, RowKey};

/// The first byte of a put in a body.
pub const PUT: u8 = 1;

/// The first byte of a delete in a body.
pub const DELETE: u8 = 2;

/// The last write of a transaction to a key. Contracts see it as the key with what stands there
/// afterwards.
#[derive(Debug, Drop)]
pub enum Write {
    /// The row that stands at its key afterwards.
    Put(Row),
    /// The key where no row stands afterwards.
    Delete(RowKey),
}

impl Write {
    ghost use Rattle.std.specs.Prelude.{◌≡◌, ◌<◌, ◌^◌};
    ghost use Rattle.mvo_group.specs.Data.{write_data};
    ghost use Rattle.mvo_group.specs.Rules.{write_len};

    /// Where the write goes.
    pub fn key(&self) -> RowKey
        ensures { result ≡ (write_data self.now).0 }
    {
        match self {
            Write::Put(row) => row.key,
            Write::Delete(key) => *key,
        }
    }

    /// How many bytes it takes in a body.
    pub fn encoded_len(&self) -> usize
        requires { write_len (write_data self.now) < 2 ^ 64 }
        ensures { result ≡ write_len (write_data self.now) }
    {
        match self {
            Write::Put(row) => PUT_HEADER_LEN + row.data_len(),
            Write::Delete(_) => DELETE_LEN,
        }
    }
}
