ghost use Rattle.std.specs.Prelude.{◌≡◌, ◌<◌};
ghost use Rattle.mvo_places.specs.declared.fixed_key.TheConstants.{GONE};

use mvo_types::RowKey;
use std::marker::Model;
use std::mem::size_of;

/// What the byte of the table has more where a key has no number. It is above each table.
pub const GONE: u8 = 128;

/// A key that was there at an opening, and its number, or none where it was removed since: 13
/// bytes. Contracts see the pair.
#[derive(Drop)]
pub struct FixedKey {
    table: u8,
    key: [u8; 8],
    number: [u8; 4],
}

const _: () = prove!(size_of::<FixedKey>() == 13);

impl Model for FixedKey {
    ghost use Rattle.std.specs.Prelude.{ℕ, Option};
    ghost use Rattle.mvo_types.specs.declared.row.RowKey.{RowKey};
    ghost use Rattle.mvo_types.specs.Keys.{coded_key};
    ghost use Rattle.std.specs.Coded.{coded×, coded_option, coded_ℕ};

    ghost Value = { RowKey × Option ℕ };

    ghost coded = { coded× coded_key (coded_option coded_ℕ) };

    ghost use Rattle.mvo_places.specs.Fixed.{key_and_number};

    ghost view = { λ s. key_and_number s.table s.key s.number };
}

impl FixedKey {
    /// The key with the number, or without one.
    pub fn new(key: RowKey, number: Option<u32>) -> FixedKey
        requires { key.table < GONE }
        ensures { result ≡ (key, number) }
    {
        let table = match number {
            Some(_) => key.table,
            None => key.table + GONE,
        };
        FixedKey {
            table,
            key: key.key.to_le_bytes(),
            number: number.unwrap_or(0).to_le_bytes(),
        }
    }

    /// The key.
    pub fn key(&self) -> RowKey
        ensures key { result ≡ self.now.0 }
        ensures table { result.table < GONE }
    {
        RowKey {
            table: self.table % GONE,
            key: u64::from_le_bytes(self.key),
        }
    }

    /// Its number, if it has one.
    pub fn number(&self) -> Option<u32>
        ensures { result ≡ self.now.1 }
    {
        if self.table < GONE {
            return Some(u32::from_le_bytes(self.number));
        }
        None
    }
}
