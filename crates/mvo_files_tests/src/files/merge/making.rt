//! Makes live records, and says what of them a merge asks for.
ghost use Rattle.std.specs.Prelude.{◌≡◌, false, map};
ghost use Rattle.std.specs.Bool.{OnTrue};
ghost use Rattle.std.specs.List.{AllByRecursion};
ghost use Rattle.std.specs.Ordering.{eq_by_cmp};
ghost use Rattle.mvo_types.specs.Keys.{key_cmp};
ghost use Rattle.mvo_places.specs.Places.{Rise};
ghost use Rattle.mvo_merge.specs.Moved.{HaveOwnKeys};

use mvo_pair::{DataRecord, Live};
use mvo_types::{Row, RowKey, Stamp};
use std::alloc::{AllocError, Global};

/// A key of table 0.
pub fn key_of(key: u64) -> RowKey {
    RowKey { table: 0, key }
}

/// A live record with one byte of data.
pub fn live(alloc: Global, number: u32, begin: u64, key: u64) -> Result<Live, AllocError> {
    let row = Row::new(key_of(key), begin, vec![in alloc; 0x61]?)?;
    let begin = Stamp(begin);
    Ok(Live {
        number,
        entry: DataRecord { begin, row },
    })
}

/// Live records by number, begin and key.
pub fn lives(alloc: Global, list: &[(u32, u64, u64)]) -> Result<Vec<Live>, AllocError> {
    let mut made = Vec::new(alloc);
    for one in list {
        made.push(live(alloc, one.0, one.1, one.2)?)?;
    }
    Ok(made)
}

/// Whether the numbers rise.
pub fn rises(live: &[Live]) -> bool
    ensures { OnTrue result (Rise live.now) }
{
    match live {
        [first, second, ..] => first.number < second.number && rises(&live[1..]),
        _ => true,
    }
}

/// Whether no record has the key.
fn is_new(key: RowKey, records: &[DataRecord]) -> bool
    ensures { OnTrue result (AllByRecursion (λ k. eq_by_cmp key_cmp key k ≡ false)
        (map (λ e. e.row.key) records.now)) }
{
    match records {
        [first, rest @ ..] => first.row.key != key && is_new(key, rest),
        [] => true,
    }
}

/// Whether no two records have one key.
pub fn have_own_keys(records: &[DataRecord]) -> bool
    ensures { OnTrue result (HaveOwnKeys records.now) }
{
    match records {
        [first, rest @ ..] => is_new(first.row.key, rest) && have_own_keys(rest),
        [] => true,
    }
}
