ghost use Rattle.std.specs.Prelude.{◌≡◌, true, map, IfOk};
ghost use Rattle.std.specs.List.{IsDistinct};
ghost use Rattle.std.specs.List.Sorted.{IsPermutation, IsStrictlySortedBy};
ghost use Rattle.std.specs.Ordering.{eq_by_cmp};
ghost use Rattle.mvo_types.specs.Keys.{key_cmp};
ghost use Rattle.mvo_theory.specs.Groups.{is_writing};
ghost use Rattle.mvo_group.specs.Data.{write_data};
ghost use Rattle.mvo_group.specs.Rules.{IsRecord, record_len};
ghost use Rattle.mvo_theory.specs.Told.{history_told};
ghost use Rattle.mvo_tale.specs.Stored.{stored_commit_of, effect_data};
ghost use Rattle.mvo_tale.specs.Records.{IsRecordOf, net_writes, commit_len};

use crate::effect::Effect;
use crate::tale_entry::TaleEntry;
use crate::writes::last_writes;
use mvo_group::{Record, Write};
use mvo_types::{Answer, Op, RowKey};
use std::alloc::{AllocError, Global};

/// The record of a stored commit: its end, and by key what it left at each key that it wrote. Rows
/// are copied, since the commit keeps its own. Of a commit that wrote, the record is one that a
/// group may have.
pub fn record_of(alloc: Global, entry: &TaleEntry) -> Result<Record, AllocError>
    ensures written { IfOk result (λ r. IsRecordOf (stored_commit_of entry.now) r) }
    ensures len { IfOk result (λ r. record_len r ≡ commit_len (stored_commit_of entry.now)) }
    ensures rules { is_writing (stored_commit_of entry.now) ≡ true → IfOk result (λ r. IsRecord r) }
{
    let keys = in_order(&entry.written)?;
    Ok(Record {
        end: entry.end,
        writes: writes_at(alloc, &entry.operations, &keys)?,
    })
}

/// The keys in the order of (table, key).
fn in_order(keys: &Vec<RowKey>) -> Result<Vec<RowKey>, AllocError>
    requires { IsDistinct (eq_by_cmp key_cmp) keys.now.items }
    ensures same { IfOk result (λ v. IsPermutation keys.now.items v.items) }
    ensures rise { IfOk result (λ v. IsStrictlySortedBy key_cmp v.items) }
{
    let mut sorted = copy_keys(keys)?;
    sorted.sort_unstable();
    Ok(sorted)
}

/// A copy of the keys.
fn copy_keys(keys: &Vec<RowKey>) -> Result<Vec<RowKey>, AllocError>
    ensures { IfOk result (λ v. v.items ≡ keys.now.items) }
{
    keys.clone()
}

/// The last write to each of the keys, where there is one.
fn writes_at(
    alloc: Global,
    operations: &[(Op, Answer)],
    keys: &[RowKey],
) -> Result<Vec<Write>, AllocError>
    requires { IsStrictlySortedBy key_cmp keys.now }
    ensures { IfOk result (λ ws. map write_data ws.items
        ≡ net_writes (history_told operations.now) keys.now) }
{
    let lasts = last_writes(alloc, operations, keys)?;
    let mut writes = Vec::with_capacity(alloc, keys.len())?;
    for (place, key) in keys.iter().enumerate() {
        if let Some(effect) = lasts[place] {
            writes.push(left_at(*key, effect)?)?;
        }
    }
    Ok(writes)
}

/// The write that leaves this at the key: a copy of the row, or no row.
fn left_at(key: RowKey, effect: Effect) -> Result<Write, AllocError>
    ensures { IfOk result (λ w. write_data w ≡ (key, effect_data effect.entry)) }
{
    match effect {
        Effect::Put(row) => {
            let mut left = row.copy()?;
            left.key = key;
            Ok(Write::Put(left))
        }
        Effect::Delete => Ok(Write::Delete(key)),
    }
}
