//! What the own writes of a transaction left at the keys that it wrote.
ghost use Rattle.std.specs.Prelude.{◌≡◌, ◌<◌, [], Some, IfOk, option_copied};
ghost use Rattle.mvo_types.specs.declared.row.RowKey.{RowKey};
ghost use Rattle.std.specs.Map.{keys_of};
ghost use Rattle.std.specs.Option.{option_map};
ghost use Rattle.indexmap.specs.IndexMap.{spare};
ghost use Rattle.mvo_theory.specs.Entries.{noted, noted_key};
ghost use Rattle.mvo_content.specs.Done.{left_at, left_later};

use indexmap::IndexMap;
use mvo_types::{Row, RowKey};
use std::alloc::{AllocError, Global};

// The memory of more keys than this isn't kept for another transaction.
const KEPT: usize = 128;

/// By key, in the order of the first write, the row that the last write left, if it left one.
pub type Left = IndexMap<RowKey, Option<Row>>;

/// What is left at the key, if it was written.
#[inline(always)]
pub fn left_at(left: &Left, key: RowKey) -> Option<&Option<Row>>
    ensures { option_copied result ≡ left_at left.now.entries key }
{
    if left.len() == 0 {
        return None;
    }
    left.get(&key)
}

/// The keys that were written, in the order of the first write, in a list with no room for more.
pub fn keys_left(alloc: Global, left: &Left) -> Result<Vec<RowKey>, AllocError>
    ensures { IfOk result (λ keys. keys.items ≡ keys_of left.now.entries) }
{
    let mut keys = Vec::new(alloc);
    keys.reserve_exact(left.len())?;
    for key in left.keys() {
        keys.push(*key)?;
    }
    Ok(keys)
}

/// Notes what a write left, where there is room.
#[inline(always)]
pub fn note_left(left: &mut Left, write: Option<(RowKey, Option<Row>)>)
    requires { 0 < spare left.old }
    ensures keys { keys_of left.new.entries
        ≡ noted_key (keys_of left.old.entries) (option_map (λ w. w.0) write) }
    ensures at { (k : RowKey) →
        left_at left.new.entries k ≡ left_later k write (left_at left.old.entries k) }
{
    match write {
        Some((key, row)) => put_left(left, key, row),
        None => {}
    }
}

/// Notes what a write left at the key, where there is room.
fn put_left(left: &mut Left, key: RowKey, row: Option<Row>)
    requires { 0 < spare left.old }
    ensures keys { keys_of left.new.entries ≡ noted (keys_of left.old.entries) key }
    ensures at { (k : RowKey) →
        left_at left.new.entries k ≡ left_later k (Some (key, row)) (left_at left.old.entries k) }
{
    left.insert(key, row).unwrap();
}

/// Forgets them all. The memory of few is kept for another transaction.
pub fn clear_left(left: &mut Left)
    ensures { left.new.entries ≡ [] }
{
    if left.len() > KEPT {
        *left = IndexMap::new(*left.allocator());
    } else if !left.is_empty() {
        left.clear();
    }
}
