//! How the list of operations gives its memory away, or keeps it for the next transaction.
ghost use Rattle.std.specs.Prelude.{◌≡◌, []};

use std::mem;

// The memory of more items than this isn't kept for another transaction.
const KEPT: usize = 128;

// Room for more items than this, behind those that are stored, is given back.
const SPARE: usize = 8;

/// Takes the items out, with room for few more: a commit is stored for long. Where there are none,
/// the memory stays.
pub fn take_items<T: Drop>(items: &mut Vec<T>) -> Vec<T>
    ensures taken { result.items ≡ items.old.items }
    ensures left { items.new.items ≡ [] }
{
    let alloc = *items.allocator();
    if items.is_empty() {
        return Vec::new(alloc);
    }
    let mut taken = mem::replace(items, Vec::new(alloc));
    if taken.capacity().saturating_sub(taken.len()) > SPARE {
        taken.shrink_to_fit();
    }
    taken
}

/// Drops the items. The memory of few is kept.
pub fn clear_items<T: Drop>(items: &mut Vec<T>)
    ensures { items.new.items ≡ [] }
{
    items.clear();
    items.shrink_to(KEPT);
}
