//! How a list of words keeps memory for the next transaction.
ghost use Rattle.std.specs.Prelude.{◌≡◌, ◌-◌, [], nat_le};
ghost use Rattle.std.specs.VecDeque.{deque_len, deque_capacity};

use std::collections::VecDeque;

// The memory of more words than this isn't kept for another transaction.
const FEW: usize = 128;

/// Whether there is room for two words more.
#[inline(always)]
pub fn has_room_for_two<T>(words: &VecDeque<T>) -> bool
    ensures { result ≡ nat_le 2 (deque_capacity words.now - deque_len words.now) }
{
    words.capacity().saturating_sub(words.len()) >= 2
}

/// Drops the words. The memory of few is kept.
pub fn clear_words<T: Drop>(words: &mut VecDeque<T>)
    ensures { words.new.items ≡ [] }
{
    words.clear();
    words.shrink_to(FEW);
}
