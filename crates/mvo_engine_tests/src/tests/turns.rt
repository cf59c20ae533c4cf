//! How a thread of a test waits for another.

use std::sync::atomic::{AtomicU64, Ordering};
use std::thread::yield_now;

/// How many turns a thread waits at most, and how often it yields in each.
const TURNS: u32 = 10_000;

const YIELDS: u32 = 100;

/// Waits until the word is at least this number, or for long. Whether it is.
pub fn has_come(word: &AtomicU64, number: u64) -> bool {
    for _ in 0..TURNS {
        if word.load(Ordering::SeqCst) >= number {
            return true;
        }
        for _ in 0..YIELDS {
            yield_now();
        }
    }
    false
}
