use std::sync::Wait;
use std::sync::atomic::{AtomicU64, Ordering};
use std::time::Duration;

/// What a sleep compares of the number of threads.
const LOW_BITS: u64 = 0xffff_ffff;

/// A sleep takes no more milliseconds.
const A_WHILE: u64 = 1;

/// How many threads haven't come to their end, for one that waits for them.
#[derive(Drop)]
pub struct Others {
    left: AtomicU64,
}

impl Others {
    pub fn new(threads: usize) -> Others {
        Others {
            left: AtomicU64::new(threads as u64),
        }
    }

    /// One of them is at its end.
    pub fn leave(&self) {
        self.left.fetch_sub(1, Ordering::SeqCst);
        self.left.wake_all();
    }

    /// Whether all are.
    pub fn have_left(&self) -> bool {
        self.left.load(Ordering::SeqCst) == 0
    }

    /// Sleeps for a while, or until one is at its end.
    pub fn sleep<R: Wait>(&self, rt: &R) {
        let left = self.left.load(Ordering::SeqCst);
        if left != 0 {
            let seen = (left & LOW_BITS) as u32;
            self.left
                .park_timeout(rt, seen, Duration::from_millis(A_WHILE));
        }
    }
}
