use std::sync::Wait;
use std::sync::atomic::{AtomicU64, Ordering};
use std::time::Duration;

/// What a sleep compares of the number of rings.
const LOW_BITS: u64 = 0xffff_ffff;

/// Where threads sleep until it is rung.
///
/// No ring is lost on who first reads `heard`, then looks whether it has to wait, and then sleeps
/// with what it read: what rings later has made the number another one, and a sleep that finds
/// another number ends at once. (A sleep compares 32 bits, so it would miss 2^32 rings, or a
/// multiple of these, that come between.)
#[derive(Drop)]
pub struct Bell {
    rings: AtomicU64,
    /// How many sleep, or are about to: where there is none, a ring needn't wake.
    sleepers: AtomicU64,
}

impl Bell {
    pub fn new() -> Bell {
        Bell {
            rings: AtomicU64::new(0),
            sleepers: AtomicU64::new(0),
        }
    }

    /// How often it was rung so far, as a sleep compares it.
    pub fn heard(&self) -> u32 {
        (self.rings.load(Ordering::SeqCst) & LOW_BITS) as u32
    }

    /// Wakes all who sleep. Who is about to sleep with what it heard before doesn't.
    pub fn ring(&self) {
        self.rings.fetch_add(1, Ordering::SeqCst);
        if self.sleepers.load(Ordering::SeqCst) != 0 {
            self.rings.wake_all();
        }
    }

    /// Sleeps until it is rung, if it wasn't since that was heard. It may also return for no
    /// reason.
    pub fn sleep<R: Wait>(&self, rt: &R, heard: u32) {
        self.sleepers.fetch_add(1, Ordering::SeqCst);
        self.rings.park(rt, heard);
        self.sleepers.fetch_sub(1, Ordering::SeqCst);
    }

    /// The same, for no longer than this.
    pub fn sleep_up_to<R: Wait>(&self, rt: &R, heard: u32, most: Duration) {
        self.sleepers.fetch_add(1, Ordering::SeqCst);
        self.rings.park_timeout(rt, heard, most);
        self.sleepers.fetch_sub(1, Ordering::SeqCst);
    }
}
