//! A gate that counts.
use mvo_engine::{Gate, Place};
use std::sync::atomic::{AtomicU64, Ordering};

/// Counts how often threads come to a place, as before the lock of the store.
#[derive(Drop)]
pub struct Counting<'c> {
    pub passes: &'c AtomicU64,
    pub at: Place,
}

impl<'c> Gate for Counting<'c> {
    fn pass(&self, place: Place) {
        if place == self.at {
            self.passes.fetch_add(1, Ordering::SeqCst);
        }
    }
}
