use mvo_types::{Op, Stamp};

/// A transaction that was answered Committed: its end timestamp, and its operations that changed
/// rows, in order.
#[derive(Drop)]
pub struct Commit {
    pub end: Stamp,
    pub ops: Vec<Op>,
}
