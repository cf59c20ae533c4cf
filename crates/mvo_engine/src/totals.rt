//! What is counted of an engine without a lock.
use mvo_store::{Done, StoreCall};
use mvo_types::Refusal;
use std::sync::atomic::{AtomicU64, Ordering};

/// What an engine has counted since it was opened, each number at a moment of its own. Each is
/// raised where its step is made; no proof says so, and nothing rests on it.
#[derive(Clone, Copy, Debug, PartialEq, Eq)]
pub struct Totals {
    /// How many transactions sessions committed, those that are read-only among them.
    pub commits: u64,
    /// How often a call of a session was refused with WriteConflict.
    pub write_conflicts: u64,
    /// How often one was refused with ValidationFailed.
    pub failed_validations: u64,
    /// How often one was refused with DependencyAborted.
    pub aborted_dependencies: u64,
    /// How many groups were closed.
    pub groups: u64,
    /// How many rotations were begun by `rotate` and `keep`: none of a flush, and none by hand.
    pub rotations: u64,
    /// How many checkpoints were begun by `checkpoint` and `keep`.
    pub checkpoints: u64,
    /// How many merges were begun by `merge` and `keep`.
    pub merges: u64,
    /// For how many nanoseconds the lock of the store was held at most, by a step of a flush or of
    /// a job; not where it was taken by name (`lock_store`). 0 where the gate has no clock.
    pub longest_hold: u64,
}

/// Where it is counted.
#[derive(Drop)]
pub struct Counting {
    commits: AtomicU64,
    write_conflicts: AtomicU64,
    failed_validations: AtomicU64,
    aborted_dependencies: AtomicU64,
    groups: AtomicU64,
    rotations: AtomicU64,
    checkpoints: AtomicU64,
    merges: AtomicU64,
    longest_hold: AtomicU64,
}

impl Counting {
    /// Nothing was counted.
    pub fn new() -> Counting {
        Counting {
            commits: AtomicU64::new(0),
            write_conflicts: AtomicU64::new(0),
            failed_validations: AtomicU64::new(0),
            aborted_dependencies: AtomicU64::new(0),
            groups: AtomicU64::new(0),
            rotations: AtomicU64::new(0),
            checkpoints: AtomicU64::new(0),
            merges: AtomicU64::new(0),
            longest_hold: AtomicU64::new(0),
        }
    }

    /// What was counted so far.
    pub fn totals(&self) -> Totals {
        Totals {
            commits: self.commits.load(Ordering::SeqCst),
            write_conflicts: self.write_conflicts.load(Ordering::SeqCst),
            failed_validations: self.failed_validations.load(Ordering::SeqCst),
            aborted_dependencies: self.aborted_dependencies.load(Ordering::SeqCst),
            groups: self.groups.load(Ordering::SeqCst),
            rotations: self.rotations.load(Ordering::SeqCst),
            checkpoints: self.checkpoints.load(Ordering::SeqCst),
            merges: self.merges.load(Ordering::SeqCst),
            longest_hold: self.longest_hold.load(Ordering::SeqCst),
        }
    }

    /// A session has committed.
    pub fn count_commit(&self) {
        one_more(&self.commits);
    }

    /// The lock of the store was held from one moment to another, in nanoseconds. It is counted
    /// before it is given back, so nobody else does so meanwhile.
    pub fn count_hold(&self, since: u64, until: u64) {
        let hold = until.saturating_sub(since);
        if hold > self.longest_hold.load(Ordering::SeqCst) {
            self.longest_hold.store(hold, Ordering::SeqCst);
        }
    }

    /// A group was closed.
    pub fn count_group(&self) {
        one_more(&self.groups);
    }

    /// A call of a session was refused.
    pub fn count_refusal(&self, refusal: &Refusal) {
        match refusal {
            Refusal::WriteConflict(_) => one_more(&self.write_conflicts),
            Refusal::ValidationFailed(_) => one_more(&self.failed_validations),
            Refusal::DependencyAborted(_) => one_more(&self.aborted_dependencies),
            _ => {}
        }
    }

    /// A call of the store came to this.
    pub fn count_call(&self, call: StoreCall, came: &Result<Done, Refusal>) {
        if came.is_err() {
            return;
        }
        match call {
            StoreCall::RotateWrite => one_more(&self.rotations),
            StoreCall::CheckpointRead => one_more(&self.checkpoints),
            StoreCall::MergeRead(_) => one_more(&self.merges),
            _ => {}
        }
    }
}

fn one_more(count: &AtomicU64) {
    count.fetch_add(1, Ordering::SeqCst);
}
