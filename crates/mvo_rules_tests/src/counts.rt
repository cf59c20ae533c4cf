/// How often the cases of interest were met.
#[derive(Drop)]
pub struct Counts {
    pub speculative: u64,
    pub own: u64,
    pub own_deleted: u64,
    pub conflicts: u64,
    pub waits: u64,
    pub failed: u64,
    pub by_preparing: u64,
    pub inserted_twice: u64,
    pub ranges: u64,
    pub committed: u64,
    /// Steps after which one is Preparing that depends on an Aborted one.
    pub doomed: u64,
    /// Dependents of one that was aborted.
    pub flagged: u64,
    /// Versions that came to the front from behind another.
    pub moved: u64,
    /// Versions that were ended at a precommit, and that nobody has put any more.
    pub ended_unput: u64,
    /// Steps after which three or more are Preparing.
    pub crowded: u64,
    /// What must never be met.
    pub strange: u64,
}

impl Counts {
    pub fn new() -> Counts {
        Counts {
            speculative: 0,
            own: 0,
            own_deleted: 0,
            conflicts: 0,
            waits: 0,
            failed: 0,
            by_preparing: 0,
            inserted_twice: 0,
            ranges: 0,
            committed: 0,
            doomed: 0,
            flagged: 0,
            moved: 0,
            ended_unput: 0,
            crowded: 0,
            strange: 0,
        }
    }
}

pub fn count(number: &mut u64) {
    *number = number.saturating_add(1);
}
