use crate::served::Served;
use mvo_pair::Pair;
use mvo_store::StoreCall;
use mvo_types::Stamp;

/// What counts of a store for what is due.
#[derive(Debug, Drop)]
pub struct Standing {
    /// Whether a group is being appended, or waits for it.
    pub has_group: bool,
    /// Whether commits are in no group yet, and were so a turn before.
    pub has_commits: bool,
    /// The next step of the job that runs, of those that aren't refused.
    pub step: Option<StoreCall>,
    /// Whether a file may hold bytes and not be used: it isn't known that there is none.
    pub may_reclaim: bool,
    /// The pairs that the manifest names, the oldest first.
    pub pairs: Vec<Pair>,
    /// How many segments it names, the last one among them.
    pub segments: usize,
    /// How many bytes the last one has.
    pub last_segment: u64,
    /// Where the stored commits start.
    pub tale_start: Stamp,
    /// How many commits are stored.
    pub tale_length: usize,
    /// The mark that was durable a turn before.
    pub earlier_mark: Stamp,
    /// The begin of the oldest open transaction, or a timestamp above all that were drawn.
    pub oldest_begin: Stamp,
    /// Whether a version may be garbage: it isn't known that there is none.
    pub may_collect: bool,
    /// What the last chore but for flushes was for.
    pub served: Served,
}
