use mvo_store::Due;
use mvo_types::{Stamp, TxId};

/// What who keeps a store sees of it: of its memory, and of its files.
#[derive(Clone, Copy, Debug, PartialEq, Eq)]
pub struct Sight {
    /// The end at the back of the tale, if its places aren't empty (`Core::last_end`).
    pub last_end: Option<Stamp>,
    /// The mark of the group that was closed last, or the opening mark.
    pub closed: Stamp,
    /// The unfinished transaction with the least begin, if there is one.
    pub oldest: Option<TxId>,
    /// Where the stored commits start.
    pub tale_start: Stamp,
    /// How many commits are stored, those among them from which nothing is any more.
    pub places: usize,
    /// The mark of the last group that is durable, or the one that the store opened at.
    pub durable: Stamp,
    /// Whether a group is being appended.
    pub has_group: bool,
    /// How many manifests were installed before the one that is.
    pub generation: u64,
    /// How many segments it names, the last one among them.
    pub segments: usize,
    /// How many bytes the last one has.
    pub last_segment: usize,
    /// The next step of a job that runs (`Store::next_step`).
    pub step: Option<Due>,
}
