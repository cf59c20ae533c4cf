use mvo_keep::Sight;
use mvo_store::Due;
use mvo_types::{Stamp, TxId};

/// How the memory of an engine stands.
#[derive(Clone, Copy, Debug, PartialEq, Eq)]
pub struct CoreStats {
    /// The timestamp that was drawn last, or the opening mark.
    pub clock: Stamp,
    /// The mark of the group that was closed last, or the opening mark.
    pub closed: Stamp,
    /// The end at the back of the tale, if its places aren't empty (`Core::last_end`).
    pub last_end: Option<Stamp>,
    /// How many transactions aren't finished.
    pub unfinished: usize,
    /// The one with the least begin, if there is one.
    pub oldest: Option<TxId>,
    /// Where the tale starts.
    pub tale_start: Stamp,
    /// How many places the tale has, those among them from which nothing is stored any more.
    pub places: usize,
    /// How many versions of rows there are, those that are garbage among them.
    pub versions: usize,
    /// How many keys have versions, where each key keeps its sort: one more for each further sort
    /// that versions of a key have.
    pub sorted_keys: usize,
    /// How many versions that aborted transactions put wait to be collected.
    pub aborted: usize,
    /// How many versions that committed transactions replaced or deleted wait to be collected,
    /// those among them that readers may see still.
    pub replaced: usize,
    /// How many groups were sent into the ring. One is there from the beginning, where the opening
    /// mark is above 0.
    pub sent: u64,
    /// How many sessions there are: made, and not retired.
    pub sessions: u32,
}

/// How the store of an engine stands.
#[derive(Clone, Copy, Debug, PartialEq, Eq)]
pub struct StoreStats {
    /// The mark of the last group that is durable, or the one that the store opened at.
    pub durable: Stamp,
    /// Whether a group is being appended.
    pub has_group: bool,
    /// How many manifests were installed before the one that is.
    pub generation: u64,
    /// How many segments it names, the last one among them.
    pub segments: usize,
    /// How many bytes stand before the last gate of the last segment, its header among them.
    pub last_segment: usize,
    /// How many pairs it names.
    pub pairs: usize,
    /// How many records these have.
    pub records: u64,
    /// How many of the records are dead.
    pub dead: u64,
    /// The next step of a job that runs (`Store::next_step`).
    pub step: Option<Due>,
    /// How many groups were received out of the ring, that one among them.
    pub received: u64,
    /// How many commits that wrote came to it in groups since the opening. No clause says so.
    pub grouped: u64,
    /// How many bytes of log these groups have, without the frames round them. No clause says so.
    pub log_bytes: u64,
}

/// How an engine stands: its store, and then its memory, each at a moment of its own.
#[derive(Clone, Copy, Debug, PartialEq, Eq)]
pub struct Stats {
    pub core: CoreStats,
    pub store: StoreStats,
}

impl Stats {
    ghost use Rattle.std.specs.Prelude.{◌≡◌, ◌-◌};
    ghost use Rattle.mvo_engine.specs.Keeping.{sight_of};

    /// How many groups were sent when the memory was looked at, and not received when the store
    /// was, shortly before: those that waited in the ring, and those that were closed in between.
    pub fn waiting_groups(&self) -> u64
        ensures { result ≡ self.now.core.sent - self.now.store.received }
    {
        self.core.sent.saturating_sub(self.store.received)
    }

    // What of it a keeper sees.
    pub(crate) fn sight(&self) -> Sight
        ensures { result ≡ sight_of self.now }
    {
        let (core, store) = (self.core, self.store);
        Sight {
            last_end: core.last_end,
            closed: core.closed,
            oldest: core.oldest,
            tale_start: core.tale_start,
            places: core.places,
            durable: store.durable,
            has_group: store.has_group,
            generation: store.generation,
            segments: store.segments,
            last_segment: store.last_segment,
            step: store.step,
        }
    }
}
