use crate::tale_entry::TaleEntry;
use mvo_types::Stamp;

/// The place of an end that was drawn, or of a read-only transaction's begin.
#[derive(Drop)]
pub enum TalePlace {
    /// The transaction that ends here is Preparing.
    Open(Stamp),
    /// A read-only transaction began here, and would end here: it is Active or Preparing.
    Reading(Stamp),
    /// The transaction that ends here is committed. A read-only one ends where it began.
    Settled(TaleEntry),
    /// The transaction that was to end here was aborted, or its commit is forgotten.
    Empty,
}

impl TalePlace {
    ghost use Rattle.std.specs.Prelude.{◌≡◌};
    ghost use Rattle.std.specs.Option.{option_copied, option_map};
    ghost use Rattle.mvo_tale.specs.Slots.{place_end, is_empty, stored_of};
    ghost use Rattle.mvo_tale.specs.Forgetting.{may_go};

    /// Where the transaction ends, or would end; of an empty place nothing.
    pub fn end(&self) -> Option<Stamp>
        ensures { option_map (λ e. e.0) result ≡ place_end self.now }
    {
        match self {
            TalePlace::Open(end) => Some(*end),
            TalePlace::Reading(begin) => Some(*begin),
            TalePlace::Settled(entry) => Some(entry.end),
            TalePlace::Empty => None,
        }
    }

    /// Whether it is an empty place.
    pub(crate) fn is_empty(&self) -> bool
        ensures { result ≡ is_empty self.now }
    {
        matches!(self, TalePlace::Empty)
    }

    /// The stored commit, if one is there.
    pub(crate) fn stored(&self) -> Option<&TaleEntry>
        ensures { option_copied result ≡ stored_of self.now }
    {
        match self {
            TalePlace::Open(_) => None,
            TalePlace::Reading(_) => None,
            TalePlace::Settled(entry) => Some(entry),
            TalePlace::Empty => None,
        }
    }

    /// Whether nothing is lost with the place: it is empty, or its commit ends at most there.
    pub(crate) fn may_go(&self, upto: Stamp) -> bool
        ensures { result ≡ may_go upto.0 self.now }
    {
        match self {
            TalePlace::Open(_) => false,
            TalePlace::Reading(_) => false,
            TalePlace::Settled(entry) => !entry.is_above(upto),
            TalePlace::Empty => true,
        }
    }
}
