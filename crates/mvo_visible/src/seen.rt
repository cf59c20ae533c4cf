ghost use Rattle.std.specs.Prelude.{◌≡◌, ◌==◌};
ghost use Rattle.mvo_txn.specs.Txns.{state_of};
ghost use Rattle.mvo_visible.specs.Words.{seen_of};
ghost use Rattle.mvo_visible.specs.Words as words;
ghost use Rattle.mvo_visible.specs.Changes.{is_at};

use mvo_txn::{TxState, TxnTable};
use mvo_types::{Stamp, TxId};
use mvo_word::{Held, Word};

/// What others see in a word of a version.
#[derive(Clone, Copy, Debug, PartialEq, Eq)]
pub enum Seen {
    /// No change: infinity, or the word of a transaction that is Active, Aborted or not there.
    Nothing,
    /// A change with this stamp that stays: a timestamp, or the end of a Committed transaction.
    Settled(Stamp),
    /// A change with this stamp, the end of this Preparing transaction.
    Speculative(Stamp, TxId),
}

impl Seen {
    /// Whether it is a change with the stamp.
    pub fn is_at(self, stamp: Stamp) -> bool
        ensures { result ≡ is_at stamp.0 self }
    {
        match self {
            Seen::Nothing => false,
            Seen::Settled(other) => other.0 == stamp.0,
            Seen::Speculative(other, _) => other.0 == stamp.0,
        }
    }
}

/// What others see in the word. It takes a look-up where the word names a transaction.
pub fn seen_by_others<P>(table: &TxnTable<P>, word: Word) -> Seen
    ensures { result ≡ seen_of (state_of table.now) word }
{
    match word.read() {
        Held::At(stamp) => Seen::Settled(stamp),
        Held::Infinity => Seen::Nothing,
        Held::By(id) => match table.state(id) {
            Some(TxState::Preparing(end)) => Seen::Speculative(end, id),
            Some(TxState::Committed(end)) => Seen::Settled(end),
            Some(TxState::Active) => Seen::Nothing,
            Some(TxState::Aborted) => Seen::Nothing,
            None => Seen::Nothing,
        },
    }
}

/// Whether the word names the transaction.
pub fn names(word: Word, id: TxId) -> bool
    ensures { result ≡ words.names id.0 word }
{
    match word.read() {
        Held::By(other) => other.0 == id.0,
        Held::At(_) => false,
        Held::Infinity => false,
    }
}
