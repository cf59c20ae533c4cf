use mvo_types::{Stamp, TxId};

/// What a Begin or End word holds.
#[derive(Clone, Copy, Debug, PartialEq, Eq)]
pub enum Held {
    /// A timestamp.
    At(Stamp),
    /// The transaction that put the word, until its end is settled.
    By(TxId),
    /// Never: of a Begin, that nobody put the version; of an End, that nobody has ended it.
    Infinity,
}
