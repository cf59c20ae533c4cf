use mvo_chain::VersionNo;
use mvo_types::{Stamp, TxId};

/// What others have done at a key with one stamp.
#[derive(Clone, Copy, Debug, PartialEq, Eq)]
pub struct Change {
    /// The stamp of the change.
    pub stamp: Stamp,
    /// The version that it put, unless it removed that too.
    pub version: Option<VersionNo>,
    /// Who did it, if that one is Preparing.
    pub owner: Option<TxId>,
}
