use mvo_chain::VersionNo;
use mvo_types::TxId;

/// What a transaction is shown at a key.
#[derive(Clone, Copy, Debug, PartialEq, Eq)]
pub struct Shown {
    /// The version that it is shown, if one is.
    pub version: Option<VersionNo>,
    /// The Preparing transaction that decided so, also where no version is shown.
    pub depends_on: Option<TxId>,
}
