use mvo_types::TxId;

/// How a transaction was settled.
#[derive(Clone, Copy, Debug, PartialEq, Eq)]
pub(crate) enum Outcome {
    Committed,
    /// It was aborted, and this is its id.
    Aborted(TxId),
}
