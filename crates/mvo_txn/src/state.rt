use mvo_types::Stamp;

/// Where an unfinished transaction stands.
#[derive(Clone, Copy, Debug, PartialEq, Eq)]
pub enum TxState {
    /// It reads and writes.
    Active,
    /// It has drawn its end timestamp, and isn't settled yet.
    Preparing(Stamp),
    /// It is settled, with its end timestamp.
    Committed(Stamp),
    /// It is undone.
    Aborted,
}
