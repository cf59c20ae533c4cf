use crate::state::TxState;

/// What the table holds of an unfinished transaction.
#[derive(Debug, Drop)]
pub struct TableSeat<P> {
    /// Where the transaction stands.
    pub state: TxState,
    /// What is kept of it while it is unfinished.
    pub kept: P,
}
