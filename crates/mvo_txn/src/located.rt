use mvo_types::TxId;

/// The number of a seat.
#[derive(Clone, Copy, Debug)]
pub struct SeatNo(pub(crate) usize);

/// A transaction, with the number of its seat, so that it is sought once and looked at often. By
/// any other number a call finds the same, after a search.
#[derive(Clone, Copy, Debug)]
pub struct Located {
    /// The transaction's id.
    pub id: TxId,
    /// Its seat, as the table answered it.
    pub seat: SeatNo,
}
