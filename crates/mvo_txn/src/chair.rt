use crate::table_seat::TableSeat;

/// A seat with the id of the transaction that has it.
#[derive(Drop)]
pub(crate) struct Chair<P> {
    pub(crate) id: u64,
    pub(crate) seat: TableSeat<P>,
}
