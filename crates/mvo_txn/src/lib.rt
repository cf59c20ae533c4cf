//! The transaction table, and the clock from which ids and end timestamps are drawn.
//!
//! What a transaction keeps while it is unfinished lies beside its state, so that one look-up finds
//! both.
#![tactic(auto)]

mod chair;
mod directory;
mod located;
mod mark;
mod queue;
mod seats;
mod state;
mod table;
mod table_seat;

pub use located::{Located, SeatNo};
pub use state::TxState;
pub use table::TxnTable;
pub use table_seat::TableSeat;
