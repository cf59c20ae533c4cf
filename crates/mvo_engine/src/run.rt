//! What names a run of an engine, what a session is told in it, and how receipts are counted.

mod copying;
mod counting;
mod kept_receipts;
mod receipt;
mod receipts;
mod run;
mod told;

pub use receipt::Receipt;
pub use receipts::Receipts;
pub use run::{MAX_SESSIONS, PARTS, Run};
pub use told::Told;
