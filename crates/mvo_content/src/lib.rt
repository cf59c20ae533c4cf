//! What a transaction did, as its owner holds it outside the core: its operations with their
//! answers, what others showed at the first use of each entry, and its own net writes.
#![tactic(auto)]

mod content;
mod copying;
mod held_work;
mod looks;
mod memory;
mod next_operation;
mod own_rows;
mod own_writes;
mod rows_shown;
mod taken;
mod works;

pub use content::WorkContent;
pub use held_work::HeldWork;
pub use looks::Looks;
pub use next_operation::NextOperation;
pub use rows_shown::RowsShown;
pub use taken::TakenContent;
pub use works::Works;
