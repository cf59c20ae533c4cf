//! Commit dependencies: who waits for whom to be settled, and who is to fall with whom.
//!
//! What a transaction keeps of them stands in its seat of the transaction table, beside what the
//! caller keeps of it: the table is one of `Node`.
#![tactic(auto)]

mod dependencies;
mod node;
mod outcome;
mod registration;
mod report;
mod waiting;

pub use dependencies::Dependencies;
pub use node::Node;
pub use registration::{register, register_all};
pub use report::{report_abort, report_commit};
pub use waiting::waiting_for;
