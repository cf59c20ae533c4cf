//! The engine for many threads: one lock round the core, one round the store, a ring of closed
//! groups between them, and marks that are asked without a lock.
#![tactic(auto)]

mod bell;
mod chain;
mod core_guard;
mod counts;
mod ends;
mod engine;
mod fresh;
mod gate;
mod gathering;
mod keeping;
mod kept;
mod locked_core;
mod locked_store;
mod one_call;
mod outcome;
mod place;
mod program;
mod read_slices;
mod rolling_back;
mod run;
mod seen_durable;
mod sends;
mod session;
mod slice;
mod sliced;
mod stats;
mod store_guard;
mod taken;
mod totals;
mod transacted;
mod transaction;
mod turns;

pub use chain::Chain;
pub use core_guard::CoreGuard;
pub use counts::add_known;
pub use engine::Engine;
pub use fresh::Fresh;
pub use gate::{Gate, OpenGate, TimedGate};
pub use gathering::{Gathered, gather};
pub use kept::Kept;
pub use one_call::with_engine;
pub use outcome::Outcome;
pub use place::Place;
pub use program::Program;
pub use run::{MAX_SESSIONS, Receipt, Run};
pub use seen_durable::SeenDurable;
pub use session::Session;
pub use slice::Slice;
pub use stats::{CoreStats, Stats, StoreStats};
pub use store_guard::StoreGuard;
pub use totals::Totals;
pub use transacted::Transacted;
pub use transaction::Transaction;
