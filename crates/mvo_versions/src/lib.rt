//! The versions of all rows, by number, by key and by sort.
#![tactic(auto)]

mod ended;
mod index_maker;
mod indexed;
mod indexes;
mod indexes_in_threads;
mod indexes_in_turn;
mod leading;
mod listing;
mod looking;
mod runs;
mod skip;
mod skips;
mod versions;

pub use index_maker::IndexMaker;
pub use indexes_in_threads::IndexesInThreads;
pub use indexes_in_turn::IndexesInTurn;
pub use versions::Versions;
