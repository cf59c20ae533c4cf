//! A queue that grows in pieces.
#![tactic(auto)]

mod place;
mod queue;

pub use queue::Queue;
