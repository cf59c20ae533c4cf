//! A core that is given works, with its read-only transactions: why it refuses a call, what the
//! call leaves, and that it goes as the whole state does where all works are made on it.
#![tactic(auto)]

mod laws;

pub use laws::{laws_of_given_readers, laws_of_held_readers};
