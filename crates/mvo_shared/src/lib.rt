//! What a transaction's work holds, and what a core knows without it: so what a transaction did may
//! lie with its session, and reads may go side by side.
#![tactic(auto)]

mod laws;

pub use laws::{laws_of_given_works, laws_of_works};
