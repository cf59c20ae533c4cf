//! Read-only transactions over the theory of the core: a state with its read-only transactions, its
//! calls, and what they keep.
#![tactic(auto)]

mod laws;

pub use laws::{
    laws_of_read_only_answers, laws_of_read_only_calls, laws_of_read_only_replies,
    laws_of_read_only_rests, laws_of_read_only_tale, laws_of_read_only_trace,
};
