//! The Begin and End words of a version.
#![tactic(auto)]

mod held;
mod word;

pub use held::Held;
pub use word::Word;
