//! The theory of the core: its abstract state, the steps on it, and what they keep.
#![tactic(auto)]

mod cause_laws;
mod laws;
pub mod rests;

pub use cause_laws::laws_of_causes;
pub use laws::laws_of_finishing;
pub use rests::laws_of_rests;
