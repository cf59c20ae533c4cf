//! The shadow of a state goes as the state does, where all works are made on the core.
#![tactic(auto)]

mod laws;

pub use laws::laws_of_shadows;
