//! What a core has stands for a state just where it stands for the state's shadow.
#![tactic(auto)]

mod laws;

pub use laws::{laws_of_going_on, laws_of_standing, laws_of_telling, laws_of_works_beside};
