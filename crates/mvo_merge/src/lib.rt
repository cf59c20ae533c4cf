//! Builds a merged pair: the live records of two pairs as one data file, and their new numbers.
#![tactic(auto)]

mod building;
mod laws;
mod merged;
mod merged_so_far;
mod moving;
mod renumbering;

pub use building::build;
pub use laws::laws_of_merge;
pub use merged::Merged;
pub use merged_so_far::MergedSoFar;
pub use moving::{move_places, move_places_upto};
pub use renumbering::Renumbering;
