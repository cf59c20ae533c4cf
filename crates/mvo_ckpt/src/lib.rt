//! What a checkpoint writes: the rows that the groups of a segment leave, and the numbers of the
//! live records that they end.
#![tactic(auto)]

mod building;
mod checkpoint;
mod gaining;
mod laws;
mod newest;
mod walking;

pub use building::{Building, Built, SLICE_WRITES, build};
pub use checkpoint::{Checkpoint, DeltaEntries};
pub use laws::laws_of_checkpoint;
