//! What stands of a merge that runs beside checkpoints, and that its manifest may be installed.

mod laws;

pub use laws::laws_of_merge_beside;
