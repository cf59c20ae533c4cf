//! Checkpoints.

mod falling;
mod making;
mod places;
mod plain;
mod slices;
mod vectors;
