//! The installing of a job's manifest, in three steps.

pub mod generation;
pub mod install;
pub mod install_step;
pub mod placing;
pub mod spent;
pub mod steps;
