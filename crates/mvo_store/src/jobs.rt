//! The jobs that run, and how each is brought on by a step.

pub mod advance;
pub mod due;
pub mod jobs;
pub mod progress;
pub mod run_due;
pub mod slices;
pub mod step_files;
pub mod store_caller;
pub mod whole;
