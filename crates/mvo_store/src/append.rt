//! Appends to the log: the steps of a group, and the turn of a flush.

pub mod durable;
pub mod flushing;
pub mod log;
pub mod steps;
