//! The rotation of the log.

pub mod begin;
