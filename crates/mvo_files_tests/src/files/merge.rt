//! Merges of pairs.

mod calls;
mod making;
mod places;
mod plain;
mod vectors;
