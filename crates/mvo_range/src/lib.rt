//! The ordered index: the places of rows by table, sort and key, each with a number.
#![tactic(auto)]

mod index;
mod sort_place;
mod walk;

pub use index::RangeIndex;
pub use sort_place::SortPlace;
pub use walk::Walk;
