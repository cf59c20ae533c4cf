//! What a transaction looked at, and whether another has changed it between its begin and its end.
#![tactic(auto)]

mod between;
mod check;
mod entries;
mod validate;

pub use check::Check;
pub use entries::Entries;
pub use validate::check_entry;
