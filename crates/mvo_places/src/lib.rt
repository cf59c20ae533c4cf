//! The places of live records: in which pair's data file the live record of each key lies, and
//! under which number.
#![tactic(auto)]

mod falling;
mod fixed_key;
mod fixed_keys;
mod laws;
mod places;
mod record_place;

pub use falling::Falling;
pub use laws::laws_of_places;
pub use places::Places;
pub use record_place::RecordPlace;
