//! Groups of committed transactions, and their bytes.
#![tactic(auto)]

mod decode;
mod encode;
mod group;
mod lengths;
mod record;
mod rules;
mod write;

pub use group::Group;
pub use lengths::BODY_HEADER_LEN;
pub use record::Record;
pub use write::Write;
