//! Versions by number.
#![tactic(auto)]

mod chains;
mod pieces;
mod version;

pub use chains::Chains;
pub use pieces::Pieces;
pub use version::{Version, VersionNo};
