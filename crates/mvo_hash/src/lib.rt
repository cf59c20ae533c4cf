//! The key index: the versions of each key, found by hash.
#![tactic(auto)]

mod heads;
mod index;
mod link;
mod links;
mod open_table;
mod probe;
mod seeds;
mod shards;
mod slot;
mod version_walk;

pub use heads::Heads;
pub use index::HashIndex;
pub use open_table::OpenTable;
pub use version_walk::VersionWalk;
