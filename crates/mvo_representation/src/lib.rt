//! What the words of versions, the transaction table, the counters of dependencies and the two
//! indexes stand for: the abstract state of the core.
#![tactic(auto)]

mod dependency_laws;
mod laws;
mod table_laws;

pub use dependency_laws::laws_of_dependencies;
pub use laws::{
    laws_of_representation, laws_of_standing_order, laws_of_words, laws_of_written_versions,
};
pub use table_laws::laws_of_table;
