//! What the core keeps of what an unfinished transaction wrote: the words of versions that name it;
//! and what it has done, as a commit takes it out of its work.
#![tactic(auto)]

mod memory;
mod operations;
mod told;
mod word_place;
mod writes;

pub use operations::Operations;
pub use told::entry_of;
pub use word_place::WordPlace;
pub use writes::Writes;
