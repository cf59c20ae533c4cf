//! What is due in a store that looks after itself: a function of what counts of it, without memory;
//! and what who keeps it sees of it, and remembers from one look to the next.
#![tactic(auto)]

mod choice;
mod choosing;
mod chore;
mod keeper;
mod laws;
mod neighbours;
mod policy;
mod remains;
mod seen;
mod served;
mod sight;
mod standing;
mod table;

pub use chore::Chore;
pub use keeper::Keeper;
pub use laws::laws_of_turns;
pub use policy::Policy;
pub use remains::Remains;
pub use served::Served;
pub use sight::Sight;
pub use standing::Standing;
pub use table::due;
