//! Which version of a key a transaction is shown, on whom it then depends, and who has ended a
//! version before it.
#![tactic(auto)]

mod change;
mod conflict;
mod laws;
mod outcome;
mod seen;
mod visible;
mod walked;

pub use change::Change;
pub use conflict::ended_by;
pub use laws::laws_of_order;
pub use outcome::Shown;
pub use seen::{Seen, names, seen_by_others};
pub use visible::{shown, shown_at_once, shown_on};
pub use walked::is_later;
