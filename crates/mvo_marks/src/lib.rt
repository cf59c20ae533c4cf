//! Two marks that threads share: how far groups are closed, and how far they are on the disk. No
//! call waits, and none but the making of the marks takes memory.
#![tactic(auto)]

mod marks;
mod moves;
mod publisher;
mod rule;
mod seat;

pub use marks::Marks;
pub use publisher::Publisher;
pub use seat::Seat;
