//! The world: the event core over a store of many files that survives a stop at any moment.
#![tactic(auto)]

mod event;
mod push;
mod reply;
mod ring;
mod world;

pub use event::Event;
pub use reply::{Reply, reply_of};
pub use ring::Ring;
pub use world::World;
