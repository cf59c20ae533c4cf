//! On whom the transactions of a core rest, by what happened: each call keeps that and tells it.

mod laws;

pub use laws::laws_of_rests;
