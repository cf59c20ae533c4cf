//! What opening the image of a disk answers: rows and mark, or the first broken rule.

mod laws;

pub use laws::laws_of_opening;
