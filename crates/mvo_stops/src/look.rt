use crate::when::When;
use crate::which::Which;

/// A look at what is left: the moment, and which opening it is there.
#[derive(Clone, Copy, Debug, PartialEq, Eq)]
pub struct Look(pub When, pub Which);
