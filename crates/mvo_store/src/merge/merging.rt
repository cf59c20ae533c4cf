use crate::merge::seen_pairs::SeenPairs;
use crate::merge::stage::MergeStage;

/// A merge whose files aren't all written. It has no manifest yet.
#[derive(Drop)]
pub struct Merging {
    /// What it saw, and what it makes.
    pub seen: SeenPairs,
    /// How far it is.
    pub stage: MergeStage,
}
