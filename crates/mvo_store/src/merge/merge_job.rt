use crate::merge::merging::Merging;
use crate::merge::reading::MergeReading;

/// A merge whose files aren't all written.
#[derive(Drop)]
pub enum MergeJob {
    /// Its two pairs are read, in slices. It has taken no file.
    Reading(MergeReading),
    /// They are read, and its files are written.
    Running(Merging),
}
