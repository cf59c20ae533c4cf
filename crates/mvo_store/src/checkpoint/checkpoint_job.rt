use crate::checkpoint::checkpointing::Checkpointing;
use crate::checkpoint::reading::CheckpointReading;

/// A checkpoint that runs.
#[derive(Drop)]
pub enum CheckpointJob {
    /// The oldest sealed segment is read and its pair is built, in slices. It has taken no file.
    Reading(CheckpointReading),
    /// All is built, and its files are written and installed.
    Running(Checkpointing),
}
