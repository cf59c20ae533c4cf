use crate::checkpoint::stage::CheckpointStage;
use mvo_ckpt::Checkpoint;
use mvo_manifest::Manifest;
use mvo_pair::Pair;

/// A checkpoint that runs.
#[derive(Drop)]
pub struct Checkpointing {
    /// The pair that the oldest sealed segment becomes.
    pub pair: Pair,
    /// The pair's records, and the numbers that the delta files of older pairs gain.
    pub made: Checkpoint,
    /// The manifest that it installs. None is installed meanwhile.
    pub next: Manifest,
    /// How far it is.
    pub stage: CheckpointStage,
    /// How many of the changes are made that it makes of the places: first the keys at which it
    /// leaves no row lose theirs, and then its records get theirs.
    pub placed: usize,
}
