use mvo_ckpt::Checkpoint;
use mvo_merge::Merged;

/// What a job held whose manifest is installed. To let it go takes the time of giving back the
/// memory of each of its rows.
#[derive(Drop)]
pub enum Spent {
    /// Nothing: the job was a rotation.
    Nothing,
    /// What a checkpoint has written.
    Checkpoint(Checkpoint),
    /// What a merge has written.
    Merge(Merged),
}
