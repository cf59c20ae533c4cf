/// What the store does slice by slice, with its lock taken for each of them.
#[derive(Clone, Copy, Debug, PartialEq, Eq)]
pub enum Slice {
    /// The data file of the checkpoint that runs is written.
    Checkpoint,
    /// That of the merge is.
    Merge,
    /// The places of the records are put of the job whose manifest is the next to be installed.
    Places,
    /// The pair at this place, counted from 0, and the one behind it begin to be read, to be
    /// merged.
    MergeBegin(usize),
    /// They are read on.
    MergeRead,
    /// What is read of them is forgotten.
    MergeForget,
    /// The oldest sealed segment begins to be read, of which a checkpoint is to be made.
    CheckpointBegin,
    /// It is read on, and then the pair is built of it.
    CheckpointRead,
    /// What is read and built of it is forgotten.
    CheckpointForget,
    /// The end of a long file is cut off that nobody names.
    Shorten,
}
