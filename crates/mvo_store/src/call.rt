use crate::jobs::due::Due;

/// A call of a store that takes nothing from who makes it: every one but `take_group`.
#[derive(Clone, Copy, Debug, PartialEq, Eq)]
pub enum StoreCall {
    /// The body of the pending group is to be written (`append_body`).
    AppendBody,
    /// Its gate is to be opened (`append_open`).
    AppendOpen,
    /// A rotation is to begin with a fresh segment (`rotate_write`).
    RotateWrite,
    /// A checkpoint of the oldest sealed segment is to begin (`checkpoint_read`).
    CheckpointRead,
    /// A merge of the pair at this place, counted from 0, and the one behind it is to begin
    /// (`merge_read`).
    MergeRead(usize),
    /// This step of a job that runs is to be made, which has to be its next.
    Step(Due),
    /// A file that is no longer used is to be emptied (`reclaim`).
    Reclaim,
}
