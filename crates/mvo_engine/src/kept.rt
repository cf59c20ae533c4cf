use mvo_keep::Chore;

/// What came of a turn of a keeper.
#[derive(Clone, Copy, Debug, PartialEq, Eq)]
pub enum Kept {
    /// This chore was due, and is done.
    Did(Chore),
    /// Nothing was due, or another thread did it meanwhile.
    Idle,
}
