/// What a slice of a reading has come to.
#[derive(Clone, Copy, Debug, PartialEq, Eq)]
pub enum Reached {
    /// A gate that may be open: there is more to be read.
    More,
    /// The closed gate: all groups are read.
    End,
}
