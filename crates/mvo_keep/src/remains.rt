/// What remains of its kind behind a chore that is done.
#[derive(Clone, Copy, Debug, PartialEq, Eq)]
pub enum Remains {
    /// There may be more of the same.
    More,
    /// No file is left to be emptied.
    NoFile,
    /// No garbage is left.
    NoGarbage,
}
