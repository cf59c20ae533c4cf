use crate::dependencies::Dependencies;

/// What is kept of an unfinished transaction: its dependencies, and what the caller keeps.
#[derive(Drop)]
pub struct Node<P> {
    /// On whom it depends, and who depends on it.
    pub dependencies: Dependencies,
    /// What the caller keeps of it.
    pub own: P,
}
