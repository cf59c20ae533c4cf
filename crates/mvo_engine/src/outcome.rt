/// What the work of a transaction comes to, where nothing refused it: what it gives, and whether
/// the transaction is to be committed.
#[derive(Drop)]
pub enum Outcome<T> {
    /// The transaction is committed.
    Commit(T),
    /// The transaction is rolled back. What it has read isn't checked then: it may be what another
    /// had written that came to nothing itself. Who needs it checked commits without a write.
    GiveUp(T),
}
