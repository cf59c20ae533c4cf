use mvo_types::Stamp;

/// What a whole transaction came to: what its work gave, with the end timestamp of its commit, or
/// none where the work gave up and the transaction was rolled back.
#[derive(Drop)]
pub struct Transacted<T> {
    pub told: T,
    pub end: Option<Stamp>,
}
