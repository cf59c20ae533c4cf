use mvo_types::{Answer, Op, RowKey};

/// What a transaction did.
#[derive(Drop)]
pub struct Operations {
    /// Its operations with their answers, in order.
    pub told: Vec<(Op, Answer)>,
    /// The keys that it wrote, each once, in the order of the first write.
    pub written: Vec<RowKey>,
}
