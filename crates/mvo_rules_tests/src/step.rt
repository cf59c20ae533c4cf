/// A step at the key 1. The transactions are numbered in the order in which they begin.
#[derive(Clone, Copy)]
pub enum Step {
    Begin,
    /// A row of this sort.
    Insert(usize, u64),
    Delete(usize),
    Precommit(usize),
    Settle(usize),
    Withdraw(usize),
    Finish(usize),
}
