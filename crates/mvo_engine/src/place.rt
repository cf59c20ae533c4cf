/// Where a thread stands, outside the locks.
#[derive(Clone, Copy, Debug, PartialEq, Eq)]
pub enum Place {
    /// Before it takes the lock of the core.
    Core,
    /// Before it takes the lock of the store.
    Store,
    /// Before it takes the turn for a step of a job.
    Turn,
    /// Before it runs the job of this number.
    JobStart(u32),
    /// Behind the job of this number.
    JobEnd(u32),
}
