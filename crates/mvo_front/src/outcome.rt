use std::alloc::AllocError;

/// What came of a job.
#[derive(Drop)]
pub struct Outcome {
    /// The job's number.
    pub number: u32,
    /// The replies to the lines of its script, a line each. Out of memory where there wasn't room
    /// for all of them.
    pub replies: Result<String, AllocError>,
}
