use anyhow::{Result, bail};

/// A job of the store, beside which sessions commit.
#[derive(Clone, Copy, PartialEq, Eq)]
pub enum Job {
    /// A checkpoint of the one sealed segment.
    Checkpoint,
    /// A merge of the two pairs.
    Merge,
}

impl Job {
    pub fn named(name: &str) -> Result<Job> {
        match name {
            "checkpoint" => Ok(Job::Checkpoint),
            "merge" => Ok(Job::Merge),
            _ => bail!("no job has this name"),
        }
    }

    /// How many rows of 100 bytes the segment has, which is full then, or each of the pairs.
    pub fn rows(self) -> u64 {
        match self {
            Job::Checkpoint => 510_000,
            Job::Merge => 1_000_000,
        }
    }

    /// How many rows there are, where the segment or each of the pairs has so many.
    pub fn rows_in_all(self, rows: u64) -> u64 {
        match self {
            Job::Checkpoint => rows,
            Job::Merge => rows.saturating_mul(2),
        }
    }

    /// What it is called.
    pub fn title(self) -> &'static str {
        match self {
            Job::Checkpoint => "a checkpoint",
            Job::Merge => "a merge",
        }
    }
}
