use super::session::Session;
use super::wrong::Wrong;
use super::{commits, depending, loading, opened};

/// A part of the run, which counts something.
#[derive(Clone, Copy)]
pub enum Part {
    /// Rows that are put, 200 keys in a transaction.
    Load,
    /// The keys of all rows, in one scan.
    Scan,
    /// Those that wait for one transaction, and commit behind it.
    Settle,
    /// Those that fall with one transaction.
    Fall,
    /// Those that are open at once.
    Open,
    /// Versions that are collected beside a million commits.
    Collect,
    /// The bytes that these commits leave.
    Read,
}

impl Part {
    pub fn name(self) -> &'static str {
        match self {
            Part::Load => "load",
            Part::Scan => "scan",
            Part::Settle => "settle",
            Part::Fall => "fall",
            Part::Open => "open",
            Part::Collect => "collect",
            Part::Read => "read",
        }
    }

    pub fn run(self, session: &mut Session) -> Result<u64, Wrong> {
        match self {
            Part::Load => loading::load(session),
            Part::Scan => loading::scan(session),
            Part::Settle => depending::settle(session),
            Part::Fall => depending::fall(session),
            Part::Open => opened::run(session),
            Part::Collect => commits::run(session),
            Part::Read => commits::read(session),
        }
    }
}
