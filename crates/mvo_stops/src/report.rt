use crate::counts::Counts;
use crate::failed::Failed;

/// What was looked at, and the first call at which something is wrong.
#[derive(Clone, Copy, Debug, PartialEq, Eq)]
pub struct Report {
    pub counts: Counts,
    pub failed: Option<Failed>,
}
