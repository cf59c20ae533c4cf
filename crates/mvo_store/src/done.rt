use crate::append::durable::Durable;
use crate::install::generation::Generation;
use crate::jobs::progress::Progress;
use crate::reclaimed::Reclaimed;

/// What a call of a store answers.
#[derive(Debug, Drop)]
pub enum Done {
    /// The group's body, or the manifest, is written.
    Written,
    /// The group is durable.
    Durable(Durable),
    /// A rotation runs: its fresh segment is written.
    Ready,
    /// A checkpoint or a merge runs: it has more to write, or all is written.
    Progress(Progress),
    /// The gate of the slot is closed.
    Shut,
    /// The manifest of this generation is installed.
    Installed(Generation),
    /// Whether a file was emptied, or there was none.
    Reclaimed(Reclaimed),
}
