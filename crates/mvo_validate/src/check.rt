use mvo_types::Stamp;

/// What the check of an entry answers.
#[derive(Clone, Copy, Debug, PartialEq, Eq)]
pub enum Check {
    /// No other has changed it.
    Same,
    /// Others have; the greatest stamp of such a change.
    Differs(Stamp),
}
