use mvo_chain::VersionNo;

/// A word of a version.
#[derive(Clone, Copy, Debug, PartialEq, Eq)]
pub enum WordPlace {
    Begin(VersionNo),
    End(VersionNo),
}
