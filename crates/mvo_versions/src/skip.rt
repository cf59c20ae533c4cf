use mvo_chain::VersionNo;
use mvo_types::Stamp;

/// A skip of ended versions of a key, up to one of them that is far behind the first.
#[derive(Clone, Copy, Debug)]
pub struct Skip {
    /// The last of the skip.
    pub to: VersionNo,
    /// None of them begins below this, or ends.
    pub least: Stamp,
}
