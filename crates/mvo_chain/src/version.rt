ghost use Rattle.std.specs.Prelude.{◌≡◌};

use mvo_types::Row;
use mvo_word::Word;

/// The number of a version in its `Chains`.
#[derive(Clone, Copy, Debug, PartialEq, Eq, PartialOrd, Ord, Hash)]
pub struct VersionNo(pub u32);

impl VersionNo {
    /// Where its slot stands.
    pub fn index(self) -> usize
        ensures { result ≡ self.0 }
    {
        self.0 as usize
    }
}

/// A version of a row.
#[derive(Debug, Drop)]
pub struct Version {
    /// What the version holds, which never changes.
    pub row: Row,
    /// Who put it, and when.
    pub begin: Word,
    /// Who ended it, and when.
    pub end: Word,
}

impl Version {
    ghost use Rattle.mvo_chain.specs.Slots.{added};

    /// A version that nobody has ended.
    pub(crate) fn added(row: Row, begin: Word) -> Version
        ensures { result ≡ added row begin }
    {
        Version {
            row,
            begin,
            end: Word::INFINITY,
        }
    }
}
