ghost use Rattle.std.specs.Prelude.{◌≡◌};
ghost use Rattle.mvo_chain.specs.Slots.{version_at};
ghost use Rattle.mvo_visible.specs.Walked.{is_later};
ghost use Rattle.mvo_versions.specs.Skips.{begin_of_ended, is_later_one};

use mvo_chain::{Chains, VersionNo};
use mvo_types::Stamp;
use mvo_visible::is_later;
use mvo_word::Held;

/// The begin of the version, if both its words are timestamps, and the end isn't the lesser. No
/// word of such a version changes any more.
#[inline(always)]
pub fn begin_of_ended(chains: &Chains, number: VersionNo) -> Option<Stamp>
    ensures { result ≡ begin_of_ended (version_at chains.now number) }
{
    let version = chains.get(number)?;
    match (version.begin.read(), version.end.read()) {
        (Held::At(begin), Held::At(end)) if begin.0 <= end.0 => Some(begin),
        _ => None,
    }
}

/// Whether there is such a version, and it tells nothing below a begin.
#[inline(always)]
pub fn is_later_one(chains: &Chains, number: VersionNo, at: Stamp) -> bool
    ensures { result ≡ is_later_one at.0 (version_at chains.now number) }
{
    match chains.get(number) {
        Some(version) => is_later(version, at),
        None => false,
    }
}
