ghost use Rattle.std.specs.Prelude.{◌≡◌, Some, min, IfSome};
ghost use Rattle.mvo_chain.specs.Slots.{version_at};
ghost use Rattle.mvo_representation.specs.Indexes.{HasNumbers};
ghost use Rattle.mvo_versions.specs.Skips.{begin_of_ended, AreSkips, IsSkip, IsUnlessEnded};

use crate::ended::begin_of_ended;
use crate::skip::Skip;
use crate::skips::{Skips, is_post};
use mvo_chain::{Chains, VersionNo};
use mvo_hash::HashIndex;
use mvo_types::Stamp;

/// How many versions are looked at for the next post of a key.
const MOST: usize = 1024;

/// A word of the version is about to change, or its place among those of its key. No skip has it
/// then: words of ended versions stay, and where one doesn't, all skips are forgotten.
#[inline(always)]
pub fn unless_ended(skips: &mut Skips, chains: &Chains, number: VersionNo)
    ensures { IsUnlessEnded chains.now skips.old skips.new number.0 }
{
    if begin_of_ended(chains, number).is_some() {
        skips.clear();
    }
}

/// Notes the skip that begins at the version, if it is that of a post and has ended.
pub fn lead(skips: &mut Skips, chains: &Chains, index: &HashIndex, number: VersionNo)
    requires { HasNumbers chains.now index.now.versions }
    ensures { AreSkips chains.now index.now.versions skips.old →
        AreSkips chains.now index.now.versions skips.new }
{
    if !is_post(number) {
        return;
    }
    if let Some(begin) = begin_of_ended(chains, number) {
        if let Some(skip) = skip_from(chains, index, number, begin) {
            skips.lead(number, skip);
        }
    }
}

/// The skip from the version to the next one behind it that is that of a post, if all up to this
/// one have ended.
fn skip_from(chains: &Chains, index: &HashIndex, number: VersionNo, begin: Stamp) -> Option<Skip>
    requires numbers { HasNumbers chains.now index.now.versions }
    requires ended { begin_of_ended (version_at chains.now number) ≡ Some begin }
    ensures { IfSome result (λ r. IsSkip chains.now index.now.versions number.0 r) }
{
    let mut to = number;
    let mut least = begin;
    for _ in 0..MOST {
        to = index.older(to)?;
        least = lesser(least, begin_of_ended(chains, to)?);
        if is_post(to) {
            return Some(Skip { to, least });
        }
    }
    None
}

fn lesser(one: Stamp, other: Stamp) -> Stamp
    ensures { result.0 ≡ min one.0 other.0 }
{
    if one.0 <= other.0 { one } else { other }
}
