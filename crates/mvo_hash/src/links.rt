ghost use Rattle.std.specs.Prelude.{◌≡◌, ◌≢◌, ◌<◌, ◌≤◌, OnOk, OnErr, IfOk, length, map};
ghost use Rattle.mvo_hash.specs.Links.{no_number, unheld, link, first_or_none, walk, IsChain};
ghost use Rattle.mvo_hash.specs.Links.{IsGrown, HasNewer, HasOlder, IsJoined, IsUnlinked};

use crate::link::{Link, NONE, UNHELD};
use mvo_chain::{Pieces, VersionNo};
use std::alloc::{AllocError, Global};

/// Makes room for the number. The last two are refused.
pub fn reach(links: &mut Pieces<Link>, number: u32) -> Result<(), AllocError>
    requires { length links.old ≤ unheld }
    ensures within { OnOk result (number < length links.new) }
    ensures short { OnErr result (length links.old ≤ number) }
    ensures kept { IsGrown links.old links.new }
{
    if number >= UNHELD {
        return Err(AllocError);
    }
    while links.len() <= number as usize {
        links.push(Link::unheld())?;
    }
    Ok(())
}

fn set_newer(links: &mut Pieces<Link>, at: u32, newer: u32)
    requires numbered { length links.old ≤ unheld }
    requires at { at ≢ no_number → at < length links.old }
    ensures { HasNewer links.old links.new at newer }
{
    if at != NONE {
        links[at as usize].newer = newer;
    }
}

fn set_older(links: &mut Pieces<Link>, at: u32, older: u32)
    requires numbered { length links.old ≤ unheld }
    requires at { at ≢ no_number → at < length links.old }
    ensures { HasOlder links.old links.new at older }
{
    if at != NONE {
        links[at as usize].older = older;
    }
}

/// Puts the number in front of an older one.
pub fn join(links: &mut Pieces<Link>, number: u32, older: u32)
    requires numbered { length links.old ≤ unheld }
    requires number { number < length links.old }
    requires older { older ≢ no_number → older < length links.old }
    requires apart { number ≢ older }
    ensures { IsJoined links.old links.new number older }
{
    links[number as usize] = Link { older, newer: NONE };
    set_newer(links, older, number);
}

/// Takes a number out from between its neighbours.
pub fn unlink(links: &mut Pieces<Link>, number: u32)
    requires numbered { length links.old ≤ unheld }
    requires number { number < length links.old }
    requires newer { let at = (link links.old number).newer in
        at ≢ no_number → at < length links.old }
    requires older { let at = (link links.old number).older in
        at ≢ no_number → at < length links.old }
    ensures { IsUnlinked links.old links.new number }
{
    let gone = links[number as usize];
    set_older(links, gone.newer, gone.older);
    set_newer(links, gone.older, gone.newer);
    links[number as usize] = Link::unheld();
}

/// The numbers of a chain, from its newest one on.
pub fn listed(
    alloc: Global,
    links: &Pieces<Link>,
    newest: u32,
) -> Result<Vec<VersionNo>, AllocError>
    requires numbered { length links.now ≤ unheld }
    requires starts { newest ≡ first_or_none (walk links.now (length links.now) newest) }
    requires chain { IsChain links.now no_number (walk links.now (length links.now) newest) }
    ensures { IfOk result (λ versions. map (λ v. v.0) versions.items ≡
        walk links.now (length links.now) newest) }
{
    let mut versions = Vec::new(alloc);
    let mut at = newest;
    while at != NONE {
        versions.push(VersionNo(at))?;
        at = links[at as usize].older;
    }
    Ok(versions)
}
