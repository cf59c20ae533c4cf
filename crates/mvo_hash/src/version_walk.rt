ghost use Rattle.std.specs.Prelude.{◌≡◌, map};
ghost use Rattle.std.specs.Option.{option_map};
ghost use Rattle.mvo_hash.specs.Lists.{number};
ghost use Rattle.mvo_hash.specs.Links.{some_unless_none};

use crate::link::{Link, NONE};
use mvo_chain::{Pieces, VersionNo};
use std::marker::Model;

/// A walk over the versions of a key, newest first. Contracts see it as the list of the numbers
/// that are still to come. A step takes constant time.
#[derive(Drop)]
pub struct VersionWalk<'a> {
    links: &'a Pieces<Link>,
    // The number that comes next, or the one that came last.
    at: u32,
    began: bool,
}

impl<'a> Model for VersionWalk<'a> {
    ghost use Rattle.std.specs.Prelude.{List, map};
    ghost use Rattle.mvo_chain.specs.declared.version.VersionNo.{VersionNo as Number};
    ghost use Rattle.mvo_hash.specs.Lists.{number};
    ghost use Rattle.mvo_hash.specs.Links.{to_come, IsWalk};

    ghost Value = { List Number };

    ghost view = { λ w. map number (to_come w.links.now w.at w.began) };

    ghost invariant = { λ w. IsWalk w.links.now w.at };
}

impl<'a> VersionWalk<'a> {
    ghost use Rattle.std.specs.Prelude.{◌≡◌, length, map};
    ghost use Rattle.std.specs.Prelude.{◌∷◌, List};
    ghost use Rattle.mvo_chain.specs.declared.version.VersionNo.{VersionNo as Number};
    ghost use Rattle.mvo_hash.specs.Lists.{number, foremost, LeadsTo};
    ghost use Rattle.mvo_hash.specs.Links.{walk, IsWalk};

    /// A walk along the links from a number on.
    pub(crate) fn from(links: &'a Pieces<Link>, at: u32) -> VersionWalk<'a>
        requires { IsWalk links.now at }
        ensures { result ≡ map number (walk links.now (length links.now) at) }
    {
        VersionWalk {
            links,
            at,
            began: false,
        }
    }

    /// The version that comes next, if there is one.
    pub fn peek(&self) -> Option<VersionNo>
        ensures { result ≡ foremost self.now }
    {
        if self.at == NONE {
            return None;
        }
        if !self.began {
            return Some(VersionNo(self.at));
        }
        shown(self.links[self.at as usize].older)
    }

    /// Passes over the versions in front of one that is still to come, which comes next. It takes
    /// constant time, however many these are.
    pub fn pass_to(&mut self, version: VersionNo)
        requires { (rest : List Number) × LeadsTo self.old version rest }
        ensures { (rest : List Number) → LeadsTo self.old version rest →
            self.new ≡ version ∷ rest }
    {
        self.at = version.0;
        self.began = false;
    }
}

impl<'a> Iterator for VersionWalk<'a> {
    ghost use Rattle.std.specs.Iterator.{YieldsFirst, item_count};

    type Item = VersionNo;

    ghost next_gives = { YieldsFirst (λ w. w) };

    ghost remaining = { item_count (λ w. w) };

    // The link of a number is looked at when the next one is asked for, and not before: most who
    // walk stop at the first.
    fn next(&mut self) -> Option<VersionNo> {
        if !self.began {
            self.began = true;
            return shown(self.at);
        }
        if self.at == NONE {
            return None;
        }
        self.at = self.links[self.at as usize].older;
        shown(self.at)
    }
}

// The number, if it stands for a version.
fn shown(at: u32) -> Option<VersionNo>
    ensures { result ≡ option_map number (some_unless_none at) }
{
    if at == NONE {
        return None;
    }
    Some(VersionNo(at))
}
