use crate::sort_place::SortPlace;
use std::collections::btree_map;
use std::marker::Model;

/// A walk over entries of the index, in their order. Contracts see it as the list of the entries
/// that are still to come.
#[derive(Drop)]
pub struct Walk<'a> {
    entries: btree_map::Range<'a, SortPlace, u32>,
}

impl<'a> Model for Walk<'a> {
    ghost use Rattle.std.specs.Prelude.{ℕ, List};
    ghost use Rattle.mvo_range.specs.declared.sort_place.SortPlace.{SortPlace};

    ghost Value = { List (SortPlace × ℕ) };

    ghost view = { λ w. w.entries };
}

impl<'a> Walk<'a> {
    ghost use Rattle.std.specs.Prelude.{◌≡◌};

    pub(crate) fn over(entries: btree_map::Range<'a, SortPlace, u32>) -> Walk<'a>
        ensures { result ≡ entries.entry }
    {
        Walk { entries }
    }
}

impl<'a> Iterator for Walk<'a> {
    ghost use Rattle.std.specs.Iterator.{YieldsFirst, item_count};

    type Item = (SortPlace, u32);

    ghost next_gives = { YieldsFirst (λ w. w) };

    ghost remaining = { item_count (λ w. w) };

    fn next(&mut self) -> Option<(SortPlace, u32)> {
        match self.entries.next() {
            Some((place, number)) => Some((*place, *number)),
            None => None,
        }
    }
}
