ghost use Rattle.std.specs.Prelude.{◌≡◌, ◌↔◌, ◌<◌, ◌^◌, OnOk, OnErr, IfOk, IsTrue, All, filter, None};
ghost use Rattle.std.specs.FinMap as map;
ghost use Rattle.mvo_range.specs.Place.{is_between, is_between_after, all_added, HasKey};

use crate::sort_place::SortPlace;
use crate::walk::Walk;
use std::alloc::{AllocError, Global};
use std::collections::BTreeMap;
use std::marker::Model;
use std::ops::Bound;

/// The ordered index. It has one entry for a place, however many versions of that key have that
/// sort; what its number says of them is the caller's. Contracts see a finite map from places to
/// numbers, whose entries stand in the order of table, sort and key.
#[derive(Drop)]
pub struct RangeIndex {
    held: BTreeMap<SortPlace, u32>,
}

impl Model for RangeIndex {
    ghost use Rattle.std.specs.List.{All};
    ghost use Rattle.std.specs.FinMap as map;
    ghost use Rattle.mvo_range.specs.Place.{PlaceNumbers, coded_place_numbers};

    ghost Value = { PlaceNumbers };

    ghost coded = { coded_place_numbers };

    ghost view = { λ m. map.from_entries m.held.entries };

    ghost use Rattle.mvo_range.specs.Place.{HasKey};

    // What walks up to the last key of a sort depend on.
    ghost invariant = { λ m. All HasKey m.held.entries };
}

impl RangeIndex {
    /// An index with no entries. It takes no memory.
    pub fn new(alloc: Global) -> RangeIndex
        ensures { result ≡ map.empty }
    {
        RangeIndex {
            held: BTreeMap::new(alloc),
        }
    }

    /// The index of these entries, as if each had been added in turn. It is built in one go,
    /// fastest where they stand in order.
    pub fn from_entries(
        alloc: Global,
        entries: Vec<(SortPlace, u32)>,
    ) -> Result<RangeIndex, AllocError>
        ensures { IfOk result (λ m. m ≡ all_added entries.items) }
    {
        // The keys are of 64 bits, which the invariant asks for.
        read_keys(&entries);
        let held = entries.into_iter().collect(alloc)?;
        Ok(RangeIndex { held })
    }

    /// How many entries there are.
    pub fn len(&self) -> usize
        ensures { result ≡ map.len self.now }
    {
        self.held.len()
    }

    /// Whether there are no entries.
    pub fn is_empty(&self) -> bool
        ensures { IsTrue result ↔ (self.now ≡ map.empty) }
    {
        self.len() == 0
    }

    /// The number at a place.
    pub fn get(&self, place: SortPlace) -> Option<u32>
        ensures { result ≡ map.get self.now place }
    {
        self.held.get(&place).copied()
    }

    /// Puts the number at a place, and answers the one that stood there before. Only a place with
    /// no entry takes memory, a node's now and then.
    pub fn add(&mut self, place: SortPlace, number: u32) -> Result<Option<u32>, AllocError>
        ensures ok { OnOk result (self.new ≡ map.insert self.old place number) }
        ensures before { IfOk result (λ r. r ≡ map.get self.old place) }
        ensures err { OnErr result (self.new ≡ self.old) }
        ensures absent { OnErr result (map.get self.old place ≡ None) }
    {
        // The key is one of 64 bits, which the invariant asks for.
        fits(place.key);
        Ok(self.held.insert(place, number)?)
    }

    /// Removes the entry at a place, and answers its number. It takes no memory.
    pub fn remove(&mut self, place: SortPlace) -> Option<u32>
        ensures number { result ≡ map.get self.old place }
        ensures gone { self.new ≡ map.remove self.old place }
    {
        self.held.remove(&place)
    }

    /// A walk over the entries of the table whose sort is at least `lo` and at most `hi`, in the
    /// order of sort and key.
    pub fn between(&self, table: u8, lo: u64, hi: u64) -> Walk<'_>
        ensures { result ≡ filter (is_between table lo hi) (map.entries self.now) }
    {
        let first = SortPlace {
            table,
            sort: lo,
            key: 0,
        };
        if hi < lo {
            return Walk::over(self.held.range(first..first));
        }
        Walk::over(self.held.range(first..=last_of(table, hi)))
    }

    /// A walk over those entries of the place's table that stand behind the place and whose sort is
    /// at most `hi`, so that a walk goes on where it was left.
    pub fn after(&self, place: SortPlace, hi: u64) -> Walk<'_>
        ensures { result ≡ filter (is_between_after place hi) (map.entries self.now) }
    {
        if hi < place.sort {
            return Walk::over(self.held.range(place..place));
        }
        let last = last_of(place.table, hi);
        Walk::over(
            self.held
                .range((Bound::Excluded(place), Bound::Included(last))),
        )
    }
}

fn last_of(table: u8, sort: u64) -> SortPlace
    ensures { result ≡ record { table = table; sort = sort; key = u64.MAX } }
{
    SortPlace {
        table,
        sort,
        key: u64::MAX,
    }
}

// For the proof alone: a key that was read is known to be one of 64 bits. The loop has no effect,
// so that a compiler that optimises leaves it out.
fn read_keys(entries: &[(SortPlace, u32)])
    ensures { All HasKey entries.now }
{
    for (place, _) in entries {
        fits(place.key);
    }
}

// For the proof alone: what the type of a number says of it.
fn fits(key: u64)
    ensures { key < 2 ^ 64 }
{
    let _ = key;
}
