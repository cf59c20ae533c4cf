ghost use Rattle.std.specs.Prelude.{◌≡◌, IsSome, IfSome};
ghost use Rattle.mvo_chain.specs.Slots.{version_at};

use crate::index_maker::IndexMaker;
use crate::listing::chains_of;
use crate::runs::{enter, fits, give_back, joins, leave, place_of};
use mvo_chain::{Chains, Version, VersionNo};
use mvo_hash::HashIndex;
use mvo_range::{RangeIndex, SortPlace};
use mvo_types::{Row, Rows, Stamp, TxId};
use mvo_word::Word;
use std::alloc::{AllocError, Global};
use std::marker::Model;

/// The versions of all rows with both their indexes. Contracts see them by number, the numbers of
/// each key, newest first, and the places in the order of sorts.
///
/// Each version stands under its key once, and the places are just those of the versions: an entry
/// of the ordered index is shared by all versions of a key that have one sort, and says how many
/// runs of them stand side by side.
pub struct Indexed {
    chains: Chains,
    index: HashIndex,
    order: RangeIndex,
}

impl Drop for Indexed {
    fn drop(self) {
        let Indexed {
            chains: _,
            index: _,
            order: _,
        } = self;
    }
}

impl Model for Indexed {
    ghost use Rattle.std.specs.Coded.{codes};
    ghost use Rattle.mvo_hash.specs.Lists.{coded_lists};
    ghost use Rattle.mvo_range.specs.Place.{coded_place_numbers};
    ghost use Rattle.mvo_versions.specs.Data.{VersionsData};
    ghost use Rattle.mvo_versions.specs.Runs.{AreCounted};

    ghost Value = { VersionsData };

    ghost coded = { Prim.hlevel (codes, coded_lists, coded_place_numbers) };

    ghost view = { λ v. record { slots = v.chains; lists = v.index.versions; places = v.order } };

    ghost invariant = { λ v. AreCounted (record {
      slots = v.chains;
      lists = v.index.versions;
      places = v.order;
    }) };
}

impl Indexed {
    ghost use Rattle.std.specs.Prelude.{◌≡◌, ◌≤◌, ◌<◌, ◌^◌, IfOk, OnErr, IsSome, IfSome, Some, option_copied};
    ghost use Rattle.std.specs.FinMap as map;
    ghost use Rattle.mvo_chain.specs.Slots.{version_at};
    ghost use Rattle.mvo_hash.specs.Lists.{IsNewer};
    ghost use Rattle.mvo_word.specs.declared.held.Held.TheVariants.{By};
    ghost use Rattle.mvo_representation.specs.Steps.{ended_by};
    ghost use Rattle.mvo_types.specs.declared.limits.TheConstants.{MAX_STAMP as LIMIT};
    ghost use Rattle.mvo_versions.specs.Data.{AreIndexed};
    ghost use Rattle.mvo_versions.specs.Changes.{AreLoaded, IsPut, IsRoomed, IsReworded};
    ghost use Rattle.mvo_versions.specs.Changes.{IsInFront, IsTakenOut};

    /// The versions of these rows, put at the mark, with the indexes that this one makes. The seed
    /// decides where keys stand in memory: who chooses the keys must not know it.
    pub fn load<M: IndexMaker>(
        maker: &M,
        alloc: Global,
        seed: u64,
        rows: Rows,
        mark: Stamp,
    ) -> Result<Indexed, AllocError>
        requires maker { M.may_make }
        requires mark { mark.0 ≤ LIMIT }
        ensures loaded { IfOk result (AreLoaded rows mark.0) }
        ensures indexed { IfOk result AreIndexed }
    {
        let (chains, places) = chains_of(alloc, rows, mark)?;
        let (index, order) = maker.indexes_of(alloc, seed, &chains, places)?;
        Ok(Indexed {
            chains,
            index,
            order,
        })
    }

    /// The version with the number, if there is one. What the indexes keep is known wherever it is
    /// asked for.
    pub fn get(&self, number: VersionNo) -> Option<&Version>
        ensures version { option_copied result ≡ version_at self.now.slots number }
        ensures indexed { AreIndexed self.now }
    {
        self.chains.get(number)
    }

    /// How many places there are.
    pub fn place_count(&self) -> usize
        ensures { result ≡ map.len self.now.places }
    {
        self.order.len()
    }

    /// The versions by number.
    pub fn chains(&self) -> &Chains
        ensures { result.now ≡ self.now.slots }
    {
        &self.chains
    }

    /// The numbers of each key.
    pub fn index(&self) -> &HashIndex
        ensures { result.now.versions ≡ self.now.lists }
    {
        &self.index
    }

    /// The places in the order of sorts.
    pub fn order(&self) -> &RangeIndex
        ensures { result.now ≡ self.now.places }
    {
        &self.order
    }

    /// Puts the row as a version of the transaction, which nobody has ended, in front of those of
    /// its key. Takes constant time, but for growth. The ordered index is left alone where the
    /// newest version of the key has that sort, which is known at once where `like` is that
    /// version. Refused, it changes nothing that is shown.
    pub fn put(
        &mut self,
        row: Row,
        by: TxId,
        like: Option<VersionNo>,
    ) -> Result<VersionNo, AllocError>
        requires { by.0 < 2 ^ 63 }
        ensures ok { IfOk result (λ n. IsPut self.old self.new row by.0 n) }
        ensures err { OnErr result (IsRoomed self.old self.new) }
        ensures indexed { AreIndexed self.new }
    {
        let key = row.row_key();
        let place = SortPlace::new(key, row.sort);
        let joins = joins(&self.chains, &self.index, like, place);
        let number = self.chains.add(row, Word::id(by))?;
        // There are no more slots than numbers, which the invariant asks for.
        fits(number);
        let Ok(()) = enter(&mut self.order, place, joins) else {
            let _ = self.chains.take_out(number);
            return Err(AllocError);
        };
        let Ok(()) = self.index.add(key, number) else {
            give_back(&mut self.order, place, joins);
            let _ = self.chains.take_out(number);
            return Err(AllocError);
        };
        Ok(number)
    }

    /// Takes the version out, and gives its row back. Takes no memory, and constant time beside
    /// that of the ordered index, which is left alone where a neighbour of the key has the same
    /// sort.
    pub fn take_out(&mut self, number: VersionNo) -> Row
        requires { IsSome (version_at self.old.slots number) }
        ensures row { IfSome (version_at self.old.slots number) (λ v. result ≡ v.row) }
        ensures gone { IsTakenOut self.old self.new number }
        ensures indexed { AreIndexed self.new }
    {
        let place = place_of(&self.chains, number);
        let newer = self.index.newer(number);
        let older = self.index.older(number);
        leave(&mut self.order, &self.chains, place, newer, older);
        self.index.remove(place.row_key(), number);
        self.chains.take_out(number)
    }

    /// Lets a transaction end the version.
    pub fn end(&mut self, number: VersionNo, by: TxId)
        requires live { IsSome (version_at self.old.slots number) }
        requires id { by.0 < 2 ^ 63 }
        ensures reworded { IsReworded self.old self.new number (ended_by by.0) }
        ensures indexed { AreIndexed self.new }
    {
        self.chains.claim_end(number, by);
    }

    /// Replaces the version's Begin.
    pub fn set_begin(&mut self, number: VersionNo, begin: Word)
        requires { IsSome (version_at self.old.slots number) }
        ensures reworded { IsReworded self.old self.new number (λ v. record v { begin = begin }) }
        ensures indexed { AreIndexed self.new }
    {
        self.chains.set_begin(number, begin);
    }

    /// Replaces the version's End.
    pub fn set_end(&mut self, number: VersionNo, end: Word)
        requires { IsSome (version_at self.old.slots number) }
        ensures reworded { IsReworded self.old self.new number (λ v. record v { end = end }) }
        ensures indexed { AreIndexed self.new }
    {
        self.chains.set_end(number, end);
    }

    /// Brings the version to the front of those of its key, where `newer` is the next newer one.
    /// Takes no memory, and constant time beside that of the ordered index.
    #[inline(never)]
    pub fn bring_to_front(&mut self, number: VersionNo, newer: VersionNo)
        requires live { IsSome (version_at self.old.slots number) }
        requires newer { IsNewer self.old.lists number.0 (Some newer.0) }
        ensures front { IsInFront self.old self.new number }
        ensures indexed { AreIndexed self.new }
    {
        let place = place_of(&self.chains, number);
        let joins = joins(&self.chains, &self.index, None, place);
        // The place has an entry, so counting a run takes no memory.
        let _ = enter(&mut self.order, place, joins);
        let older = self.index.older(number);
        leave(&mut self.order, &self.chains, place, Some(newer), older);
        self.index.bring_to_front(place.row_key(), number);
    }
}
