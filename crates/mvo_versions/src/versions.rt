use crate::index_maker::IndexMaker;
use crate::indexed::Indexed;
use crate::indexes_in_threads::IndexesInThreads;
use crate::leading::{lead, unless_ended};
use crate::skips::{Skips, is_post};
use mvo_chain::{Version, VersionNo};
use mvo_types::{Row, Rows, Stamp, TxId};
use mvo_word::Word;
use std::alloc::{AllocError, Global};
use std::marker::Model;
use std::thread::Threads;

/// The versions of all rows. Contracts see them by number, the numbers of each key, newest first,
/// and the places in the order of sorts.
///
/// Each version stands under its key once, and the places are just those of the versions: an entry
/// of the ordered index is shared by all versions of a key that have one sort, and says how many
/// runs of them stand side by side.
///
/// A reader that began long ago passes over many newer versions of a key at a time.
pub struct Versions {
    pub(crate) indexed: Indexed,
    pub(crate) skips: Skips,
}

impl Drop for Versions {
    fn drop(self) {
        let Versions {
            indexed: _,
            skips: _,
        } = self;
    }
}

impl Model for Versions {
    ghost use Rattle.std.specs.Coded.{codes};
    ghost use Rattle.mvo_hash.specs.Lists.{coded_lists};
    ghost use Rattle.mvo_range.specs.Place.{coded_place_numbers};
    ghost use Rattle.mvo_versions.specs.Data.{VersionsData};
    ghost use Rattle.mvo_versions.specs.Skips.{HasSkips};

    ghost Value = { VersionsData };

    ghost coded = { Prim.hlevel (codes, coded_lists, coded_place_numbers) };

    ghost view = { λ v. v.indexed };

    ghost invariant = { λ v. HasSkips v.indexed v.skips };
}

impl Versions {
    ghost use Rattle.std.specs.Prelude.{◌≡◌, ◌≤◌, ◌<◌, ◌^◌, ◌-◌, IfOk, OnErr, IsSome, IfSome, option_copied};
    ghost use Rattle.std.specs.Prelude.{length};
    ghost use Rattle.std.specs.FinMap as map;
    ghost use Rattle.mvo_chain.specs.Slots.{version_at, hole_count};
    ghost use Rattle.mvo_representation.specs.Steps.{ended_by};
    ghost use Rattle.mvo_types.specs.declared.limits.TheConstants.{MAX_STAMP as LIMIT};
    ghost use Rattle.mvo_versions.specs.Data.{AreIndexed};
    ghost use Rattle.mvo_versions.specs.Changes.{AreLoaded, IsPut, IsRoomed, IsReworded};
    ghost use Rattle.mvo_versions.specs.Changes.{IsInFront, IsTakenOut};

    /// The versions of these rows, put at the mark. The indexes of 8,192 rows or more are made in
    /// two threads, each index beside the other. The seed decides where keys stand in memory: who
    /// chooses the keys must not know it.
    pub fn load(
        rt: &(impl Threads + Sync),
        alloc: Global,
        seed: u64,
        rows: Rows,
        mark: Stamp,
    ) -> Result<Versions, AllocError>
        requires { mark.0 ≤ LIMIT }
        ensures loaded { IfOk result (AreLoaded rows mark.0) }
        ensures indexed { IfOk result AreIndexed }
    {
        Versions::load_by(&IndexesInThreads::new(rt), alloc, seed, rows, mark)
    }

    /// The same, with the indexes that this one makes.
    pub fn load_by<M: IndexMaker>(
        maker: &M,
        alloc: Global,
        seed: u64,
        rows: Rows,
        mark: Stamp,
    ) -> Result<Versions, AllocError>
        requires maker { M.may_make }
        requires mark { mark.0 ≤ LIMIT }
        ensures loaded { IfOk result (AreLoaded rows mark.0) }
        ensures indexed { IfOk result AreIndexed }
    {
        let indexed = Indexed::load(maker, alloc, seed, rows, mark)?;
        Ok(Versions {
            indexed,
            skips: Skips::new(alloc),
        })
    }

    /// The version with the number, if there is one. What the indexes keep is known wherever it is
    /// asked for.
    pub fn get(&self, number: VersionNo) -> Option<&Version>
        ensures version { option_copied result ≡ version_at self.now.slots number }
        ensures indexed { AreIndexed self.now }
    {
        self.indexed.get(number)
    }

    /// How many versions there are.
    pub fn version_count(&self) -> usize
        ensures { result ≡ length self.now.slots - hole_count self.now.slots }
    {
        self.indexed.chains().version_count()
    }

    /// How many places there are in the order of sorts: one for each key, and one more for each
    /// further sort that versions of it have.
    pub fn place_count(&self) -> usize
        ensures { result ≡ map.len self.now.places }
    {
        self.indexed.place_count()
    }

    /// Puts the row as a version of the transaction, which nobody has ended, in front of those of
    /// its key. Takes constant time, but for growth. The ordered index is left alone where the
    /// newest version of the key has that sort, which is known at once where `like` is that
    /// version. Refused, it changes nothing that is shown.
    pub fn put(
        &mut self,
        row: Row,
        by: TxId,
        like: Option<VersionNo>,
    ) -> Result<VersionNo, AllocError>
        requires { by.0 < 2 ^ 63 }
        ensures ok { IfOk result (λ n. IsPut self.old self.new row by.0 n) }
        ensures err { OnErr result (IsRoomed self.old self.new) }
        ensures indexed { AreIndexed self.new }
    {
        let number = self.indexed.put(row, by, like)?;
        if is_post(number) {
            // Without memory for it no skip begins there.
            let _ = self.skips.reach(number);
        }
        self.skips.forget(number);
        Ok(number)
    }

    /// Takes the version out, and gives its row back. Takes no memory, and constant time beside
    /// that of the ordered index, which is left alone where a neighbour of the key has the same
    /// sort.
    pub fn take_out(&mut self, number: VersionNo) -> Row
        requires { IsSome (version_at self.old.slots number) }
        ensures row { IfSome (version_at self.old.slots number) (λ v. result ≡ v.row) }
        ensures gone { IsTakenOut self.old self.new number }
        ensures indexed { AreIndexed self.new }
    {
        self.skips.forget(number);
        self.indexed.take_out(number)
    }

    /// Lets a transaction end the version.
    pub fn end(&mut self, number: VersionNo, by: TxId)
        requires live { IsSome (version_at self.old.slots number) }
        requires id { by.0 < 2 ^ 63 }
        ensures { IsReworded self.old self.new number (ended_by by.0) }
    {
        unless_ended(&mut self.skips, self.indexed.chains(), number);
        self.indexed.end(number, by);
    }

    /// Replaces the version's Begin.
    pub fn set_begin(&mut self, number: VersionNo, begin: Word)
        requires { IsSome (version_at self.old.slots number) }
        ensures { IsReworded self.old self.new number (λ v. record v { begin = begin }) }
    {
        unless_ended(&mut self.skips, self.indexed.chains(), number);
        self.indexed.set_begin(number, begin);
        let (chains, index) = (self.indexed.chains(), self.indexed.index());
        lead(&mut self.skips, chains, index, number);
    }

    /// Replaces the version's End.
    pub fn set_end(&mut self, number: VersionNo, end: Word)
        requires { IsSome (version_at self.old.slots number) }
        ensures { IsReworded self.old self.new number (λ v. record v { end = end }) }
    {
        unless_ended(&mut self.skips, self.indexed.chains(), number);
        self.indexed.set_end(number, end);
        let (chains, index) = (self.indexed.chains(), self.indexed.index());
        lead(&mut self.skips, chains, index, number);
    }

    /// Brings the version to the front of those of its key. Takes no memory, and constant time
    /// beside that of the ordered index; it changes nothing where the version is the newest.
    pub fn bring_to_front(&mut self, number: VersionNo)
        requires { IsSome (version_at self.old.slots number) }
        ensures { IsInFront self.old self.new number }
    {
        let Some(newer) = self.indexed.index().newer(number) else {
            return;
        };
        unless_ended(&mut self.skips, self.indexed.chains(), number);
        self.indexed.bring_to_front(number, newer);
    }
}
