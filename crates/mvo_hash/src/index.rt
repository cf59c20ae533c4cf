ghost use Rattle.std.specs.Prelude.{◌≡◌, ◌⊎◌, ◌≤◌, ◌+◌, ◌*◌, ◌∷◌, map, OnOk, OnErr, IfOk, IsTrue, IsSome};
ghost use Rattle.std.specs.Bool.{OnTrue, OnFalse};
ghost use Rattle.std.specs.Option.{option_map};
ghost use Rattle.std.specs.FinMap as finite_map;
ghost use Rattle.mvo_hash.specs.Home.{shard_count};
ghost use Rattle.mvo_hash.specs.Links.{beheaded};
ghost use Rattle.mvo_hash.specs.Lists.{no_versions, numbers_of, with_numbers, newest_of, without_number};
ghost use Rattle.mvo_hash.specs.Lists.{is_among, number, IsNewNumber, IsHeld, IsOlder, IsNewer, IsPastAll};

use crate::heads::Heads;
use crate::link::{Link, NONE, UNHELD, or_none};
use crate::links::{join, listed, reach, unlink};
use crate::version_walk::VersionWalk;
use mvo_chain::{Pieces, VersionNo};
use mvo_types::RowKey;
use std::alloc::{AllocError, Global};
use std::marker::Model;

/// The versions of each key, newest first. Contracts see a finite map from each key that has a
/// version to the list of the numbers of its versions, and the room: how many more versions can be
/// added before some key is moved to a larger table, whichever keys they are of.
///
/// Every call takes constant time, or constant time a version that it answers, but for the growth
/// in `add` and `reserve`. These two alone take memory, besides the list that `versions_of` makes:
/// 8 bytes for each number up to the largest, and the slots of each key in `Heads`. The last two of
/// the 2^32 numbers are refused as out of memory.
#[derive(Drop)]
pub struct HashIndex {
    heads: Heads,
    links: Pieces<Link>,
}

impl Model for HashIndex {
    ghost use Rattle.mvo_hash.specs.Lists.{Index, coded_index};

    ghost Value = { Index };

    ghost coded = { coded_index };

    ghost use Rattle.mvo_hash.specs.Links.{index_of, IsIndex};

    ghost view = { λ t. index_of t.heads t.links };

    ghost invariant = { λ t. IsIndex t.heads.numbers t.links };
}

impl HashIndex {
    /// No versions, and no room. It takes no memory. The seed is one that who chooses the keys
    /// can't know.
    pub fn new(alloc: Global, seed: u64) -> HashIndex
        ensures { result ≡ no_versions }
    {
        HashIndex {
            heads: Heads::new(alloc, seed),
            links: Pieces::new(alloc),
        }
    }

    /// How many more versions can be added before some key is moved. It takes 256 steps.
    pub fn room(&self) -> usize
        ensures { result ≡ self.now.room }
    {
        self.heads.room()
    }

    /// Makes room for so many more versions of keys that the hash shares out evenly, as `reserve`
    /// of `Heads` does. The links take memory by pieces as versions are added.
    pub fn reserve(&mut self, versions: usize) -> Result<(), AllocError>
        ensures same { self.new.versions ≡ self.old.versions }
        ensures ok { OnOk result (versions ≤ shard_count * self.new.room) }
        ensures more { self.old.room ≤ self.new.room }
        ensures err { OnErr result (self.new ≡ self.old) }
    {
        self.heads.reserve(versions)
    }

    /// The newest version of a key.
    pub fn newest(&self, key: RowKey) -> Option<VersionNo>
        ensures { option_map (λ v. v.0) result ≡ newest_of (numbers_of self.now.versions key) }
    {
        match self.heads.get(key) {
            Some(number) => Some(VersionNo(number)),
            None => None,
        }
    }

    /// Whether some key has the version.
    pub fn is_held(&self, version: VersionNo) -> bool
        ensures held { OnTrue result (IsHeld self.now.versions version.0) }
        ensures fresh { OnFalse result (IsNewNumber self.now.versions version.0) }
    {
        version.index() < self.links.len() && self.links[version.index()].newer != UNHELD
    }

    /// The next older version of the same key, whichever key the version has.
    pub fn older(&self, version: VersionNo) -> Option<VersionNo>
        requires { IsHeld self.now.versions version.0 }
        ensures { IsOlder self.now.versions version.0 (option_map (λ v. v.0) result) }
    {
        let number = self.links[version.index()].older;
        if number == NONE {
            return None;
        }
        Some(VersionNo(number))
    }

    /// The next newer version of the same key, whichever key the version has.
    pub fn newer(&self, version: VersionNo) -> Option<VersionNo>
        requires { IsHeld self.now.versions version.0 }
        ensures { IsNewer self.now.versions version.0 (option_map (λ v. v.0) result) }
    {
        let number = self.links[version.index()].newer;
        if number == NONE {
            return None;
        }
        Some(VersionNo(number))
    }

    /// The versions of a key, newest first.
    pub fn versions_of(&self, alloc: Global, key: RowKey) -> Result<Vec<VersionNo>, AllocError>
        ensures { IfOk result (λ versions. map (λ v. v.0) versions.items ≡
            numbers_of self.now.versions key) }
    {
        let newest = or_none(self.heads.get(key));
        listed(alloc, &self.links, newest)
    }

    /// A walk over the versions of a key, newest first. It takes no memory.
    pub fn walk(&self, key: RowKey) -> VersionWalk<'_>
        ensures { result ≡ map number (numbers_of self.now.versions key) }
    {
        VersionWalk::from(&self.links, or_none(self.heads.get(key)))
    }

    /// Adds a version in front of those of its key. It takes room for one version at most, and none
    /// where its key has versions; where there is none, it takes the time of moving a 256th part of
    /// the keys, more or less.
    pub fn add(&mut self, key: RowKey, version: VersionNo) -> Result<(), AllocError>
        requires { IsNewNumber self.old.versions version.0 }
        ensures ok { OnOk result (self.new.versions ≡ with_numbers self.old.versions key
            (version.0 ∷ numbers_of self.old.versions key)) }
        ensures room { self.old.room ≤ self.new.room + 1 }
        ensures again { IsSome (newest_of (numbers_of self.old.versions key)) →
            self.new.room ≡ self.old.room }
        ensures err { OnErr result (self.new ≡ self.old) }

        // Only where the heads have to grow, or the links, which reach to the largest number.
        ensures full { OnErr result ((self.old.room ≡ 0) ⊎
            IsPastAll self.old.versions version.0) }
    {
        reach(&mut self.links, version.0)?;
        let older = or_none(self.heads.put(key, version.0)?);
        join(&mut self.links, version.0, older);
        Ok(())
    }

    /// Brings a version of the key to the front of the others, which stay in their order. It takes
    /// no memory and no room, and changes nothing where the version is the newest already.
    pub fn bring_to_front(&mut self, key: RowKey, version: VersionNo)
        requires { IsTrue (is_among version.0 (numbers_of self.old.versions key)) }
        ensures front { self.new.versions ≡ with_numbers self.old.versions key
            (version.0 ∷ without_number version.0 (numbers_of self.old.versions key)) }
        ensures room { self.new.room ≡ self.old.room }
    {
        if self.links[version.index()].newer == NONE {
            return;
        }
        unlink(&mut self.links, version.0);
        let newest = or_none(self.heads.set(key, version.0));
        join(&mut self.links, version.0, newest);
    }

    /// Removes a version of the key. It takes no memory and no room, and gives none back.
    pub fn remove(&mut self, key: RowKey, version: VersionNo)
        requires { IsTrue (is_among version.0 (numbers_of self.old.versions key)) }
        ensures gone { self.new.versions ≡ with_numbers self.old.versions key
            (without_number version.0 (numbers_of self.old.versions key)) }
        ensures room { self.new.room ≡ self.old.room }
    {
        let gone = self.links[version.index()];
        behead(&mut self.heads, key, gone);
        unlink(&mut self.links, version.0);
    }
}

// Gives a key another newest number, or none, where what goes was its newest.
fn behead(heads: &mut Heads, key: RowKey, gone: Link)
    requires { IsSome (finite_map.get heads.old.numbers key) }
    ensures head { heads.new.numbers ≡ beheaded heads.old.numbers key gone }
    ensures room { heads.new.room ≡ heads.old.room }
{
    if gone.newer != NONE {
        return;
    }
    if gone.older == NONE {
        heads.remove(key);
    } else {
        heads.set(key, gone.older);
    }
}
