ghost use Rattle.std.specs.Prelude.{◌≡◌, ◌<◌, ◌≤◌, ◌+◌, ◌*◌, OnOk, OnErr, OnSome, IsSome, IfNone, IfOk, None};
ghost use Rattle.std.specs.FinMap as map;
ghost use Rattle.mvo_hash.specs.Home.{shard_count};

use crate::open_table::OpenTable;
use crate::seeds::Seeds;
use crate::shards::{SHARDS, least_room, make_shards, moved, shard_of};
use mvo_types::RowKey;
use std::alloc::{AllocError, Global};
use std::marker::Model;

// What `reserve` adds to the share of each table, since no hash shares keys out evenly: an eighth
// of it, and so many more.
const SPARE: usize = 16;

/// One number for each key. Contracts see a finite map, and the room: how many more keys can be put
/// before some key is moved, whichever keys they are.
///
/// The keys are shared out by hash among 256 open tables, each of which grows alone: where its room
/// is used up, its keys move to a larger one, which are a 256th part of all, more or less. So no
/// call but `reserve` takes the time of moving every key. One hash of a key gives its table and its
/// home there, and is all that a call computes, but for those of keys that it moves.
///
/// The hashes come from a seed, so that who chooses the keys without knowing it can't make them
/// meet in one table, or in one home.
#[derive(Drop)]
pub struct Heads {
    seeds: Seeds,
    shards: Vec<OpenTable>,
}

impl Model for Heads {
    ghost use Rattle.mvo_hash.specs.Table.{Table, coded_table};

    ghost Value = { Table };

    ghost coded = { coded_table };

    ghost use Rattle.mvo_hash.specs.Shards.{heads_of, IsSharded};

    ghost view = { λ t. heads_of t.seeds t.shards.items };

    ghost invariant = { λ t. IsSharded t.seeds t.shards.items };
}

impl Heads {
    /// No keys, and no room. It takes no memory. The seed is one that who chooses the keys can't
    /// know.
    pub fn new(alloc: Global, seed: u64) -> Heads
        ensures numbers { result.numbers ≡ map.empty }
        ensures room { result.room ≡ 0 }
    {
        Heads {
            seeds: Seeds::new(seed),
            shards: Vec::new(alloc),
        }
    }

    /// How many more keys can be put before some key is moved. It takes a step for each table.
    pub fn room(&self) -> usize
        ensures { result ≡ self.now.room }
    {
        least_room(&self.shards)
    }

    /// The number of a key.
    #[inline(always)]
    pub fn get(&self, key: RowKey) -> Option<u32>
        ensures { result ≡ map.get self.now.numbers key }
    {
        let hash = self.seeds.hash(key);
        let at = shard_of(hash);
        if at >= self.shards.len() {
            return None;
        }
        self.shards[at].get_by_hash(key, hash)
    }

    /// How many slots a search for the key goes over before the one where it ends, which the time
    /// of each call goes by. It is for measurements: no clause says what it answers, since
    /// contracts don't see where keys stand.
    pub fn steps(&self, key: RowKey) -> usize {
        let hash = self.seeds.hash(key);
        let at = shard_of(hash);
        if at >= self.shards.len() {
            return 0;
        }
        self.shards[at].steps_by_hash(key, hash)
    }

    /// Gives the key another number, and answers the one that it had. It takes no memory and no
    /// room; a key that isn't there stays away.
    pub fn set(&mut self, key: RowKey, number: u32) -> Option<u32>
        ensures before { result ≡ map.get self.old.numbers key }
        ensures set { OnSome result (self.new.numbers ≡ map.insert self.old.numbers key number) }
        ensures absent { IfNone result (self.new.numbers ≡ self.old.numbers) }
        ensures room { self.new.room ≡ self.old.room }
    {
        let hash = self.seeds.hash(key);
        let at = shard_of(hash);
        if at >= self.shards.len() {
            return None;
        }
        self.shards[at].set_by_hash(key, hash, number)
    }

    /// Removes the key, and answers its number. It takes no memory, and gives no room back.
    pub fn remove(&mut self, key: RowKey) -> Option<u32>
        ensures before { result ≡ map.get self.old.numbers key }
        ensures gone { self.new.numbers ≡ map.remove self.old.numbers key }
        ensures room { self.new.room ≡ self.old.room }
    {
        let hash = self.seeds.hash(key);
        let at = shard_of(hash);
        if at >= self.shards.len() {
            return None;
        }
        self.shards[at].remove_by_hash(key, hash)
    }

    /// Gives the key the number, and answers the one that it had. A key that is there takes no
    /// memory and no room. One that isn't takes room for one key at most; where its table has none,
    /// it takes the time of moving the keys of that table.
    pub fn put(&mut self, key: RowKey, number: u32) -> Result<Option<u32>, AllocError>
        ensures ok { OnOk result (self.new.numbers ≡ map.insert self.old.numbers key number) }
        ensures before { IfOk result (λ r. r ≡ map.get self.old.numbers key) }
        ensures room { self.old.room ≤ self.new.room + 1 }
        ensures again { IsSome (map.get self.old.numbers key) → self.new.room ≡ self.old.room }
        ensures err { OnErr result (self.new ≡ self.old) }
        ensures absent { OnErr result (map.get self.old.numbers key ≡ None) }
        ensures full { OnErr result (self.old.room ≡ 0) }
    {
        make_shards(&mut self.shards, self.seeds)?;
        let hash = self.seeds.hash(key);
        self.shards[shard_of(hash)].put_by_hash(key, hash, number)
    }

    /// Makes room in each table for a 256th part of so many more keys, and somewhat more, so that
    /// few keys or none are moved while keys are put that the hash shares out evenly. Where the
    /// room is short it takes the time of moving every key, so it is for a load. It takes 24 bytes
    /// or more for each key and for each that is to come.
    pub fn reserve(&mut self, keys: usize) -> Result<(), AllocError>
        ensures numbers { self.new.numbers ≡ self.old.numbers }
        ensures ok { OnOk result (keys ≤ shard_count * self.new.room) }
        ensures more { self.old.room ≤ self.new.room }
        ensures err { OnErr result (self.new ≡ self.old) }
        ensures short { OnErr result (self.old.room < keys) }
    {
        let share = keys.div_ceil(SHARDS);
        if self.room() >= share {
            return Ok(());
        }
        make_shards(&mut self.shards, self.seeds)?;
        let alloc = *self.shards.allocator();
        self.shards = moved(alloc, &self.shards, share + share / 8 + SPARE)?;
        Ok(())
    }
}
