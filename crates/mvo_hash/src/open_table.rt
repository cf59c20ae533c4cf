ghost use Rattle.std.specs.Prelude.{◌≡◌, ◌<◌, ◌≤◌, ◌+◌, OnOk, OnErr, OnSome, IsSome, IfNone, IfOk, None};
ghost use Rattle.std.specs.FinMap as map;
ghost use Rattle.mvo_hash.specs.Table.{no_keys, IsHash};

use crate::probe::{find, free, steps};
use crate::seeds::{Seeds, home};
use crate::slot::Slot;
use mvo_types::RowKey;
use std::alloc::{AllocError, Global};
use std::marker::Model;
use std::mem::size_of;

const LEAST_ROOM: usize = 8;

/// One number for each key, in one open table of slots of 16 bytes. Contracts see a finite map, the
/// room, which is how many more keys can be put before every key is moved to a larger table, and
/// the seeds of the hashes.
///
/// A search begins at the key's home and goes on to the first slot that was never used; behind the
/// last slot it goes on at the first one. At most two thirds of the slots are ever used, those of
/// removed keys among them. The homes come from a seed, so that who chooses the keys without
/// knowing it can't make them meet.
///
/// A move to another table frees the slots of removed keys, and takes a larger one only where the
/// keys are too many, so that keys that come and go don't take ever more memory.
#[derive(Drop)]
pub struct OpenTable {
    seeds: Seeds,
    most: usize,
    used: usize,
    keys: usize,
    slots: Vec<Slot>,
}

// One line of the cache, which a call reads before the slots.
const _: () = prove!(size_of::<OpenTable>() == 64);

impl Model for OpenTable {
    ghost use Rattle.mvo_hash.specs.Table.{Table, coded_table};

    ghost Value = { Table };

    ghost coded = { coded_table };

    ghost use Rattle.mvo_hash.specs.Table.{table_of, IsHeads};

    ghost view = { λ t. table_of t.seeds t.most t.used t.slots.items };

    ghost invariant = { λ t.
        IsHeads t.seeds.first t.seeds.second t.most t.used t.keys t.slots.items };
}

impl OpenTable {
    /// No keys, and no room. It takes no memory. The seed is one that who chooses the keys can't
    /// know.
    pub fn new(alloc: Global, seed: u64) -> OpenTable
        ensures numbers { result.numbers ≡ map.empty }
        ensures room { result.room ≡ 0 }
    {
        OpenTable::with_seeds(alloc, Seeds::new(seed))
    }

    // No keys, and no room.
    pub(crate) fn with_seeds(alloc: Global, seeds: Seeds) -> OpenTable
        ensures { result ≡ no_keys seeds 0 }
    {
        OpenTable {
            seeds,
            most: 0,
            used: 0,
            keys: 0,
            slots: Vec::new(alloc),
        }
    }

    /// How many more keys can be put before every key is moved.
    pub fn room(&self) -> usize
        ensures { result ≡ self.now.room }
    {
        self.most - self.used
    }

    fn hash(&self, key: RowKey) -> u64
        ensures { IsHash self.now key result }
    {
        self.seeds.hash(key)
    }

    /// The number of a key.
    pub fn get(&self, key: RowKey) -> Option<u32>
        ensures { result ≡ map.get self.now.numbers key }
    {
        self.get_by_hash(key, self.hash(key))
    }

    #[inline(always)]
    pub(crate) fn get_by_hash(&self, key: RowKey, hash: u64) -> Option<u32>
        requires { IsHash self.now key hash }
        ensures { result ≡ map.get self.now.numbers key }
    {
        let home = home(hash, self.slots.len());
        match find(&self.slots, home, key) {
            Some(at) => Some(self.slots[at].number),
            None => None,
        }
    }

    // How many slots a search for the key goes over before the one where it ends.
    pub(crate) fn steps_by_hash(&self, key: RowKey, hash: u64) -> usize {
        steps(&self.slots, home(hash, self.slots.len()), key)
    }

    // Gives the key another number, and answers the one that it had. It takes no memory and no
    // room; a key that isn't there stays away.
    pub(crate) fn set_by_hash(&mut self, key: RowKey, hash: u64, number: u32) -> Option<u32>
        requires { IsHash self.old key hash }
        ensures before { result ≡ map.get self.old.numbers key }
        ensures set { OnSome result (self.new.numbers ≡ map.insert self.old.numbers key number) }
        ensures absent { IfNone result (self.new.numbers ≡ self.old.numbers) }
        ensures room { self.new.room ≡ self.old.room }
        ensures seeds { self.new.seeds ≡ self.old.seeds }
    {
        let home = home(hash, self.slots.len());
        let Some(at) = find(&self.slots, home, key) else {
            return None;
        };
        let before = self.slots[at].number;
        self.slots[at] = Slot::live(key, number);
        Some(before)
    }

    /// Removes the key, and answers its number. It takes no memory, and gives no room back.
    pub fn remove(&mut self, key: RowKey) -> Option<u32>
        ensures before { result ≡ map.get self.old.numbers key }
        ensures gone { self.new.numbers ≡ map.remove self.old.numbers key }
        ensures room { self.new.room ≡ self.old.room }
    {
        let hash = self.hash(key);
        self.remove_by_hash(key, hash)
    }

    pub(crate) fn remove_by_hash(&mut self, key: RowKey, hash: u64) -> Option<u32>
        requires { IsHash self.old key hash }
        ensures before { result ≡ map.get self.old.numbers key }
        ensures gone { self.new.numbers ≡ map.remove self.old.numbers key }
        ensures room { self.new.room ≡ self.old.room }
        ensures seeds { self.new.seeds ≡ self.old.seeds }
    {
        let home = home(hash, self.slots.len());
        let Some(at) = find(&self.slots, home, key) else {
            return None;
        };
        let number = self.slots[at].number;
        self.slots[at] = Slot::left();
        self.keys -= 1;
        Some(number)
    }

    // Puts a key that isn't there at the first free slot from its home.
    fn place(&mut self, key: RowKey, hash: u64, number: u32)
        requires hash { IsHash self.old key hash }
        requires new { map.get self.old.numbers key ≡ None }
        requires room { 0 < self.old.room }
        ensures numbers { self.new.numbers ≡ map.insert self.old.numbers key number }
        ensures room { self.old.room ≤ self.new.room + 1 }
        ensures seeds { self.new.seeds ≡ self.old.seeds }
    {
        let home = home(hash, self.slots.len());
        let at = free(&self.slots, home);
        self.keys += 1;
        if self.slots[at].is_empty() {
            self.used += 1;
        }
        self.slots[at] = Slot::live(key, number);
    }

    // No keys, and room for so many.
    fn with_room(alloc: Global, seeds: Seeds, keys: usize) -> Result<OpenTable, AllocError>
        ensures { IfOk result (λ t. t ≡ no_keys seeds keys) }
    {
        let homes = keys.checked_add(keys / 2).ok_or(AllocError)?;
        let mut slots = Vec::with_capacity(alloc, homes)?;
        slots.resize(homes, Slot::empty())?;
        Ok(OpenTable {
            seeds,
            most: keys,
            used: 0,
            keys: 0,
            slots,
        })
    }

    // The same keys in another table, with room for so many more, and so much at least that the
    // time of all moves stays in proportion to the keys that were put.
    pub(crate) fn moved(&self, keys: usize) -> Result<OpenTable, AllocError>
        ensures numbers { IfOk result (λ t. t.numbers ≡ self.now.numbers) }
        ensures room { IfOk result (λ t. keys ≤ t.room) }
        ensures seeds { IfOk result (λ t. t.seeds ≡ self.now.seeds) }
    {
        let more = keys.max(self.keys).max(LEAST_ROOM);
        let enough = self.keys.checked_add(more).ok_or(AllocError)?;
        let all = enough.max(self.most);
        let mut larger = OpenTable::with_room(*self.slots.allocator(), self.seeds, all)?;
        for slot in &self.slots {
            if slot.is_live() {
                let key = slot.row_key();
                larger.place(key, self.seeds.hash(key), slot.number);
            }
        }
        Ok(larger)
    }

    /// Gives the key the number, and answers the one that it had. A key that is there takes no
    /// memory and no room. One that isn't takes room for one key at most; where there is none, it
    /// takes the time of moving every key.
    pub fn put(&mut self, key: RowKey, number: u32) -> Result<Option<u32>, AllocError>
        ensures ok { OnOk result (self.new.numbers ≡ map.insert self.old.numbers key number) }
        ensures before { IfOk result (λ r. r ≡ map.get self.old.numbers key) }
        ensures room { self.old.room ≤ self.new.room + 1 }
        ensures again { IsSome (map.get self.old.numbers key) → self.new.room ≡ self.old.room }
        ensures err { OnErr result (self.new ≡ self.old) }
        ensures absent { OnErr result (map.get self.old.numbers key ≡ None) }
        ensures full { OnErr result (self.old.room ≡ 0) }
    {
        let hash = self.hash(key);
        self.put_by_hash(key, hash, number)
    }

    pub(crate) fn put_by_hash(
        &mut self,
        key: RowKey,
        hash: u64,
        number: u32,
    ) -> Result<Option<u32>, AllocError>
        requires { IsHash self.old key hash }
        ensures ok { OnOk result (self.new.numbers ≡ map.insert self.old.numbers key number) }
        ensures before { IfOk result (λ r. r ≡ map.get self.old.numbers key) }
        ensures room { self.old.room ≤ self.new.room + 1 }
        ensures again { IsSome (map.get self.old.numbers key) → self.new.room ≡ self.old.room }
        ensures err { OnErr result (self.new ≡ self.old) }
        ensures absent { OnErr result (map.get self.old.numbers key ≡ None) }
        ensures full { OnErr result (self.old.room ≡ 0) }
        ensures seeds { self.new.seeds ≡ self.old.seeds }
    {
        if let Some(before) = self.set_by_hash(key, hash, number) {
            return Ok(Some(before));
        }
        if self.room() > 0 {
            self.place(key, hash, number);
            return Ok(None);
        }
        let mut larger = self.moved(1)?;
        larger.place(key, hash, number);
        *self = larger;
        Ok(None)
    }

    /// Makes room for so many more keys, so that no key is moved while they are put. Where the room
    /// is short it takes the time of moving every key, and 24 bytes or more for each of them and of
    /// those that are to come.
    pub fn reserve(&mut self, keys: usize) -> Result<(), AllocError>
        ensures numbers { self.new.numbers ≡ self.old.numbers }
        ensures ok { OnOk result (keys ≤ self.new.room) }
        ensures more { self.old.room ≤ self.new.room }
        ensures err { OnErr result (self.new ≡ self.old) }
        ensures short { OnErr result (self.old.room < keys) }
    {
        if self.room() < keys {
            *self = self.moved(keys)?;
        }
        Ok(())
    }
}
