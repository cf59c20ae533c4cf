ghost use Rattle.std.specs.Prelude.{◌≡◌, ◌<◌, ◌≤◌, ◌+◌, [], not, nat_lt, OnOk, OnErr, length, slice_get};
ghost use Rattle.indexmap.specs.IndexSet.{spare};
ghost use Rattle.mvo_types.specs.Entries.{has_entry, with_entry};
ghost use Rattle.mvo_validate.specs.Noted.{HasNoKeyAbove, key_above, with_key};

use indexmap::IndexSet;
use mvo_types::Entry;
use std::alloc::{AllocError, Global};
use std::marker::Model;

// So many are sought one after another, which takes less than a set does.
const FEW: usize = 16;

// The memory of more entries than this isn't kept for another transaction.
const KEPT: usize = 128;

/// The entries of a transaction, in the order in which they were first noted, without repeats.
/// Contracts see that list, and the room: at least so many more can be noted without memory.
#[derive(Drop)]
pub struct Entries {
    // The first ones.
    few: Vec<Entry>,
    // No key among them has a number above this, so a key that has is sought no further there.
    greatest: u64,
    // Those behind them.
    set: IndexSet<Entry>,
}

impl Model for Entries {
    ghost use Rattle.std.specs.Prelude.{◌++◌, vec_len, vec_capacity};
    ghost use Rattle.indexmap.specs.IndexSet.{spare};
    ghost use Rattle.mvo_validate.specs.Noted.{EntriesData, FewComeFirst, HasNoKeyAbove};
    ghost use Rattle.mvo_validate.specs.Noted.{entry_room};

    ghost Value = { EntriesData };

    ghost view = { λ e. record {
      noted = e.few.items ++ e.set.keys;
      room = entry_room (vec_len e.few) (vec_capacity e.few) (spare e.set);
    } };

    ghost invariant = { λ e. FewComeFirst e.few.items e.set.keys ×
        HasNoKeyAbove e.greatest e.few.items };
}

impl Entries {
    /// No entries. It takes no memory.
    pub fn new(alloc: Global) -> Entries
        ensures { result.noted ≡ [] }
    {
        Entries {
            few: Vec::new(alloc),
            greatest: 0,
            set: IndexSet::new(alloc),
        }
    }

    /// How many there are.
    pub fn len(&self) -> usize
        ensures { result ≡ length self.now.noted }
    {
        self.few.len() + self.set.len()
    }

    /// Whether the entry is among them.
    pub fn contains(&self, entry: Entry) -> bool
        ensures { result ≡ has_entry self.now.noted entry }
    {
        is_among(&self.few, entry) || self.set.contains(&entry)
    }

    /// Whether one more can be noted without memory.
    #[inline(always)]
    pub fn has_room(&self) -> bool
        ensures { result ≡ nat_lt 0 self.now.room }
    {
        if self.few.len() < FEW {
            return self.few.len() < self.few.capacity();
        }
        self.set.len() < self.set.capacity()
    }

    /// Sees to it that one more can be noted. It takes memory where there is no room, and alone
    /// does.
    #[inline(always)]
    pub fn make_room(&mut self) -> Result<(), AllocError>
        ensures same { self.new.noted ≡ self.old.noted }
        ensures ok { OnOk result (0 < self.new.room) }
        ensures err { OnErr result (self.old.room ≡ 0) }
        ensures more { self.old.room ≤ self.new.room }
    {
        if self.few.len() < FEW {
            return self.few.reserve(1);
        }
        self.set.reserve(1)
    }

    /// Notes an entry, and answers whether it is a new one. One that is there isn't added again.
    #[inline(always)]
    pub fn note(&mut self, entry: Entry) -> bool
        requires { 0 < self.old.room }
        ensures noted { self.new.noted ≡ with_entry self.old.noted entry }
        ensures fresh { result ≡ not (has_entry self.old.noted entry) }
        ensures room { self.old.room ≤ self.new.room + 1 }
    {
        if is_among_few(&self.few, self.greatest, entry) {
            return false;
        }
        if self.few.len() < FEW {
            self.greatest = greatest_with(self.greatest, entry);
            self.few.push(entry).unwrap();
            return true;
        }
        note_in(&mut self.set, entry)
    }

    /// Forgets all entries. The memory of few is kept for those of another transaction.
    #[inline(always)]
    pub fn clear(&mut self)
        ensures { self.new.noted ≡ [] }
    {
        self.few.clear();
        self.greatest = 0;
        if self.set.len() > KEPT {
            self.set = IndexSet::new(*self.set.allocator());
        } else if !self.set.is_empty() {
            self.set.clear();
        }
    }

    /// The entry at a place, from 0 on.
    pub fn at(&self, place: usize) -> Option<Entry>
        ensures { result ≡ slice_get self.now.noted place }
    {
        match self.few.get(place) {
            Some(entry) => Some(*entry),
            None => self.set.get_index(place.saturating_sub(FEW)).copied(),
        }
    }
}

/// Whether the entry is among these.
#[inline(always)]
fn is_among(few: &[Entry], entry: Entry) -> bool
    ensures { result ≡ has_entry few.now entry }
{
    few.contains(&entry)
}

/// Whether the entry is among these, of whose keys none has a number above the greatest.
#[inline(always)]
fn is_among_few(few: &[Entry], greatest: u64, entry: Entry) -> bool
    requires { HasNoKeyAbove greatest few.now }
    ensures { result ≡ has_entry few.now entry }
{
    if is_key_above(greatest, entry) {
        return false;
    }
    is_among(few, entry)
}

/// Whether the entry is a key with a number above this.
#[inline(always)]
fn is_key_above(number: u64, entry: Entry) -> bool
    ensures { result ≡ key_above number entry }
{
    match entry {
        Entry::Key(key) => number < key.key,
        Entry::Range(_, _, _) => false,
    }
}

/// The greatest number, where the entry comes to those that had this one.
#[inline(always)]
fn greatest_with(greatest: u64, entry: Entry) -> u64
    ensures { result ≡ with_key greatest entry }
{
    match entry {
        Entry::Key(key) => greatest.max(key.key),
        Entry::Range(_, _, _) => greatest,
    }
}

/// Notes an entry in a set that has room, and answers whether it is a new one.
fn note_in(set: &mut IndexSet<Entry>, entry: Entry) -> bool
    requires { 0 < spare set.old }
    ensures noted { set.new.keys ≡ with_entry set.old.keys entry }
    ensures fresh { result ≡ not (has_entry set.old.keys entry) }
    ensures room { spare set.old ≤ spare set.new + 1 }
{
    set.insert(entry).unwrap()
}
