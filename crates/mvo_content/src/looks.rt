ghost use Rattle.std.specs.Prelude.{◌≡◌, ◌<◌, ◌≤◌, ◌+◌, ◌++◌, ◌∷◌, [], None, not, nat_lt, is_some};
ghost use Rattle.std.specs.Prelude.{IfSome, OnOk, OnErr, option_copied, length, slice_get};
ghost use Rattle.std.specs.Map.Iter.{deref_pair};
ghost use Rattle.std.specs.Option.{option_map};
ghost use Rattle.indexmap.specs.IndexMap.{spare};
ghost use Rattle.mvo_types.specs.Entries.{has_entry};
ghost use Rattle.mvo_shared.specs.Kept.{entries_in, rows_kept, with_looked};
ghost use Rattle.mvo_content.specs.Shown.{rows_in};
ghost use Rattle.mvo_content.specs.Looks.{look_at, look_of};

use crate::rows_shown::RowsShown;
use indexmap::IndexMap;
use mvo_types::Entry;
use std::alloc::{AllocError, Global};
use std::marker::Model;

// So many are sought one after another, which takes less than a map does.
const FEW: usize = 16;

// The memory of more looks than this isn't kept for another transaction.
const KEPT: usize = 128;

/// The entries of a transaction, in the order of their first use, each once and with the rows that
/// others showed there then. Contracts see that list, and the room: at least so many more can be
/// kept without memory.
#[derive(Drop)]
pub struct Looks {
    // The first ones.
    few: Vec<(Entry, RowsShown)>,
    // Those behind them.
    behind: IndexMap<Entry, RowsShown>,
}

impl Model for Looks {
    ghost use Rattle.std.specs.Prelude.{◌++◌, map, vec_len, vec_capacity};
    ghost use Rattle.indexmap.specs.IndexMap.{spare};
    ghost use Rattle.mvo_content.specs.Looks.{LooksData, FewLooksFirst, look_of, look_room};

    ghost Value = { LooksData };

    ghost view = { λ l. record {
      looked = map look_of (l.few.items ++ l.behind.entries);
      room = look_room (vec_len l.few) (vec_capacity l.few) (spare l.behind);
    } };

    ghost invariant = { λ l. FewLooksFirst l.few.items l.behind.entries };
}

impl Looks {
    /// No looks. It takes no memory.
    pub fn new(alloc: Global) -> Looks
        ensures { result.looked ≡ [] }
    {
        Looks {
            few: Vec::new(alloc),
            behind: IndexMap::new(alloc),
        }
    }

    /// How many there are.
    pub fn len(&self) -> usize
        ensures { result ≡ length self.now.looked }
    {
        self.few.len() + self.behind.len()
    }

    /// The entry at a place, from 0 on, with the rows that are kept for it.
    pub fn at(&self, place: usize) -> Option<(&Entry, &RowsShown)>
        ensures { option_map look_of (option_map deref_pair result)
            ≡ slice_get self.now.looked place }
    {
        match few_at(&self.few, place) {
            Some(found) => Some(found),
            None => self.behind.get_index(place.saturating_sub(FEW)),
        }
    }

    /// The entry at a place, from 0 on.
    pub fn entry_at(&self, place: usize) -> Option<Entry>
        ensures { result ≡ slice_get (entries_in self.now.looked) place }
    {
        match self.at(place) {
            Some((entry, _)) => Some(*entry),
            None => None,
        }
    }

    /// The rows that are kept for the entry, if it is kept.
    #[inline(always)]
    pub fn rows(&self, entry: Entry) -> Option<&RowsShown>
        ensures there { is_some result ≡ has_entry (entries_in self.now.looked) entry }
        ensures rows { IfSome result (λ r. rows_in r.now ≡ rows_kept self.now.looked entry) }
    {
        match look_at(&self.few, entry) {
            Some(rows) => Some(rows),
            None => match look_behind(&self.behind, entry) {
                Some(rows) => Some(rows),
                None => None,
            },
        }
    }

    /// Whether the entry is kept.
    #[inline(always)]
    pub fn contains(&self, entry: Entry) -> bool
        ensures { result ≡ has_entry (entries_in self.now.looked) entry }
    {
        self.rows(entry).is_some()
    }

    /// Whether one more can be kept without memory.
    #[inline(always)]
    pub fn has_room(&self) -> bool
        ensures { result ≡ nat_lt 0 self.now.room }
    {
        if self.few.len() < FEW {
            return self.few.len() < self.few.capacity();
        }
        self.behind.len() < self.behind.capacity()
    }

    /// Whether some memory is kept.
    pub(crate) fn has_memory(&self) -> bool {
        self.few.capacity() > 0
    }

    /// Sees to it that one more can be kept. It takes memory where there is no room, and alone
    /// does.
    #[inline(always)]
    pub fn make_room(&mut self) -> Result<(), AllocError>
        ensures same { self.new.looked ≡ self.old.looked }
        ensures ok { OnOk result (0 < self.new.room) }
        ensures err { OnErr result (self.old.room ≡ 0) }
        ensures more { self.old.room ≤ self.new.room }
    {
        if self.few.len() < FEW {
            return self.few.reserve(1);
        }
        self.behind.reserve(1)
    }

    /// Keeps the rows that others show in an entry, and answers whether it is a new one. What is
    /// kept for one that is there stays.
    #[inline(always)]
    pub fn keep(&mut self, entry: Entry, rows: RowsShown) -> bool
        requires { 0 < self.old.room }
        ensures kept { self.new.looked ≡ with_looked self.old.looked entry (rows_in rows) }
        ensures fresh { result ≡ not (has_entry (entries_in self.old.looked) entry) }
        ensures room { self.old.room ≤ self.new.room + 1 }
    {
        if self.contains(entry) {
            return false;
        }
        if self.few.len() < FEW {
            self.few.push((entry, rows)).unwrap();
        } else {
            put_behind(&mut self.behind, entry, rows);
        }
        true
    }

    /// Forgets all looks. The memory of few is kept for those of another transaction.
    pub fn clear(&mut self)
        ensures { self.new.looked ≡ [] }
    {
        self.few.clear();
        if self.behind.len() > KEPT {
            self.behind = IndexMap::new(*self.behind.allocator());
        } else if !self.behind.is_empty() {
            self.behind.clear();
        }
    }
}

/// The look at a place of the list.
fn few_at(few: &[(Entry, RowsShown)], place: usize) -> Option<(&Entry, &RowsShown)>
    ensures { option_map deref_pair result ≡ slice_get few.now place }
{
    match few.get(place) {
        Some((entry, rows)) => Some((entry, rows)),
        None => None,
    }
}

/// The rows that are kept for the entry among these, if it is kept.
#[inline(always)]
fn look_at(few: &[(Entry, RowsShown)], entry: Entry) -> Option<&RowsShown>
    ensures { option_copied result ≡ look_at few.now entry }
{
    for (kept, rows) in few {
        if *kept == entry {
            return Some(rows);
        }
    }
    None
}

/// The same among those of a map, which mostly has none.
#[inline(always)]
fn look_behind(behind: &IndexMap<Entry, RowsShown>, entry: Entry) -> Option<&RowsShown>
    ensures { option_copied result ≡ look_at behind.now.entries entry }
{
    if behind.len() == 0 {
        return None;
    }
    look_hashed(behind, entry)
}

/// The same, by its hash.
#[inline(never)]
fn look_hashed(behind: &IndexMap<Entry, RowsShown>, entry: Entry) -> Option<&RowsShown>
    ensures { option_copied result ≡ look_at behind.now.entries entry }
{
    behind.get(&entry)
}

/// Keeps the rows of an entry that has none in a map with room.
fn put_behind(behind: &mut IndexMap<Entry, RowsShown>, entry: Entry, rows: RowsShown)
    requires room { 0 < spare behind.old }
    requires fresh { look_at behind.old.entries entry ≡ None }
    ensures kept { behind.new.entries ≡ behind.old.entries ++ (entry, rows) ∷ [] }
    ensures room { spare behind.old ≤ spare behind.new + 1 }
{
    behind.insert(entry, rows).unwrap();
}
