ghost use Rattle.std.specs.Prelude.{◌≡◌, ◌<◌, ◌≤◌, ◌↔◌, ◌++◌, ◌∷◌, [], cond, length};
ghost use Rattle.std.specs.Prelude.{IsTrue, IsSome, IfSome, OnSome, IfNone, IfOk, OnErr, None, Some};
ghost use Rattle.std.specs.List.{HoldsAt};
ghost use Rattle.std.specs.FinMap.{find};
ghost use Rattle.std.specs.Ordering.{is_lt};
ghost use Rattle.mvo_types.specs.Keys.{key_cmp};
ghost use Rattle.mvo_places.specs.declared.fixed_key.TheConstants.{GONE};
ghost use Rattle.mvo_places.specs.Falling.{MayStandLast, Falls};
ghost use Rattle.mvo_places.specs.Fixed.{with_number};

use crate::fixed_key::{FixedKey, GONE};
use mvo_types::{MAX_TABLE, RowKey};
use std::alloc::{AllocError, Global};
use std::marker::Model;

// Whether the key is below the other.
fn is_below(key: RowKey, other: RowKey) -> bool
    ensures { result ≡ is_lt (key_cmp key other) }
{
    key < other
}

/// Keys that were there at an opening, each below the one before it, with their numbers. No key
/// comes or goes, but a number may. Contracts see their list.
///
/// A key takes 13 bytes. A search takes as many steps as the count of keys has bits.
#[derive(Drop)]
pub struct FixedKeys {
    keys: Vec<FixedKey>,
}

impl Model for FixedKeys {
    ghost use Rattle.mvo_places.specs.Falling.{Falls};
    ghost use Rattle.mvo_places.specs.Fixed.{Numbers, coded_numbers};

    ghost Value = { Numbers };

    ghost coded = { coded_numbers };

    ghost view = { λ s. s.keys.items };

    ghost invariant = { λ s. Falls s.keys.items };
}

impl FixedKeys {
    /// No keys. It takes no memory.
    pub fn new(alloc: Global) -> FixedKeys
        ensures { result ≡ [] }
    {
        FixedKeys {
            keys: Vec::new(alloc),
        }
    }

    /// No keys, and memory for so many.
    pub fn with_room(alloc: Global, count: usize) -> Result<FixedKeys, AllocError>
        ensures { IfOk result (λ fixed. fixed ≡ []) }
    {
        Ok(FixedKeys {
            keys: Vec::with_capacity(alloc, count)?,
        })
    }

    // Whether the key may stand behind the others.
    fn may_follow(&self, key: RowKey) -> bool
        ensures { IsTrue result ↔ MayStandLast self.now key }
    {
        if key.table > MAX_TABLE {
            return false;
        }
        match self.keys.last() {
            Some(last) => is_below(key, last.key()),
            None => true,
        }
    }

    /// Puts a key with its number behind the others, where it may stand there, and answers that.
    pub fn push(&mut self, key: RowKey, number: u32) -> Result<bool, AllocError>
        ensures answer { IfOk result (λ pushed. IsTrue pushed ↔ MayStandLast self.old key) }
        ensures ok { IfOk result (λ pushed.
            self.new ≡ cond pushed (self.old ++ (key, Some number) ∷ []) self.old) }
        ensures err { OnErr result (self.new ≡ self.old) }
        ensures falls { Falls self.new }
    {
        if !self.may_follow(key) {
            return Ok(false);
        }
        self.keys.push(FixedKey::new(key, Some(number)))?;
        Ok(true)
    }

    // Where the key stands.
    fn find(&self, key: RowKey) -> Option<usize>
        ensures within { IfSome result (λ at. at < length self.now) }
        ensures at { IfSome result (λ at. HoldsAt (λ fixed. fixed.0 ≡ key) self.now at) }
        ensures table { OnSome result (key.table < GONE) }
        ensures nowhere { IfNone result (find key_cmp key self.now ≡ None) }
    {
        let at = self
            .keys
            .partition_point(|fixed| is_below(key, fixed.key()));
        if at < self.keys.len() && self.keys[at].key() == key {
            return Some(at);
        }
        None
    }

    /// The number of a key, or none where it has none; and nothing where it doesn't stand here.
    pub fn get(&self, key: RowKey) -> Option<Option<u32>>
        ensures { result ≡ find key_cmp key self.now }
    {
        match self.find(key) {
            Some(at) => Some(self.keys[at].number()),
            None => None,
        }
    }

    /// Gives the key the number, or none, where it stands here, and answers whether it does.
    pub fn set(&mut self, key: RowKey, number: Option<u32>) -> bool
        ensures stands { IsTrue result ↔ IsSome (find key_cmp key self.old) }
        ensures set { self.new ≡ with_number self.old key number }
    {
        let Some(at) = self.find(key) else {
            return false;
        };
        self.keys[at] = FixedKey::new(key, number);
        true
    }
}
