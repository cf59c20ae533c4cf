ghost use Rattle.std.specs.Prelude.{◌≡◌, ◌<◌, ◌≤◌, ◌^◌, ◌-◌, [], length, vec_len, vec_capacity, IsSome, IfOk, OnOk, OnErr, IfSome, Some, None, option_copied};
ghost use Rattle.mvo_chain.specs.Slots.{version_at, IsHole, hole_count, with_room, with_slot, with_change, added};

use crate::pieces::Pieces;
use crate::version::{Version, VersionNo};
use mvo_types::{Row, TxId};
use mvo_word::{Held, Word};
use std::alloc::{AllocError, Global};
use std::marker::Model;

/// As many slots as there are numbers.
const MAX_SLOTS: usize = 1 << 32;

/// Versions by number. Contracts see the list of slots, each with a version or empty.
///
/// Every call takes constant time, for no growth copies a version: that of `make_room` and `add`,
/// which alone take memory, adds a piece of 1,024 slots. There are 2^32 numbers; once all are
/// taken, room is refused as out of memory.
#[derive(Drop)]
pub struct Chains {
    slots: Pieces<Option<Version>>,
    // The empty slots, with room for all numbers, so that taking out needs no memory.
    holes: Vec<VersionNo>,
}

impl Model for Chains {
    ghost use Rattle.std.specs.Prelude.{vec_capacity};
    ghost use Rattle.mvo_chain.specs.Slots.{Slots};
    ghost use Rattle.mvo_chain.specs.Sound.{IsChainSound};

    ghost Value = { Slots };

    ghost view = { λ c. c.slots };

    ghost invariant = { λ c. IsChainSound c.slots c.holes.items (vec_capacity c.holes) };
}

// Makes room for so many numbers. A larger stack takes the place of the empty one, since a growth
// of that one might copy its room, though nothing is there.
fn widen(holes: &mut Vec<VersionNo>, count: usize) -> Result<(), AllocError>
    requires empty { vec_len holes.old ≡ 0 }
    requires small { count ≤ MAX_SLOTS }
    ensures items { holes.new.items ≡ holes.old.items }
    ensures capacity { vec_capacity holes.old ≤ vec_capacity holes.new }
    ensures ok { OnOk result (count ≤ vec_capacity holes.new) }
{
    if holes.capacity() < count {
        *holes = Vec::with_capacity(*holes.allocator(), 2 * count)?;
    }
    Ok(())
}

impl Chains {
    /// No versions.
    pub fn new(alloc: Global) -> Chains
        ensures { result ≡ [] }
    {
        Chains {
            slots: Pieces::new(alloc),
            holes: Vec::new(alloc),
        }
    }

    /// How many slots there are, the empty ones included.
    pub fn slot_count(&self) -> usize
        ensures { result ≡ length self.now }
    {
        self.slots.len()
    }

    /// How many versions there are.
    pub fn version_count(&self) -> usize
        ensures { result ≡ length self.now - hole_count self.now }
    {
        self.slot_count() - self.holes.len()
    }

    /// The version with the number, if there is one.
    pub fn get(&self, number: VersionNo) -> Option<&Version>
        ensures { option_copied result ≡ version_at self.now number }
    {
        match self.slots.get(number.index()) {
            Some(slot) => slot.as_ref(),
            None => None,
        }
    }

    /// Sees to it that a slot is empty. It takes memory where none is.
    pub fn make_room(&mut self) -> Result<(), AllocError>
        ensures ok { OnOk result (self.new ≡ with_room self.old) }
        ensures room { OnOk result (0 < hole_count self.new) }
        ensures err { OnErr result (self.new ≡ self.old) }
        ensures only_where_full { OnErr result (hole_count self.old ≡ 0) }
    {
        if !self.holes.is_empty() {
            return Ok(());
        }
        let count = self.slots.len();
        if count >= MAX_SLOTS {
            return Err(AllocError);
        }
        widen(&mut self.holes, count + 1)?;
        self.slots.push(None)?;
        self.holes.push(VersionNo(count as u32))?;
        Ok(())
    }

    /// Puts a version that nobody has ended into an empty slot.
    pub fn fill(&mut self, row: Row, begin: Word) -> VersionNo
        requires { 0 < hole_count self.old }
        ensures hole { IsHole self.old result }
        ensures filled { self.new ≡ with_slot self.old result (Some (added row begin)) }
    {
        let number = self.holes.pop().unwrap();
        self.slots[number.index()] = Some(Version::added(row, begin));
        number
    }

    /// Adds a version that nobody has ended: `make_room`, and then `fill`.
    pub fn add(&mut self, row: Row, begin: Word) -> Result<VersionNo, AllocError>
        ensures hole { IfOk result (λ number. IsHole (with_room self.old) number) }
        ensures ok { IfOk result (λ number. self.new ≡
            with_slot (with_room self.old) number (Some (added row begin))) }
        ensures err { OnErr result (self.new ≡ self.old) }
        ensures only_where_full { OnErr result (hole_count self.old ≡ 0) }
    {
        if !self.holes.is_empty() {
            return Ok(self.fill(row, begin));
        }
        let count = self.slots.len();
        if count >= MAX_SLOTS {
            return Err(AllocError);
        }
        widen(&mut self.holes, count + 1)?;
        self.slots.push(Some(Version::added(row, begin)))?;
        Ok(VersionNo(count as u32))
    }

    /// Lets a transaction end the version.
    pub fn claim_end(&mut self, number: VersionNo, by: TxId)
        requires live { IsSome (version_at self.old number) }
        requires id { by.0 < 2 ^ 63 }
        ensures { self.new ≡ with_change self.old number
            (λ version. record version { end = Held.By by }) }
    {
        match &mut self.slots[number.index()] {
            Some(version) => version.end = Word::id(by),
            None => unreachable!(),
        }
    }

    /// Replaces the version's Begin.
    pub fn set_begin(&mut self, number: VersionNo, begin: Word)
        requires { IsSome (version_at self.old number) }
        ensures { self.new ≡ with_change self.old number
            (λ version. record version { begin = begin }) }
    {
        match &mut self.slots[number.index()] {
            Some(version) => version.begin = begin,
            None => unreachable!(),
        }
    }

    /// Replaces the version's End.
    pub fn set_end(&mut self, number: VersionNo, end: Word)
        requires { IsSome (version_at self.old number) }
        ensures { self.new ≡ with_change self.old number
            (λ version. record version { end = end }) }
    {
        match &mut self.slots[number.index()] {
            Some(version) => version.end = end,
            None => unreachable!(),
        }
    }

    /// Takes the version out, and gives its row back.
    pub fn take_out(&mut self, number: VersionNo) -> Row
        requires { IsSome (version_at self.old number) }
        ensures row { IfSome (version_at self.old number) (λ version. result ≡ version.row) }
        ensures emptied { self.new ≡ with_slot self.old number None }
    {
        let version = self.slots[number.index()].take().unwrap();
        let _ = self.holes.push(number);
        version.row
    }
}
