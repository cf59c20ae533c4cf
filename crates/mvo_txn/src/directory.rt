ghost use Rattle.std.specs.Prelude.{◌≡◌, ◌%◌, ℕ, true, false, Some, None, IfOk, IfSome, OnOk, OnErr};
ghost use Rattle.std.specs.Bool.{OnTrue, OnFalse};
ghost use Rattle.std.specs.Option.{IfNone};
ghost use Rattle.slab.specs.Slab.{get};
ghost use Rattle.mvo_txn.specs.Directory.{is_of, has_place, hinted, displaced, Knows, Hints, Notes, KnowsAlike, Forgets};

use crate::chair::Chair;
use slab::Slab;
use std::alloc::{AllocError, Global};
use std::collections::HashMap;

// An id's place is its rest by this. Ids are drawn from a clock, so it is seldom another's.
const PLACES: u64 = 4_096;

/// The numbers of the seats by id.
#[derive(Drop)]
pub(crate) struct Directory {
    // By place, the seat of the last id there that found the place free.
    hints: Box<[u16; PLACES as usize]>,
    // The seats of the other ids.
    displaced: HashMap<u64, usize>,
}

impl Directory {
    /// It knows nobody.
    pub(crate) fn new(alloc: Global) -> Result<Directory, AllocError> {
        Ok(Directory {
            hints: Box::new(alloc, [0u16; PLACES as usize])?,
            displaced: HashMap::new(alloc),
        })
    }

    /// The number of an id's seat, which is looked for at this number first.
    #[inline(always)]
    pub(crate) fn find<P>(&self, chairs: &Slab<Chair<P>>, id: u64, first: usize) -> Option<usize>
        ensures found { IfSome result (λ n. is_of (get chairs.now n) id ≡ true) }
        ensures none { IfNone result ((n : ℕ) → Knows self.now id n
            → is_of (get chairs.now n) id ≡ false) }
    {
        if is_of(chairs, first, id) {
            return Some(first);
        }
        self.search(chairs, id)
    }

    /// The same, wherever the seat is.
    #[inline(never)]
    pub(crate) fn search<P>(&self, chairs: &Slab<Chair<P>>, id: u64) -> Option<usize>
        ensures found { IfSome result (λ n. is_of (get chairs.now n) id ≡ true) }
        ensures none { IfNone result ((n : ℕ) → Knows self.now id n
            → is_of (get chairs.now n) id ≡ false) }
    {
        let hint = self.hinted(id);
        if is_of(chairs, hint, id) {
            return Some(hint);
        }
        self.displaced_seat(chairs, id)
    }

    // The number of the seat of an id that stands at no place.
    fn displaced_seat<P>(&self, chairs: &Slab<Chair<P>>, id: u64) -> Option<usize>
        ensures found { IfSome result (λ n. is_of (get chairs.now n) id ≡ true) }
        ensures none { IfNone result ((n : ℕ) → displaced self.now id ≡ Some n
            → is_of (get chairs.now n) id ≡ false) }
    {
        match self.displaced.get(&id) {
            Some(number) if is_of(chairs, *number, id) => Some(*number),
            _ => None,
        }
    }

    /// Notes the number of a new id's seat.
    pub(crate) fn note<P>(
        &mut self,
        chairs: &Slab<Chair<P>>,
        id: u64,
        number: usize,
    ) -> Result<(), AllocError>
        ensures ok { OnOk result (Notes self.old self.new chairs.now id number) }
        ensures err { OnErr result (KnowsAlike self.old self.new) }
    {
        if !has_place(chairs, self.hinted(id), id % PLACES) {
            if self.hint(id, number) {
                return Ok(());
            }
        }
        self.displaced.insert(id, number)?;
        Ok(())
    }

    /// Forgets an id: no memory is kept for it.
    pub(crate) fn forget(&mut self, id: u64)
        ensures { Forgets self.old self.new id }
    {
        if !self.displaced.is_empty() {
            self.displaced.remove(&id);
        }
    }

    /// Whether an id is listed whose place is another's.
    #[inline(always)]
    pub(crate) fn has_displaced(&self) -> bool
        ensures { OnFalse result ((id : ℕ) → displaced self.now id ≡ None) }
    {
        self.displaced.len() > 0
    }

    /// The seat that stands at the id's place.
    #[inline(always)]
    pub(crate) fn hinted(&self, id: u64) -> usize
        ensures { result ≡ hinted self.now id }
    {
        self.hints[(id % PLACES) as usize] as usize
    }

    // Puts the number at the id's place, if it is one to put there.
    fn hint(&mut self, id: u64, number: usize) -> bool
        ensures yes { OnTrue result (Hints self.old self.new id number) }
        ensures no { OnFalse result (self.new ≡ self.old) }
    {
        if number >= u16::MAX as usize {
            return false;
        }
        self.hints[(id % PLACES) as usize] = number as u16;
        true
    }
}

// Whether the chair is the id's.
#[inline(always)]
fn is_of<P>(chairs: &Slab<Chair<P>>, number: usize, id: u64) -> bool
    ensures { result ≡ is_of (get chairs.now number) id }
{
    match chairs.get(number) {
        Some(chair) => chair.id == id,
        None => false,
    }
}

// Whether the chair is an id's with this place.
fn has_place<P>(chairs: &Slab<Chair<P>>, number: usize, place: u64) -> bool
    ensures { result ≡ has_place (get chairs.now number) place }
{
    match chairs.get(number) {
        Some(chair) => chair.id % PLACES == place,
        None => false,
    }
}
