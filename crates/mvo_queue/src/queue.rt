ghost use Rattle.std.specs.Prelude.{◌≡◌, ◌+◌, ◌-◌, ◌^◌, ◌<◌, ◌≤◌, ◌++◌, ◌∷◌, []};
ghost use Rattle.std.specs.Prelude.{length, drop, take, slice_get, slice_set, IfOk, OnOk, OnErr, option_copied};
ghost use Rattle.std.specs.VecDeque.{deque_capacity};
ghost use Rattle.mvo_queue.specs.declared.place.TheConstants.{PIECE};

use crate::place::{PIECE, Place};
use std::alloc::{AllocError, Global};
use std::collections::VecDeque;
use std::marker::Model;

/// How many pieces there are at most.
const MAX_PIECES: usize = usize::MAX / PIECE;

/// A queue kept in pieces of 128 items, so that no growth copies an item. Contracts see the
/// items, the first one in front, and for how many more there is room.
pub struct Queue<T> {
    // None holds more than 128 items, and those behind the last item are empty.
    pieces: VecDeque<VecDeque<T>>,
    // The piece that was emptied last, for the next that is added.
    spare: Option<VecDeque<T>>,
    // How many items are gone from the first piece.
    skipped: usize,
    len: usize,
}

impl<T: Drop> Drop for Queue<T> {
    fn drop(self) {
        let Queue {
            pieces: _,
            spare: _,
            skipped: _,
            len: _,
        } = self;
    }
}

impl<T> Model for Queue<T> {
    ghost use Rattle.std.specs.Prelude.{◌+◌, ◌-◌, ◌*◌, length};
    ghost use Rattle.std.specs.List.{flat_map};
    ghost use Rattle.mvo_queue.specs.declared.place.TheConstants.{PIECE};
    ghost use Rattle.mvo_queue.specs.Queue.{QueueData, IsInPieces};

    ghost Value = { QueueData T };

    ghost view = { λ q. record {
      items = flat_map (λ piece. piece.items) q.pieces.items;
      room = length q.pieces.items * PIECE - (q.skipped + q.len);
    } };

    ghost invariant = { λ q.
        IsInPieces (λ p. p.items) (λ p. p.cap) PIECE q.skipped q.len q.pieces.items };
}

/// A piece without items that has room for all that it will hold: the spare one, if it is such.
fn empty_piece<T: Drop>(
    alloc: Global,
    spare: Option<VecDeque<T>>,
) -> Result<VecDeque<T>, AllocError>
    ensures items { IfOk result (λ piece. piece.items ≡ []) }
    ensures capacity { IfOk result (λ piece. PIECE ≤ deque_capacity piece) }
{
    if let Some(piece) = spare {
        if piece.is_empty() && piece.capacity() >= PIECE {
            return Ok(piece);
        }
    }
    VecDeque::with_capacity(alloc, PIECE)
}

impl<T> Queue<T> {
    /// No items. It takes no memory.
    pub fn new(alloc: Global) -> Queue<T>
        ensures { result ≡ record { items = []; room = 0 } }
    {
        Queue {
            pieces: VecDeque::new(alloc),
            spare: None,
            skipped: 0,
            len: 0,
        }
    }

    /// How many items there are.
    pub fn len(&self) -> usize
        ensures { result ≡ length self.now.items }
    {
        self.len
    }

    /// The item behind so many others, if there is one.
    pub fn get(&self, at: usize) -> Option<&T>
        ensures { option_copied result ≡ slice_get self.now.items at }
    {
        if at >= self.len {
            return None;
        }
        let place = Place::of(self.skipped, at);
        self.pieces[place.piece].get(place.inner)
    }

    /// The first item, if there is one.
    pub fn front(&self) -> Option<&T>
        ensures { option_copied result ≡ slice_get self.now.items 0 }
    {
        self.get(0)
    }

    /// Puts another item in the place of one.
    #[inline(always)]
    pub fn set(&mut self, at: usize, item: T)
    where
        T: Drop,
        requires { at < length self.old.items }
        ensures { self.new ≡ record self.old { items = slice_set self.old.items at item } }
    {
        let place = Place::of(self.skipped, at);
        self.pieces[place.piece][place.inner] = item;
    }

    /// Adds an item behind the others. It takes memory for 128 items, where it takes any: none
    /// where a piece is kept that was emptied. Refused, it changes nothing.
    pub fn push_back(&mut self, item: T) -> Result<(), AllocError>
    where
        T: Drop,
        ensures items { OnOk result (self.new.items ≡ self.old.items ++ item ∷ []) }
        ensures room { OnOk result (self.old.room ≤ self.new.room + 1) }
        ensures err { OnErr result (self.new ≡ self.old) }
        ensures full { OnErr result (self.old.room ≡ 0) }
    {
        self.reserve(1)?;
        self.push_back_reserved(item);
        Ok(())
    }

    /// Adds an item behind the others. It takes no memory.
    pub fn push_back_reserved(&mut self, item: T)
        requires { 0 < self.old.room }
        ensures { self.new ≡ record self.old {
          items = self.old.items ++ item ∷ [];
          room = self.old.room - 1;
        } }
    {
        let place = Place::of(self.skipped, self.len);
        self.pieces[place.piece].push_back_reserved(item);
        self.len += 1;
    }

    /// Sees to it that there is room for so many items more. It is refused only where there was
    /// none, and has changed nothing but the room then.
    pub fn reserve(&mut self, more: usize) -> Result<(), AllocError>
    where
        T: Drop,
        ensures same { self.new ≡ record self.old { room = self.new.room } }
        ensures grown { self.old.room ≤ self.new.room }
        ensures counted { self.new.room < 2 ^ 64 }
        ensures ok { OnOk result (more ≤ self.new.room) }
        ensures err { OnErr result (self.new.room < more) }
    {
        while self.room() < more {
            self.add_piece()?;
        }
        Ok(())
    }

    /// Takes the first item off, if there is one. The memory of a piece that was emptied is kept
    /// for the next piece, and that of the one before it goes.
    pub fn pop_front(&mut self) -> Option<T>
    where
        T: Drop,
        ensures item { result ≡ slice_get self.old.items 0 }
        ensures rest { self.new ≡ record self.old { items = drop 1 self.old.items } }
    {
        if self.len == 0 {
            return None;
        }
        let item = self.pieces[0].pop_front();
        self.len -= 1;
        self.skipped += 1;
        if self.skipped == PIECE {
            self.spare = self.pieces.pop_front();
            self.skipped = 0;
        }
        item
    }

    /// Takes the last item off, if there is one. Its place is room for another.
    pub fn pop_back(&mut self) -> Option<T>
        ensures item { result ≡ slice_get self.old.items (length self.old.items - 1) }
        ensures rest { self.new.items ≡ take (length self.old.items - 1) self.old.items }
        ensures room { self.new.room + length self.new.items
            ≡ self.old.room + length self.old.items }
    {
        if self.len == 0 {
            return None;
        }
        self.len -= 1;
        let place = Place::of(self.skipped, self.len);
        self.pieces[place.piece].pop_back()
    }

    /// For how many items more there is room.
    fn room(&self) -> usize
        ensures { result ≡ self.now.room }
    {
        self.pieces.len() * PIECE - (self.skipped + self.len)
    }

    /// Adds an empty piece behind the others. Refused, it changes nothing.
    fn add_piece(&mut self) -> Result<(), AllocError>
    where
        T: Drop,
        ensures ok { OnOk result (self.new ≡ record self.old { room = self.old.room + PIECE }) }
        ensures err { OnErr result (self.new ≡ self.old) }
    {
        if self.pieces.len() >= MAX_PIECES {
            return Err(AllocError);
        }
        let piece = empty_piece(*self.pieces.allocator(), self.spare.take())?;
        self.pieces.push_back(piece)?;
        Ok(())
    }
}
