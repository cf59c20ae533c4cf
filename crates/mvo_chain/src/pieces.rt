ghost use Rattle.std.specs.Prelude.{◌≡◌, ◌<◌, ◌++◌, ◌∷◌, [], length, slice_get, slice_index_or, slice_set, IfOk, OnOk, OnErr, option_copied};

use std::alloc::{AllocError, Global};
use std::marker::Model;
use std::ops::{Index, IndexMut};

/// How many items a piece holds.
const PIECE: usize = 1024;

/// A list kept in pieces of 1,024 items, so that no growth copies an item. Contracts see the list.
#[derive(Drop)]
pub struct Pieces<T> {
    // None is empty, and all but the last are full.
    pieces: Vec<Vec<T>>,
    len: usize,
}

impl<T> Model for Pieces<T> {
    ghost use Rattle.std.specs.Prelude.{List};
    ghost use Rattle.std.specs.List.{flat_map};
    ghost use Rattle.mvo_chain.specs.declared.pieces.TheConstants.{PIECE};
    ghost use Rattle.mvo_chain.specs.Pieces.{IsPieced};

    ghost Value = { List T };

    ghost view = { λ p. flat_map (λ piece. piece.items) p.pieces.items };

    ghost invariant = { λ p. IsPieced (λ piece. piece.items) PIECE p.pieces.items p.len };
}

// A piece with an item, and with room for all that it will hold.
fn piece_of<T: Drop>(alloc: Global, item: T) -> Result<Vec<T>, AllocError>
    ensures { IfOk result (λ piece. piece.items ≡ item ∷ []) }
{
    let mut piece = Vec::with_capacity(alloc, PIECE)?;
    piece.push(item)?;
    Ok(piece)
}

impl<T> Pieces<T> {
    /// No items. It takes no memory.
    pub fn new(alloc: Global) -> Pieces<T>
        ensures { result ≡ [] }
    {
        Pieces {
            pieces: Vec::new(alloc),
            len: 0,
        }
    }

    /// How many items there are.
    pub fn len(&self) -> usize
        ensures { result ≡ length self.now }
    {
        self.len
    }

    /// The item at a place, if there is one.
    pub fn get(&self, at: usize) -> Option<&T>
        ensures { option_copied result ≡ slice_get self.now at }
    {
        match self.pieces.get(at / PIECE) {
            Some(piece) => piece.get(at % PIECE),
            None => None,
        }
    }

    /// Adds an item behind the others. It takes memory for 1,024 items, where it takes any.
    pub fn push(&mut self, item: T) -> Result<(), AllocError>
    where
        T: Drop,
        ensures ok { OnOk result (self.new ≡ self.old ++ item ∷ []) }
        ensures err { OnErr result (self.new ≡ self.old) }
    {
        if self.len == usize::MAX {
            return Err(AllocError);
        }
        let at = self.len / PIECE;
        if at < self.pieces.len() {
            self.pieces[at].push(item)?;
        } else {
            let piece = piece_of(*self.pieces.allocator(), item)?;
            self.pieces.push(piece)?;
        }
        self.len += 1;
        Ok(())
    }
}

impl<T> Index<usize> for Pieces<T> {
    type Output = T;

    ghost can_index = { λ items at. at < length items };

    ghost index_gives = { λ items at item. item ≡ slice_index_or items at item };

    fn index(&self, at: usize) -> &T {
        &self.pieces[at / PIECE][at % PIECE]
    }
}

impl<T> IndexMut<usize> for Pieces<T> {
    ghost use Rattle.std.specs.Prelude.{◌≡◌, ◌<◌, length, slice_index_or};
    ghost use Rattle.std.specs.Borrow.{sem};
    ghost use Rattle.mvo_chain.specs.Lends.{LendsItem};

    fn index_mut(&mut self, at: usize) -> &mut T
        requires { at < length self.old }
        ensures* writes_back { sem 𝓛 (LendsItem T.row self.entry at result) }
        ensures value { result.now ≡ slice_index_or self.old at result.now }
    {
        &mut self.pieces[at / PIECE][at % PIECE]
    }
}
