ghost use Rattle.std.specs.Prelude.{◌≡◌, ◌-◌, ◌++◌, ◌∷◌, [], ◌<◌, ◌≤◌, drop, length, slice_get, nat_le, OnOk, OnErr};

use crate::memory::{clear_words, has_room_for_two};
use crate::word_place::WordPlace;
use std::alloc::{AllocError, Global};
use std::collections::VecDeque;
use std::marker::Model;

/// What is kept of what a transaction wrote, apart from what it was told. Contracts see the words
/// that finishing still has to replace, in order of writing, and the room: for so many words more.
///
/// `make_room` alone takes memory. Each call takes constant time, but for that growth.
#[derive(Drop)]
pub struct Writes {
    words: VecDeque<WordPlace>,
}

impl Model for Writes {
    ghost use Rattle.std.specs.Prelude.{◌-◌};
    ghost use Rattle.std.specs.VecDeque.{deque_len, deque_capacity};
    ghost use Rattle.mvo_work.specs.Writes.{WritesData};

    ghost Value = { WritesData };

    ghost view = { λ w. record {
      words = w.words.items;
      room = deque_capacity w.words - deque_len w.words;
    } };
}

impl Writes {
    /// Nothing written. It takes no memory.
    pub fn new(alloc: Global) -> Writes
        ensures { result.words ≡ [] }
    {
        Writes {
            words: VecDeque::new(alloc),
        }
    }

    /// Sees to it that there is room for two words more. Refused, it has changed nothing but the
    /// room.
    #[inline(always)]
    pub fn make_room(&mut self) -> Result<(), AllocError>
        ensures same { self.new.words ≡ self.old.words }
        ensures ok { OnOk result (2 ≤ self.new.room) }
        ensures err { OnErr result (self.old.room < 2) }
    {
        if self.has_room() {
            return Ok(());
        }
        self.grow()
    }

    /// Whether there is room for two words more.
    #[inline(always)]
    fn has_room(&self) -> bool
        ensures { result ≡ nat_le 2 self.now.room }
    {
        has_room_for_two(&self.words)
    }

    /// `make_room` where the list has to grow. That is seldom, so it lies apart from the callers.
    #[inline(never)]
    fn grow(&mut self) -> Result<(), AllocError>
        ensures same { self.new.words ≡ self.old.words }
        ensures ok { OnOk result (2 ≤ self.new.room) }
        ensures err { OnErr result (self.old.room < 2) }
    {
        self.words.reserve(2)
    }

    /// Adds a word behind the others.
    pub fn push_word(&mut self, word: WordPlace)
        requires { 0 < self.old.room }
        ensures { self.new ≡ record self.old {
          words = self.old.words ++ word ∷ [];
          room = self.old.room - 1;
        } }
    {
        self.words.push_back_reserved(word);
    }

    /// How many words are still to be replaced.
    pub fn word_count(&self) -> usize
        ensures { result ≡ length self.now.words }
    {
        self.words.len()
    }

    /// The word at a place of the list, from 0 on.
    pub fn word_at(&self, place: usize) -> Option<WordPlace>
        ensures { result ≡ slice_get self.now.words place }
    {
        self.words.get(place).copied()
    }

    /// The first word that is still to be replaced, if one is.
    pub fn next_word(&self) -> Option<WordPlace>
        ensures { result ≡ slice_get self.now.words 0 }
    {
        self.words.front().copied()
    }

    /// Takes the first word off, if there is one.
    pub fn drop_word(&mut self)
        ensures { self.new.words ≡ drop 1 self.old.words }
    {
        self.words.pop_front();
    }

    /// Forgets the words. The memory of few is kept for another transaction.
    pub fn clear(&mut self)
        ensures { self.new.words ≡ [] }
    {
        clear_words(&mut self.words);
    }
}
