//! What precommit took out of a work.
ghost use Rattle.std.specs.Prelude.{◌≡◌, [], length, slice_get};
ghost use Rattle.mvo_theory.specs.Told.{history_told};
ghost use Rattle.mvo_theory.specs.Entries.{entries, written_keys};
ghost use Rattle.mvo_theory.specs.Limits.{AreLimited};

use crate::content::WorkContent;
use mvo_types::{Answer, Entry, Op, RowKey};
use mvo_work::Operations;
use std::alloc::Global;
use std::marker::Model;
use std::mem;

/// What precommit took out of the work of a transaction, with the keys that it wrote in a list of
/// their own: so its settlement moves both out, and takes no memory. Contracts see what it did.
#[derive(Drop)]
pub struct TakenContent {
    content: WorkContent,
    written: Vec<RowKey>,
}

impl Model for TakenContent {
    ghost use Rattle.std.specs.Prelude.{◌≡◌};
    ghost use Rattle.mvo_theory.specs.Entries.{written_keys};
    ghost use Rattle.mvo_content.specs.Done.{DoneData};

    ghost Value = { DoneData };

    ghost view = { λ t. t.content };

    ghost invariant = { λ t. t.written.items ≡ written_keys t.content.history };
}

impl TakenContent {
    /// Nothing is taken yet. It takes no memory.
    pub fn nothing(alloc: Global) -> TakenContent
        ensures { result.history ≡ [] }
    {
        TakenContent {
            content: WorkContent::new(alloc),
            written: Vec::new(alloc),
        }
    }

    /// What was done, with the keys that were written.
    pub fn new(content: WorkContent, written: Vec<RowKey>) -> TakenContent
        requires { written.items ≡ written_keys content.history }
        ensures { result ≡ content }
    {
        TakenContent { content, written }
    }

    /// The operations with their answers, in order.
    pub fn operations(&self) -> &[(Op, Answer)]
        ensures { history_told result.now ≡ self.now.history }
    {
        self.content.operations()
    }

    /// How many entries there are.
    pub fn entry_count(&self) -> usize
        ensures { result ≡ length (entries self.now.history) }
    {
        self.content.entry_count()
    }

    /// The entry at a place, from 0 on.
    pub fn entry_at(&self, place: usize) -> Option<Entry>
        ensures { result ≡ slice_get (entries self.now.history) place }
    {
        self.content.entry_at(place)
    }

    /// The content, for the memory that it has.
    pub fn into_content(self) -> WorkContent
        ensures { result ≡ self }
    {
        let TakenContent {
            content,
            written: _,
        } = self;
        content
    }

    /// Moves the operations out, with the keys that they wrote. Nothing is left. It takes no
    /// memory.
    pub fn take_operations(&mut self) -> Operations
        ensures told { history_told result.told.items ≡ self.old.history }
        ensures written { result.written.items ≡ written_keys self.old.history }
        ensures limits { AreLimited self.old.history }
        ensures left { self.new.history ≡ [] }
    {
        let alloc = *self.written.allocator();
        Operations {
            told: self.content.take_operations(),
            written: mem::replace(&mut self.written, Vec::new(alloc)),
        }
    }
}
