ghost use Rattle.std.specs.Prelude.{◌≡◌};

use mvo_content::Works;
use mvo_tale::Tale;
use mvo_work::Writes;
use std::alloc::{AllocError, Global};
use std::marker::Model;

// As many as unfinished transactions are common at once.
const MOST: usize = 64;

/// The memory of the words of transactions that are over, for those that begin: without it each
/// would ask the system for the same list. Nothing is written in any of them, and no more than
/// `MOST` are kept.
#[derive(Drop)]
pub struct Spares {
    writes: Vec<Writes>,
}

impl Model for Spares {
    ghost use Rattle.std.specs.Prelude.{◌≤◌, ⊤, length};
    ghost use Rattle.mvo_core.specs.Spare.{AreUnwritten};
    ghost use Rattle.mvo_core.specs.declared.spares.TheConstants.{MOST};

    ghost Value = { ⊤ };

    ghost view = { λ s. tt };

    ghost invariant = { λ s. AreUnwritten s.writes.items × (length s.writes.items ≤ MOST) };
}

impl Spares {
    ghost use Rattle.std.specs.Prelude.{◌≡◌, []};

    /// None yet, with room for the most that are kept.
    pub fn new(alloc: Global) -> Result<Spares, AllocError> {
        Ok(Spares {
            writes: Vec::with_capacity(alloc, MOST)?,
        })
    }

    /// One in which nothing is written. It takes no memory.
    pub fn take(&mut self) -> Writes
        ensures { result.words ≡ [] }
    {
        let alloc = *self.writes.allocator();
        match self.writes.pop() {
            Some(writes) => writes,
            None => Writes::new(alloc),
        }
    }

    /// Keeps the memory of what one that is over wrote, unless enough are kept.
    pub fn keep(&mut self, mut writes: Writes) {
        if self.writes.len() < MOST {
            writes.clear();
            let _ = self.writes.push(writes);
        }
    }
}

/// Gives the works the memory of a commit's operations, where the tale keeps some.
#[inline(always)]
pub fn give_list(tale: &mut Tale, works: &mut Works)
    ensures tale { tale.new ≡ tale.old }
    ensures works { works.new ≡ works.old }
{
    if let Some(list) = tale.spare_list() {
        works.give_list(list);
    }
}
