ghost use Rattle.std.specs.Prelude.{◌≡◌, ◌≤◌, drop, vec_len};

use crate::run::receipt::Receipt;
use mvo_types::Stamp;
use std::alloc::{AllocError, Global};
use std::marker::Model;

/// Receipts by rising end, of which those in front may be let go of.
///
/// What was let go of keeps its place, without its operations, until such places are as many as the
/// others; then they are given up together. So it takes no memory, and constant time on average.
pub struct KeptReceipts {
    list: Vec<Receipt>,
    /// So many in front were let go of.
    gone: usize,
}

impl Drop for KeptReceipts {
    fn drop(self) {
        let KeptReceipts { list: _, gone: _ } = self;
    }
}

impl Model for KeptReceipts {
    ghost use Rattle.std.specs.Prelude.{◌≤◌, drop, nat_lt, vec_len, vec_capacity};
    ghost use Rattle.mvo_engine.specs.run.Receiving.{KeptState, Rises};

    ghost Value = { KeptState };

    ghost view = { λ s. record {
      list = drop s.gone s.list.items;
      room = nat_lt (vec_len s.list) (vec_capacity s.list);
    } };

    ghost invariant = { λ s. (s.gone ≤ vec_len s.list) × Rises (drop s.gone s.list.items) };
}

impl KeptReceipts {
    ghost use Rattle.std.specs.Prelude.{◌≡◌, ◌++◌, ◌∷◌, [], true, OnOk};
    ghost use Rattle.mvo_engine.specs.run.Receiving.{Rises, AreBelow, HasLetGo, HasLetGoFirst};

    /// No receipts.
    pub fn new(alloc: Global) -> KeptReceipts
        ensures { result.list ≡ [] }
    {
        KeptReceipts {
            list: Vec::new(alloc),
            gone: 0,
        }
    }

    /// Where it takes memory.
    pub fn allocator(&self) -> Global {
        *self.list.allocator()
    }

    /// Room for one more.
    pub fn reserve(&mut self) -> Result<(), AllocError>
        ensures same { self.new.list ≡ self.old.list }
        ensures room { OnOk result (self.new.room ≡ true) }
    {
        self.list.reserve(1)
    }

    /// Adds the receipt. It takes no memory.
    pub fn push(&mut self, receipt: Receipt)
        requires room { self.old.room ≡ true }
        requires above { AreBelow receipt.end self.old.list }
        ensures { self.new.list ≡ self.old.list ++ receipt ∷ [] }
    {
        self.list.push_reserved(receipt);
    }

    /// The receipts, by end.
    pub fn list(&self) -> &[Receipt]
        ensures value { result.now ≡ self.now.list }
        ensures rising { Rises self.now.list }
    {
        self.list.as_slice().split_at(self.gone).1
    }

    /// Lets go of those in front that end up to the stamp, at most so many. Answers how many.
    pub fn let_go(&mut self, start: Stamp, most: usize) -> usize
        ensures { HasLetGo start.0 most self.old.list result self.new.list }
    {
        for n in 0..most {
            if !self.let_go_first(start) {
                return n;
            }
        }
        most
    }

    // Lets go of the first one, if it ends up to the stamp.
    fn let_go_first(&mut self, start: Stamp) -> bool
        ensures { HasLetGoFirst start.0 self.old.list result self.new.list }
    {
        if self.gone >= self.list.len() {
            return false;
        }
        if start < self.list[self.gone].end() {
            return false;
        }
        self.list[self.gone].empty();
        self.gone += 1;
        self.give_up_places();
        true
    }

    // Gives up the places of those that were let go of, where they are as many as the others.
    fn give_up_places(&mut self)
        ensures { self.new.list ≡ self.old.list }
    {
        if self.gone < self.list.len() - self.gone {
            return;
        }
        cut_front(&mut self.list, self.gone);
        self.gone = 0;
    }

    /// Apart: the receipts.
    pub fn into_list(self) -> Vec<Receipt>
        ensures { result.items ≡ self.list }
    {
        let KeptReceipts { mut list, gone } = self;
        cut_front(&mut list, gone);
        list
    }
}

/// Takes so many away in front.
fn cut_front(list: &mut Vec<Receipt>, gone: usize)
    requires { gone ≤ vec_len list.old }
    ensures { list.new.items ≡ drop gone list.old.items }
{
    let rest = list.len() - gone;
    list.rotate_left(gone);
    list.truncate(rest);
}
