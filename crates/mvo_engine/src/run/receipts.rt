ghost use Rattle.std.specs.Prelude.{◌≡◌, max};

use crate::run::counting::count;
use crate::run::kept_receipts::KeptReceipts;
use crate::run::receipt::Receipt;
use crate::run::run::Run;
use mvo_types::Stamp;
use std::alloc::{AllocError, Global};
use std::marker::Model;
use std::sync::ledger::{Book, Share};

/// The receipts of a session, with its part of the ledger. Their ends rise, and those in front may
/// be let go of. Where all that were end below the watched one, the part counts what is left.
pub struct Receipts<L: Run> {
    list: KeptReceipts,
    share: Share<L>,
    /// The end of the last one, or 0.
    last: Stamp,
    /// None that was let go of ends above this.
    forgotten: Stamp,
}

impl<L: Run> Drop for Receipts<L> {
    fn drop(self) {
        let Receipts {
            list: _,
            share: _,
            last: _,
            forgotten: _,
        } = self;
    }
}

impl<L: Run> Model for Receipts<L> {
    ghost use Rattle.std.specs.Prelude.{◌≡◌, ◌<◌};
    ghost use Rattle.mvo_engine.specs.run.Receiving.{ReceiptsState, AreUpTo};
    ghost use Rattle.mvo_engine.specs.run.Watching.{count_of};

    ghost Value = { ReceiptsState };

    ghost view = { λ s. record {
      list = s.list.list;
      room = s.list.room;
      forgotten = s.forgotten.0;
    } };

    ghost invariant = { λ s. (s.share.parts ≡ 1)
        × (s.forgotten.0 < L.watched.end → s.share.amount ≡ count_of L.watched s.list.list)
        × AreUpTo s.last.0 s.list.list };
}

impl<L: Run> Receipts<L> {
    ghost use Rattle.std.specs.Prelude.{◌≡◌, ◌+◌, ◌++◌, ◌∷◌, ◌<◌, [], true, max, OnOk};
    ghost use Rattle.mvo_engine.specs.run.Receiving.{Rises, AreBelow, AreUpTo, HasLetGo};
    ghost use Rattle.mvo_engine.specs.run.Watching.{count_of};

    /// No receipts, with one part.
    pub fn new(alloc: Global, share: Share<L>) -> Receipts<L>
        requires { (share.parts ≡ 1) × (share.amount ≡ 0) }
        ensures list { result.list ≡ [] }
        ensures forgotten { result.forgotten ≡ 0 }
    {
        Receipts {
            list: KeptReceipts::new(alloc),
            share,
            last: Stamp(0),
            forgotten: Stamp(0),
        }
    }

    /// Where it takes memory.
    pub fn allocator(&self) -> Global {
        self.list.allocator()
    }

    /// Room for one more.
    pub fn reserve(&mut self) -> Result<(), AllocError>
        ensures same { self.new.list ≡ self.old.list }
        ensures forgotten { self.new.forgotten ≡ self.old.forgotten }
        ensures room { OnOk result (self.new.room ≡ true) }
    {
        self.list.reserve()
    }

    /// Adds the receipt, and counts it in the book. It takes no memory.
    pub fn add(&mut self, book: &mut Book<L>, receipt: Receipt)
        requires room { self.old.room ≡ true }
        requires above { AreBelow receipt.end self.old.list }
        ensures list { self.new.list ≡ self.old.list ++ receipt ∷ [] }
        ensures forgotten { self.new.forgotten ≡ self.old.forgotten }
        ensures total { book.new.total ≡ book.old.total + L.watched.weigh receipt }
    {
        count(book, &mut self.share, &receipt);
        self.last = receipt.end();
        self.list.push(receipt);
    }

    /// The receipts, by end.
    pub fn list(&self) -> &[Receipt]
        ensures value { result.now ≡ self.now.list }
        ensures rising { Rises self.now.list }
    {
        self.list.list()
    }

    /// None of them ends above this.
    pub fn last_end(&self) -> Stamp
        ensures { AreUpTo result.0 self.now.list }
    {
        self.last
    }

    /// None that was let go of ends above this.
    pub fn forgotten(&self) -> Stamp
        ensures { result.0 ≡ self.now.forgotten }
    {
        self.forgotten
    }

    /// Lets go of those in front that end up to the start of the tale, at most so many. Answers how
    /// many. It takes no memory.
    pub fn forget(&mut self, start: Stamp, most: usize) -> usize
        ensures gone { HasLetGo start.0 most self.old.list result self.new.list }
        ensures forgotten { self.new.forgotten ≡ max self.old.forgotten start.0 }
    {
        self.forgotten = later_of(self.forgotten, start);
        self.list.let_go(start, most)
    }

    /// Apart: the receipts and the part.
    pub fn into_parts(self) -> (Vec<Receipt>, Share<L>)
        ensures list { result.0.items ≡ self.list }
        ensures part { result.1.parts ≡ 1 }
        ensures amount { self.forgotten < L.watched.end →
            result.1.amount ≡ count_of L.watched self.list }
    {
        let Receipts {
            list,
            share,
            last: _,
            forgotten: _,
        } = self;
        (list.into_list(), share)
    }
}

// The later of two stamps.
fn later_of(one: Stamp, other: Stamp) -> Stamp
    ensures { result.0 ≡ max one.0 other.0 }
{
    if one < other { other } else { one }
}
