use crate::locked_store::LockedStore;
use crate::run::Run;
use mvo_disk::Disk;
use mvo_marks::{Marks, Seat};
use std::marker::{Model, PhantomData};

/// How far a session has seen commits to be durable. It outlives the session, and borrows nothing
/// of the engine, so that `Engine::into_disk` takes it.
pub struct SeenDurable<L: Run> {
    seat: Seat,
    run: PhantomData<L>,
}

impl<L: Run> Drop for SeenDurable<L> {
    fn drop(self) {
        let SeenDurable { seat: _, run: _ } = self;
    }
}

impl<L: Run> Model for SeenDurable<L> {
    ghost use Rattle.std.specs.Prelude.{◌≡◌, ℕ};

    ghost Value = { ℕ };

    ghost view = { λ s. s.seat.known.durable };

    ghost invariant = { λ s. s.seat.marks ≡ L.marks };
}

impl<L: Run> SeenDurable<L> {
    ghost use Rattle.std.specs.Prelude.{◌≡◌, ◌≤◌};
    ghost use Rattle.mvo_store.specs.Seen.{mark_of};

    // What the seat has seen.
    pub(crate) fn new(seat: Seat) -> SeenDurable<L>
        requires { seat.marks ≡ L.marks }
        ensures { result ≡ seat.known.durable }
    {
        SeenDurable {
            seat,
            run: PhantomData,
        }
    }

    // It is at most the store's mark.
    pub(crate) fn confirm<D: Disk>(&mut self, marks: &Marks, store: &mut LockedStore<L, D>)
        requires { marks.now ≡ L.marks }
        ensures seen { self.old ≤ mark_of store.old.store }
        ensures same { self.new ≡ self.old }
        ensures store { store.new ≡ store.old }
    {
        store.confirm(marks, &mut self.seat);
    }
}
