use crate::ended::Ended;
use mvo_chain::VersionNo;
use mvo_queue::Queue;
use mvo_types::Stamp;
use std::alloc::{AllocError, Global};
use std::marker::Model;

/// The versions that are garbage or may come to be: those that were ended, in the order of the end
/// timestamps, and those that nobody has put any more and nobody has ended. Contracts see both
/// lists, how many words of versions name a transaction, and the room.
///
/// A version that was ended waits from when its transaction draws the end, which takes the memory.
/// One that an aborted transaction put waits from when its last word is replaced, in room that was
/// made when the word was written: `make_room` and `make_room_for_ended` alone take memory. What no
/// longer is what it was stays, and is passed over when its turn comes.
pub struct Waiting {
    ended: Queue<Ended>,
    dead: Queue<VersionNo>,
    owed: usize,
}

impl Drop for Waiting {
    fn drop(self) {
        let Waiting {
            ended: _,
            dead: _,
            owed: _,
        } = self;
    }
}

impl Model for Waiting {
    ghost use Rattle.std.specs.Prelude.{◌-◌, ◌^◌, ◌<◌, ◌≤◌};
    ghost use Rattle.mvo_collect.specs.Waiting.{WaitingData};

    ghost Value = { WaitingData };

    ghost view = { λ w. record {
      ended = w.ended.items;
      dead = w.dead.items;
      owed = w.owed;
      room = w.dead.room - w.owed;
      ended_room = w.ended.room;
    } };

    ghost invariant = { λ w. (w.owed ≤ w.dead.room) × (w.dead.room < 2 ^ 64) };
}

impl Waiting {
    ghost use Rattle.std.specs.Prelude.{◌≡◌, ◌+◌, ◌-◌, ◌++◌, ◌∷◌, [], ◌<◌, ◌≤◌};
    ghost use Rattle.std.specs.Prelude.{drop, length, slice_get, OnOk, OnErr};
    ghost use Rattle.mvo_collect.specs.Waiting.{IsNothing};

    /// Nothing waits. It takes no memory.
    pub fn new(alloc: Global) -> Waiting
        ensures { IsNothing result }
    {
        Waiting {
            ended: Queue::new(alloc),
            dead: Queue::new(alloc),
            owed: 0,
        }
    }

    /// Sees to it that there is room for two words more. It is refused only where there was none,
    /// and has changed nothing but the room then.
    pub fn make_room(&mut self) -> Result<(), AllocError>
        ensures same { self.new ≡ record self.old { room = self.new.room } }
        ensures ok { OnOk result (2 ≤ self.new.room) }
        ensures err { OnErr result (self.old.room < 2) }
    {
        let Some(more) = self.owed.checked_add(2) else {
            return Err(AllocError);
        };
        self.dead.reserve(more)
    }

    /// One word more names a transaction.
    pub fn owe(&mut self)
        requires { 0 < self.old.room }
        ensures { self.new ≡ record self.old {
          owed = self.old.owed + 1;
          room = self.old.room - 1;
        } }
    {
        self.owed += 1;
    }

    /// A word that named a transaction is replaced.
    pub fn repay(&mut self)
        requires { 0 < self.old.owed }
        ensures { self.new ≡ record self.old {
          owed = self.old.owed - 1;
          room = self.old.room + 1;
        } }
    {
        self.owed -= 1;
    }

    /// A word that named a transaction is replaced, and the version is dead now.
    pub fn bury(&mut self, number: VersionNo)
        requires { 0 < self.old.owed }
        ensures { self.new ≡ record self.old {
          dead = self.old.dead ++ number ∷ [];
          owed = self.old.owed - 1;
        } }
    {
        self.owed -= 1;
        self.dead.push_back_reserved(number);
    }

    /// Sees to it that there is room for so many versions more that were ended. It is refused only
    /// where there was none, and has changed nothing but the room then.
    pub fn make_room_for_ended(&mut self, more: usize) -> Result<(), AllocError>
        ensures same { self.new ≡ record self.old { ended_room = self.new.ended_room } }
        ensures ok { OnOk result (more ≤ self.new.ended_room) }
        ensures err { OnErr result (self.old.ended_room < more) }
    {
        self.ended.reserve(more)
    }

    /// A version that was ended with this timestamp waits behind the others.
    pub fn push_ended(&mut self, end: Stamp, number: VersionNo)
        requires { 0 < self.old.ended_room }
        ensures { self.new ≡ record self.old {
          ended = self.old.ended ++ (record { end = end; number = number }) ∷ [];
          ended_room = self.old.ended_room - 1;
        } }
    {
        self.ended.push_back_reserved(Ended { end, number });
    }

    /// How many dead ones wait.
    pub fn dead_count(&self) -> usize
        ensures { result ≡ length self.now.dead }
    {
        self.dead.len()
    }

    /// How many of those that were ended wait.
    pub fn ended_count(&self) -> usize
        ensures { result ≡ length self.now.ended }
    {
        self.ended.len()
    }

    /// The first of the dead, if one waits.
    pub fn next_dead(&self) -> Option<VersionNo>
        ensures { result ≡ slice_get self.now.dead 0 }
    {
        self.dead.front().copied()
    }

    /// Takes the first of the dead off, if one waits.
    pub fn drop_dead(&mut self)
        ensures { self.new ≡ record self.old {
          dead = drop 1 self.old.dead;
          room = self.new.room;
        } }
    {
        self.dead.pop_front();
    }

    /// The first of those that were ended, if one waits.
    pub fn next_ended(&self) -> Option<Ended>
        ensures { result ≡ slice_get self.now.ended 0 }
    {
        self.ended.front().copied()
    }

    /// Takes the first of those that were ended off, if one waits.
    pub fn drop_ended(&mut self)
        ensures { self.new ≡ record self.old {
          ended = drop 1 self.old.ended;
          ended_room = self.new.ended_room;
        } }
    {
        self.ended.pop_front();
    }
}
