ghost use Rattle.std.specs.Prelude.{◌≡◌, ◌<◌, None, Some, IfOk, IfSome, OnErr, OnOk, IsSome};
ghost use Rattle.std.specs.Prelude.{option_copied};
ghost use Rattle.std.specs.Option.{option_copied_mut, IfNone};
ghost use Rattle.std.specs.FinMap as map;
ghost use Rattle.std.specs.Borrow.{sem};
ghost use Rattle.mvo_types.specs.declared.limits.TheConstants.{MAX_UNFINISHED};
ghost use Rattle.mvo_txn.specs.Lends.{LendsKeptOfSeats, LendsRestated, LendsSettled};
ghost use Rattle.mvo_txn.specs.Queue.{open_end};
ghost use Rattle.mvo_txn.specs.Seats.{kept_in, state_in, with_state};

use crate::chair::Chair;
use crate::directory::Directory;
use crate::state::TxState;
use crate::table_seat::TableSeat;
use mvo_types::{MAX_UNFINISHED, Stamp};
use slab::Slab;
use std::alloc::{AllocError, Global};
use std::marker::Model;

/// Seats by id: the seat that was given back last is taken first. Contracts see a finite map.
#[derive(Drop)]
pub(crate) struct Seats<P> {
    chairs: Slab<Chair<P>>,
    directory: Directory,
}

impl<P> Model for Seats<P> {
    ghost use Rattle.std.specs.FinMap as map;
    ghost use Rattle.mvo_txn.specs.Seats.{SeatMap, coded_seats};

    ghost Value = { SeatMap P };

    ghost coded = { coded_seats P.code };

    ghost use Rattle.mvo_txn.specs.Chairs.{seats_of, AreSeats};

    ghost view = { λ s. map.from_entries (seats_of s.chairs.slots) };

    ghost invariant = { λ s. AreSeats s.directory s.chairs };
}

impl<P> Seats<P> {
    /// No seats, and room for as many as may be unfinished.
    pub(crate) fn new(alloc: Global) -> Result<Seats<P>, AllocError>
        ensures { IfOk result (λ s. s ≡ map.empty) }
    {
        let directory = Directory::new(alloc)?;
        Ok(Seats {
            chairs: Slab::with_capacity(alloc, MAX_UNFINISHED)?,
            directory,
        })
    }

    /// How many seats are taken.
    pub(crate) fn len(&self) -> usize
        ensures { result ≡ map.len self.now }
    {
        self.chairs.len()
    }

    /// The number of a transaction's seat, if it has one, and any number else.
    #[inline(always)]
    pub(crate) fn number_of(&self, id: u64) -> usize {
        // Where each id has its own place, that is where the number is, if it is anywhere.
        let hint = self.directory.hinted(id);
        if self.directory.has_displaced() {
            return self.searched(id, hint);
        }
        hint
    }

    /// The same, wherever the seat is.
    #[cold]
    fn searched(&self, id: u64, none: usize) -> usize {
        match self.directory.search(&self.chairs, id) {
            Some(number) => number,
            None => none,
        }
    }

    /// The seat of a transaction, which is looked for at this number first.
    #[inline(always)]
    pub(crate) fn get(&self, id: u64, first: usize) -> Option<&TableSeat<P>>
        ensures { option_copied result ≡ map.get self.now id }
    {
        match self.chairs.get(first) {
            Some(chair) if chair.id == id => Some(&chair.seat),
            _ => self.sought(id),
        }
    }

    /// The same, which is looked for at the id's place first.
    #[inline(always)]
    pub(crate) fn at_place(&self, id: u64) -> Option<&TableSeat<P>>
        ensures { option_copied result ≡ map.get self.now id }
    {
        self.get(id, self.directory.hinted(id))
    }

    /// The same, wherever the seat is.
    #[inline(never)]
    fn sought(&self, id: u64) -> Option<&TableSeat<P>>
        ensures { option_copied result ≡ map.get self.now id }
    {
        let Some(number) = self.directory.search(&self.chairs, id) else {
            return None;
        };
        match self.chairs.get(number) {
            Some(chair) => Some(&chair.seat),
            None => None,
        }
    }

    /// What is kept of a transaction, for writing.
    #[inline(always)]
    pub(crate) fn kept_mut(&mut self, id: u64, first: usize) -> Option<&mut P>
        ensures* writes_back { sem 𝓛 (LendsKeptOfSeats P.row self.entry id result) }
        ensures value { option_copied_mut result ≡ kept_in self.old id }
    {
        let Some(number) = self.directory.find(&self.chairs, id, first) else {
            return None;
        };
        match self.chairs.get_mut(number) {
            Some(chair) => Some(&mut chair.seat.kept),
            None => None,
        }
    }

    /// Gives a transaction that has a seat another state.
    pub(crate) fn set_state(&mut self, id: u64, first: usize, state: TxState)
        requires { IsSome (map.get self.old id) }
        ensures { self.new ≡ with_state self.old id state }
    {
        let Some(number) = self.directory.find(&self.chairs, id, first) else {
            unreachable!()
        };
        match self.chairs.get_mut(number) {
            Some(chair) => chair.seat.state = state,
            None => unreachable!(),
        }
    }

    /// Gives a transaction with a seat another state, and lends what is kept of it, by one look.
    #[inline(always)]
    pub(crate) fn restate(&mut self, id: u64, first: usize, state: TxState) -> &mut P
        requires { IsSome (map.get self.old id) }
        ensures* writes_back { sem 𝓛 (LendsRestated P.row self.entry id state result) }
        ensures value { Some result.now ≡ kept_in self.old id }
    {
        let Some(number) = self.directory.find(&self.chairs, id, first) else {
            unreachable!()
        };
        match self.chairs.get_mut(number) {
            Some(chair) => {
                chair.seat.state = state;
                &mut chair.seat.kept
            }
            None => unreachable!(),
        }
    }

    /// Settles a Preparing transaction by one look: answers its end, and lends what is kept of it.
    #[inline(always)]
    pub(crate) fn commit(&mut self, id: u64, first: usize) -> (Stamp, &mut P)
        requires { IsSome (open_end (state_in self.old id)) }
        ensures* writes_back { sem 𝓛 (LendsSettled P.row self.entry id result) }
        ensures end { state_in self.old id ≡ Some (TxState.Preparing result.0) }
        ensures value { kept_in self.old id ≡ Some result.1.now }
    {
        let Some(number) = self.directory.find(&self.chairs, id, first) else {
            unreachable!()
        };
        let Some(chair) = self.chairs.get_mut(number) else {
            unreachable!()
        };
        let TxState::Preparing(end) = chair.seat.state else {
            unreachable!()
        };
        chair.seat.state = TxState::Committed(end);
        (end, &mut chair.seat.kept)
    }

    /// Gives a new transaction a seat. It takes memory only to list an id whose place is another's.
    pub(crate) fn insert(&mut self, id: u64, seat: TableSeat<P>) -> Result<(), AllocError>
    where
        P: Drop,
        requires new { map.get self.old id ≡ None }
        requires room { map.len self.old < MAX_UNFINISHED }
        ensures ok { OnOk result (self.new ≡ map.insert self.old id seat) }
        ensures err { OnErr result (self.new ≡ self.old) }
    {
        let number = self.chairs.vacant_key();
        self.directory.note(&self.chairs, id, number)?;
        self.chairs.insert_reserved(Chair { id, seat });
        Ok(())
    }

    /// Takes a transaction's seat away, and answers what was there.
    pub(crate) fn remove(&mut self, id: u64, first: usize) -> Option<TableSeat<P>>
        ensures before { result ≡ map.get self.old id }
        ensures gone { self.new ≡ map.remove self.old id }
    {
        let Some(number) = self.directory.find(&self.chairs, id, first) else {
            return None;
        };
        let chair = self.chairs.remove(number);
        self.directory.forget(id);
        let Chair { id: _, seat } = chair;
        Some(seat)
    }
}
