ghost use Rattle.std.specs.Prelude.{◌≡◌, ◌≤◌, ◌==◌, IfOk, IfErr, OnOk, OnErr, Some, None, option_copied};
ghost use Rattle.std.specs.Option.{option_copied_mut};
ghost use Rattle.std.specs.FinMap as map;
ghost use Rattle.std.specs.Borrow.{sem};
ghost use Rattle.mvo_types.specs.declared.limits.TheConstants.{MAX_STAMP};
ghost use Rattle.mvo_txn.specs.Lends.{LendsKept, LendsPrepared, LendsCommitted};
ghost use Rattle.mvo_txn.specs.Txns.{no_txns, state_of, kept_of, IsPreparingState, IsUnended, IsEnded, IsTable};
ghost use Rattle.mvo_txn.specs.Txns.{table_after_begin, table_after_prepare, table_after_change, after_terminate};
ghost use Rattle.mvo_txn.specs.Txns.{why_not_begun, spent_clock, IsTableRefusal, IsOldestBegin, IsLowWater};
ghost use Rattle.mvo_txn.specs.Next.{IsNextBegin};

use crate::located::{Located, SeatNo};
use crate::mark::Kind;
use crate::queue::Queue;
use crate::seats::Seats;
use crate::state::TxState;
use crate::table_seat::TableSeat;
use mvo_types::{MAX_STAMP, MAX_UNFINISHED, Refusal, Stamp, TxId};
use std::alloc::{AllocError, Global};
use std::marker::Model;

// Marks of those that no longer count are dropped where room is short. No more than may be
// unfinished are left then, so that many more are pushed before room is short again.
const QUEUE_ROOM: usize = 2 * MAX_UNFINISHED;

/// The unfinished transactions by id, and the clock. Contracts see the clock and a finite map.
///
/// Every call takes constant time, by the mean over all calls: none goes over the table.
#[derive(Drop)]
pub struct TxnTable<P> {
    clock: u64,
    seats: Seats<P>,
    begins: Queue,
    open_ends: Queue,
}

impl<P> Model for TxnTable<P> {
    ghost use Rattle.mvo_txn.specs.Txns.{Txns, coded_txns};

    ghost Value = { Txns P };

    ghost coded = { coded_txns P.code };

    ghost use Rattle.mvo_txn.specs.Sound.{AreSeatsSound};

    ghost view = { λ t. record { clock = t.clock; seats = t.seats } };

    ghost invariant = { λ t. AreSeatsSound t.clock t.seats t.begins t.open_ends };
}

impl<P> TxnTable<P> {
    /// No transaction, and the clock at the mark. Room for as many as may be unfinished is taken.
    pub fn new(alloc: Global, mark: Stamp) -> Result<TxnTable<P>, AllocError>
        requires { mark.0 ≤ MAX_STAMP }
        ensures { IfOk result (λ t. t ≡ no_txns mark.0) }
    {
        let begins = Queue::new(alloc, Kind::Begin, QUEUE_ROOM)?;
        let open_ends = Queue::new(alloc, Kind::OpenEnd, QUEUE_ROOM)?;
        Ok(TxnTable {
            clock: mark.0,
            seats: Seats::new(alloc)?,
            begins,
            open_ends,
        })
    }

    /// The last timestamp that was drawn.
    pub fn clock(&self) -> Stamp
        ensures value { result.0 ≡ self.now.clock }
        ensures sound { IsTable self.now }
    {
        Stamp(self.clock)
    }

    /// How many transactions are unfinished.
    pub fn len(&self) -> usize
        ensures { result ≡ map.len self.now.seats }
    {
        self.seats.len()
    }

    /// Whether none is.
    pub fn is_empty(&self) -> bool
        ensures { result ≡ (map.len self.now.seats == 0) }
    {
        self.len() == 0
    }

    /// How the transaction stands, if it is unfinished.
    #[inline(always)]
    pub fn state(&self, id: TxId) -> Option<TxState>
        ensures { result ≡ state_of self.now id.0 }
    {
        match self.seats.at_place(id.0) {
            Some(seat) => Some(seat.state),
            None => None,
        }
    }

    /// The number of the transaction's seat, for calls that look at it later.
    #[inline(always)]
    pub fn seat_of(&self, id: TxId) -> SeatNo {
        SeatNo(self.seats.number_of(id.0))
    }

    /// How the transaction stands, with what is kept of it.
    #[inline(always)]
    pub fn get(&self, tx: Located) -> Option<&TableSeat<P>>
        ensures { option_copied result ≡ map.get self.now.seats tx.id.0 }
    {
        self.seats.get(tx.id.0, tx.seat.0)
    }

    /// What is kept of the transaction, for writing.
    #[inline(always)]
    pub fn get_mut(&mut self, tx: Located) -> Option<&mut P>
        ensures* writes_back { sem 𝓛 (LendsKept P.row self.entry tx.id.0 result) }
        ensures value { option_copied_mut result ≡ kept_of self.old tx.id.0 }
    {
        self.seats.kept_mut(tx.id.0, tx.seat.0)
    }

    /// Why no transaction begins, but for want of memory, if there is a cause.
    pub fn why_not_begun(&self) -> Option<Refusal>
        ensures { result ≡ why_not_begun self.now }
    {
        if self.seats.len() >= MAX_UNFINISHED {
            return Some(Refusal::TableFull);
        }
        if self.clock >= MAX_STAMP {
            return Some(Refusal::ClockSpent);
        }
        None
    }

    /// Begins a transaction: draws its id, and keeps this of it. A refusal drops what was given. It
    /// takes memory only where another unfinished transaction's id has the same rest by 4,096.
    pub fn begin(&mut self, kept: P) -> Result<TxId, Refusal>
    where
        P: Drop,
        ensures id { IfOk result (λ id. id.0 ≡ self.new.clock) }
        ensures ok { OnOk result (self.new ≡ table_after_begin self.old kept) }
        ensures no_cause { OnOk result (why_not_begun self.old ≡ None) }
        ensures refused { IfErr result (IsTableRefusal (why_not_begun self.old)) }
        ensures err { OnErr result (self.new ≡ self.old) }
    {
        if let Some(refusal) = self.why_not_begun() {
            return Err(refusal);
        }
        let id = self.clock + 1;
        self.begins.make_room(&self.seats);
        let seat = TableSeat {
            state: TxState::Active,
            kept,
        };
        self.seats.insert(id, seat)?;
        self.begins.push(id, id);
        self.clock = id;
        Ok(TxId(id))
    }

    /// Draws the end timestamp of an Active transaction, which is Preparing from then on, and lends
    /// what is kept of it. The end is the clock then. It is refused where the clock is spent alone,
    /// and takes no memory.
    pub fn prepare(&mut self, tx: Located) -> Result<&mut P, Refusal>
        requires { state_of self.old tx.id.0 ≡ Some TxState.Active }
        ensures* writes_back { sem 𝓛 (LendsPrepared P.row self.entry tx.id.0 result) }
        ensures value { IfOk result (λ kept. kept_of self.old tx.id.0 ≡ Some kept.now) }
        ensures no_cause { OnOk result (spent_clock self.old.clock ≡ None) }
        ensures refused { IfErr result (λ why. spent_clock self.old.clock ≡ Some why) }
    {
        if self.clock >= MAX_STAMP {
            return Err(Refusal::ClockSpent);
        }
        let end = self.clock + 1;
        self.open_ends.make_room(&self.seats);
        self.open_ends.push(end, tx.id.0);
        self.clock = end;
        let state = TxState::Preparing(Stamp(end));
        Ok(self.seats.restate(tx.id.0, tx.seat.0, state))
    }

    /// Settles a Preparing transaction, and answers its end timestamp, with what is kept of it for
    /// writing.
    pub fn commit(&mut self, tx: Located) -> (Stamp, &mut P)
        requires { IsPreparingState (state_of self.old tx.id.0) }
        ensures* writes_back { sem 𝓛 (LendsCommitted P.row self.entry tx.id.0 result) }
        ensures end { state_of self.old tx.id.0 ≡ Some (TxState.Preparing result.0) }
        ensures value { kept_of self.old tx.id.0 ≡ Some result.1.now }
    {
        self.open_ends.trim(&self.seats, tx.id.0);
        self.seats.commit(tx.id.0, tx.seat.0)
    }

    /// Undoes an Active or Preparing transaction.
    pub fn abort(&mut self, tx: Located)
        requires { IsUnended (state_of self.old tx.id.0) }
        ensures { self.new ≡ table_after_change self.old tx.id.0 TxState.Aborted }
    {
        self.open_ends.trim(&self.seats, tx.id.0);
        self.seats.set_state(tx.id.0, tx.seat.0, TxState::Aborted);
    }

    /// Lets a Committed or Aborted transaction leave, and answers what was kept of it.
    pub fn terminate(&mut self, tx: Located) -> P
        requires { IsEnded (state_of self.old tx.id.0) }
        ensures kept { kept_of self.old tx.id.0 ≡ Some result }
        ensures gone { self.new ≡ after_terminate self.old tx.id.0 }
    {
        let seat = self.seats.remove(tx.id.0, tx.seat.0).unwrap();
        self.begins.trim(&self.seats, tx.id.0);
        let TableSeat { state: _, kept } = seat;
        kept
    }

    /// The least begin of the unfinished transactions, or the clock if there is none.
    pub fn oldest_begin(&self) -> Stamp
        ensures { IsOldestBegin self.now result.0 }
    {
        match self.begins.first() {
            Some(begin) => Stamp(begin),
            None => Stamp(self.clock),
        }
    }

    /// The unfinished transaction with the least begin from this one on, if there is one. It is
    /// sought in the order of their begins, in the logarithm of their number; those that have left
    /// since the last change there are passed over.
    pub fn next_begin(&self, from: Stamp) -> Option<TxId>
        ensures { IsNextBegin self.now from.0 result }
    {
        match self.begins.next(&self.seats, from.0) {
            Some(begin) => Some(TxId(begin)),
            None => None,
        }
    }

    /// One below the least end of the Preparing transactions, or the clock if there is none.
    pub fn low_water(&self) -> Stamp
        ensures { IsLowWater self.now result.0 }
    {
        match self.open_ends.first() {
            Some(end) => Stamp(end - 1),
            None => Stamp(self.clock),
        }
    }
}
