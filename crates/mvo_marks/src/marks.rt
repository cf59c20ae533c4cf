ghost use Rattle.std.specs.Prelude.{◌≡◌, ◌≤◌, max, IsTrue, IfOk, IfErr};
ghost use Rattle.mvo_marks.specs.Marks.{HasSeen, HasMoreClosed};

use crate::moves::{Another, Confirms, Publishes, RaisesClosed, SeesClosed, SeesDurable, TakesIn};
use crate::publisher::Publisher;
use crate::rule::{Known, Law};
use crate::seat::Seat;
use atomic_table::Table;
use mvo_store::Durable;
use mvo_types::{Refusal, Stamp};
use std::alloc::Global;
use std::marker::Model;

const CLOSED: usize = 0;

const DURABLE: usize = 1;

/// How far groups are closed, and how far they are on the disk, for all threads: the durable mark
/// is at most the closed one, and is what the publisher published last. Neither ever falls.
/// Contracts see which marks they are.
#[derive(Drop)]
pub struct Marks {
    table: Table<u8, Known, u64, Law, Global>,
}

impl Model for Marks {
    ghost use Rattle.std.specs.Prelude.{◌≡◌};
    ghost use Rattle.atomic_table.specs.Seated.{TableId};

    ghost Value = { TableId };

    ghost view = { λ m. m.table.shared.table_id };

    ghost invariant = { λ m. m.table.shared.table_id.words ≡ 2 };
}

impl Marks {
    /// Both marks at the stamp, the publisher, and a seat from which others are split. Refused with
    /// OutOfMemory alone.
    pub fn new(alloc: Global, start: Stamp) -> Result<(Marks, Publisher, Seat), Refusal>
        ensures one { IfOk result (λ r. (r.1.marks ≡ r.0) × (r.2.marks ≡ r.0)) }
        ensures publisher { IfOk result (λ r. HasSeen start.0 start.0 r.1) }
        ensures published { IfOk result (λ r. r.1.known.published ≡ start.0) }
        ensures seat { IfOk result (λ r. HasSeen start.0 start.0 r.2) }
        ensures err { IfErr result (λ r. r ≡ Refusal.OutOfMemory) }
    {
        let (table, mut seat) = Table::of_words(alloc, &[start.0, start.0], &start.0)?;
        let other = table.shared.split_seat::<Another>(&mut seat);
        Ok((Marks { table }, Publisher { seat }, Seat { seat: other }))
    }

    /// Another seat, which has seen as much.
    pub fn split(&self, seat: &mut Seat) -> Seat
        requires { seat.old.marks ≡ self.now }
        ensures same { seat.new ≡ seat.old }
        ensures marks { result.marks ≡ seat.old.marks }
        ensures seen { HasSeen seat.old.known.closed seat.old.known.durable result }
    {
        Seat {
            seat: self.table.shared.split_seat::<Another>(&mut seat.seat),
        }
    }

    /// Raises the closed mark to at least the stamp: to the stamp, where it is below.
    pub fn raise_closed(&self, seat: &mut Seat, stamp: Stamp)
        requires { seat.old.marks ≡ self.now }
        ensures raised { stamp.0 ≤ seat.new.known.closed }
        ensures no_further { seat.new.known.raised ≡ max seat.old.known.raised stamp.0 }
        ensures closed { HasMoreClosed seat.old seat.new }
    {
        self.table
            .shared
            .fetch_max::<RaisesClosed>(&mut seat.seat, CLOSED, stamp.0);
    }

    /// Raises the closed mark to at least that of what is durable, and then the durable mark.
    pub fn publish(&self, publisher: &mut Publisher, durable: &Durable)
        requires { publisher.old.marks ≡ self.now }
        ensures marks { publisher.new.marks ≡ publisher.old.marks }
        ensures published { publisher.new.known.published ≡
            max publisher.old.known.published durable.now }
        ensures closed { durable.now ≤ publisher.new.known.closed }
        ensures no_further { publisher.new.known.raised ≡
            max publisher.old.known.raised durable.now }
    {
        let mark = durable.mark().0;
        self.table
            .shared
            .fetch_max::<RaisesClosed>(&mut publisher.seat, CLOSED, mark);
        self.table
            .shared
            .fetch_max::<Publishes>(&mut publisher.seat, DURABLE, mark);
    }

    /// Whether all commits that end up to the stamp are on the disk: the stamp is at most the
    /// durable mark, as the seat sees it now.
    pub fn poll_durable(&self, seat: &mut Seat, stamp: Stamp) -> bool
        requires { seat.old.marks ≡ self.now }
        ensures yes { IsTrue result → stamp.0 ≤ seat.new.known.durable }
        ensures no { stamp.0 ≤ seat.new.known.durable → IsTrue result }
        ensures seen { seat.old.known.durable ≤ seat.new.known.durable }
        ensures same { seat.new.marks ≡ seat.old.marks }
        ensures closed { seat.new.known.closed ≡ seat.old.known.closed }
        ensures raised { seat.new.known.raised ≡ seat.old.known.raised }
    {
        let durable = self
            .table
            .shared
            .load::<SeesDurable>(&mut seat.seat, DURABLE);
        stamp.0 <= durable
    }

    /// The closed mark, as the seat sees it now.
    pub fn poll_closed(&self, seat: &mut Seat) -> Stamp
        requires { seat.old.marks ≡ self.now }
        ensures is { result.0 ≡ seat.new.known.closed }
        ensures closed { HasMoreClosed seat.old seat.new }
        ensures raised { seat.new.known.raised ≡ seat.old.known.raised }
    {
        Stamp(self.table.shared.load::<SeesClosed>(&mut seat.seat, CLOSED))
    }

    /// What a seat has seen of the durable mark is at most what was published: whoever has the
    /// publisher knows it.
    pub fn confirm(&self, publisher: &mut Publisher, seat: &mut Seat)
        requires publisher { publisher.old.marks ≡ self.now }
        requires seat { seat.old.marks ≡ self.now }
        ensures seen { seat.old.known.durable ≤ publisher.old.known.published }
        ensures seat { seat.new ≡ seat.old }
        ensures marks { publisher.new.marks ≡ publisher.old.marks }
        ensures published { publisher.new.known.published ≡ publisher.old.known.published }
    {
        let note = self.table.shared.split_seat::<Another>(&mut seat.seat);
        self.table
            .shared
            .join_seat::<TakesIn>(&mut publisher.seat, note);
        self.table
            .shared
            .load::<Confirms>(&mut publisher.seat, DURABLE);
    }
}
