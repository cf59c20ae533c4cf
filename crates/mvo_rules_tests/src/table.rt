use crate::equal::{holds, same};
use mvo_txn::{Located, SeatNo, TxState, TxnTable};
use mvo_types::{Refusal, Stamp, TxId};
use std::alloc::{AllocError, Global};
use std::process::Abort;
use std::test::Fail;

/// What the plain list has of a transaction.
#[derive(Clone, Copy, Debug, PartialEq)]
struct Plain {
    id: TxId,
    state: TxState,
    kept: u64,
}

/// A generator of numbers, by a seed.
#[derive(Drop)]
struct Draws(u64);

impl Draws {
    fn next(&mut self) -> u64 {
        self.0 = self
            .0
            .wrapping_mul(6_364_136_223_846_793_005)
            .wrapping_add(1_442_695_040_888_963_407);
        self.0 >> 33
    }

    /// The place of one of so many, the first ones seldom.
    fn place(&mut self, count: usize) -> usize {
        if count == 0 {
            return 0;
        }
        let place = (self.next() % 1_000_000) as usize % count;
        if self.next() % 8 != 0 {
            return place.max(count / 2);
        }
        place
    }
}

fn plain_oldest(list: &Vec<Plain>, clock: u64) -> u64 {
    let mut oldest = clock;
    for plain in list {
        oldest = oldest.min(plain.id.0);
    }
    oldest
}

/// The least begin from this one on.
fn plain_next(list: &Vec<Plain>, from: u64) -> Option<TxId> {
    let mut next = None;
    for plain in list {
        let is_less = match next {
            Some(TxId(id)) => plain.id.0 < id,
            None => true,
        };
        if plain.id.0 >= from && is_less {
            next = Some(plain.id);
        }
    }
    next
}

fn plain_low_water(list: &Vec<Plain>, clock: u64) -> u64 {
    let mut least = clock.saturating_add(1);
    for plain in list {
        if let TxState::Preparing(end) = plain.state {
            least = least.min(end.0);
        }
    }
    least.saturating_sub(1)
}

/// Both tell the same of the table, and of the transaction.
fn compare(rt: &impl Abort, table: &TxnTable<u64>, list: &Vec<Plain>, clock: u64, plain: Plain) {
    same(rt, &table.clock(), &Stamp(clock));
    same(rt, &table.len(), &list.len());
    same(rt, &table.oldest_begin(), &Stamp(plain_oldest(list, clock)));
    same(rt, &table.low_water(), &Stamp(plain_low_water(list, clock)));
    for from in [0, plain.id.0, plain.id.0.saturating_add(1)] {
        same(rt, &table.next_begin(Stamp(from)), &plain_next(list, from));
    }
    same(rt, &table.state(plain.id), &Some(plain.state));
    let tx = Located {
        id: plain.id,
        seat: seat_for(table, plain.id, clock),
    };
    holds(
        rt,
        table.get(tx).is_some_and(|seat| seat.kept == plain.kept),
    );
}

/// The number of the transaction's seat, or at times of another's, by which it is found too.
fn seat_for<P>(table: &TxnTable<P>, id: TxId, draw: u64) -> SeatNo {
    if draw % 3 == 0 {
        table.seat_of(TxId(draw))
    } else {
        table.seat_of(id)
    }
}

/// The transaction with this state.
fn standing(id: TxId, state: TxState, kept: u64) -> Option<Plain> {
    Some(Plain { id, state, kept })
}

/// Takes the transaction on, and gives what it is then, or nothing if it left.
fn step(
    rt: &impl Abort,
    table: &mut TxnTable<u64>,
    plain: Plain,
    draw: u64,
) -> Result<Option<Plain>, Refusal> {
    let Plain { id, state, kept } = plain;
    let seat = seat_for(table, id, draw);
    let tx = Located { id, seat };
    if let Some(kept) = table.get_mut(tx) {
        *kept = draw;
    }
    let kept = if table.get(tx).is_some() { draw } else { kept };
    match table.state(id) {
        Some(TxState::Active) if draw % 4 == 0 => {
            table.abort(tx);
            Ok(standing(id, TxState::Aborted, kept))
        }
        Some(TxState::Active) => {
            *table.prepare(tx)? = draw / 2;
            Ok(standing(id, TxState::Preparing(table.clock()), draw / 2))
        }
        Some(TxState::Preparing(_)) if draw % 4 == 0 => {
            table.abort(tx);
            Ok(standing(id, TxState::Aborted, kept))
        }
        Some(TxState::Preparing(_)) => {
            let (end, lent) = table.commit(tx);
            *lent = draw / 3;
            same(rt, &state, &TxState::Preparing(end));
            Ok(standing(id, TxState::Committed(end), draw / 3))
        }
        Some(TxState::Committed(_)) | Some(TxState::Aborted) => {
            same(rt, &table.terminate(tx), &kept);
            same(rt, &table.state(id), &None);
            Ok(None)
        }
        None => Ok(None),
    }
}

/// Begins one in both.
fn begin_both(table: &mut TxnTable<u64>, list: &mut Vec<Plain>, draw: u64) -> Result<(), Refusal> {
    let id = table.begin(draw)?;
    list.push(Plain {
        id,
        state: TxState::Active,
        kept: draw,
    })?;
    Ok(())
}

/// Takes the one at the place on in both, and compares them.
fn step_both(
    rt: &impl Abort,
    table: &mut TxnTable<u64>,
    list: &mut Vec<Plain>,
    place: usize,
    draw: u64,
) -> Result<(), Refusal> {
    if place >= list.len() {
        return Ok(());
    }
    let plain = list.remove(place);
    if let Some(after) = step(rt, table, plain, draw)? {
        list.push(after)?;
        compare(rt, table, list, table.clock().0, after);
    }
    Ok(())
}

/// One round.
fn go(
    rt: &impl Abort,
    table: &mut TxnTable<u64>,
    list: &mut Vec<Plain>,
    draws: &mut Draws,
) -> Result<(), Refusal> {
    let draw = draws.next();
    if draw % 7 < 2 || list.is_empty() {
        return begin_both(table, list, draw);
    }
    let place = draws.place(list.len());
    step_both(rt, table, list, place, draw)
}

fn go_all(
    rt: &impl Abort,
    table: &mut TxnTable<u64>,
    list: &mut Vec<Plain>,
) -> Result<(), Refusal> {
    let mut draws = Draws(1);
    for round in 0..20_000u64 {
        go(rt, table, list, &mut draws)?;
        holds(rt, table.clock().0 <= 7 + 2 * (round + 1));
    }
    Ok(())
}

#[test]
fn is_as_a_plain_list(rt: HostRuntime) -> Result<(), Fail> {
    let mut table = TxnTable::new(rt.alloc(), Stamp(7))?;
    go_all(&rt, &mut table, &mut Vec::new(rt.alloc()))?;
    Ok(())
}

/// Begins a transaction, which leaves at once.
fn pass(table: &mut TxnTable<()>) -> Result<(), Refusal> {
    let id = table.begin(())?;
    let seat = table.seat_of(id);
    let tx = Located { id, seat };
    if let Some(TxState::Active) = table.state(id) {
        table.abort(tx);
    }
    if let Some(TxState::Aborted) = table.state(id) {
        table.terminate(tx);
    }
    Ok(())
}

/// The numbers of two seats differ.
fn differ(rt: &impl Abort, one: SeatNo, other: SeatNo, alloc: Global) -> Result<(), AllocError> {
    let one = format!(in alloc; "{one:?}")?;
    let other = format!(in alloc; "{other:?}")?;
    holds(rt, one != other);
    Ok(())
}

/// Two begin, and one more with an id that has the place of the first one's.
fn begin_three(rt: &impl Abort, table: &mut TxnTable<()>, alloc: Global) -> Result<(), Refusal> {
    let first = table.begin(())?;
    let second = table.begin(())?;
    for _ in 2..4_096u64 {
        pass(table)?;
    }
    let third = table.begin(())?;
    same(rt, &third, &TxId(first.0.saturating_add(4_096)));
    differ(rt, table.seat_of(first), table.seat_of(second), alloc)?;
    differ(rt, table.seat_of(second), table.seat_of(third), alloc)?;
    differ(rt, table.seat_of(third), table.seat_of(first), alloc)?;
    Ok(())
}

#[test]
fn each_has_a_seat_of_its_own(rt: HostRuntime) -> Result<(), Fail> {
    let mut table = TxnTable::new(rt.alloc(), Stamp(0))?;
    begin_three(&rt, &mut table, rt.alloc())?;
    Ok(())
}
