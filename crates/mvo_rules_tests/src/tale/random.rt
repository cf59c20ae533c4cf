//! Random ends, commits and groups, against a plain list.

use crate::equal::{above, same_at};
use crate::numbers::Numbers;
use crate::tale::checked::{leave_at, next_group, open_at, open_reading_at, settle_at};
use crate::tale::entries::entry_of;
use crate::tale::plain::{Place, State, is_record, some_operations, some_reads};
use mvo_tale::{NextRecords, Tale};
use mvo_types::{Answer, Op, Stamp, TxId};
use std::alloc::{AllocError, Global};
use std::process::Abort;
use std::test::Fail;

const STEPS: u64 = 3_000;

const MOST_ENDS: u64 = 1 << 40;

#[derive(Drop)]
struct Counts {
    settled: u64,
    read: u64,
    late: u64,
    beside: u64,
    left: u64,
    shortened: u64,
    forgotten: u64,
    groups: u64,
    records: u64,
    empty_groups: u64,
}

struct Course {
    alloc: Global,
    tale: Tale,
    list: Vec<Place>,
    numbers: Numbers,
    clock: u64,
    closed: u64,
    from: usize,
    counts: Counts,
}

/// The operations of the transaction at a place of the list.
fn operations_at(
    alloc: Global,
    numbers: &mut Numbers,
    at: &mut Place,
    reads: bool,
) -> Result<Vec<(Op, Answer)>, AllocError> {
    if reads {
        return some_reads(alloc, numbers);
    }
    some_operations(alloc, numbers, &mut at.wrote)
}

/// Whether a transaction may end there.
fn is_open(state: State) -> bool {
    state == State::Open || state == State::Reading
}

fn count(number: &mut u64, more: u64) {
    *number = number.saturating_add(more);
}

impl Drop for Course {
    fn drop(self) {
        let Course {
            alloc: _,
            tale: _,
            list: _,
            numbers: _,
            clock: _,
            closed: _,
            from: _,
            counts: _,
        } = self;
    }
}

impl Course {
    fn new(alloc: Global) -> Course {
        Course {
            alloc,
            tale: Tale::new(alloc),
            list: Vec::new(alloc),
            numbers: Numbers::new(),
            clock: 0,
            closed: 0,
            from: 0,
            counts: Counts {
                settled: 0,
                read: 0,
                late: 0,
                beside: 0,
                left: 0,
                shortened: 0,
                forgotten: 0,
                groups: 0,
                records: 0,
                empty_groups: 0,
            },
        }
    }

    /// One step. Whether the tale answers as the list does.
    fn advance(&mut self) -> Result<bool, Fail> {
        match self.numbers.below(10) {
            9 => self.begin_reading(),
            0 | 1 | 2 => self.open(),
            3 | 4 | 5 => self.settle(),
            6 => self.leave(),
            7 => self.forget(),
            _ => self.close(),
        }
    }

    fn open(&mut self) -> Result<bool, Fail> {
        let next = self.clock.min(MOST_ENDS) + 1;
        let end = next.saturating_add(self.numbers.below(3));
        let place = open_at(&mut self.tale, Stamp(end))?;
        let is_next = place == Some(self.list.len());
        self.list.push(Place {
            end,
            state: State::Open,
            wrote: Vec::new(self.alloc),
        })?;
        self.clock = end;
        Ok(is_next)
    }

    /// A read-only transaction begins.
    fn begin_reading(&mut self) -> Result<bool, Fail> {
        let begin = self.clock.min(MOST_ENDS) + 1;
        let place = open_reading_at(&mut self.tale, Stamp(begin))?;
        let is_next = place == Some(self.list.len());
        self.list.push(Place {
            end: begin,
            state: State::Reading,
            wrote: Vec::new(self.alloc),
        })?;
        self.clock = begin;
        Ok(is_next)
    }

    /// A place that is open for an end, if one of a few that are drawn is.
    fn open_place(&mut self) -> Option<usize> {
        for _ in 0..4 {
            let place = self.numbers.below(self.list.len() as u64) as usize;
            if self.list.get(place).map(|at| is_open(at.state)) == Some(true) {
                return Some(place);
            }
        }
        self.list.iter().position(|at| is_open(at.state))
    }

    fn settle(&mut self) -> Result<bool, Fail> {
        let Some(place) = self.open_place() else {
            return Ok(true);
        };
        let Some(at) = self.list.get_mut(place) else {
            return Ok(false);
        };
        let (reads, end) = (at.state == State::Reading, Stamp(at.end));
        at.state = State::Settled;
        let operations = operations_at(self.alloc, &mut self.numbers, at, reads)?;
        self.count_read(reads, end);
        count(&mut self.counts.settled, 1);
        self.settle_with(place, end, reads, operations)
    }

    /// Stores a commit of these operations at the place.
    fn settle_with(
        &mut self,
        place: usize,
        end: Stamp,
        reads: bool,
        operations: Vec<(Op, Answer)>,
    ) -> Result<bool, Fail> {
        let before = if reads { 0 } else { 1 };
        let id = TxId(end.0.saturating_sub(before));
        match entry_of(self.alloc, id, end, operations)? {
            Some(entry) => Ok(settle_at(&mut self.tale, place, entry)),
            None => Ok(false),
        }
    }

    /// Of a read-only one: that it was stored, and whether it came below the last mark.
    fn count_read(&mut self, reads: bool, end: Stamp) {
        if reads {
            count(&mut self.counts.read, 1);
        }
        if reads && end.0 <= self.closed {
            count(&mut self.counts.late, 1);
        }
    }

    fn leave(&mut self) -> Result<bool, Fail> {
        let Some(place) = self.open_place() else {
            return Ok(true);
        };
        let Some(at) = self.list.get_mut(place) else {
            return Ok(false);
        };
        at.state = State::Empty;
        let end = Stamp(at.end);
        self.close_up();
        count(&mut self.counts.left, 1);
        Ok(leave_at(&mut self.tale, place, end))
    }

    /// The empty places at the back go, unless all are empty.
    fn close_up(&mut self) {
        let before = self.list.len();
        if self.list.iter().all(|at| at.state == State::Empty) {
            return;
        }
        for _ in 0..before {
            if self.list.last().map(|at| at.state) != Some(State::Empty) {
                break;
            }
            let _ = self.list.pop();
        }
        if self.list.len() < before {
            count(&mut self.counts.shortened, 1);
        }
    }

    /// Commits up to the last mark, or one before it, are forgotten.
    fn forget(&mut self) -> Result<bool, Fail> {
        let upto = self.closed.saturating_sub(self.numbers.below(6));
        self.tale.forget(Stamp(upto));
        for at in self.list.iter_mut() {
            if is_open(at.state) || (at.state == State::Settled && at.end > upto) {
                break;
            }
            if at.state == State::Settled {
                at.state = State::Empty;
                count(&mut self.counts.forgotten, 1);
            }
        }
        Ok(true)
    }

    fn low_water(&self) -> u64 {
        for at in &self.list {
            if at.state == State::Open {
                return at.end.saturating_sub(1);
            }
        }
        self.clock
    }

    /// Whether a read-only transaction that began up to there hasn't ended.
    fn reads_below(&self, low: u64) -> bool {
        self.list
            .iter()
            .any(|at| at.state == State::Reading && at.end <= low)
    }

    fn close(&mut self) -> Result<bool, Fail> {
        let low = self.low_water();
        if low <= self.closed {
            return Ok(true);
        }
        let prev = Stamp(self.closed);
        match next_group(&self.tale, self.alloc, self.from, prev, Stamp(low))? {
            Some(next) => Ok(self.close_with(&next, low)),
            None => Ok(false),
        }
    }

    /// The next group has these records. Whether they are due.
    fn close_with(&mut self, next: &NextRecords, low: u64) -> bool {
        let is_due = self.is_due(next, low);
        if self.reads_below(low) {
            count(&mut self.counts.beside, 1);
        }
        count(&mut self.counts.groups, 1);
        count(&mut self.counts.records, next.records.len() as u64);
        if next.records.is_empty() {
            count(&mut self.counts.empty_groups, 1);
        }
        self.from = next.next;
        self.closed = next.mark.0;
        is_due
    }

    /// Whether the records are those of all that wrote above the last mark and up to this one.
    fn is_due(&self, next: &NextRecords, low: u64) -> bool {
        let mut at = 0usize;
        for place in &self.list {
            let within = self.closed < place.end && place.end <= low;
            if within && place.state == State::Settled && !place.wrote.is_empty() {
                let Some(commit) = next.records.get(at) else {
                    return false;
                };
                if !is_record(commit, place.end, &place.wrote) {
                    return false;
                }
                at = at.saturating_add(1);
            }
        }
        at == next.records.len() && next.mark.0 == low
    }

    /// Whether the tale shows the same at a place as the list.
    fn is_shown(&mut self) -> bool {
        let place = self.numbers.below(self.list.len() as u64 + 1) as usize;
        let shown = self.tale.get(place).map(|entry| entry.end.0);
        let wanted = match self.list.get(place) {
            Some(at) if at.state == State::Settled => Some(at.end),
            _ => None,
        };
        self.tale.len() == self.list.len() && shown == wanted
    }
}

fn go(rt: &impl Abort, course: &mut Course) -> Result<(), Fail> {
    for step in 0..STEPS {
        same_at(rt, &course.advance()?, &true, step);
        same_at(rt, &course.is_shown(), &true, step);
    }
    Ok(())
}

fn check_counts(rt: &impl Abort, counts: &Counts) {
    let floors = [
        (counts.settled, 500),
        (counts.read, 100),
        (counts.late, 20),
        (counts.beside, 20),
        (counts.left, 100),
        (counts.shortened, 10),
        (counts.forgotten, 300),
        (counts.groups, 100),
        (counts.records, 300),
        (counts.empty_groups, 5),
    ];
    above(rt, &floors);
}

fn check(rt: &impl Abort, course: &mut Course) -> Result<(), Fail> {
    go(rt, course)?;
    check_counts(rt, &course.counts);
    Ok(())
}

#[test]
fn agrees_with_a_plain_list(rt: HostRuntime) -> Result<(), Fail> {
    let mut course = Course::new(rt.alloc());
    check(&rt, &mut course)
}
