//! A session that moves amounts between rows, and flushes behind each commit.
use crate::draft::Draft;
use crate::keeping::Keeping;
use crate::keys::{Keys, mixed};
use crate::meanwhile::Meanwhile;
use crate::rows::key_of;
use crate::shared::found;
use crate::stopped::Stopped;
use crate::threads::{nanos_since, now};
use mvo_disk::Disk;
use mvo_engine::{Engine, OpenGate, Run, Session};
use mvo_types::{Refusal, Row, Stamp};
use std::alloc::Global;
use std::rt::Clock;
use std::sync::Wait;

/// So many rows are read and put by a move.
const ROWS: u64 = 4;

/// A call of a move.
#[derive(Clone, Copy)]
enum Call {
    Begin,
    ReadFrom,
    ReadTo,
    Take,
    Give,
    Commit,
    Flush,
}

/// Those of one move, in order.
const CALLS: [Call; 7] = [
    Call::Begin,
    Call::ReadFrom,
    Call::ReadTo,
    Call::Take,
    Call::Give,
    Call::Commit,
    Call::Flush,
];

pub struct Moving<'e, L: Run, D: Disk> {
    engine: &'e Engine<L, D, OpenGate>,
    session: Session<'e, L, D, OpenGate>,
    keeping: Keeping,
    draft: Draft,
    /// The rows that were read last.
    from: Option<Row>,
    to: Option<Row>,
    mark: Stamp,
}

impl<'e, L: Run, D: Disk> Drop for Moving<'e, L, D> {
    fn drop(self) {
        let Moving {
            engine: _,
            session: _,
            keeping: _,
            draft: _,
            from: _,
            to: _,
            mark: _,
        } = self;
    }
}

impl<'e, L: Run, D: Disk> Moving<'e, L, D> {
    /// A session that has its turns of the upkeep after every so many rows.
    pub fn new<R: Wait>(
        rt: &R,
        alloc: Global,
        engine: &'e Engine<L, D, OpenGate>,
        upkeep: u64,
    ) -> Result<Moving<'e, L, D>, Refusal> {
        Ok(Moving {
            engine,
            session: engine.session(rt)?,
            keeping: Keeping::new(upkeep, true),
            draft: Draft::new(alloc),
            from: None,
            to: None,
            mark: Stamp(0),
        })
    }

    /// So many moves.
    pub fn make<R: Clock + Wait>(
        &mut self,
        rt: &R,
        keys: &Keys,
        notes: &Meanwhile,
        count: u64,
    ) -> Result<(), Stopped> {
        for round in 0..count {
            self.make_one(rt, keys, notes, round)?;
        }
        Ok(())
    }

    /// Moves until another thread is at its end.
    pub fn make_on<R: Clock + Wait>(
        &mut self,
        rt: &R,
        keys: &Keys,
        notes: &Meanwhile,
    ) -> Result<(), Stopped> {
        for round in 0..u64::MAX {
            if notes.has_ended() {
                break;
            }
            self.make_one(rt, keys, notes, round)?;
        }
        Ok(())
    }

    /// One move, of which each call is timed, and the upkeep, which isn't.
    fn make_one<R: Clock + Wait>(
        &mut self,
        rt: &R,
        keys: &Keys,
        notes: &Meanwhile,
        round: u64,
    ) -> Result<(), Stopped> {
        let at = round.wrapping_mul(2);
        let (from, to) = (keys.at(at), keys.at(at.wrapping_add(1)));
        let to = if from == to { from ^ 1 } else { to };
        let before = self.mark;
        for call in CALLS {
            let stage = notes.stage();
            let start = now(rt)?;
            self.call(rt, call, (from, to), mixed(round))?;
            notes.note_call(stage, nanos_since(rt, start)?);
        }
        notes.note_move(self.mark > before);
        Ok(self.keeping.count(rt, self.engine, ROWS)?)
    }

    fn call<R: Wait>(
        &mut self,
        rt: &R,
        call: Call,
        (from, to): (u64, u64),
        amount: u64,
    ) -> Result<(), Refusal> {
        match call {
            Call::Begin => begin(rt, &mut self.session),
            Call::ReadFrom => read(rt, &mut self.session, from, &mut self.from),
            Call::ReadTo => read(rt, &mut self.session, to, &mut self.to),
            Call::Take => self.change_from(rt, amount),
            Call::Give => self.change_to(rt, amount),
            Call::Commit => commit(rt, &mut self.session),
            Call::Flush => self.flush(rt),
        }
    }

    fn change_from<R: Wait>(&mut self, rt: &R, amount: u64) -> Result<(), Refusal> {
        let by = 0u64.wrapping_sub(amount);
        change(rt, &mut self.session, &mut self.draft, &self.from, by)
    }

    fn change_to<R: Wait>(&mut self, rt: &R, amount: u64) -> Result<(), Refusal> {
        change(rt, &mut self.session, &mut self.draft, &self.to, amount)
    }

    fn flush<R: Wait>(&mut self, rt: &R) -> Result<(), Refusal> {
        self.mark = self.engine.flush(rt)?;
        Ok(())
    }
}

fn begin<L: Run, D: Disk, R: Wait>(
    rt: &R,
    session: &mut Session<'_, L, D, OpenGate>,
) -> Result<(), Refusal> {
    session.begin_tx(rt)?;
    Ok(())
}

fn read<L: Run, D: Disk, R: Wait>(
    rt: &R,
    session: &mut Session<'_, L, D, OpenGate>,
    key: u64,
    row: &mut Option<Row>,
) -> Result<(), Refusal> {
    *row = Some(found(session.read(rt, key_of(key))?)?);
    Ok(())
}

/// Adds so much to the amount of the row.
fn change<L: Run, D: Disk, R: Wait>(
    rt: &R,
    session: &mut Session<'_, L, D, OpenGate>,
    draft: &mut Draft,
    row: &Option<Row>,
    by: u64,
) -> Result<(), Refusal> {
    if let Some(row) = row {
        session.update(rt, draft.moved(row, by)?)?;
    }
    Ok(())
}

fn commit<L: Run, D: Disk, R: Wait>(
    rt: &R,
    session: &mut Session<'_, L, D, OpenGate>,
) -> Result<(), Refusal> {
    session.commit_tx(rt)?;
    Ok(())
}
