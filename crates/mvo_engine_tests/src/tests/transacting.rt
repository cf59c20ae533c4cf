//! Whole transactions of a session, by `transact`.
ghost use Rattle.std.specs.Prelude.{◌≡◌};

use super::asking::Ask::{
    Begin, Change, Commit, Find, InsertBeside, Read, Rollback, Transact, Update, UpdateBeside,
};
use super::rows::{KEY, beside, byte_in, row};
use super::steps::CoreStep::{Clock, TrimAll};
use super::steps::Line;
use super::steps::Step::{Core, One, Other};
use super::told::Told::{self, Byte, Done, GivenUp, Inserted, Number, Updated, Whole};
use super::told::{BAD_TABLE, BUSY, WRITE_CONFLICT, whole};
use super::trial::{Trial, tried_anew};
use mvo_disk::Disk;
use mvo_engine::{Gate, OpenGate, Outcome, Run, Session, Transaction};
use mvo_types::{Refusal, RowKey};
use std::alloc::Global;
use std::sync::Wait;
use std::test::*;

/// What is done in a transaction.
#[derive(Clone, Copy)]
pub enum Work {
    /// Puts the byte at the key in place of what is there. It looks at another key too, so that its
    /// commit has more than one entry to check.
    Replace(u8),
    /// Changes a row, and then reads in a table that isn't there.
    Stray,
    /// Changes a row, and then one that another has changed.
    Clash,
    /// Changes two rows, and gives up.
    GiveUp,
    /// Ends the transaction itself, and gives up.
    Leave,
}

#[derive(Drop)]
struct Replacing {
    alloc: Global,
    byte: u8,
}

impl<L: Run, D: Disk, G: Gate + Drop> Transaction<Option<u8>, L, D, G> for Replacing {
    fn run<R: Wait>(
        &self,
        rt: &R,
        session: &mut Session<'_, L, D, G>,
    ) -> Result<Outcome<Option<u8>>, Refusal> {
        let before = byte_in(&session.read(rt, KEY)?);
        session.read(rt, RowKey { table: 0, key: 6 })?;
        insert(rt, self.alloc, session, self.byte)?;
        update(rt, self.alloc, session, self.byte)?;
        Ok(Outcome::Commit(before))
    }
}

#[derive(Drop)]
struct Straying {
    alloc: Global,
}

impl<L: Run, D: Disk, G: Gate + Drop> Transaction<Option<u8>, L, D, G> for Straying {
    fn run<R: Wait>(
        &self,
        rt: &R,
        session: &mut Session<'_, L, D, G>,
    ) -> Result<Outcome<Option<u8>>, Refusal> {
        update(rt, self.alloc, session, 9)?;
        let key = RowKey { table: 255, key: 1 };
        Ok(Outcome::Commit(byte_in(&session.read(rt, key)?)))
    }
}

#[derive(Drop)]
struct Clashing {
    alloc: Global,
}

impl<L: Run, D: Disk, G: Gate + Drop> Transaction<Option<u8>, L, D, G> for Clashing {
    fn run<R: Wait>(
        &self,
        rt: &R,
        session: &mut Session<'_, L, D, G>,
    ) -> Result<Outcome<Option<u8>>, Refusal> {
        update_beside(rt, self.alloc, session, 9)?;
        update(rt, self.alloc, session, 9)?;
        Ok(Outcome::Commit(None))
    }
}

#[derive(Drop)]
struct GivingUp {
    alloc: Global,
}

impl<L: Run, D: Disk, G: Gate + Drop> Transaction<Option<u8>, L, D, G> for GivingUp {
    fn run<R: Wait>(
        &self,
        rt: &R,
        session: &mut Session<'_, L, D, G>,
    ) -> Result<Outcome<Option<u8>>, Refusal> {
        let before = byte_in(&session.read(rt, KEY)?);
        update(rt, self.alloc, session, 9)?;
        update_beside(rt, self.alloc, session, 9)?;
        Ok(Outcome::GiveUp(before))
    }
}

#[derive(Drop)]
struct Leaving;

impl<L: Run, D: Disk, G: Gate + Drop> Transaction<Option<u8>, L, D, G> for Leaving {
    fn run<R: Wait>(
        &self,
        rt: &R,
        session: &mut Session<'_, L, D, G>,
    ) -> Result<Outcome<Option<u8>>, Refusal> {
        session.rollback_tx(rt)?;
        Ok(Outcome::GiveUp(None))
    }
}

fn insert<L: Run, D: Disk, G: Gate + Drop, R: Wait>(
    rt: &R,
    alloc: Global,
    session: &mut Session<'_, L, D, G>,
    byte: u8,
) -> Result<(), Refusal>
    ensures { session.new.receipts ≡ session.old.receipts }
{
    session.insert(rt, row(alloc, byte)?)?;
    Ok(())
}

fn update<L: Run, D: Disk, G: Gate + Drop, R: Wait>(
    rt: &R,
    alloc: Global,
    session: &mut Session<'_, L, D, G>,
    byte: u8,
) -> Result<(), Refusal>
    ensures { session.new.receipts ≡ session.old.receipts }
{
    session.update(rt, row(alloc, byte)?)?;
    Ok(())
}

fn update_beside<L: Run, D: Disk, G: Gate + Drop, R: Wait>(
    rt: &R,
    alloc: Global,
    session: &mut Session<'_, L, D, G>,
    byte: u8,
) -> Result<(), Refusal>
    ensures { session.new.receipts ≡ session.old.receipts }
{
    session.update(rt, beside(alloc, byte)?)?;
    Ok(())
}

/// What a session is told that tries the work at most so many times.
pub fn transact<L: Run, D: Disk, G: Gate + Drop, R: Wait>(
    rt: &R,
    alloc: Global,
    session: &mut Session<'_, L, D, G>,
    times: u32,
    work: Work,
) -> Told {
    match work {
        Work::Replace(byte) => whole(session.transact(rt, times, &Replacing { alloc, byte })),
        Work::Stray => whole(session.transact(rt, times, &Straying { alloc })),
        Work::Clash => whole(session.transact(rt, times, &Clashing { alloc })),
        Work::GiveUp => whole(session.transact(rt, times, &GivingUp { alloc })),
        Work::Leave => whole(session.transact(rt, times, &Leaving)),
    }
}

/// Work that gives up is rolled back and finished in the core, in one attempt: nothing of it is
/// left, another session changes what it had changed, and the tale is trimmed up to the clock.
const GIVEN_UP: [Line; 13] = [
    (One(Transact(1, Work::Replace(1))), Whole(None, 2)),
    (Other(Begin), Number(3)),
    (Other(InsertBeside(2)), Inserted),
    (Other(Commit), Number(4)),
    (One(Transact(3, Work::GiveUp)), GivenUp(Some(1))),
    (Core(Clock), Number(5)),
    (Core(TrimAll), Done),
    (One(Find), Byte(Some(1))),
    (Other(Begin), Number(8)),
    (Other(UpdateBeside(3)), Updated),
    (Other(Commit), Number(9)),
    // So is work that ended the transaction itself.
    (One(Transact(3, Work::Leave)), GivenUp(None)),
    (One(Transact(1, Work::Replace(2))), Whole(Some(1), 12)),
];

const DONE_WHOLE: [Line; 29] = [
    // It is committed at the end that is answered: 2 behind the begin 1, and 4 behind 3.
    (One(Transact(1, Work::Replace(1))), Whole(None, 2)),
    (One(Transact(0, Work::Replace(2))), Whole(Some(1), 4)),
    (One(Find), Byte(Some(2))),
    // Another has written the key: each attempt is refused, and nothing is left of it. There are
    // three begins, each of which draws a timestamp.
    (Other(Begin), Number(7)),
    (Other(Update(3)), Updated),
    (Core(Clock), Number(7)),
    (One(Transact(3, Work::Replace(4))), WRITE_CONFLICT),
    (Core(Clock), Number(10)),
    (Other(Rollback), Done),
    (One(Find), Byte(Some(2))),
    // Any other refusal rolls it back; and inside a transaction it is refused, and that goes on.
    (One(Transact(3, Work::Stray)), BAD_TABLE),
    (One(Begin), Number(14)),
    (One(Transact(3, Work::Replace(5))), BUSY),
    (One(Read), Byte(Some(2))),
    (One(Rollback), Done),
    // Work that is refused is rolled back and finished in the core: the tale is trimmed up to the
    // clock, and another session changes what it had changed.
    (One(Transact(1, Work::Stray)), BAD_TABLE),
    (Core(TrimAll), Done),
    (Other(Change(6)), Number(17)),
    (One(Find), Byte(Some(6))),
    // So is work that another was in the way of.
    (Other(Begin), Number(20)),
    (Other(InsertBeside(1)), Inserted),
    (Other(Commit), Number(21)),
    (Other(Begin), Number(22)),
    (Other(Update(7)), Updated),
    (One(Transact(1, Work::Clash)), WRITE_CONFLICT),
    (Other(UpdateBeside(7)), Updated),
    (Other(Commit), Number(24)),
    (Core(TrimAll), Done),
    (One(Find), Byte(Some(7))),
];

#[test]
fn whole_transactions_are_told(rt: HostRuntime) -> Result<(), Fail> {
    tried_anew(&rt, rt.alloc(), OpenGate, Trial::Steps(&DONE_WHOLE))?;
    Ok(())
}

#[test]
fn transactions_give_up(rt: HostRuntime) -> Result<(), Fail> {
    tried_anew(&rt, rt.alloc(), OpenGate, Trial::Steps(&GIVEN_UP))?;
    Ok(())
}
