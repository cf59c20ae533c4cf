//! What a session of a test is asked.

use super::kinds::Kind;
use super::rows::{KEY, beside, change, changes, found, many, put, row};
use super::told::{Told, answered, begun, done, seen, stamped};
use super::transacting::{Work, transact};
use mvo_disk::Disk;
use mvo_engine::{Gate, Run, Session};
use mvo_types::{Answer, Refusal, Stamp};
use std::alloc::Global;
use std::sync::Wait;

/// What a session is asked, of the row at the key if nothing else is said.
#[derive(Clone, Copy)]
pub enum Ask {
    Begin,
    /// To begin one that only reads.
    BeginReport,
    Commit,
    Rollback,
    Read,
    /// The rows with a sort from one to the other.
    Scan(u64, u64),
    Insert(u8),
    Update(u8),
    Delete,
    /// The row at another key.
    InsertBeside(u8),
    UpdateBeside(u8),
    /// To put the row in a transaction of its own.
    Put(u8),
    /// To change it in a transaction of its own.
    Change(u8),
    /// To change it to each of these bytes in turn.
    Changes(u8, u8),
    /// To change it so many times.
    Many(u32, u8),
    /// To read it in a transaction of its own.
    Find,
    /// An operation that is answered of its kind.
    Of(Kind),
    /// To try a whole transaction, at most so many times.
    Transact(u32, Work),
    /// Whether all up to the stamp is durable.
    Poll(u64),
    /// To wait until it is.
    Await(u64),
}

impl Ask {
    /// What the session is told.
    pub fn of<L: Run, D: Disk, G: Gate + Drop, R: Wait>(
        self,
        rt: &R,
        alloc: Global,
        session: &mut Session<'_, L, D, G>,
    ) -> Told {
        match self {
            Ask::Begin => begun(session.begin_tx(rt)),
            Ask::BeginReport => begun(session.begin_read_only(rt)),
            Ask::Commit => stamped(session.commit_tx(rt)),
            Ask::Rollback => done(session.rollback_tx(rt)),
            Ask::Of(kind) => kind.of(rt, alloc, session),
            Ask::Transact(times, work) => transact(rt, alloc, session, times, work),
            Ask::Poll(stamp) => Told::Is(session.poll_durable(Stamp(stamp))),
            Ask::Await(stamp) => done(session.wait_durable(rt, Stamp(stamp))),
            Ask::Find => seen(found(rt, session)),
            Ask::Put(_) | Ask::Change(_) | Ask::Changes(_, _) | Ask::Many(_, _) => {
                stamped(self.commit(rt, alloc, session))
            }
            _ => answered(&self.operate(rt, alloc, session)),
        }
    }

    // Writes in transactions of their own, and answers where the last one ends.
    fn commit<L: Run, D: Disk, G: Gate + Drop, R: Wait>(
        self,
        rt: &R,
        alloc: Global,
        session: &mut Session<'_, L, D, G>,
    ) -> Result<Stamp, Refusal> {
        match self {
            Ask::Put(byte) => put(rt, alloc, session, byte),
            Ask::Changes(first, last) => changes(rt, alloc, session, first, last),
            Ask::Many(times, byte) => many(rt, alloc, session, times, byte),
            Ask::Change(byte) => change(rt, alloc, session, byte),
            _ => Err(Refusal::NothingToDo),
        }
    }

    // An operation of the session's transaction.
    fn operate<L: Run, D: Disk, G: Gate + Drop, R: Wait>(
        self,
        rt: &R,
        alloc: Global,
        session: &mut Session<'_, L, D, G>,
    ) -> Result<Answer, Refusal> {
        match self {
            Ask::Read => session.read(rt, KEY),
            Ask::Scan(lo, hi) => session.scan(rt, 0, lo, hi),
            Ask::Insert(byte) => session.insert(rt, row(alloc, byte)?),
            Ask::Update(byte) => session.update(rt, row(alloc, byte)?),
            Ask::InsertBeside(byte) => session.insert(rt, beside(alloc, byte)?),
            Ask::UpdateBeside(byte) => session.update(rt, beside(alloc, byte)?),
            Ask::Delete => session.delete(rt, KEY),
            _ => Err(Refusal::NothingToDo),
        }
    }
}
