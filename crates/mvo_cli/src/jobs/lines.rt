use crate::jobs::ended::ends_transaction;
use mvo_core::Settlement;
use mvo_disk::Disk;
use mvo_engine::{Gate, Run, Session};
use mvo_script::{Line, LineReply, RowText, SortRange};
use mvo_types::{Answer, Refusal, Row, RowKey, Stamp, TxId};
use mvo_world::Reply;
use std::alloc::Global;
use std::sync::Wait;

/// Answers the lines of a job, one after another, by the calls of its session. Only `begin`,
/// `begin-read`, `read`, `scan`, `insert`, `update`, `delete`, `commit` and `rollback` are lines of
/// a job.
pub struct Lines<'e, L: Run, D: Disk, G: Gate + Drop> {
    alloc: Global,
    session: Session<'e, L, D, G>,
    /// The name of the present transaction, if there is one.
    name: Option<String>,
    /// How many of its transactions have committed.
    commits: u64,
    /// The end of the last one of these.
    last: Stamp,
}

impl<'e, L: Run, D: Disk, G: Gate + Drop> Drop for Lines<'e, L, D, G> {
    fn drop(self) {
        let Lines {
            alloc: _,
            session: _,
            name: _,
            commits: _,
            last: _,
        } = self;
    }
}

impl<'e, L: Run, D: Disk, G: Gate + Drop> Lines<'e, L, D, G> {
    /// The lines of a session, which has begun no transaction.
    pub fn new(alloc: Global, session: Session<'e, L, D, G>) -> Lines<'e, L, D, G> {
        Lines {
            alloc,
            session,
            name: None,
            commits: 0,
            last: Stamp(0),
        }
    }

    /// How many of its transactions have committed.
    pub fn commits(&self) -> u64 {
        self.commits
    }

    /// The reply to a line, without its line feed. A line is bad where it is none of a job, and
    /// where its name isn't that of the present transaction. A bad line changes nothing.
    pub fn answer<R: Wait>(&mut self, rt: &R, bytes: &[u8]) -> LineReply {
        let Some(line) = Line::parse(bytes) else {
            return LineReply::BadLine;
        };
        match self.reply_to(rt, line) {
            Some(reply) => LineReply::Answered(reply),
            None => LineReply::BadLine,
        }
    }

    /// Waits until what has committed is durable. It shares its flush with all who wait.
    pub fn make_durable<R: Wait>(&mut self, rt: &R) -> LineReply {
        match self.session.make_durable(rt, self.last) {
            Ok(()) => LineReply::Answered(Reply::Durable(self.last)),
            Err(refusal) => LineReply::Answered(Reply::Refused(refusal)),
        }
    }

    /// Rolls the present transaction back, if there is one: a session that is let go of inside a
    /// transaction would keep its place, its rows from all others, and trims and collections back.
    pub fn end<R: Wait>(&mut self, rt: &R) {
        let _ = self.session.rollback_tx(rt);
        self.name = None;
    }

    /// The reply to a line, if it is one of a job, and of the present transaction.
    fn reply_to<R: Wait>(&mut self, rt: &R, line: Line<'_>) -> Option<Reply> {
        match line {
            Line::Begin(name) => Some(self.begin(rt, name)),
            Line::BeginReadOnly(name) => Some(self.begin_read_only(rt, name)),
            Line::Read(name, key) if self.is_present(name) => Some(self.read(rt, key)),
            Line::Scan(name, range) if self.is_present(name) => Some(self.scan(rt, range)),
            Line::Insert(name, text) if self.is_present(name) => Some(self.insert(rt, text)),
            Line::Update(name, text) if self.is_present(name) => Some(self.update(rt, text)),
            Line::Delete(name, key) if self.is_present(name) => Some(self.delete(rt, key)),
            Line::Commit(name) if self.is_present(name) => Some(self.commit(rt)),
            Line::Rollback(name) if self.is_present(name) => Some(self.rollback(rt)),
            _ => None,
        }
    }

    /// Whether it is the name of the present transaction.
    fn is_present(&self, name: &str) -> bool {
        match &self.name {
            Some(present) => present.as_str() == name,
            None => false,
        }
    }

    /// Begins a transaction with this name. Room for the name is taken first. Inside a transaction
    /// the session refuses it as Busy, and the name of that one stays.
    fn begin<R: Wait>(&mut self, rt: &R, name: &str) -> Reply {
        let Ok(name) = String::from_str(self.alloc, name) else {
            return Reply::Refused(Refusal::OutOfMemory);
        };
        let begun = self.session.begin_tx(rt);
        self.begun(name, begun)
    }

    /// The same of a read-only transaction.
    fn begin_read_only<R: Wait>(&mut self, rt: &R, name: &str) -> Reply {
        let Ok(name) = String::from_str(self.alloc, name) else {
            return Reply::Refused(Refusal::OutOfMemory);
        };
        let begun = self.session.begin_read_only(rt);
        self.begun(name, begun)
    }

    /// The reply to a begin. Where it is refused, the present transaction's name stays.
    fn begun(&mut self, name: String, begun: Result<TxId, Refusal>) -> Reply {
        match begun {
            Ok(tx) => {
                self.name = Some(name);
                Reply::Began(tx)
            }
            Err(refusal) => Reply::Refused(refusal),
        }
    }

    fn read<R: Wait>(&mut self, rt: &R, key: RowKey) -> Reply {
        let answered = self.session.read(rt, key);
        self.told(answered)
    }

    fn scan<R: Wait>(&mut self, rt: &R, range: SortRange) -> Reply {
        let SortRange { table, lo, hi } = range;
        let answered = self.session.scan(rt, table, lo, hi);
        self.told(answered)
    }

    fn insert<R: Wait>(&mut self, rt: &R, text: RowText<'_>) -> Reply {
        let Some(row) = row_of(self.alloc, text) else {
            return Reply::Refused(Refusal::OutOfMemory);
        };
        let answered = self.session.insert(rt, row);
        self.told(answered)
    }

    fn update<R: Wait>(&mut self, rt: &R, text: RowText<'_>) -> Reply {
        let Some(row) = row_of(self.alloc, text) else {
            return Reply::Refused(Refusal::OutOfMemory);
        };
        let answered = self.session.update(rt, row);
        self.told(answered)
    }

    fn delete<R: Wait>(&mut self, rt: &R, key: RowKey) -> Reply {
        let answered = self.session.delete(rt, key);
        self.told(answered)
    }

    /// Commits the present transaction. Refused for want of memory or of timestamps it is still
    /// there, and the script may repeat the line.
    fn commit<R: Wait>(&mut self, rt: &R) -> Reply {
        match self.session.commit_tx(rt) {
            Ok(end) => {
                self.name = None;
                self.commits = self.commits.saturating_add(1);
                self.last = end;
                Reply::Settled(Settlement::Committed(end))
            }
            Err(refusal) => self.refused(refusal),
        }
    }

    fn rollback<R: Wait>(&mut self, rt: &R) -> Reply {
        match self.session.rollback_tx(rt) {
            Ok(()) => {
                self.name = None;
                Reply::RolledBack
            }
            Err(refusal) => self.refused(refusal),
        }
    }

    /// The reply to an operation.
    fn told(&mut self, answered: Result<Answer, Refusal>) -> Reply {
        match answered {
            Ok(answer) => Reply::Answered(answer),
            Err(refusal) => self.refused(refusal),
        }
    }

    /// A refusal as the reply. Where it has ended the transaction, none is present any longer.
    fn refused(&mut self, refusal: Refusal) -> Reply {
        if ends_transaction(refusal) {
            self.name = None;
        }
        Reply::Refused(refusal)
    }
}

/// The row that a line gives, with its data. None where memory is lacking: the digits are even in
/// number and hexadecimal, so nothing else can be.
fn row_of(alloc: Global, text: RowText<'_>) -> Option<Row> {
    let RowText { key, sort, digits } = text;
    match hex::decode(alloc, digits) {
        Ok(bytes) => Row::new(key, sort, bytes).ok(),
        Err(_) => None,
    }
}
