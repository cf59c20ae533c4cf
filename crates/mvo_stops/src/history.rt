//! What the replies to a script's lines say was committed and acknowledged.
ghost use Rattle.std.specs.Prelude.{◌≤◌, length};

use crate::commit::Commit;
use mvo_core::Settlement;
use mvo_script::{Line, LineReply, RowText};
use mvo_types::{Answer, Op, Row, Stamp};
use mvo_world::Reply;
use std::alloc::{AllocError, Global};
use std::collections::BTreeMap;
use std::mem;

/// A transaction by its name: what it has changed, its end once it is Committed, which is its begin
/// if it is read-only, and whether it is.
#[derive(Drop)]
struct Named {
    ops: Vec<Op>,
    end: Option<Stamp>,
    is_read_only: bool,
}

/// What the replies so far say.
pub struct History {
    alloc: Global,
    named: BTreeMap<String, Named>,
    /// By their end timestamps.
    commits: Vec<Commit>,
    acknowledged: Stamp,
    clock: Stamp,
}

impl Drop for History {
    fn drop(self) {
        let History {
            alloc: _,
            named: _,
            commits: _,
            acknowledged: _,
            clock: _,
        } = self;
    }
}

/// The row of a line.
fn row_of(alloc: Global, text: RowText<'_>) -> Result<Row, AllocError> {
    let RowText { key, sort, digits } = text;
    match hex::decode(alloc, digits) {
        Ok(bytes) => Row::new(key, sort, bytes),
        Err(_) => Err(AllocError),
    }
}

/// What a line did that was answered so, if it changed a row.
fn op_of(alloc: Global, line: Line<'_>, answer: &Answer) -> Result<Option<Op>, AllocError> {
    match (line, answer) {
        (Line::Insert(_, row), Answer::Inserted) => Ok(Some(Op::Insert(row_of(alloc, row)?))),
        (Line::Update(_, row), Answer::Updated) => Ok(Some(Op::Update(row_of(alloc, row)?))),
        (Line::Delete(_, key), Answer::Deleted) => Ok(Some(Op::Delete(key))),
        _ => Ok(None),
    }
}

/// The name of the transaction that a line changes rows for, settles or polls.
fn name_of<'a>(line: Line<'a>) -> Option<&'a str> {
    match line {
        Line::Insert(name, _)
        | Line::Update(name, _)
        | Line::Delete(name, _)
        | Line::Settle(name)
        | Line::Commit(name)
        | Line::Poll(name) => Some(name),
        _ => None,
    }
}

impl History {
    ghost use Rattle.std.specs.Prelude.{◌≡◌};

    /// That of a store that was opened at this mark.
    pub fn new(alloc: Global, mark: Stamp) -> History {
        History {
            alloc,
            named: BTreeMap::new(alloc),
            commits: Vec::new(alloc),
            acknowledged: mark,
            clock: mark,
        }
    }

    /// The commits, by their end timestamps.
    pub fn commits(&self) -> &[Commit]
        ensures { result.now ≡ self.now.commits.items }
    {
        &self.commits
    }

    /// The greatest timestamp that was acknowledged.
    pub fn acknowledged(&self) -> Stamp
        ensures { result ≡ self.now.acknowledged }
    {
        self.acknowledged
    }

    /// No timestamp above it can have been drawn.
    pub fn clock(&self) -> Stamp
        ensures { result ≡ self.now.clock }
    {
        self.clock
    }

    /// Notes the reply to a line.
    pub fn note(&mut self, bytes: &[u8], reply: &LineReply) -> Result<(), AllocError> {
        match (Line::parse(bytes), reply) {
            (Some(line), LineReply::Answered(reply)) => self.note_line(line, reply),
            _ => Ok(()),
        }
    }

    fn note_line(&mut self, line: Line<'_>, reply: &Reply) -> Result<(), AllocError> {
        if self.may_draw(line) {
            self.clock = Stamp(self.clock.0.saturating_add(1));
        }
        match (line, reply) {
            (Line::Begin(name), Reply::Began(_)) => self.begin(name, false),
            (Line::BeginReadOnly(name), Reply::Began(_)) => self.begin(name, true),
            (_, Reply::Durable(mark)) => {
                self.acknowledge(*mark);
                Ok(())
            }
            _ => match name_of(line) {
                Some(name) => self.note_named(name, line, reply),
                None => Ok(()),
            },
        }
    }

    /// Whether a line draws a timestamp, one at most. The end of a read-only transaction is its
    /// begin, so none is drawn for it.
    fn may_draw(&self, line: Line<'_>) -> bool {
        match line {
            Line::Begin(_) | Line::BeginReadOnly(_) => true,
            Line::Precommit(name) | Line::Commit(name) => !self.is_read_only(name),
            _ => false,
        }
    }

    /// Whether the transaction with this name is read-only.
    fn is_read_only(&self, name: &str) -> bool {
        match self.named.get(name) {
            Some(named) => named.is_read_only,
            None => false,
        }
    }

    /// Notes the reply to a line of a transaction.
    fn note_named(&mut self, name: &str, line: Line<'_>, reply: &Reply) -> Result<(), AllocError> {
        match reply {
            Reply::Answered(answer) => match op_of(self.alloc, line, answer)? {
                Some(op) => self.add(name, op),
                None => Ok(()),
            },
            Reply::Settled(Settlement::Committed(end)) => self.commit(name, *end),
            Reply::Polled(true) => {
                self.acknowledge_named(name);
                Ok(())
            }
            _ => Ok(()),
        }
    }

    fn acknowledge(&mut self, mark: Stamp) {
        self.acknowledged = self.acknowledged.max(mark);
    }

    /// Acknowledges the end of the transaction with this name.
    fn acknowledge_named(&mut self, name: &str) {
        let end = match self.named.get(name) {
            Some(named) => named.end,
            None => None,
        };
        if let Some(end) = end {
            self.acknowledge(end);
        }
    }

    /// A transaction begins.
    fn begin(&mut self, name: &str, is_read_only: bool) -> Result<(), AllocError> {
        let name = String::from_str(self.alloc, name)?;
        let named = Named {
            ops: Vec::new(self.alloc),
            end: None,
            is_read_only,
        };
        self.named.insert(name, named)?;
        Ok(())
    }

    /// A transaction has changed a row.
    fn add(&mut self, name: &str, op: Op) -> Result<(), AllocError> {
        if let Some(named) = self.named.get_mut(name) {
            named.ops.push(op)?;
        }
        Ok(())
    }

    /// A transaction is Committed. A read-only one has changed nothing, so what is left has the
    /// same rows with it and without it.
    fn commit(&mut self, name: &str, end: Stamp) -> Result<(), AllocError> {
        let Some(named) = self.named.get_mut(name) else {
            return Ok(());
        };
        named.end = Some(end);
        if named.is_read_only {
            return Ok(());
        }
        let ops = mem::replace(&mut named.ops, Vec::new(self.alloc));
        let at = place_of(&self.commits, end);
        self.commits.insert(at, Commit { end, ops })?;
        Ok(())
    }
}

/// Where a commit with this end belongs.
fn place_of(commits: &[Commit], end: Stamp) -> usize
    ensures { result ≤ length commits.now }
{
    for (at, commit) in commits.iter().enumerate() {
        if end < commit.end {
            return at;
        }
    }
    commits.len()
}
