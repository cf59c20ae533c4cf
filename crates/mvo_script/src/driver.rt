mod keeping;

ghost use Rattle.std.specs.Prelude.{◌≡◌, IfOk, IfErr, IfSome};
ghost use Rattle.mvo_script.specs.Answers.{IsRowOf};
ghost use Rattle.mvo_script.specs.Fresh.{IsFreshWorld};

use crate::bound::BoundTx;
use crate::events::{event_by, event_of_line, name_in};
use crate::flush::flush;
use crate::line::{Line, RowText};
use crate::names::Names;
use crate::reply::LineReply;
use mvo_core::{Finishing, Settlement, Validation};
use mvo_disk::{Disk, MemDisk};
use mvo_store::{format, run_checkpoint, run_merge, run_rotation};
use mvo_types::{Op, Refusal, Row, Stamp, TxId};
use mvo_world::{Event, Reply, World, reply_of};
use std::alloc::Global;
use std::thread::Threads;

/// Answers the lines of a script, one after another, by the steps of a world.
pub struct Driver<D: Disk> {
    alloc: Global,
    world: World<D>,
    names: Names,
}

impl<D: Disk + Drop> Drop for Driver<D> {
    fn drop(self) {
        let Driver {
            alloc: _,
            world: _,
            names: _,
        } = self;
    }
}

impl Driver<MemDisk> {
    ghost use Rattle.std.specs.Prelude.{◌≡◌, IfOk, IfErr};
    ghost use Rattle.mvo_script.specs.Fresh.{IsFresh};

    /// A driver with the clock at 0, no rows and no names. Who chooses the keys of rows must not
    /// know the seed, as `World::open` says. Refused with 90 alone.
    pub fn new(
        rt: &(impl Threads + Sync),
        alloc: Global,
        seed: u64,
    ) -> Result<Driver<MemDisk>, Refusal>
        ensures fresh { IfOk result IsFresh }
        ensures memory { IfErr result (λ r. r ≡ Refusal.OutOfMemory) }
    {
        let world = fresh_world(rt, alloc, seed)?;
        Ok(Driver::over(alloc, world))
    }
}

impl<D: Disk> Driver<D> {
    ghost use Rattle.std.specs.Prelude.{◌≡◌, IsSome, IsSomeAnd, MatchOption, None, Some};
    ghost use Rattle.mvo_store.specs.Seen.{mark_of};
    ghost use Rattle.mvo_script.specs.Answers.{AreStepsOf, IsAnswerTo, IsAnswerBy, IsBeginStep, IsCommit, IsOfNoName, IsRowStep};
    ghost use Rattle.mvo_script.specs.Answers.{IsSettleStep, IsStepOf};
    ghost use Rattle.mvo_script.specs.Bound.{bound_by, is_covered, BindsNone};
    ghost use Rattle.mvo_script.specs.Events.{name_in};
    ghost use Rattle.mvo_script.specs.line.Forms.{HasForm};
    ghost use Rattle.mvo_script.specs.line.Written.{text_of};
    ghost use Rattle.mvo_script.specs.declared.line.line.Line.{Line};
    ghost use Rattle.mvo_world.specs.declared.reply.Reply.{Reply};
    ghost use Rattle.mvo_world.specs.Replies.{IsReplyTo};

    /// A driver over a world, with no names.
    pub fn over(alloc: Global, world: World<D>) -> Driver<D>
        ensures world { result.world ≡ world }
        ensures names { BindsNone result.names }
    {
        let names = Names::new(alloc);
        Driver {
            alloc,
            world,
            names,
        }
    }

    /// The mark of its world.
    pub fn mark(&self) -> Stamp
        ensures { result.0 ≡ mark_of self.now.world.store }
    {
        self.world.mark()
    }

    /// Its world.
    pub fn into_world(self) -> World<D>
        ensures { result ≡ self.world }
    {
        let Driver {
            alloc: _,
            world,
            names: _,
        } = self;
        world
    }

    /// The reply to a line, without its line feed. A bad line changes nothing. No clause says that
    /// the bytes of a line are never answered as a bad one.
    pub fn answer(&mut self, bytes: &[u8]) -> LineReply
        ensures bad { result ≡ LineReply.BadLine → self.new ≡ self.old }
        ensures answered { let step = IsReplyTo D.Disk in
            (r : Reply) → result ≡ LineReply.Answered r →
            (line : Line) × HasForm line × (text_of line ≡ bytes.now)
            × IsAnswerTo step self.old line r self.new }
    {
        let Some(line) = Line::parse(bytes) else {
            return LineReply::BadLine;
        };
        match self.reply_to(line) {
            Some(reply) => LineReply::Answered(reply),
            None => LineReply::BadLine,
        }
    }

    /// The reply to a line. None where its name was never begun.
    fn reply_to(&mut self, line: Line<'_>) -> Option<Reply>
        ensures { let step = IsReplyTo D.Disk in
            MatchOption result (IsOfNoName self.old.names line.entry × (self.new ≡ self.old))
            (λ r. IsAnswerTo step self.old line.entry r self.new) }
    {
        match name_in(line) {
            Some(name) => self.reply_for(line, name),
            None => self.reply_without(line),
        }
    }

    /// The reply to a line of the transaction with this name. None where it was never begun.
    fn reply_for(&mut self, line: Line<'_>, name: &str) -> Option<Reply>
        ensures { let step = IsReplyTo D.Disk in name_in line.entry ≡ Some name.now →
            MatchOption result ((bound_by self.old.names name.now ≡ None) × (self.new ≡ self.old))
            (λ r. IsAnswerTo step self.old line.entry r self.new) }
    {
        match self.bound(name) {
            Some(bound) => self.reply_by(line, name, bound),
            None => None,
        }
    }

    /// The reply to a line of a transaction, which the name is bound to. None to another line.
    fn reply_by(&mut self, line: Line<'_>, name: &str, bound: BoundTx) -> Option<Reply>
        ensures { let step = IsReplyTo D.Disk in IsSome (name_in line.entry) →
            IsSomeAnd result (λ r. IsAnswerBy step self.old line.entry name.now bound r self.new) }
    {
        match line {
            Line::Insert(_, row) => Some(self.insert(bound.tx, row)),
            Line::Update(_, row) => Some(self.update(bound.tx, row)),
            Line::Settle(_) => Some(self.settle(name, bound.tx)),
            Line::Commit(_) => Some(self.commit(name, bound.tx)),
            Line::Poll(_) => Some(self.poll(bound)),
            _ => self.ask_if(event_by(line, bound.tx)),
        }
    }

    /// The reply to a line that asks nothing of a transaction by its name. None to another line.
    fn reply_without(&mut self, line: Line<'_>) -> Option<Reply>
        ensures { let step = IsReplyTo D.Disk in name_in line.entry ≡ None →
            IsSomeAnd result (λ r. IsAnswerTo step self.old line.entry r self.new) }
    {
        match line {
            Line::Begin(name) => Some(self.begin(name, Event::Begin)),
            Line::BeginReadOnly(name) => Some(self.begin(name, Event::BeginReadOnly)),
            Line::Flush => Some(flush(&mut self.world)),
            Line::Rotate => Some(reply_of(run_rotation(&mut self.world))),
            Line::Checkpoint => Some(reply_of(run_checkpoint(&mut self.world))),
            Line::Merge(place) => Some(reply_of(run_merge(&mut self.world, place))),
            _ => self.ask_if(event_of_line(line)),
        }
    }

    /// What the name is bound to.
    fn bound(&self, name: &str) -> Option<BoundTx>
        ensures { result ≡ bound_by self.now.names name.now }
    {
        self.names.get(name)
    }

    /// One step of the world, if there is one to ask for.
    fn ask_if(&mut self, event: Option<Event>) -> Option<Reply>
        ensures { let step = IsReplyTo D.Disk in (e : Event) → event ≡ Some e →
            IsSomeAnd result (λ r. IsStepOf step self.old e r self.new) }
    {
        match event {
            Some(event) => Some(self.ask(event)),
            None => None,
        }
    }

    /// One step of the world.
    fn ask(&mut self, event: Event) -> Reply
        ensures { let step = IsReplyTo D.Disk in
            IsStepOf step self.old event result self.new }
    {
        self.world.step(event)
    }

    /// Begins a transaction by this step, and binds the name to it.
    fn begin(&mut self, name: &str, event: Event) -> Reply
        ensures { let step = IsReplyTo D.Disk in
            IsBeginStep step self.old name.now event result self.new }
    {
        match self.names.begin(name, event, &mut self.world) {
            Ok(reply) => reply,
            Err(_) => Reply::Refused(Refusal::OutOfMemory),
        }
    }

    fn insert(&mut self, tx: TxId, text: RowText<'_>) -> Reply
        ensures { let step = IsReplyTo D.Disk in
            IsRowStep step self.old tx Op.Insert text.entry result self.new }
    {
        match decoded(self.alloc, text) {
            Some(row) => self.ask(Event::Do(tx, Op::Insert(row))),
            None => Reply::Refused(Refusal::OutOfMemory),
        }
    }

    fn update(&mut self, tx: TxId, text: RowText<'_>) -> Reply
        ensures { let step = IsReplyTo D.Disk in
            IsRowStep step self.old tx Op.Update text.entry result self.new }
    {
        match decoded(self.alloc, text) {
            Some(row) => self.ask(Event::Do(tx, Op::Update(row))),
            None => Reply::Refused(Refusal::OutOfMemory),
        }
    }

    /// Settles the transaction that the name is bound to, and notes its end for the name.
    fn settle(&mut self, name: &str, tx: TxId) -> Reply
        ensures { let step = IsReplyTo D.Disk in
            IsSettleStep step self.old name.now tx result self.new }
    {
        let settled = self.ask(Event::Settle(tx));
        if let Reply::Settled(Settlement::Committed(end)) = settled {
            self.names.note_end(name, end);
        }
        settled
    }

    /// Precommit, validation to Valid, one settle, and after a commit finishing to Done. It stops
    /// at the first refusal.
    fn commit(&mut self, name: &str, tx: TxId) -> Reply
        ensures { let step = IsReplyTo D.Disk in
            IsCommit step self.old name.now tx result self.new }
    {
        match self.ask(Event::Precommit(tx)) {
            Reply::Prepared(_) => {}
            refused => return refused,
        }
        match self.validate(tx) {
            Reply::Validated(Validation::Valid) => {}
            refused => return refused,
        }
        let settled = self.settle(name, tx);
        let Reply::Settled(Settlement::Committed(_)) = settled else {
            return settled;
        };
        match self.finish(tx) {
            Reply::Finished(Finishing::Done) => settled,
            refused => refused,
        }
    }

    /// Checks entries while more are left.
    fn validate(&mut self, tx: TxId) -> Reply
        ensures { let step = IsReplyTo D.Disk in let more = Reply.Validated Validation.More in
            AreStepsOf step more self.old (Event.Validate tx) result self.new }
    {
        for _ in 0..u64::MAX {
            match self.ask(Event::Validate(tx)) {
                Reply::Validated(Validation::More) => {}
                reply => return reply,
            }
        }
        Reply::Validated(Validation::More)
    }

    /// Finishes while more is left.
    fn finish(&mut self, tx: TxId) -> Reply
        ensures { let step = IsReplyTo D.Disk in let more = Reply.Finished Finishing.More in
            AreStepsOf step more self.old (Event.Finish tx) result self.new }
    {
        for _ in 0..u64::MAX {
            match self.ask(Event::Finish(tx)) {
                Reply::Finished(Finishing::More) => {}
                reply => return reply,
            }
        }
        Reply::Finished(Finishing::More)
    }

    /// Whether the store's mark is at least the end of the transaction, which may be none yet.
    fn poll(&mut self, bound: BoundTx) -> Reply
        ensures reply { let mark = mark_of self.old.world.store in
            result ≡ Reply.Polled (is_covered mark bound.end) }
        ensures same { self.new ≡ self.old }
    {
        match bound.end {
            Some(end) => self.world.step(Event::Poll(end)),
            None => Reply::Polled(false),
        }
    }
}

/// A world over a fresh disk in memory. Such a disk fails only where memory is refused.
fn fresh_world(
    rt: &(impl Threads + Sync),
    alloc: Global,
    seed: u64,
) -> Result<World<MemDisk>, Refusal>
    ensures fresh { IfOk result IsFreshWorld }
    ensures memory { IfErr result (λ r. r ≡ Refusal.OutOfMemory) }
{
    let disk = MemDisk::new(alloc)?;
    let Ok(disk) = format(alloc, disk) else {
        return Err(Refusal::OutOfMemory);
    };
    match World::open(rt, alloc, seed, disk) {
        Ok(world) => Ok(world),
        Err(_) => Err(Refusal::OutOfMemory),
    }
}

/// The row that a line gives, with its data. None where memory is lacking: the digits are even in
/// number and hexadecimal, so nothing else can be.
fn decoded(alloc: Global, text: RowText<'_>) -> Option<Row>
    ensures { IfSome result (IsRowOf text.entry) }
{
    let RowText { key, sort, digits } = text;
    match hex::decode(alloc, digits) {
        Ok(bytes) => Row::new(key, sort, bytes).ok(),
        Err(_) => None,
    }
}
