use mvo_core::copy_of;
use mvo_store::StoreCall;
use mvo_types::{Op, Stamp, TxId};
use std::alloc::AllocError;

/// A step that is asked for: of a transaction, of what memory keeps, of the log, or a poll.
#[derive(Drop)]
pub enum Event {
    /// A transaction is to begin.
    Begin,
    /// A read-only transaction is to begin.
    BeginReadOnly,
    /// A transaction asks for an operation.
    Do(TxId, Op),
    /// A transaction draws its end timestamp.
    Precommit(TxId),
    /// The next entry of a transaction is checked.
    Validate(TxId),
    /// A validated transaction becomes Committed.
    Settle(TxId),
    /// A transaction becomes Aborted.
    Rollback(TxId),
    /// A word of a transaction that is Committed or Aborted is replaced.
    Finish(TxId),
    /// A version that nobody can be shown any more is taken out of memory, if there is one.
    Collect,
    /// The stored commits up to this timestamp are forgotten.
    Trim(Stamp),
    /// The next group of commits is closed into the ring.
    CloseGroup,
    /// The store takes the oldest closed group.
    TakeGroup,
    /// The store makes a call.
    Store(StoreCall),
    /// Whether the store's mark is at least this timestamp.
    Poll(Stamp),
}

impl Event {
    ghost use Rattle.std.specs.Prelude.{◌≡◌, IfOk, OnErr};
    ghost use Rattle.mvo_world.specs.Replies.{HasRow};

    /// A copy of the event. It takes memory only where the event has a row.
    pub fn copy(&self) -> Result<Event, AllocError>
        ensures same { IfOk result (λ e. e ≡ self.now) }
        ensures memory { OnErr result (HasRow self.now) }
    {
        match self {
            Event::Begin => Ok(Event::Begin),
            Event::BeginReadOnly => Ok(Event::BeginReadOnly),
            Event::Do(tx, op) => Ok(Event::Do(*tx, copy_of(op)?)),
            Event::Precommit(tx) => Ok(Event::Precommit(*tx)),
            Event::Validate(tx) => Ok(Event::Validate(*tx)),
            Event::Settle(tx) => Ok(Event::Settle(*tx)),
            Event::Rollback(tx) => Ok(Event::Rollback(*tx)),
            Event::Finish(tx) => Ok(Event::Finish(*tx)),
            Event::Collect => Ok(Event::Collect),
            Event::Trim(upto) => Ok(Event::Trim(*upto)),
            Event::CloseGroup => Ok(Event::CloseGroup),
            Event::TakeGroup => Ok(Event::TakeGroup),
            Event::Store(call) => Ok(Event::Store(*call)),
            Event::Poll(stamp) => Ok(Event::Poll(*stamp)),
        }
    }
}
