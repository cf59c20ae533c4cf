use mvo_store::StoreCall;
use mvo_types::Stamp;

/// Something that is due.
#[derive(Clone, Copy, Debug, PartialEq, Eq)]
pub enum Chore {
    /// The commits that are in no durable group are to become durable.
    Flush,
    /// The next step of the job that runs is to be made.
    Step(StoreCall),
    /// A file that is no longer used is to be emptied.
    Reclaim,
    /// A merge of the pair at this place, counted from 0, and the one behind it is to begin.
    Merge(usize),
    /// A checkpoint of the oldest sealed segment is to begin.
    Checkpoint,
    /// A rotation is to begin.
    Rotate,
    /// The stored commits up to this timestamp are to be forgotten.
    Trim(Stamp),
    /// So many versions that nobody can be shown any more are to be collected, at most.
    Collect(u64),
}

impl Chore {
    ghost use Rattle.std.specs.Prelude.{◌≡◌};
    ghost use Rattle.mvo_keep.specs.Due.{call_of};

    /// The call of a store that it is, or with which it begins. A flush takes a group first, and
    /// what is forgotten is the core's.
    pub fn call(self) -> Option<StoreCall>
        ensures { result ≡ call_of self }
    {
        match self {
            Chore::Step(call) => Some(call),
            Chore::Reclaim => Some(StoreCall::Reclaim),
            Chore::Merge(place) => Some(StoreCall::MergeRead(place)),
            Chore::Checkpoint => Some(StoreCall::CheckpointRead),
            Chore::Rotate => Some(StoreCall::RotateWrite),
            Chore::Flush | Chore::Trim(_) | Chore::Collect(_) => None,
        }
    }
}
