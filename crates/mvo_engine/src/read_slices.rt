ghost use Rattle.std.specs.Prelude.{◌≡◌};
ghost use Rattle.mvo_engine.specs.Jobs.{of_pairs, of_segment};

use crate::slice::Slice;

/// By which slices it is read what a job is made of.
#[derive(Clone, Copy)]
pub(crate) struct ReadSlices {
    /// The one that begins.
    pub begin: Slice,
    /// Each further one.
    pub on: Slice,
    /// The one that forgets what is read.
    pub forget: Slice,
}

impl ReadSlices {
    /// Of the pair at this place, counted from 0, and the one behind it.
    pub fn of_pairs(place: usize) -> ReadSlices
        ensures { result ≡ of_pairs place }
    {
        ReadSlices {
            begin: Slice::MergeBegin(place),
            on: Slice::MergeRead,
            forget: Slice::MergeForget,
        }
    }

    /// Of the oldest sealed segment.
    pub fn of_segment() -> ReadSlices
        ensures { result ≡ of_segment }
    {
        ReadSlices {
            begin: Slice::CheckpointBegin,
            on: Slice::CheckpointRead,
            forget: Slice::CheckpointForget,
        }
    }
}
