ghost use Rattle.std.specs.Prelude.{◌≡◌};
ghost use Rattle.mvo_stops.specs.declared.look_end.LookEnd.TheVariants.{Error};
ghost use Rattle.mvo_stops.specs.declared.error.StopsError.TheVariants.{OutOfMemory};

use crate::error::StopsError;
use crate::wrong::Wrong;
use std::alloc::AllocError;

/// Why no more is looked at.
#[derive(Clone, Copy, Debug)]
pub enum LookEnd {
    Wrong(Wrong),
    Error(StopsError),
}

impl From<StopsError> for LookEnd {
    ghost from_gives = { λ error e. e ≡ Error error };

    fn from(error: StopsError) -> LookEnd {
        LookEnd::Error(error)
    }
}

impl From<AllocError> for LookEnd {
    ghost from_gives = { λ _ e. e ≡ Error OutOfMemory };

    fn from(_: AllocError) -> LookEnd {
        LookEnd::Error(StopsError::OutOfMemory)
    }
}
