//! What is seen, in the words of what counts.
ghost use Rattle.std.specs.Prelude.{◌≡◌};
ghost use Rattle.std.specs.Option.{option_map};
ghost use Rattle.mvo_store.specs.declared.call.StoreCall.TheVariants.{Step as step_call};
ghost use Rattle.mvo_keep.specs.Keeping.{begin_or_above, is_end_above};

use mvo_store::{Due, StoreCall};
use mvo_types::{MAX_STAMP, Stamp, TxId};

/// The call for a step.
pub fn step_of(step: Option<Due>) -> Option<StoreCall>
    ensures { result ≡ option_map step_call step }
{
    match step {
        Some(due) => Some(StoreCall::Step(due)),
        None => None,
    }
}

/// The begin, or a timestamp above all that are drawn.
pub fn begin_or_above(oldest: Option<TxId>) -> Stamp
    ensures { result.0 ≡ begin_or_above oldest }
{
    match oldest {
        Some(tx) => Stamp(tx.0),
        None => Stamp(MAX_STAMP + 1),
    }
}

/// Whether there is such an end, and it is above the mark.
pub fn is_end_above(end: Option<Stamp>, mark: Stamp) -> bool
    ensures { result ≡ is_end_above end mark }
{
    match end {
        Some(end) => mark < end,
        None => false,
    }
}
