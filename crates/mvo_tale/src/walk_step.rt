ghost use Rattle.mvo_tale.specs.declared.tale_place.TalePlace.TheVariants.{Settled};
ghost use Rattle.std.specs.Option.{option_copied};
ghost use Rattle.mvo_tale.specs.Forgetting.{slot_or_empty};
ghost use Rattle.mvo_tale.specs.Walk.{IsStepAt};

use crate::tale_entry::TaleEntry;
use crate::tale_place::TalePlace;
use mvo_types::Stamp;

/// What the walk over the places does at one of them.
pub enum WalkStep<'a> {
    /// It takes the commit, if its record fits.
    Due(&'a TaleEntry),
    /// It passes a commit that wrote nothing, or that is in a group.
    Passed,
    /// No commit is here, and none that wrote will be.
    Skipped,
    /// Each commit from here on ends above the low-water.
    Stop,
}

/// What the walk does at the place of a group above prev.
pub fn step_at<'a>(slot: Option<&'a TalePlace>, prev: Stamp, low_water: Stamp) -> WalkStep<'a>
    ensures { IsStepAt prev.0 low_water.0 (slot_or_empty (option_copied slot.entry)) result }
{
    match slot {
        Some(TalePlace::Open(_)) => WalkStep::Stop,
        Some(TalePlace::Reading(_)) => WalkStep::Skipped,
        Some(TalePlace::Settled(entry)) => step_over(entry, prev, low_water),
        Some(TalePlace::Empty) => WalkStep::Skipped,
        None => WalkStep::Skipped,
    }
}

fn step_over<'a>(entry: &'a TaleEntry, prev: Stamp, low_water: Stamp) -> WalkStep<'a>
    ensures { IsStepAt prev.0 low_water.0 (Settled entry.now) result }
{
    if entry.is_above(low_water) {
        return WalkStep::Stop;
    }
    if entry.is_above(prev) && entry.has_written() {
        return WalkStep::Due(entry);
    }
    WalkStep::Passed
}
