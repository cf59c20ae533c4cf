ghost use Rattle.std.specs.Prelude.{◌≡◌, ◌<◌, ◌≤◌, IfOk};
ghost use Rattle.std.specs.List.{AllByRecursion};
ghost use Rattle.mvo_group.specs.Data.{group_of};
ghost use Rattle.mvo_group.specs.Rules.{KeepsRules};
ghost use Rattle.mvo_tale.specs.Slots.{open_ends};
ghost use Rattle.mvo_tale.specs.Next.{AreGroupedTo, AreNextRecords};

use crate::gathering::Gathering;
use crate::next_records::NextRecords;
use crate::tale::Tale;
use crate::walk_step::{WalkStep, step_at};
use mvo_types::{MAX_STAMP, Stamp};
use std::alloc::{AllocError, Global};

/// The records of the next group, out of the commits at the places from one on.
pub fn records_from(
    alloc: Global,
    tale: &Tale,
    from: usize,
    prev: Stamp,
    low_water: Stamp,
) -> Result<NextRecords, AllocError>
    requires above { prev.0 < low_water.0 }
    requires drawn { low_water.0 ≤ MAX_STAMP }
    requires preparing { AllByRecursion (λ end. low_water.0 < end) (open_ends tale.now) }
    requires grouped { AreGroupedTo tale.now from prev.0 }
    ensures next { IfOk result (AreNextRecords tale.now prev.0 low_water.0) }
    ensures rules { IfOk result (λ n. KeepsRules (group_of prev.0 n.mark.0 n.records.items)) }
{
    let mut gathered = Gathering::new(alloc);
    let mut next = from;
    for place in from..tale.len() {
        match step_at(tale.slot(place), prev, low_water) {
            WalkStep::Stop => return Ok(gathered.up_to(low_water, next)),
            WalkStep::Skipped => {}
            WalkStep::Passed => next = place + 1,
            WalkStep::Due(entry) => {
                if !gathered.add(alloc, entry)? {
                    return Ok(gathered.up_to_last(prev, next));
                }
                next = place + 1;
            }
        }
    }
    Ok(gathered.up_to(low_water, next))
}
