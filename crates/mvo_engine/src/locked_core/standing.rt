//! How what lies under the lock of the core stands.

use super::LockedCore;
use crate::run::Run;
use crate::stats::CoreStats;

impl<L: Run> LockedCore<L> {
    ghost use Rattle.mvo_engine.specs.Sound.{IsSoundCore};
    ghost use Rattle.mvo_engine.specs.Stats.{IsCoreStatsOf};

    /// How it stands.
    pub fn stats(&self) -> CoreStats
        ensures stats { IsCoreStatsOf self.now result }
        ensures sound { IsSoundCore L.opening self.now.core self.now.sends.sent }
    {
        let (aborted, replaced) = self.core.waiting_counts();
        CoreStats {
            clock: self.core.clock(),
            closed: self.core.closed_mark(),
            last_end: self.core.last_end(),
            unfinished: self.core.unfinished_count(),
            oldest: self.core.oldest_unfinished(),
            tale_start: self.core.tale_start(),
            places: self.core.tale().len(),
            versions: self.core.version_count(),
            sorted_keys: self.core.place_count(),
            aborted,
            replaced,
            sent: self.sends.groups(),
            sessions: self.made,
        }
    }
}
