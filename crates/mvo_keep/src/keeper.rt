use crate::chore::Chore;
use crate::remains::Remains;
use crate::seen::{begin_or_above, is_end_above, step_of};
use crate::served::Served;
use crate::sight::Sight;
use crate::standing::Standing;
use mvo_pair::Pair;
use mvo_types::{Refusal, Stamp};

/// What who keeps a store remembers from one turn to the next: what it saw at its last look, and
/// what came of its last chores.
#[derive(Clone, Copy, Debug, PartialEq, Eq)]
pub struct Keeper {
    /// The end at the back of the tale, at its last look.
    last_end: Option<Stamp>,
    /// The mark that was durable then.
    mark: Stamp,
    /// Whether its last chore was a flush, whatever came of it.
    has_flushed: bool,
    /// What the last chore but for flushes was for.
    served: Served,
    /// The generation of the manifest at which no file was left to be emptied, if one is known.
    reclaimed: Option<u64>,
    /// Where the tale started when no garbage was left, if that is known.
    collected: Option<Stamp>,
}

impl Keeper {
    ghost use Rattle.std.specs.Prelude.{◌≡◌};
    ghost use Rattle.mvo_keep.specs.Keeping.{IsStandingBy, keeper_after, keeper_after_look};
    ghost use Rattle.mvo_keep.specs.Keeping.{new_keeper};

    /// One that has seen nothing yet.
    pub fn new() -> Keeper
        ensures { result ≡ new_keeper }
    {
        Keeper {
            last_end: None,
            mark: Stamp(0),
            has_flushed: false,
            served: Served::Files,
            reclaimed: None,
            collected: None,
        }
    }

    /// What counts for what is due, by what is seen, with the pairs that the manifest names, and
    /// what it remembers. A flush isn't due twice in a row, whatever came of it.
    pub fn standing(&self, sight: &Sight, pairs: Vec<Pair>) -> Standing
        ensures { IsStandingBy self.now sight.now pairs.items result }
    {
        let is_due = !self.has_flushed;
        Standing {
            has_group: is_due && (sight.has_group || sight.durable < sight.closed),
            has_commits: is_due && is_end_above(self.last_end, sight.closed),
            step: step_of(sight.step),
            may_reclaim: self.reclaimed != Some(sight.generation),
            pairs,
            segments: sight.segments,
            last_segment: sight.last_segment as u64,
            tale_start: sight.tale_start,
            tale_length: sight.places,
            earlier_mark: self.mark,
            oldest_begin: begin_or_above(sight.oldest),
            may_collect: self.collected != Some(sight.tale_start),
            served: self.served,
        }
    }

    /// What it remembers behind a look where nothing was due.
    pub fn after_look(self, sight: &Sight) -> Keeper
        ensures { result ≡ keeper_after_look sight.now self }
    {
        Keeper {
            last_end: sight.last_end,
            mark: sight.durable,
            has_flushed: false,
            served: self.served,
            reclaimed: self.reclaimed,
            collected: self.collected,
        }
    }

    /// What it remembers behind a chore that came to this.
    pub fn after(self, sight: &Sight, chore: Chore, came: &Result<Remains, Refusal>) -> Keeper
        ensures { result ≡ keeper_after sight.now chore came.now self }
    {
        let mut keeper = self.after_look(sight);
        keeper.has_flushed = matches!(chore, Chore::Flush);
        keeper.served = self.served.after(chore);
        match came {
            Ok(Remains::NoFile) => keeper.reclaimed = Some(sight.generation),
            Ok(Remains::NoGarbage) => keeper.collected = Some(sight.tale_start),
            Ok(Remains::More) => {}
            Err(_) => {}
        }
        keeper
    }
}
