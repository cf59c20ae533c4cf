//! What who keeps a world sees of it, and what is due then.

use super::World;
use mvo_disk::Disk;
use mvo_keep::{Chore, Keeper, Policy, Sight, due};
use mvo_types::Refusal;

impl<D: Disk> World<D> {
    ghost use Rattle.std.specs.Prelude.{◌≡◌, IfOk, IfErr};
    ghost use Rattle.mvo_types.specs.declared.refusal.Refusal.{Refusal};
    ghost use Rattle.mvo_world.specs.Keeping.{IsDueOf, IsSightOf};

    /// What who keeps it sees of it. It takes no memory.
    pub fn sight(&self) -> Sight
        ensures { IsSightOf self.now result }
    {
        let manifest = self.store.manifest();
        Sight {
            last_end: self.core.last_end(),
            closed: self.core.closed_mark(),
            oldest: self.core.oldest_unfinished(),
            tale_start: self.core.tale_start(),
            places: self.core.tale().len(),
            durable: self.store.mark(),
            has_group: self.store.has_group(),
            generation: manifest.generation(),
            segments: manifest.segments().len(),
            last_segment: self.store.last_gate(),
            step: self.store.next_step(),
        }
    }

    /// What is seen of it, and the chore that is due then by the policy and by what the keeper
    /// remembers (`mvo_keep::due`), if one is. Each chore is done by steps of the world: a call of
    /// its store, a trim, collections, or those of a flush. Refused with OutOfMemory alone, where
    /// there is none for the pairs.
    pub fn due(&self, policy: &Policy, keeper: &Keeper) -> Result<(Sight, Option<Chore>), Refusal>
        ensures ok { IfOk result (λ seen. IsDueOf policy.now keeper.now self.now seen.0 seen.1) }
        ensures err { IfErr result (λ e. e ≡ Refusal.OutOfMemory) }
    {
        let Ok(pairs) = self.store.manifest().pairs().to_vec(self.alloc) else {
            return Err(Refusal::OutOfMemory);
        };
        let sight = self.sight();
        let standing = keeper.standing(&sight, pairs);
        Ok((sight, due(policy, &standing)))
    }
}
