//! What a keeper sees.

use crate::engine::Engine;
use crate::gate::Gate;
use crate::run::Run;
use crate::stats::{Stats, StoreStats};
use mvo_disk::Disk;
use mvo_keep::{Chore, Keeper, Policy, Sight, due};
use mvo_pair::Pair;
use mvo_types::Refusal;
use std::sync::Wait;

impl<L: Run, D: Disk, G: Gate + Drop> Engine<L, D, G> {
    ghost use Rattle.std.specs.Prelude.{◌≡◌, IfOk, IfErr};
    ghost use Rattle.mvo_types.specs.declared.refusal.Refusal.{Refusal};
    ghost use Rattle.mvo_engine.specs.Stats.{AreStats};
    ghost use Rattle.mvo_engine.specs.Keeping.{WasDue, WasLookedAt};

    /// How the engine stands: first its store, and then its memory, each under its own lock, which
    /// is held shortly. It takes no memory.
    pub fn stats<R: Wait>(&self, rt: &R) -> Stats
        ensures { AreStats D.Disk L.opening result }
    {
        let store = self.enter_store(rt).stats();
        let core = self.enter_core(rt).stats();
        Stats { core, store }
    }

    // What is due, and what is seen then.
    pub(crate) fn see_due<R: Wait>(
        &self,
        rt: &R,
        policy: &Policy,
        keeper: Keeper,
    ) -> Result<(Sight, Option<Chore>), Refusal>
        ensures ok { IfOk result (λ seen.
            WasDue D.Disk L.opening policy.now keeper seen.0 seen.1) }
        ensures err { IfErr result (λ e. e ≡ Refusal.OutOfMemory) }
    {
        let (store, pairs) = match self.see_store(rt) {
            Ok(seen) => seen,
            Err(refusal) => return Err(refusal),
        };
        let core = self.enter_core(rt).stats();
        let sight = Stats { core, store }.sight();
        let standing = keeper.standing(&sight, pairs);
        Ok((sight, due(policy, &standing)))
    }

    // The store, with its pairs.
    fn see_store<R: Wait>(&self, rt: &R) -> Result<(StoreStats, Vec<Pair>), Refusal>
        ensures ok { IfOk result (λ seen. WasLookedAt D.Disk L.opening seen.0 seen.1.items) }
        ensures err { IfErr result (λ e. e ≡ Refusal.OutOfMemory) }
    {
        let mut store = self.enter_store(rt);
        match store.pairs(self.alloc) {
            Ok(pairs) => Ok((store.stats(), pairs)),
            Err(_) => Err(Refusal::OutOfMemory),
        }
    }
}
