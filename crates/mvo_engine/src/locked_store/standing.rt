//! How what lies under the lock of the store stands.
ghost use Rattle.std.specs.Prelude.{◌≡◌, ◌≤◌, length, sum_by};
ghost use Rattle.mvo_types.specs.declared.limits.TheConstants.{MAX_PAIRS};

use super::LockedStore;
use crate::run::Run;
use crate::stats::StoreStats;
use mvo_disk::Disk;
use mvo_pair::Pair;
use std::alloc::{AllocError, Global};

impl<L: Run, D: Disk> LockedStore<L, D> {
    ghost use Rattle.std.specs.Prelude.{◌≡◌, IfOk};
    ghost use Rattle.mvo_store.specs.Seen.{installed_manifest};
    ghost use Rattle.mvo_engine.specs.Sound.{IsSoundStore};
    ghost use Rattle.mvo_engine.specs.Stats.{IsStoreStatsOf};

    /// How it stands. It changes nothing.
    pub fn stats(&mut self) -> StoreStats
        ensures stats { IsStoreStatsOf self.old result }
        ensures sound { IsSoundStore D.Disk L.opening self.old.store self.old.received }
        ensures same { self.new ≡ self.old }
    {
        let manifest = self.store.manifest();
        StoreStats {
            durable: self.store.mark(),
            has_group: self.store.has_group(),
            generation: manifest.generation(),
            segments: manifest.segments().len(),
            last_segment: self.store.last_gate(),
            pairs: manifest.pairs().len(),
            records: records_in(manifest.pairs()),
            dead: dead_in(manifest.pairs()),
            step: self.store.next_step(),
            received: self.groups,
            grouped: self.taken.commits,
            log_bytes: self.taken.bytes,
        }
    }

    /// The pairs that the installed manifest names.
    pub fn pairs(&self, alloc: Global) -> Result<Vec<Pair>, AllocError>
        ensures { IfOk result (λ v. v.items ≡ (installed_manifest self.now.store).pairs) }
    {
        self.store.manifest().pairs().to_vec(alloc)
    }
}

/// How many records the pairs have.
fn records_in(pairs: &[Pair]) -> u64
    requires { length pairs.now ≤ MAX_PAIRS }
    ensures { result ≡ sum_by (λ p. p.records) pairs.now }
{
    pairs.iter().map(|pair| u64::from(pair.records)).sum()
}

/// How many of them are dead.
fn dead_in(pairs: &[Pair]) -> u64
    requires { length pairs.now ≤ MAX_PAIRS }
    ensures { result ≡ sum_by (λ p. p.entries) pairs.now }
{
    pairs.iter().map(|pair| u64::from(pair.entries)).sum()
}
