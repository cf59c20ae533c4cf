//! Receipts of commits that are no longer stored.

use super::Session;
use crate::core_guard::CoreGuard;
use crate::gate::Gate;
use crate::run::Run;
use mvo_disk::Disk;
use mvo_types::Stamp;

impl<'e, L: Run, D: Disk, G: Gate + Drop> Session<'e, L, D, G> {
    ghost use Rattle.std.specs.Prelude.{◌≡◌, ◌≤◌, ℕ, [], IsTrue};
    ghost use Rattle.mvo_engine.specs.Forgetting.{HasForgottenAll};

    /// Lets go of all receipts that end up to the start of the tale (`CoreGuard::trim_tale`), each
    /// once, and answers how many there were. No commit is stored there, so `gather` says nothing
    /// of them. It takes no memory, and time by how many go.
    ///
    /// `begin_tx` and `transact` let go of up to 64 each time, so that a session that commits and
    /// commits needn't call this.
    pub fn forget(&mut self, core: &mut CoreGuard<'_, L>) -> usize
        ensures forgotten { HasForgottenAll core.old.core.start self.old result self.new }
        ensures core { core.new ≡ core.old }
    {
        let all = self.receipts.list().len();
        self.receipts.forget(core.tale_start(), all)
    }

    // Lets go of all receipts that end up to the stamp. Whether none is left then, and it let go of
    // none above the stamp.
    pub(crate) fn forget_up_to(&mut self, start: Stamp) -> bool
        ensures forgotten { (n : ℕ) × HasForgottenAll start.0 self.old n self.new }
        ensures none { IsTrue result → (self.new.receipts ≡ []) × (self.new.forgotten ≤ start.0) }
        ensures some { self.new.receipts ≡ [] → self.new.forgotten ≤ start.0 → IsTrue result }
    {
        let all = self.receipts.list().len();
        self.receipts.forget(start, all);
        self.receipts.list().is_empty() && self.receipts.forgotten() <= start
    }
}
