use crate::gate::Gate;
use crate::outcome::Outcome;
use crate::run::Run;
use crate::session::Session;
use mvo_disk::Disk;
use mvo_types::Refusal;
use std::sync::Wait;

/// What is done in a transaction that is tried again where another was in its way
/// (`Session::transact`). It may be done several times, so it changes nothing but rows. It commits
/// nothing itself: the session's receipts are as before.
pub trait Transaction<T, L: Run, D: Disk, G: Gate + Drop> {
    ghost use Rattle.std.specs.Prelude.{◌≡◌, ⊤};
    ghost use Rattle.mvo_engine.specs.Transacting.{Work};

    /// What a run comes to: the work, the session before it, the result, and the session after it.
    /// By default anything.
    ghost comes_to: { Self → Work T } = { λ work old result new. ⊤ };

    /// Reads and writes in the transaction that the session has begun, and says whether it is to be
    /// committed. Where it gives up, or is refused, the transaction is rolled back; and where the
    /// refusal is a failure, all is done again.
    fn run<R: Wait>(
        &self,
        rt: &R,
        session: &mut Session<'_, L, D, G>,
    ) -> Result<Outcome<T>, Refusal>
        ensures comes { comes_to self.now session.old result session.new }
        ensures receipts { session.new.receipts ≡ session.old.receipts };
}
