//! Sessions that are given back.

use super::Engine;
use crate::gate::Gate;
use crate::run::Run;
use crate::session::Session;
use mvo_disk::Disk;
use mvo_types::Refusal;
use std::sync::Wait;

impl<L: Run, D: Disk, G: Gate + Drop> Engine<L, D, G> {
    ghost use Rattle.mvo_engine.specs.Retiring.{IsRetired};

    /// Gives a session back, so that another may be made in its place: there is one fewer. It takes
    /// no memory. Its receipts go, which all end up to the start of the tale.
    ///
    /// Refused with Busy, the session comes back: inside a transaction, or where a receipt ends
    /// above the start of the tale. Of those that don't it has let go then.
    pub fn retire<'e, R: Wait>(
        &self,
        rt: &R,
        session: Session<'e, L, D, G>,
    ) -> Result<(), (Refusal, Session<'e, L, D, G>)>
        ensures { IsRetired L.opening session.entry result }
    {
        let mut session = session;
        if session.has_tx() {
            return Err((Refusal::Busy, session));
        }
        let mut core = self.enter_core(rt);
        if !session.forget_up_to(core.tale_start()) {
            return Err((Refusal::Busy, session));
        }
        core.take_back(session.into_receipts());
        Ok(())
    }
}
