//! The receipts of all sessions, and what they count.
ghost use Rattle.std.specs.Prelude.{◌≡◌, ◌+◌, ◌<◌, ◌≤◌, ◌++◌, [], length, vec_len, vec_capacity};
ghost use Rattle.std.specs.Prelude.{IfOk, IfErr, IfSome, IsTrue};
ghost use Rattle.mvo_engine.specs.run.Watching.{count_of};
ghost use Rattle.mvo_engine.specs.Booked.{IsBooked};
ghost use Rattle.mvo_engine.specs.Gathering.{HasGathered, IsNotGathered, AreForgottenUpTo};
ghost use Rattle.mvo_engine.specs.Gathering.{receipts_in, gathered_receipts};

use crate::core_guard::CoreGuard;
use crate::gate::Gate;
use crate::locked_core::LockedCore;
use crate::run::{Receipt, Run};
use crate::session::Session;
use mvo_disk::Disk;
use mvo_types::{Refusal, Stamp};
use std::alloc::Global;
use std::sync::ledger::Share;

/// What `gather` answers.
#[derive(Drop)]
pub enum Gathered<'e, L: Run, D: Disk + Drop, G: Gate + Drop> {
    /// The receipts of all sessions.
    All(Vec<Receipt>),
    /// The sessions that were handed in: fewer than were made.
    Missing(Vec<Session<'e, L, D, G>>),
}

/// The receipts of all sessions that were made, those of the last one first; or, where fewer are
/// handed in, these sessions. The receipt that the run watches, which may be any, is among all
/// receipts as often as among the stored commits, where the tale starts below its end. Refused with
/// OutOfMemory, or with Busy where a session let go of receipts above the start of the tale, which
/// no run meets, the sessions come back.
pub fn gather<'e, L: Run, D: Disk + Drop, G: Gate + Drop>(
    core: &mut CoreGuard<'_, L>,
    alloc: Global,
    sessions: Vec<Session<'e, L, D, G>>,
) -> Result<Gathered<'e, L, D, G>, (Refusal, Vec<Session<'e, L, D, G>>)>
    ensures gathered { IfOk result (HasGathered L.watched core.old sessions.entry.items) }
    ensures refused { IfErr result (λ e.
        IsNotGathered core.old sessions.entry.items e.0 × (e.1.items ≡ sessions.entry.items)) }
    ensures core { core.new ≡ core.old }
{
    if (sessions.len() as u64) < u64::from(core.made()) {
        return Ok(Gathered::Missing(sessions));
    }
    let start = core.tale_start();
    if !are_forgotten_up_to(start, sessions.as_slice()) {
        return Err((Refusal::Busy, sessions));
    }
    let mut all = Vec::new(alloc);
    if !reserve_for(&mut all, sessions.as_slice()) {
        return Err((Refusal::OutOfMemory, sessions));
    }
    pour_all(&mut *core.held, &mut all, sessions, start);
    Ok(Gathered::All(all))
}

/// Pours the receipts of all sessions into the list, those of the last one first, and compares what
/// their parts count with the book. The tale starts at the stamp.
fn pour_all<L: Run, D: Disk + Drop, G: Gate + Drop>(
    core: &mut LockedCore<L>,
    all: &mut Vec<Receipt>,
    sessions: Vec<Session<'_, L, D, G>>,
    start: Stamp,
)
    requires empty { all.old.items ≡ [] }
    requires room { receipts_in sessions.items ≤ vec_capacity all.old }
    requires made { core.old.made ≤ length sessions.items }
    requires start { start.0 ≡ core.old.core.start }
    requires forgotten { AreForgottenUpTo start.0 sessions.items }
    ensures items { all.new.items ≡ gathered_receipts sessions.entry.items }
    ensures booked { IsBooked L.watched core.old.core (count_of L.watched all.new.items) }
    ensures core { core.new ≡ core.old }
{
    let nothing = core.no_part();
    let whole = pour(all, sessions, nothing, start);
    core.tally(whole);
}

/// Whether none of these sessions has let go of receipts above the stamp.
fn are_forgotten_up_to<L: Run, D: Disk, G: Gate + Drop>(
    start: Stamp,
    sessions: &[Session<'_, L, D, G>],
) -> bool
    ensures yes { IsTrue result → AreForgottenUpTo start.0 sessions.now }
    ensures no { AreForgottenUpTo start.0 sessions.now → IsTrue result }
{
    for session in sessions {
        if start < session.forgotten() {
            return false;
        }
    }
    true
}

/// Takes room for the receipts of all these sessions.
fn reserve_for<L: Run, D: Disk, G: Gate + Drop>(
    all: &mut Vec<Receipt>,
    sessions: &[Session<'_, L, D, G>],
) -> bool
    requires { all.old.items ≡ [] }
    ensures items { all.new.items ≡ [] }
    ensures room { IsTrue result → receipts_in sessions.now ≤ vec_capacity all.new }
{
    match count_all(sessions) {
        Some(total) => all.reserve(total).is_ok(),
        None => false,
    }
}

/// How many receipts these sessions have, if a number of the machine says it.
fn count_all<L: Run, D: Disk, G: Gate + Drop>(sessions: &[Session<'_, L, D, G>]) -> Option<usize>
    ensures { IfSome result (λ n. n ≡ receipts_in sessions.now) }
{
    let mut total: usize = 0;
    for session in sessions {
        total = total.checked_add(session.receipts().len())?;
    }
    Some(total)
}

/// Pours the receipts of these sessions into the list, those of the last one first, and their parts
/// into one. The tale starts at the stamp.
#[tactic(auto, using(crate::proofs::Pouring::poured, crate::proofs::Pouring::all_poured))]
fn pour<L: Run, D: Disk + Drop, G: Gate + Drop>(
    all: &mut Vec<Receipt>,
    sessions: Vec<Session<'_, L, D, G>>,
    nothing: Share<L>,
    start: Stamp,
) -> Share<L>
    requires empty { all.old.items ≡ [] }
    requires room { receipts_in sessions.items ≤ vec_capacity all.old }
    requires nothing { (nothing.parts ≡ 0) × (nothing.amount ≡ 0) }
    requires forgotten { AreForgottenUpTo start.0 sessions.items }
    ensures parts { result.parts ≡ length sessions.entry.items }
    ensures items { all.new.items ≡ gathered_receipts sessions.entry.items }
    ensures amount { start.0 < L.watched.end → result.amount ≡ count_of L.watched all.new.items }
{
    let mut whole = nothing;
    let mut left = sessions;
    while let Some(session) = left.pop() {
        let (list, share) = session.into_receipts().into_parts();
        add_all(all, list);
        whole.merge(share);
    }
    whole
}

/// Adds these receipts, for which there is room.
fn add_all(all: &mut Vec<Receipt>, list: Vec<Receipt>)
    requires { vec_len all.old + vec_len list ≤ vec_capacity all.old }
    ensures items { all.new.items ≡ all.old.items ++ list.items }
    ensures length { vec_len all.new ≡ vec_len all.old + vec_len list }
    ensures capacity { vec_capacity all.old ≤ vec_capacity all.new }
{
    let mut list = list;
    // There is room, so it isn't refused.
    let _ = all.append(&mut list);
}
