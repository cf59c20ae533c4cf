//! The tale: what is stored of the commits, and where it starts.
ghost use Rattle.std.specs.Prelude.{◌≡◌, min};
ghost use Rattle.mvo_core.specs.Causes.{is_read_only};
ghost use Rattle.mvo_core.specs.Data.{own_of};
ghost use Rattle.mvo_core.specs.Trimming.{may_trim_to};

use crate::event_core::Core;
use crate::kept_transaction::Table;
use crate::refusing::is_read_only;
use mvo_tale::Tale;
use mvo_txn::Located;
use mvo_types::{Refusal, Stamp, TxId};

impl Core {
    ghost use Rattle.std.specs.Prelude.{◌≡◌, IfOk, IfErr};
    ghost use Rattle.mvo_theory.specs.Calls.Call.{Trim};
    ghost use Rattle.mvo_txn.specs.Txns.{state_of};
    ghost use Rattle.mvo_core.specs.Steps.{IsStep, InEach};
    ghost use Rattle.mvo_core.specs.Trimming.{IsTaleOf, HasForgotten};
    ghost use Rattle.mvo_core.specs.WholeStanding.{IsWholeStep};
    ghost use Rattle.mvo_core.specs.WholeAnswers.{InEachWhole};
    ghost use Rattle.mvo_core.specs.WholeTales.{IsWholeTaleOf};
    ghost use Rattle.mvo_core.specs.Counting.{HasAsMany};

    /// The stored commits, by end timestamp: all that end above the start of the tale, and of those
    /// up to it the ones at the back that are in no closed group yet, which stay for theirs.
    pub fn tale(&self) -> &Tale
        ensures tale { result.now ≡ self.now.tale }
        ensures stored { InEach self.now (λ s.
            IsTaleOf s (state_of self.now.table) self.now.versions.slots result.now) }
        ensures whole { InEachWhole self.now (λ w.
            IsWholeTaleOf w (state_of self.now.table) self.now.versions.slots result.now) }
    {
        // A look at the places: from it the proof knows that their ends rise.
        let _ = self.tale.len();
        &self.tale
    }

    /// Where the tale starts: the opening mark, or where it was trimmed last. Those that end at
    /// most there are in the rows that it starts from.
    pub fn tale_start(&self) -> Stamp
        ensures { result.0 ≡ self.now.start }
    {
        self.start
    }

    /// Makes the stamp the start of the tale, and forgets the commits that are trimmed and in a
    /// closed group. Of those in no group yet the stored rows stay for theirs. It takes no memory,
    /// and time by how many commits go, each of which goes once. Refused with NothingToDo alone:
    /// where the stamp isn't above the start, is above the oldest begin or the low-water, or is the
    /// begin of a read-only transaction that isn't finished.
    pub fn trim_tale(&mut self, upto: Stamp) -> Result<(), Refusal>
        ensures step { IsStep self.old (Trim upto.0) result self.new }
        ensures forgets { IfOk result (λ _. HasForgotten upto.0 self.old.closed self.old self.new) }
        ensures err { IfErr result (λ r. r ≡ Refusal.NothingToDo) }
        ensures whole { IsWholeStep self.old (Trim upto.0) result self.new }
        ensures count { HasAsMany self.old self.new }
    {
        let oldest = self.table.oldest_begin();
        let low_water = self.table.low_water();
        if !is_within(upto, self.start, oldest, low_water) {
            return Err(Refusal::NothingToDo);
        }
        if is_begin_of_reader(&self.table, upto) {
            return Err(Refusal::NothingToDo);
        }
        self.start = upto;
        self.tale.forget(lesser(upto, self.closed));
        Ok(())
    }
}

/// Whether the tale may be trimmed up to there, by where it starts, the oldest begin and the
/// low-water.
fn is_within(upto: Stamp, start: Stamp, oldest: Stamp, low_water: Stamp) -> bool
    ensures { result ≡ may_trim_to upto.0 start.0 oldest.0 low_water.0 }
{
    start < upto && upto <= oldest && upto <= low_water
}

/// Whether a read-only transaction that isn't finished began there.
fn is_begin_of_reader(table: &Table, begin: Stamp) -> bool
    ensures { result ≡ is_read_only (own_of table.now begin.0) }
{
    let id = TxId(begin.0);
    let seat = table.seat_of(id);
    match table.get(Located { id, seat }) {
        Some(seat) => is_read_only(seat.kept.own.kind),
        None => false,
    }
}

/// The lesser of the two.
pub fn lesser(a: Stamp, b: Stamp) -> Stamp
    ensures { result.0 ≡ min a.0 b.0 }
{
    if a < b { a } else { b }
}
