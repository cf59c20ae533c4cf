use crate::kept_transaction::{Table, begun, begun_reading};
use crate::spares::{Spares, give_list};
use mvo_collect::Waiting;
use mvo_content::Works;
use mvo_tale::Tale;
use mvo_txn::TxnTable;
use mvo_types::{MAX_STAMP, Refusal, Rows, Stamp, TxId};
use mvo_versions::{IndexMaker, IndexesInThreads, IndexesInTurn, Versions};
use std::alloc::Global;
use std::marker::Model;
use std::thread::Threads;

/// The event core. A call is one step: none waits for another, and none goes over all
/// transactions, versions or commits.
///
/// It stands for a state of the theory with its read-only transactions (`StandsWhole`), whatever
/// steps led there: each call's clauses say which one it stands for then (`whole`), and which where
/// no transaction is read-only (`step`).
pub struct Core {
    pub(crate) alloc: Global,
    pub(crate) versions: Versions,
    pub(crate) table: Table,
    /// What is garbage among the versions, or may come to be.
    pub(crate) waiting: Waiting,
    pub(crate) tale: Tale,
    /// Where the tale starts: the opening mark, or where it was trimmed last.
    pub(crate) start: Stamp,
    /// The mark of the rows that it was opened over.
    pub(crate) opening: Stamp,
    /// The mark of the group that was closed last, or the opening mark.
    pub(crate) closed: Stamp,
    /// The place in the tale from which the next group goes on.
    pub(crate) grouped: usize,
    pub(crate) spares: Spares,
    /// What each Active transaction has done, as its own work holds it.
    pub(crate) works: Works,
}

impl Drop for Core {
    fn drop(self) {
        let Core {
            alloc: _,
            versions: _,
            table: _,
            waiting: _,
            tale: _,
            start: _,
            opening: _,
            closed: _,
            grouped: _,
            spares: _,
            works: _,
        } = self;
    }
}

impl Model for Core {
    ghost use Rattle.std.specs.Coded.{codes};
    ghost use Rattle.mvo_hash.specs.Lists.{coded_lists};
    ghost use Rattle.mvo_range.specs.Place.{coded_place_numbers};
    ghost use Rattle.mvo_txn.specs.Txns.{coded_txns};
    ghost use Rattle.mvo_core.specs.Data.{CoreData};

    ghost Value = { CoreData };

    ghost coded = { Prim.hlevel (codes, coded_lists, coded_place_numbers, coded_txns) };

    ghost use Rattle.mvo_core.specs.View.{core_data, IsCore};

    ghost view = { core_data };

    ghost invariant = { IsCore };
}

impl Core {
    ghost use Rattle.std.specs.Prelude.{◌≡◌, ◌+◌, ◌≤◌, IfOk, IfErr};
    ghost use Rattle.mvo_types.specs.declared.limits.TheConstants.{MAX_STAMP as LIMIT};
    ghost use Rattle.mvo_theory.specs.Calls.Call.{Begin};
    ghost use Rattle.mvo_core.specs.Standing.{HasOpenedOver};
    ghost use Rattle.mvo_core.specs.Counting.{HasOneEach, HasAsMany};
    ghost use Rattle.mvo_core.specs.Steps.{IsStep};
    ghost use Rattle.mvo_core.specs.WholeStanding.{IsWholeStep, IsReadOnlyBegin};

    /// A core over these rows, with the clock at their mark. The two indexes of 8,192 rows or more
    /// are made in two threads. Who chooses the keys of rows must not know the seed, which decides
    /// where keys stand in memory. Refused with OutOfMemory alone.
    pub fn open(
        rt: &(impl Threads + Sync),
        alloc: Global,
        seed: u64,
        rows: Rows,
        mark: Stamp,
    ) -> Result<Core, Refusal>
        requires { mark.0 ≤ LIMIT }
        ensures ok { IfOk result (λ c. HasOpenedOver rows mark.0 c) }
        ensures count { IfOk result (HasOneEach rows) }
        ensures err { IfErr result (λ r. r ≡ Refusal.OutOfMemory) }
    {
        Core::open_by(&IndexesInThreads::new(rt), alloc, seed, rows, mark)
    }

    /// The same as `open`, in the calling thread alone: it starts no other, and takes no leave to.
    pub fn open_in_turn(alloc: Global, seed: u64, rows: Rows, mark: Stamp) -> Result<Core, Refusal>
        requires { mark.0 ≤ LIMIT }
        ensures ok { IfOk result (λ c. HasOpenedOver rows mark.0 c) }
        ensures count { IfOk result (HasOneEach rows) }
        ensures err { IfErr result (λ r. r ≡ Refusal.OutOfMemory) }
    {
        Core::open_by(&IndexesInTurn, alloc, seed, rows, mark)
    }

    /// The same as `open`, with the indexes that this one makes.
    pub fn open_by<M: IndexMaker>(
        maker: &M,
        alloc: Global,
        seed: u64,
        rows: Rows,
        mark: Stamp,
    ) -> Result<Core, Refusal>
        requires maker { M.may_make }
        requires mark { mark.0 ≤ LIMIT }
        ensures ok { IfOk result (λ c. HasOpenedOver rows mark.0 c) }
        ensures count { IfOk result (HasOneEach rows) }
        ensures err { IfErr result (λ r. r ≡ Refusal.OutOfMemory) }
    {
        let table = TxnTable::new(alloc, mark)?;
        let versions = Versions::load_by(maker, alloc, seed, rows, mark)?;
        let spares = Spares::new(alloc)?;
        Ok(Core {
            alloc,
            versions,
            table,
            waiting: Waiting::new(alloc),
            tale: Tale::new(alloc),
            start: mark,
            opening: mark,
            closed: mark,
            grouped: 0,
            spares,
            works: Works::new(alloc),
        })
    }

    /// The timestamp that was drawn last, or the opening mark.
    pub fn clock(&self) -> Stamp
        ensures { result.0 ≡ self.now.table.clock }
    {
        self.table.clock()
    }

    /// The mark of the group that was closed last, or the opening mark.
    pub fn closed_mark(&self) -> Stamp
        ensures { result.0 ≡ self.now.closed }
    {
        self.closed
    }

    /// Begins a transaction. Its id is its begin timestamp. Refused: TableFull, ClockSpent,
    /// OutOfMemory.
    pub fn begin_tx(&mut self) -> Result<TxId, Refusal>
        ensures step { IsStep self.old Begin result self.new }
        ensures id { IfOk result (λ t. t.0 ≡ self.old.table.clock + 1) }
        ensures whole { IsWholeStep self.old Begin result self.new }
        ensures count { HasAsMany self.old self.new }
    {
        if let Some(refusal) = self.table.why_not_begun() {
            return Err(refusal);
        }
        let alloc = self.alloc;
        give_list(&mut self.tale, &mut self.works);
        let writes = self.spares.take();
        self.table.begin(begun(alloc, writes))
    }

    /// Begins a read-only transaction. Its id is its begin timestamp, which is its end too: its
    /// place in the tale is opened now, and so is all memory taken that its end needs. Refused:
    /// TableFull, ClockSpent, OutOfMemory.
    pub fn begin_read_only(&mut self) -> Result<TxId, Refusal>
        ensures whole { IsReadOnlyBegin self.old result self.new }
        ensures id { IfOk result (λ t. t.0 ≡ self.old.table.clock + 1) }
        ensures count { HasAsMany self.old self.new }
    {
        if let Some(refusal) = self.table.why_not_begun() {
            return Err(refusal);
        }
        // A look at the places: from it the proof knows that their ends rise.
        let _ = self.tale.len();
        let alloc = self.alloc;
        give_list(&mut self.tale, &mut self.works);
        let clock = self.table.clock().0;
        let place = self.tale.open_reading(Stamp(clock + 1))?;
        let writes = self.spares.take();
        match self.table.begin(begun_reading(alloc, writes, place)) {
            Ok(id) => Ok(id),
            Err(refusal) => {
                self.tale.leave(place);
                Err(refusal)
            }
        }
    }
}
