ghost use Rattle.std.specs.Prelude.{◌≡◌, [], IfOk, OnOk, OnErr, IsSome, option_copied};
ghost use Rattle.mvo_types.specs.AnswerData.{answer_data};
ghost use Rattle.mvo_theory.specs.Entries.{entry_of};
ghost use Rattle.mvo_shared.specs.Held.{empty_work};
ghost use Rattle.mvo_shared.specs.Kept.{after_op};
ghost use Rattle.mvo_content.specs.Shown.{rows_in, AreRowsOf};
ghost use Rattle.mvo_content.specs.Done.{work_in};
ghost use Rattle.mvo_content.specs.Works.{done_at, work_if_there, works_in};
ghost use Rattle.mvo_content.specs.Works.{HaveSameWorks, HasWorkFor, IsPreparedAt, MayBeTold};
ghost use Rattle.mvo_content.specs.Works.{MayBeKept, answer_of_work};

use crate::content::WorkContent;
use crate::next_operation::NextOperation;
use crate::rows_shown::RowsShown;
use crate::taken::TakenContent;
use indexmap::IndexMap;
use mvo_types::{Answer, Op, TxId};
use std::alloc::{AllocError, Global};
use std::marker::Model;

// As many as unfinished transactions are common at once.
const MOST: usize = 64;

/// The works of unfinished transactions, by id. Contracts see what lies in memory, and by it the
/// work of each id: nothing done, where none lies there. Each call takes constant time, but for
/// what it does in the work.
///
/// The memory of `MOST` works that are over is kept at most, for others: without it each would ask
/// the system for the same few lists.
#[derive(Drop)]
pub struct Works {
    held: IndexMap<u64, WorkContent>,
    // Nothing is done in any of them.
    spare: Vec<WorkContent>,
}

impl Model for Works {
    ghost use Rattle.mvo_content.specs.Works.{WorksData, AreIdle};

    ghost Value = { WorksData };

    ghost view = { λ w. w.held.entries };

    ghost invariant = { λ w. AreIdle w.spare.items };
}

impl Works {
    /// None. It takes no memory.
    pub fn new(alloc: Global) -> Works
        ensures { result ≡ [] }
    {
        Works {
            held: IndexMap::new(alloc),
            spare: Vec::new(alloc),
        }
    }

    /// The work of the transaction, if one lies there: else it has done nothing.
    #[inline(always)]
    pub fn work(&self, id: TxId) -> Option<&WorkContent>
        ensures { work_if_there (option_copied result) ≡ works_in self.now id.0 }
    {
        self.held.get(&id.0)
    }

    /// The operation of the transaction with its answer where others show these rows in its entry,
    /// and room for it, so that telling it takes no memory. Until it is told, nothing is done. Of
    /// `By` see `WorkContent::prepare`.
    #[inline(always)]
    pub fn prepare<By>(
        &mut self,
        id: TxId,
        op: Op,
        others: RowsShown,
    ) -> Result<NextOperation, AllocError>
        requires { AreRowsOf (entry_of op) (rows_in others) }
        ensures same { HaveSameWorks self.old self.new }
        ensures next { IfOk result (IsPreparedAt self.new id.0 op (rows_in others)) }
    {
        self.see_to_work(id)?;
        match self.held.get_mut(&id.0) {
            Some(content) => content.prepare::<By>(op, others),
            None => unreachable!(),
        }
    }

    /// Does an operation of the transaction, as `WorkContent::keep` does. Refused for want of
    /// memory, nothing is done.
    #[inline(always)]
    pub fn do_operation(
        &mut self,
        id: TxId,
        op: Op,
        others: RowsShown,
    ) -> Result<Answer, AllocError>
        requires { MayBeKept self.old id.0 op (rows_in others) }
        ensures answer { IfOk result (λ a. answer_data a
            ≡ answer_of_work (works_in self.old id.0) op (rows_in others)) }
        ensures told { OnOk result (HasWorkFor self.old self.new id.0
            (after_op (works_in self.old id.0) op (rows_in others))) }
        ensures err { OnErr result (HaveSameWorks self.old self.new) }
    {
        self.see_to_work(id)?;
        match self.held.get_mut(&id.0) {
            Some(work) => Ok(work.keep(op, others)?),
            None => unreachable!(),
        }
    }

    /// A work lies there, mostly since one did before.
    #[inline(always)]
    fn see_to_work(&mut self, id: TxId) -> Result<(), AllocError>
        ensures same { HaveSameWorks self.old self.new }
        ensures there { OnOk result (IsSome (done_at self.new id.0)) }
    {
        match self.held.contains_key(&id.0) {
            true => Ok(()),
            false => self.make_work(id),
        }
    }

    /// A work in which nothing is done lies there, unless one does.
    #[inline(never)]
    fn make_work(&mut self, id: TxId) -> Result<(), AllocError>
        ensures same { HaveSameWorks self.old self.new }
        ensures there { OnOk result (IsSome (done_at self.new id.0)) }
    {
        if self.held.contains_key(&id.0) {
            return Ok(());
        }
        let content = self.idle_work();
        match self.held.insert(id.0, content) {
            Ok(_) => Ok(()),
            Err(_) => Err(AllocError),
        }
    }

    /// A work in which nothing is done. It takes no memory.
    fn idle_work(&mut self) -> WorkContent
        ensures idle { work_in result ≡ empty_work }
        ensures same { self.new ≡ self.old }
    {
        match self.spare.pop() {
            Some(content) => content,
            None => WorkContent::new(*self.held.allocator()),
        }
    }

    /// Keeps the memory of a work that is over, unless enough are kept.
    fn keep(&mut self, content: WorkContent)
        ensures { self.new ≡ self.old }
    {
        let mut content = content;
        if content.has_memory() && self.spare.len() < MOST {
            content.clear();
            let _ = self.spare.push(content);
        }
    }

    /// Gives the memory of an empty list to the next work, if it has none for its operations.
    pub fn give_list(&mut self, list: Vec<(Op, Answer)>)
        requires { list.items ≡ [] }
        ensures { self.new ≡ self.old }
    {
        let count = self.spare.len();
        if count > 0 {
            self.spare[count - 1].keep_list(list);
        }
    }

    /// Does the operation that was prepared for the transaction, and answers what it is answered.
    /// It takes no memory.
    #[inline(always)]
    pub fn tell(&mut self, id: TxId, next: NextOperation) -> Answer
        requires { MayBeTold self.old id.0 next }
        ensures told { HasWorkFor self.old self.new id.0
            (after_op (works_in self.old id.0) next.op next.rows) }
        ensures answer { answer_data result ≡ next.answer }
    {
        match self.held.get_mut(&id.0) {
            Some(content) => content.tell(next),
            None => unreachable!(),
        }
    }

    /// Takes out what the transaction did. It is as if it had done nothing. It takes no memory.
    pub fn take(&mut self, id: TxId) -> WorkContent
        ensures taken { work_in result ≡ works_in self.old id.0 }
        ensures left { HasWorkFor self.old self.new id.0 empty_work }
    {
        match self.held.swap_remove(&id.0) {
            Some(content) => content,
            None => WorkContent::new(*self.held.allocator()),
        }
    }

    /// Forgets what the transaction did, out of which this was taken, and keeps the memory of both
    /// for others.
    pub fn forget(&mut self, id: TxId, taken: TakenContent)
        ensures { HasWorkFor self.old self.new id.0 empty_work }
    {
        self.keep(taken.into_content());
        let is_left = self.held.contains_key(&id.0);
        if is_left {
            let content = self.take(id);
            self.keep(content);
        }
    }
}
