ghost use Rattle.std.specs.Prelude.{◌≡◌, ◌++◌, ◌∷◌, [], ◌<◌, false, true, IfOk, OnOk, OnErr, option_copied};
ghost use Rattle.std.specs.Prelude.{◌≤◌, ◌==◌, not, length, slice_get, vec_len, vec_capacity};
ghost use Rattle.std.specs.Option.{option_map};
ghost use Rattle.mvo_types.specs.declared.limits.TheConstants.{MAX_ENTRIES};
ghost use Rattle.std.specs.FinMap as map;
ghost use Rattle.mvo_types.specs.declared.entry.Entry.TheVariants.{Key, Range};
ghost use Rattle.mvo_types.specs.AnswerData.{AnswerData, answer_data};
ghost use Rattle.mvo_types.specs.Keys.{row_at};
ghost use Rattle.mvo_model.specs.History.{after_history};
ghost use Rattle.mvo_model.specs.Serial.{answer_to, scan};
ghost use Rattle.mvo_theory.specs.Told.{history_told};
ghost use Rattle.mvo_theory.specs.Causes.{is_entry_too_many, is_write_too_many};
ghost use Rattle.mvo_theory.specs.Entries.{entry_of, entries, written_keys};
ghost use Rattle.mvo_shared.specs.Kept.{IsWork, IsOrdered};
ghost use Rattle.mvo_shared.specs.Kept.{map_of_rows, with_looked, answer_kept, after_op};
ghost use Rattle.mvo_theory.specs.Limits.{AreLimited};
ghost use Rattle.mvo_shared.specs.Held.{empty_work};
ghost use Rattle.mvo_work.specs.Limits.{MayFollow};
ghost use Rattle.mvo_content.specs.Shown.{rows_in, AreRowsOf};
ghost use Rattle.mvo_content.specs.Done.{work_in, write_left};
ghost use Rattle.mvo_content.specs.Next.{IsPreparedFor};

use crate::copying::{answer_again, copy_of, write_of};
use crate::looks::Looks;
use crate::memory::{clear_items, take_items};
use crate::next_operation::{NextOperation, NextParts};
use crate::own_rows::{by_key, write_all};
use crate::own_writes::{Left, clear_left, keys_left, left_at, note_left};
use crate::rows_shown::RowsShown;
use indexmap::IndexMap;
use mvo_model::Serial;
use mvo_types::{Answer, Entry, MAX_ENTRIES, MAX_WRITES, Op, Row, RowKey};
use mvo_work::entry_of;
use std::alloc::{AllocError, Global};
use std::marker::Model;

/// What a work holds: the operations of a transaction with their answers, each entry with the rows
/// that others showed there at its first use, and by key what the own net writes left. Contracts
/// see the first two (`work_in`), and the room: for so many operations more at least.
///
/// Its type keeps that the entries are those of the operations, that each answer is the serial
/// step's on the rows of its own entry behind the own earlier writes, and the limits: so on every
/// map that shows these rows all answers are those of the serial steps, whoever asked for them and
/// wherever. An empty one takes no memory.
///
/// Each call takes constant time, but for the copies of the rows that an operation answers, and for
/// a scan by one that has written: that takes the rows and the operations once more.
#[derive(Drop)]
pub struct WorkContent {
    operations: Vec<(Op, Answer)>,
    looks: Looks,
    left: Left,
}

impl Model for WorkContent {
    ghost use Rattle.std.specs.Prelude.{◌-◌, vec_len, vec_capacity};
    ghost use Rattle.indexmap.specs.IndexMap.{spare};
    ghost use Rattle.mvo_theory.specs.Told.{history_told};
    ghost use Rattle.mvo_work.specs.Work.{room_of};
    ghost use Rattle.mvo_content.specs.Done.{DoneData, IsWorkDone};

    ghost Value = { DoneData };

    ghost view = { λ d. record {
      history = history_told d.operations.items;
      looked = d.looks.looked;
      room = room_of (vec_capacity d.operations - vec_len d.operations) d.looks.room
          (spare d.left);
    } };

    ghost invariant = { λ d. IsWorkDone d.operations.items d.looks.looked d.left.entries };
}

impl WorkContent {
    /// Nothing done. It takes no memory.
    pub fn new(alloc: Global) -> WorkContent
        ensures history { result.history ≡ [] }
        ensures looked { result.looked ≡ [] }
    {
        WorkContent {
            operations: Vec::new(alloc),
            looks: Looks::new(alloc),
            left: IndexMap::new(alloc),
        }
    }

    /// How many operations there are.
    pub fn operation_count(&self) -> usize
        ensures { result ≡ length self.now.history }
    {
        self.operations.len()
    }

    /// The operations with their answers, in order.
    pub fn operations(&self) -> &[(Op, Answer)]
        ensures { history_told result.now ≡ self.now.history }
    {
        self.operations.as_slice()
    }

    /// The operation at a place with its answer, from 0 on.
    pub fn operation_at(&self, place: usize) -> Option<&(Op, Answer)>
        ensures { option_map (λ o. (o.0, answer_data o.1)) (option_copied result)
            ≡ slice_get self.now.history place }
    {
        self.operations.get(place)
    }

    /// What others showed at the first use of each entry.
    pub fn looks(&self) -> &Looks
        ensures { result.now.looked ≡ self.now.looked }
    {
        &self.looks
    }

    /// How many entries there are.
    pub fn entry_count(&self) -> usize
        ensures { result ≡ length (entries self.now.history) }
    {
        self.looks.len()
    }

    /// The entry at a place, from 0 on.
    pub fn entry_at(&self, place: usize) -> Option<Entry>
        ensures { result ≡ slice_get (entries self.now.history) place }
    {
        self.looks.entry_at(place)
    }

    /// Whether as many entries are kept as may be, and this isn't one of them.
    #[inline(always)]
    pub fn is_entry_too_many(&self, entry: Entry) -> bool
        ensures { result ≡ is_entry_too_many self.now.history entry }
    {
        self.looks.len() >= MAX_ENTRIES && !self.looks.contains(entry)
    }

    /// Whether as many keys are written as may be, and this isn't one of them.
    #[inline(always)]
    pub fn is_write_too_many(&self, key: RowKey) -> bool
        ensures { result ≡ is_write_too_many self.now.history key }
    {
        if self.left.len() < MAX_WRITES {
            return false;
        }
        match left_at(&self.left, key) {
            Some(_) => false,
            None => true,
        }
    }

    /// Whether it has written.
    pub fn has_writes(&self) -> bool
        ensures { result ≡ not (length (written_keys self.now.history) == 0) }
    {
        !self.left.is_empty()
    }

    /// The keys that it wrote, each once, in the order of the first write.
    pub fn keys_written(&self) -> Result<Vec<RowKey>, AllocError>
        ensures { IfOk result (λ keys. keys.items ≡ written_keys self.now.history) }
    {
        keys_left(*self.operations.allocator(), &self.left)
    }

    /// Takes an empty list for its operations, unless its own has memory. Nothing is done by it.
    pub fn keep_list(&mut self, list: Vec<(Op, Answer)>)
        requires { list.items ≡ [] }
        ensures { work_in self.new ≡ work_in self.old }
    {
        if self.operations.capacity() == 0 {
            self.operations = list;
        }
    }

    /// Takes all operations out. It is as if nothing had been done.
    pub fn take_operations(&mut self) -> Vec<(Op, Answer)>
        ensures told { history_told result.items ≡ self.old.history }
        ensures limits { AreLimited self.old.history }
        ensures left { work_in self.new ≡ empty_work }
    {
        self.looks.clear();
        clear_left(&mut self.left);
        take_items(&mut self.operations)
    }

    /// Forgets all that was done. The memory of few operations is kept for another transaction.
    pub fn clear(&mut self)
        ensures { work_in self.new ≡ empty_work }
    {
        self.looks.clear();
        clear_left(&mut self.left);
        clear_items(&mut self.operations);
    }

    /// Whether it keeps memory for its entries, as one does that was told something.
    pub(crate) fn has_memory(&self) -> bool {
        self.looks.has_memory()
    }

    /// What its type keeps. The call does nothing.
    pub fn laws(&self)
        ensures work { IsWork (work_in self.now) }
        ensures order { IsOrdered (work_in self.now) }
        ensures limits { AreLimited self.now.history }
        ensures few { length self.now.looked ≤ MAX_ENTRIES }
    {
        let _ = &self.operations;
    }

    /// The row at a key behind the own writes, where others show these there.
    #[inline(always)]
    fn row_now<'a>(&'a self, key: RowKey, rows: &'a RowsShown) -> Option<&'a Row>
        requires { AreRowsOf (Key key) (rows_in rows.now) }
        ensures { option_copied result
            ≡ row_at (after_history self.now.history (map_of_rows (rows_in rows.now))) key }
    {
        match left_at(&self.left, key) {
            Some(left) => left.as_ref(),
            None => rows.first(),
        }
    }

    /// Whether a row stands at a key behind the own writes, where others show these there.
    #[inline(always)]
    fn is_there(&self, key: RowKey, rows: &RowsShown) -> bool
        requires { AreRowsOf (Key key) (rows_in rows.now) }
        ensures { result ≡ map.contains_key
            (after_history self.now.history (map_of_rows (rows_in rows.now))) key }
    {
        self.row_now(key, rows).is_some()
    }

    /// The rows of a range behind the own writes, where others show these there.
    fn scan(&self, table: u8, lo: u64, hi: u64, rows: &RowsShown) -> Result<Vec<Row>, AllocError>
        requires { AreRowsOf (Range table lo hi) (rows_in rows.now) }
        ensures { IfOk result (λ v. v.items ≡ scan
            (after_history self.now.history (map_of_rows (rows_in rows.now))) table lo hi) }
    {
        let alloc = *self.operations.allocator();
        if self.left.is_empty() {
            return rows.copies(alloc);
        }
        let mut map = by_key(alloc, rows)?;
        write_all(&mut map, &self.operations)?;
        Serial::new(alloc, map).scan(table, lo, hi)
    }

    /// What the operation is told behind the own writes, where others show these in its entry.
    #[inline(always)]
    fn answer(&self, op: &Op, rows: &RowsShown) -> Result<Answer, AllocError>
        requires { AreRowsOf (entry_of op.now) (rows_in rows.now) }
        ensures { IfOk result (λ a. answer_data a ≡ answer_to op.now
            (after_history self.now.history (map_of_rows (rows_in rows.now)))) }
    {
        match op {
            Op::Read(key) => Ok(Answer::Found(copy_of(self.row_now(*key, rows))?)),
            Op::Scan(table, lo, hi) => Ok(Answer::Rows(self.scan(*table, *lo, *hi, rows)?)),
            Op::Insert(row) => match self.is_there(row.row_key(), rows) {
                true => Ok(Answer::Exists),
                false => Ok(Answer::Inserted),
            },
            Op::Update(row) => match self.is_there(row.row_key(), rows) {
                true => Ok(Answer::Updated),
                false => Ok(Answer::Absent),
            },
            Op::Delete(key) => match self.is_there(*key, rows) {
                true => Ok(Answer::Deleted),
                false => Ok(Answer::Absent),
            },
        }
    }

    /// What the operation is told: on the rows that its entry keeps, or on these where it keeps
    /// none yet.
    #[inline(always)]
    fn next_answer(&self, op: &Op, others: &RowsShown) -> Result<Answer, AllocError>
        requires { AreRowsOf (entry_of op.now) (rows_in others.now) }
        ensures { IfOk result (λ a. answer_data a ≡ answer_kept
            (with_looked self.now.looked (entry_of op.now) (rows_in others.now))
            self.now.history op.now) }
    {
        match self.looks.rows(entry_of(op)) {
            Some(kept) => self.answer(op, kept),
            None => self.answer(op, others),
        }
    }

    /// Room for one operation more. Nothing else changes.
    #[inline(always)]
    fn make_room(&mut self) -> Result<(), AllocError>
        ensures same { self.new ≡ record self.old { room = self.new.room } }
        ensures ok { OnOk result (0 < self.new.room) }
    {
        self.operations.reserve(1)?;
        self.looks.make_room()?;
        self.left.reserve(1)
    }

    /// Adds an operation with its answer, its look and what it wrote, where there is room.
    #[inline(always)]
    fn add(
        &mut self,
        op: Op,
        others: RowsShown,
        answer: Answer,
        write: Option<(RowKey, Option<Row>)>,
    )
        requires room { 0 < self.old.room }
        requires shown { AreRowsOf (entry_of op) (rows_in others) }
        requires limits { MayFollow self.old.history op (answer_data answer) }
        requires few { is_entry_too_many self.old.history (entry_of op) ≡ false }
        requires write { write ≡ write_left op (answer_data answer) }
        requires answer { answer_data answer ≡ answer_kept
            (with_looked self.old.looked (entry_of op) (rows_in others)) self.old.history op }
        ensures { work_in self.new ≡ after_op (work_in self.old) op (rows_in others) }
    {
        self.looks.keep(entry_of(&op), others);
        note_left(&mut self.left, write);
        push_reserved(&mut self.operations, op, answer);
    }

    /// The operation with its answer where others show these rows in its entry, and room for it,
    /// so that telling it takes no memory. Until it is told, nothing is done.
    ///
    /// Each caller names a type of its own, `By`: so the compiler makes it for each apart, and
    /// leaves out what the caller's kind of operation doesn't need.
    #[inline(always)]
    pub fn prepare<By>(&mut self, op: Op, others: RowsShown) -> Result<NextOperation, AllocError>
        requires { AreRowsOf (entry_of op) (rows_in others) }
        ensures next { IfOk result (IsPreparedFor self.old op (rows_in others)) }
        ensures same { work_in self.new ≡ work_in self.old }
        ensures room { OnOk result (0 < self.new.room) }
    {
        let answer = self.next_answer(&op, &others)?;
        let told = answer_again(*self.operations.allocator(), &answer)?;
        let write = write_of(&op, &told)?;
        let alloc = *self.operations.allocator();
        let next = NextOperation::new(alloc, op, others, answer, told, write)?;
        match self.make_room() {
            Ok(()) => Ok(next),
            Err(e) => Err(e),
        }
    }

    /// Does the operation that was prepared, and answers what it is answered. It takes no memory.
    #[inline(always)]
    pub fn tell(&mut self, next: NextOperation) -> Answer
        requires room { 0 < self.old.room }
        requires limits { MayFollow self.old.history next.op next.answer }
        requires few { is_entry_too_many self.old.history (entry_of next.op) ≡ false }
        requires answer { next.answer ≡ answer_kept
            (with_looked self.old.looked (entry_of next.op) next.rows) self.old.history next.op }
        ensures told { work_in self.new ≡ after_op (work_in self.old) next.op next.rows }
        ensures answer { answer_data result ≡ next.answer }
    {
        let NextParts {
            op,
            others,
            answer,
            told,
            write,
        } = next.into_parts();
        self.add(op, others, told, write);
        answer
    }

    /// Does the operation where others show these rows in its entry: its answer is the serial
    /// step's, behind the own earlier writes, on the rows that the entry keeps; and these are what
    /// it keeps where it is new. Refused for want of memory, it has done nothing.
    #[inline(always)]
    pub fn keep(&mut self, op: Op, others: RowsShown) -> Result<Answer, AllocError>
        requires shown { AreRowsOf (entry_of op) (rows_in others) }
        requires limits { (a : AnswerData) → MayFollow self.old.history op a }
        requires few { is_entry_too_many self.old.history (entry_of op) ≡ false }
        ensures answer { IfOk result (λ a. answer_data a ≡ answer_kept
            (with_looked self.old.looked (entry_of op) (rows_in others)) self.old.history op) }
        ensures ok { OnOk result
            (work_in self.new ≡ after_op (work_in self.old) op (rows_in others)) }
        ensures err { OnErr result (work_in self.new ≡ work_in self.old) }
    {
        let answer = self.next_answer(&op, &others)?;
        let told = answer_again(*self.operations.allocator(), &answer)?;
        let written = write_of(&op, &told)?;
        self.make_room()?;
        self.add(op, others, told, written);
        Ok(answer)
    }
}

/// Adds an operation with its answer where there is room.
#[inline(always)]
fn push_reserved(operations: &mut Vec<(Op, Answer)>, op: Op, answer: Answer)
    requires { vec_len operations.old < vec_capacity operations.old }
    ensures { operations.new.items ≡ operations.old.items ++ (op, answer) ∷ [] }
{
    operations.push((op, answer)).unwrap();
}
