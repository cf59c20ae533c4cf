//! Whether what an opening answers is what was promised.
ghost use Rattle.std.specs.Prelude.{◌≡◌, ◌↔◌, IsTrue, IfOk, OnOk, Err};
ghost use Rattle.std.specs.FinMap as map;
ghost use Rattle.mvo_types.specs.RowLists.{rows_by_key};
ghost use Rattle.mvo_stops.specs.Judging.{wrong_in};
ghost use Rattle.mvo_stops.specs.Promise.{rows_of_commits, with_rows};

use crate::commit::Commit;
use crate::counts::Counts;
use crate::error::StopsError;
use crate::history::History;
use crate::look::Look;
use crate::look_end::LookEnd;
use crate::opening::Opened;
use crate::recorded::Recorded;
use crate::wrong::Wrong;
use mvo_disk::MemDisk;
use mvo_model::Serial;
use mvo_types::{Refusal, Row, Rows, Stamp};
use std::alloc::{AllocError, Global};
use std::thread::Threads;

/// What a run promised, with a fault or without, how much was looked at, and what was found wrong
/// first. That stays: who drops what it answers loses nothing.
pub struct Judge {
    history: History,
    counts: Counts,
    wrong: Option<Wrong>,
}

impl Drop for Judge {
    fn drop(self) {
        let Judge {
            history: _,
            counts: _,
            wrong: _,
        } = self;
    }
}

impl Judge {
    ghost use Rattle.std.specs.Prelude.{◌≡◌, ◌≢◌, ◌+◌, ℕ, Some, Ok, Err, IfOk, OnOk};
    ghost use Rattle.mvo_types.specs.Keys.{Map};
    ghost use Rattle.mvo_disk.specs.Record.{file_content};
    ghost use Rattle.mvo_stops.specs.Judging.{Promises, OpensAsPromised};
    ghost use Rattle.mvo_stops.specs.Judging.{JudgesImage, JudgesAgain, NotesWrong};
    ghost use Rattle.mvo_stops.specs.declared.wrong.Wrong.{Wrong};

    /// What the replies of a run promised.
    pub fn new(history: History) -> Judge {
        Judge {
            history,
            counts: Counts::new(),
            wrong: None,
        }
    }

    /// How much was looked at so far.
    pub fn counts(&self) -> Counts
        ensures { result ≡ self.now.counts }
    {
        self.counts
    }

    /// What was found wrong first.
    pub fn wrong(&self) -> Option<Wrong>
        ensures { result ≡ self.now.wrong }
    {
        self.wrong
    }

    /// The greatest timestamp that was acknowledged.
    pub fn acknowledged(&self) -> Stamp
        ensures { result ≡ self.now.history.acknowledged }
    {
        self.history.acknowledged()
    }

    /// Opens the store on what a stop or a fault left, and compares what that answers with what was
    /// promised, where this timestamp was acknowledged. The mark, and the disk behind the opening.
    /// Where openings are refused at this look, that is wrong.
    pub fn look(
        &mut self,
        rt: &(impl Threads + Sync),
        recorded: &Recorded,
        disk: MemDisk,
        acknowledged: Stamp,
        look: Look,
    ) -> Result<(Stamp, MemDisk), LookEnd>
        ensures kept { IfOk result (λ x.
            OpensAsPromised self.old recorded.now acknowledged.0 (file_content disk) x.0.0) }
        ensures files { IfOk result (λ x. (n : ℕ) → file_content x.1 n ≡ file_content disk n) }
        ensures refused { OnOk result (recorded.now.refused ≢ Some look) }
        ensures judges { JudgesImage self.old self.new }
        ensures noted { NotesWrong result self.old self.new }
    {
        let (opened, disk) = recorded.open_at(rt, look, disk);
        match self.judge(recorded, opened, acknowledged) {
            Ok(mark) => Ok((mark, disk)),
            Err(end) => Err(end),
        }
    }

    /// The same of a disk that was made anew as it stood when it was looked at: it is no other
    /// image.
    pub fn look_again(
        &mut self,
        rt: &(impl Threads + Sync),
        recorded: &Recorded,
        disk: MemDisk,
        acknowledged: Stamp,
        look: Look,
    ) -> Result<(Stamp, MemDisk), LookEnd>
        ensures kept { IfOk result (λ x.
            OpensAsPromised self.old recorded.now acknowledged.0 (file_content disk) x.0.0) }
        ensures files { IfOk result (λ x. (n : ℕ) → file_content x.1 n ≡ file_content disk n) }
        ensures refused { OnOk result (recorded.now.refused ≢ Some look) }
        ensures judges { JudgesAgain self.old self.new }
        ensures noted { NotesWrong result self.old self.new }
    {
        let (opened, disk) = recorded.open_at(rt, look, disk);
        match self.judge_again(recorded, opened, acknowledged) {
            Ok(mark) => Ok((mark, disk)),
            Err(end) => Err(end),
        }
    }

    /// Opens the store on a disk whose call at this place, from 0, fails. The disk behind that: it
    /// has met a fault more.
    pub fn look_cut(
        &mut self,
        rt: &(impl Threads + Sync),
        recorded: &Recorded,
        disk: MemDisk,
        place: usize,
        look: Look,
    ) -> Result<MemDisk, LookEnd>
        ensures fault { IfOk result (λ after. after.fault_count ≡ disk.fault_count + 1) }
        ensures files { IfOk result (λ after.
            (n : ℕ) → file_content after n ≡ file_content disk n) }
        ensures refused { OnOk result (recorded.now.refused ≢ Some look) }
        ensures judges { JudgesAgain self.old self.new }
        ensures noted { NotesWrong result self.old self.new }
    {
        let mut disk = disk;
        disk.fail_at(place as u64);
        let (opened, disk) = recorded.open_at(rt, look, disk);
        match self.judge_cut(opened) {
            Ok(()) => Ok(disk),
            Err(end) => Err(end),
        }
    }

    /// Compares what an opening of an image answered with what was promised, where this timestamp
    /// was acknowledged. The mark.
    pub fn judge(
        &mut self,
        recorded: &Recorded,
        opened: Opened,
        acknowledged: Stamp,
    ) -> Result<Stamp, LookEnd>
        ensures promised { IfOk result (λ m. (rows : Map) × (opened ≡ Ok (rows, m)) ×
            Promises self.old recorded.now acknowledged.0 rows m.0) }
        ensures wrong { (w : Wrong) → result ≡ Err (LookEnd.Wrong w) → IfOk opened (λ o.
            ¬ Promises self.old recorded.now acknowledged.0 o.0 o.1.0) }
        ensures judges { JudgesImage self.old self.new }
        ensures noted { NotesWrong result self.old self.new }
    {
        self.counts = self.counts.with_image();
        self.judge_again(recorded, opened, acknowledged)
    }

    /// The same of an image that was counted before.
    fn judge_again(
        &mut self,
        recorded: &Recorded,
        opened: Opened,
        acknowledged: Stamp,
    ) -> Result<Stamp, LookEnd>
        ensures promised { IfOk result (λ m. (rows : Map) × (opened ≡ Ok (rows, m)) ×
            Promises self.old recorded.now acknowledged.0 rows m.0) }
        ensures wrong { (w : Wrong) → result ≡ Err (LookEnd.Wrong w) → IfOk opened (λ o.
            ¬ Promises self.old recorded.now acknowledged.0 o.0 o.1.0) }
        ensures judges { JudgesAgain self.old self.new }
        ensures noted { NotesWrong result self.old self.new }
    {
        self.counts = self.counts.with_opening();
        let judged = self.judge_opened(recorded, opened, acknowledged);
        self.note(&judged);
        judged
    }

    /// Compares what an opening answered of which a call was made to fail: that is a fault of the
    /// disk.
    fn judge_cut(&mut self, opened: Opened) -> Result<(), LookEnd>
        ensures fault { OnOk result (opened ≡ Err Refusal.DiskFault) }
        ensures answered { IfOk opened (λ _. result ≡ Err (LookEnd.Wrong Wrong.FaultMissed)) }
        ensures judges { JudgesAgain self.old self.new }
        ensures noted { NotesWrong result self.old self.new }
    {
        self.counts = self.counts.with_opening();
        let judged = is_cut(opened);
        self.note(&judged);
        judged
    }

    /// Keeps what was found wrong, if nothing was before.
    fn note<T>(&mut self, judged: &Result<T, LookEnd>)
        ensures rest { (self.new.history ≡ self.old.history) × (self.new.counts ≡ self.old.counts) }
        ensures noted { NotesWrong judged.now self.old self.new }
    {
        self.wrong = self.wrong.or(wrong_in(judged));
    }

    /// Compares what an opening answered with what was promised.
    fn judge_opened(
        &self,
        recorded: &Recorded,
        opened: Opened,
        acknowledged: Stamp,
    ) -> Result<Stamp, LookEnd>
        ensures promised { IfOk result (λ m. (rows : Map) × (opened ≡ Ok (rows, m)) ×
            Promises self.now recorded.now acknowledged.0 rows m.0) }
        ensures wrong { (w : Wrong) → result ≡ Err (LookEnd.Wrong w) → IfOk opened (λ o.
            ¬ Promises self.now recorded.now acknowledged.0 o.0 o.1.0) }
    {
        match opened {
            Ok((rows, mark)) => self.judge_rows(recorded, rows, mark, acknowledged),
            // No call was made to fail.
            Err(Refusal::OutOfMemory | Refusal::DiskFault) => {
                Err(LookEnd::Error(StopsError::OutOfMemory))
            }
            Err(refusal) => Err(LookEnd::Wrong(Wrong::NotOpened(refusal))),
        }
    }

    /// Compares rows and a mark with what was promised.
    fn judge_rows(
        &self,
        recorded: &Recorded,
        rows: Rows,
        mark: Stamp,
        acknowledged: Stamp,
    ) -> Result<Stamp, LookEnd>
        ensures promised { IfOk result (λ m. (m ≡ mark) ×
            Promises self.now recorded.now acknowledged.0 rows mark.0) }
        ensures wrong { (w : Wrong) → result ≡ Err (LookEnd.Wrong w) →
            ¬ Promises self.now recorded.now acknowledged.0 rows mark.0 }
    {
        if mark.0 < acknowledged.0 {
            return Err(LookEnd::Wrong(Wrong::MarkTooLow { mark, acknowledged }));
        }
        if self.history.clock().0 < mark.0 {
            return Err(LookEnd::Wrong(Wrong::MarkTooHigh(mark)));
        }
        let wanted = rows_of_commits(recorded, self.history.commits(), mark)?;
        let rows = rows.into_rows(recorded.alloc)?;
        if same_rows(&wanted, &rows) {
            Ok(mark)
        } else {
            Err(LookEnd::Wrong(Wrong::OtherRows(mark)))
        }
    }
}

/// Whether an opening of which a call failed is refused as a fault of the disk.
fn is_cut(opened: Opened) -> Result<(), LookEnd>
    ensures fault { OnOk result (opened ≡ Err Refusal.DiskFault) }
    ensures answered { IfOk opened (λ _. result ≡ Err (LookEnd.Wrong Wrong.FaultMissed)) }
{
    match opened {
        Err(Refusal::DiskFault) => Ok(()),
        Err(Refusal::OutOfMemory) => Err(LookEnd::Error(StopsError::OutOfMemory)),
        Err(refusal) => Err(LookEnd::Wrong(Wrong::NotOpened(refusal))),
        Ok(_) => Err(LookEnd::Wrong(Wrong::FaultMissed)),
    }
}

/// What is wrong, if that's why no more is looked at.
pub fn wrong_in<T>(judged: &Result<T, LookEnd>) -> Option<Wrong>
    ensures { result ≡ wrong_in judged.now }
{
    match judged {
        Ok(_) | Err(LookEnd::Error(_)) => None,
        Err(LookEnd::Wrong(wrong)) => Some(*wrong),
    }
}

/// Whether both lists have the same rows.
fn same_rows(one: &[Row], two: &[Row]) -> bool
    ensures { IsTrue result ↔ (one.now ≡ two.now) }
{
    let mut rest = two;
    for row in one {
        let [other, after @ ..] = rest else {
            return false;
        };
        if !row.same(other) {
            return false;
        }
        rest = after;
    }
    rest.is_empty()
}

/// The rows of a list.
fn rows_of(alloc: Global, list: &[Row]) -> Result<Rows, AllocError>
    ensures { IfOk result (λ rows. rows ≡ with_rows list.now map.empty) }
{
    let mut rows = Rows::new(alloc);
    for row in list {
        rows.put(row.copy()?)?;
    }
    Ok(rows)
}

/// The rows, by their keys, after one map has run the commits up to a mark one after another.
fn rows_of_commits(
    recorded: &Recorded,
    commits: &[Commit],
    mark: Stamp,
) -> Result<Vec<Row>, AllocError>
    ensures { IfOk result (λ v. v.items ≡
        rows_by_key (rows_of_commits mark.0 commits.now recorded.now.rows.items)) }
{
    let alloc = recorded.alloc;
    let mut serial = Serial::new(alloc, rows_of(alloc, &recorded.rows)?);
    for commit in commits {
        if commit.end.0 <= mark.0 {
            serial.run_one(&commit.ops)?;
        }
    }
    serial.into_rows().into_rows(alloc)
}
