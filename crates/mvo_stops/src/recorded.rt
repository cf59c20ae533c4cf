use crate::error::StopsError;
use crate::look::Look;
use crate::opening::{Opened, open};
use crate::replay::make;
use crate::run::{Ran, driver_over, run_lines};
use crate::script_start::ScriptStart;
use mvo_disk::{Call, DeviceWork, MemDisk};
use mvo_script::Driver;
use mvo_types::{Refusal, Row};
use std::alloc::{AllocError, Global};
use std::thread::Threads;

/// A script, what it starts from, and the calls of the device that it makes where none fails.
pub struct Recorded {
    pub(crate) alloc: Global,
    pub(crate) seed: u64,
    pub(crate) start: ScriptStart,
    pub(crate) lines: Vec<Vec<u8>>,
    /// The rows that it starts from.
    pub(crate) rows: Vec<Row>,
    /// So many calls open the store before the first line.
    pub(crate) opening: usize,
    /// The disk behind the last line, with all calls in its record.
    disk: MemDisk,
    /// The places of the calls whose syncs are left out.
    forgotten: Vec<usize>,
    /// Whether the syncs of openings are left out.
    openings_forget: bool,
    /// Whether calls are made behind one that failed as if it hadn't.
    faults_forgotten: bool,
    /// The openings that are refused, whatever the disk holds.
    refused: Option<Look>,
}

impl Drop for Recorded {
    fn drop(self) {
        let Recorded {
            alloc: _,
            seed: _,
            start: _,
            lines: _,
            rows: _,
            opening: _,
            disk: _,
            forgotten: _,
            openings_forget: _,
            faults_forgotten: _,
            refused: _,
        } = self;
    }
}

impl Recorded {
    ghost use Rattle.std.specs.Prelude.{◌≡◌, ◌≢◌, ◌⊎◌, ◌↔◌, ◌+◌, ℕ, [], true, IsTrue};
    ghost use Rattle.std.specs.Prelude.{Some, Ok, Err, IfOk, IfErr};
    ghost use Rattle.mvo_disk.specs.Record.{file_content};
    ghost use Rattle.mvo_store.specs.Opening.{IsAnswer, IsNotOfFiles};
    ghost use Rattle.mvo_stops.specs.Calls.{calls_in};
    ghost use Rattle.mvo_stops.specs.Looking.{RunsPastFault};

    /// Runs the lines over what the disk holds as they begin. No line need be a good one.
    pub fn of(
        rt: &(impl Threads + Sync),
        alloc: Global,
        seed: u64,
        start: ScriptStart,
        lines: Vec<Vec<u8>>,
    ) -> Result<Recorded, StopsError> {
        let (rows, opening) = opened_start(rt, alloc, seed, &start)?;
        let disk = run_whole(rt, alloc, seed, &start, &lines)?;
        Ok(Recorded {
            alloc,
            seed,
            start,
            lines,
            rows,
            opening,
            disk,
            forgotten: Vec::new(alloc),
            openings_forget: false,
            faults_forgotten: false,
            refused: None,
        })
    }

    /// The calls of the device that the lines make, in order.
    pub fn calls(&self) -> &[Call]
        ensures { result.now ≡ calls_in self.now }
    {
        match self.disk.calls().get(self.opening..) {
            Some(calls) => calls,
            None => &[],
        }
    }

    /// Leaves out the sync that is the call of this number, from 1: what is looked at from here on
    /// is what a store leaves that forgets it. Whether that call is a sync; if not, nothing is left
    /// out.
    pub fn forget_sync(&mut self, number: usize) -> Result<bool, AllocError> {
        let place = number.wrapping_sub(1);
        let is_sync = match self.calls().get(place) {
            Some(call) => matches!(&call.work, DeviceWork::Sync),
            None => false,
        };
        if is_sync {
            self.forgotten.push(place)?;
        }
        Ok(is_sync)
    }

    /// Leaves out the syncs of each opening behind the script: what is looked at from here on is
    /// what a store leaves that trusts bytes before they are durable.
    pub fn forget_openings(&mut self)
        ensures { self.new ≡ record self.old { openings_forget = true } }
    {
        self.openings_forget = true;
    }

    /// Has the calls behind one that fails made as if it hadn't: what is looked at from here on is
    /// what a store leaves that goes on after a fault, though it answers that it is down.
    pub fn forget_faults(&mut self)
        ensures { self.new ≡ record self.old { faults_forgotten = true } }
    {
        self.faults_forgotten = true;
    }

    /// Has each opening refused that is made at such a look: what is looked at from here on is what
    /// a store leaves that can't be opened then. `explain_call` opens it all the same.
    pub fn refuse(&mut self, look: Look)
        ensures { self.new ≡ record self.old { refused = Some look } }
    {
        self.refused = Some(look);
    }

    /// Leaves no sync out any more, and no fault, and refuses no opening.
    pub fn forget_none(&mut self) {
        self.forgotten.clear();
        self.openings_forget = false;
        self.faults_forgotten = false;
        self.refused = None;
    }

    /// Whether the openings of such a look are refused.
    fn is_refused(&self, look: Look) -> bool
        ensures { IsTrue result ↔ (self.now.refused ≡ Some look) }
    {
        match self.refused {
            Some(refused) => refused == look,
            None => false,
        }
    }

    /// Opens the store on a disk, as `open` does, unless that is refused at such a look.
    pub(crate) fn open_at(
        &self,
        rt: &(impl Threads + Sync),
        look: Look,
        disk: MemDisk,
    ) -> (Opened, MemDisk)
        ensures answer { IfOk result.0 (λ o. IsAnswer (file_content disk) (Ok (o.0, o.1.0))) }
        ensures refused { self.now.refused ≢ Some look → IfErr result.0 (λ e.
            IsNotOfFiles e ⊎ IsAnswer (file_content disk) (Err e)) }
        ensures denied { self.now.refused ≡ Some look → result.0 ≡ Err Refusal.NotFormatted }
        ensures fault { result.0 ≡ Err Refusal.DiskFault →
            result.1.fault_count ≡ disk.fault_count + 1 }
        ensures content { (n : ℕ) → file_content result.1 n ≡ file_content disk n }
    {
        let (opened, disk) = open(rt, self.alloc, self.seed, disk);
        if self.is_refused(look) {
            (Err(Refusal::NotFormatted), disk)
        } else {
            (opened, disk)
        }
    }

    /// Whether the syncs of openings are left out.
    pub(crate) fn do_openings_forget(&self) -> bool
        ensures { result ≡ self.now.openings_forget }
    {
        self.openings_forget
    }

    /// Whether the call at this place, from 0, is a sync that is left out.
    pub(crate) fn is_forgotten(&self, place: usize) -> bool {
        self.forgotten.contains(&place)
    }

    /// The calls behind the one at this place, from 0, that a run makes in which that one fails, by
    /// the disk that the run left.
    pub(crate) fn rest_of<'a>(&'a self, left: &'a MemDisk, place: usize) -> &'a [Call]
        ensures { RunsPastFault self.now place → result.now ≢ [] }
    {
        let rest = if self.faults_forgotten {
            self.calls().get(place.saturating_add(1)..)
        } else {
            // The one that failed isn't in the disk's record.
            left.calls().get(self.opening.saturating_add(place)..)
        };
        match rest {
            Some(calls) => calls,
            None => &[],
        }
    }

    /// Makes the calls from one place up to another, from 0, but for the syncs that are left out.
    pub(crate) fn make_between(
        &self,
        disk: &mut MemDisk,
        from: usize,
        to: usize,
    ) -> Result<(), StopsError> {
        for (place, call) in self.calls().iter().enumerate().take(to).skip(from) {
            if !self.is_forgotten(place) {
                make(disk, call)?;
            }
        }
        Ok(())
    }

    /// Runs the lines with the call at this place, from 0, failing.
    pub(crate) fn run_failing(
        &self,
        rt: &(impl Threads + Sync),
        place: usize,
    ) -> Result<Ran, StopsError> {
        let disk = self.disk_failing(place)?;
        run_lines(rt, self.alloc, self.seed, disk, &self.lines)
    }

    /// A driver over a disk whose call at this place, from 0, behind the opening fails.
    pub(crate) fn driver_failing(
        &self,
        rt: &(impl Threads + Sync),
        place: usize,
    ) -> Result<Driver<MemDisk>, StopsError> {
        let disk = self.disk_failing(place)?;
        driver_over(rt, self.alloc, self.seed, disk)
    }

    fn disk_failing(&self, place: usize) -> Result<MemDisk, StopsError> {
        let mut disk = self.start.disk()?;
        disk.fail_at(self.opening.saturating_add(place) as u64);
        Ok(disk)
    }
}

/// The rows that a script starts from, and how many calls the opening makes.
fn opened_start(
    rt: &(impl Threads + Sync),
    alloc: Global,
    seed: u64,
    start: &ScriptStart,
) -> Result<(Vec<Row>, usize), StopsError> {
    let (opened, disk) = open(rt, alloc, seed, start.disk()?);
    match opened {
        Ok((rows, _)) => Ok((rows.into_rows(alloc)?, disk.calls().len())),
        Err(refusal) => Err(StopsError::Start(refusal)),
    }
}

/// The disk behind a script of which no call fails.
fn run_whole(
    rt: &(impl Threads + Sync),
    alloc: Global,
    seed: u64,
    start: &ScriptStart,
    lines: &[Vec<u8>],
) -> Result<MemDisk, StopsError> {
    let ran = run_lines(rt, alloc, seed, start.disk()?, lines)?;
    if ran.fault.is_some() {
        return Err(StopsError::OutOfMemory);
    }
    Ok(ran.into_disk())
}
