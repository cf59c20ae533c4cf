//! Random runs of all steps, in which each call of the disk fails once, beside a plain table.
use crate::bodies::Body::Write;
use crate::disks::{new_disk, stopped, stops_halfway};
use crate::equal::{holds, same};
use crate::numbers::Numbers;
use crate::reply::Reply::{self, Done, Installed, Marked, Refused};
use crate::step::Step::{
    self, Append, Checkpoint, CheckpointRead, Due, Merge, MergeRead, Reclaim, Rotate,
};
use crate::stores::{following, opened, store_on};
use mvo_disk::MemDisk;
use mvo_store::{Generation, Store};
use mvo_types::{Refusal, RowKey, Rows, Stamp};
use std::alloc::Global;
use std::process::Abort;
use std::test::Fail;
use std::thread::Threads;

const KEYS: u64 = 4;

const STEPS: u8 = 24;

// How many rounds were made durable, and the data that they left at each key.
#[derive(Clone, Copy)]
struct Plain {
    rounds: u8,
    data: [Option<u8>; KEYS as usize],
}

const NOTHING: Plain = Plain {
    rounds: 0,
    data: [None; KEYS as usize],
};

impl Plain {
    // After a step that is done.
    fn after(mut self, step: Step) -> Plain {
        if let Append(Write(round, key, data)) = step {
            self.rounds = round;
            for at in 0..self.data.len() {
                if at == key as usize {
                    self.data[at] = data;
                }
            }
        }
        self
    }

    fn mark(self) -> Stamp {
        Stamp(u64::from(self.rounds).saturating_mul(2))
    }
}

// Whether the key has these data.
fn has_data(rows: &Rows, key: usize, data: Option<u8>) -> Result<bool, Fail> {
    let key = key as u64;
    let row = rows.get(RowKey { table: 0, key })?;
    Ok(match (row, data) {
        (None, None) => true,
        (Some(row), Some(byte)) => row.bytes() == [byte].as_slice(),
        _ => false,
    })
}

fn has_all(rows: &Rows, plain: Plain) -> Result<bool, Fail> {
    for (key, data) in plain.data.iter().enumerate() {
        if !has_data(rows, key, *data)? {
            return Ok(false);
        }
    }
    Ok(true)
}

// A write of the next round.
fn some_write(numbers: &mut Numbers, rounds: u8) -> Step {
    let round = rounds.saturating_add(1);
    let key = (numbers.below(KEYS) % KEYS) as u8;
    if numbers.below(4) == 0 {
        Append(Write(round, key, None))
    } else {
        Append(Write(round, key, Some(round)))
    }
}

// Of jobs that are made at once.
fn some_whole(numbers: &mut Numbers, rounds: u8) -> Step {
    match numbers.below(8) {
        0 | 1 => Rotate,
        2 | 3 => Checkpoint,
        4 => Merge(numbers.below(2) as usize),
        _ => some_write(numbers, rounds),
    }
}

// Of a merge and of checkpoints, step by step.
fn some_beside(numbers: &mut Numbers, rounds: u8) -> Step {
    match numbers.below(9) {
        0 | 1 => MergeRead(numbers.below(2) as usize),
        2 => CheckpointRead,
        3 => Checkpoint,
        4..=7 => Due,
        _ => some_write(numbers, rounds),
    }
}

// What a run is made of.
#[derive(Clone, Copy)]
enum Kind {
    // Jobs that are made at once, from a new store on.
    Whole,
    // A merge beside checkpoints, from two pairs and two sealed segments on.
    Beside,
}

// Each of the two segments ends a record of a pair.
const TO_BESIDE: [(Step, Reply); 13] = [
    (Append(Write(1, 0, Some(1))), Marked(Stamp(2))),
    (Append(Write(2, 1, Some(2))), Marked(Stamp(4))),
    (Rotate, Installed(Generation(1))),
    (Append(Write(3, 2, Some(3))), Marked(Stamp(6))),
    (Append(Write(4, 3, Some(4))), Marked(Stamp(8))),
    (Rotate, Installed(Generation(2))),
    (Checkpoint, Installed(Generation(3))),
    (Checkpoint, Installed(Generation(4))),
    (Append(Write(5, 1, None)), Marked(Stamp(10))),
    (Rotate, Installed(Generation(5))),
    (Append(Write(6, 2, Some(6))), Marked(Stamp(12))),
    (Rotate, Installed(Generation(6))),
    (Append(Write(7, 0, Some(7))), Marked(Stamp(14))),
];

impl Kind {
    // The disk that a run begins with.
    fn disk(self, rt: &(impl Abort + Threads + Sync), alloc: Global) -> Result<MemDisk, Fail> {
        match self {
            Kind::Whole => new_disk(alloc),
            Kind::Beside => Ok(following(rt, alloc, &TO_BESIDE)?.into_disk()),
        }
    }

    // What is durable then.
    fn plain(self) -> Plain {
        let mut plain = NOTHING;
        if let Kind::Beside = self {
            for (step, _) in TO_BESIDE {
                plain = plain.after(step);
            }
        }
        plain
    }

    fn step(self, numbers: &mut Numbers, rounds: u8) -> Step {
        match self {
            Kind::Whole => some_whole(numbers, rounds),
            Kind::Beside => some_beside(numbers, rounds),
        }
    }
}

// How often what was met in all runs.
#[derive(Clone, Copy, Debug)]
struct Met {
    merges: u32,
    // Checkpoints that were installed beside a merge.
    beside: u32,
    faults: u32,
    // Of a merge whose steps were made at once, and of one whose steps others came between.
    merge_faults: u32,
    due_faults: u32,
}

impl Met {
    fn new() -> Met {
        Met {
            merges: 0,
            beside: 0,
            faults: 0,
            merge_faults: 0,
            due_faults: 0,
        }
    }

    fn failed(&mut self, step: Step) {
        self.faults = self.faults.saturating_add(1);
        match step {
            Merge(_) => self.merge_faults = self.merge_faults.saturating_add(1),
            Due => self.due_faults = self.due_faults.saturating_add(1),
            _ => {}
        }
    }
}

#[derive(Drop)]
struct Run {
    kind: Kind,
    numbers: Numbers,
    met: Met,
    plain: Plain,
    // The same, or what stands where the step at which the run ended counts.
    after: Plain,
    // Which jobs run whose steps others come between.
    checkpoint: bool,
    merge: bool,
}

impl Run {
    fn new(kind: Kind, seed: u64, met: Met) -> Run {
        Run {
            kind,
            numbers: Numbers::new(seed),
            met,
            plain: kind.plain(),
            after: kind.plain(),
            checkpoint: false,
            merge: false,
        }
    }

    // Makes a step, and says whether the disk has met a fault.
    fn step(&mut self, alloc: Global, store: &mut Store<MemDisk>) -> Result<bool, Fail> {
        let step = self.kind.step(&mut self.numbers, self.plain.rounds);
        self.after = self.plain.after(step);
        let reply = step.of(store, alloc)?;
        if let Refused(Refusal::DiskFault) = reply {
            self.met.failed(step);
            self.checkpoint = false;
            self.merge = false;
            return Ok(true);
        }
        self.note(step, reply);
        self.after = self.plain;
        Ok(false)
    }

    // Notes what was answered to a step, other than a fault. A merge that is busy at its last file
    // runs on.
    fn note(&mut self, step: Step, reply: Reply) {
        match (step, reply) {
            (_, Marked(_)) => self.plain = self.after,
            (CheckpointRead, Done) => self.checkpoint = true,
            (MergeRead(_), Done) | (Merge(_), Refused(Refusal::Busy)) => self.merge = true,
            (Checkpoint, Installed(_)) => self.note_checkpoint(),
            (Due, Installed(_)) if self.checkpoint => self.note_checkpoint(),
            (Due | Merge(_), Installed(_)) => self.note_merge(),
            _ => {}
        }
    }

    fn note_checkpoint(&mut self) {
        self.checkpoint = false;
        if self.merge {
            self.met.beside = self.met.beside.saturating_add(1);
        }
    }

    fn note_merge(&mut self) {
        self.merge = false;
        self.met.merges = self.met.merges.saturating_add(1);
    }

    // Makes some steps, and says whether the disk has met a fault, at which it ends.
    fn go(&mut self, alloc: Global, store: &mut Store<MemDisk>) -> Result<bool, Fail> {
        for _ in 0..STEPS {
            if self.step(alloc, store)? {
                return Ok(true);
            }
        }
        Ok(false)
    }

    // What was found must be what is durable.
    fn has_durable(&mut self, rt: &impl Abort, rows: &Rows, mark: Stamp) -> Result<(), Fail> {
        if mark == self.after.mark() {
            self.plain = self.after;
        }
        same(rt, &mark, &self.plain.mark());
        holds(rt, has_all(rows, self.plain)?);
        self.after = self.plain;
        Ok(())
    }

    // The store on a disk, which must have what is durable.
    fn open(
        &mut self,
        rt: &(impl Abort + Threads + Sync),
        alloc: Global,
        disk: MemDisk,
    ) -> Result<Store<MemDisk>, Fail> {
        let (store, rows, mark) = opened(rt, alloc, disk)?;
        self.has_durable(rt, &rows, mark)?;
        Ok(store)
    }
}

// The disk after a stop, which leaves half of the last write where it may.
fn stopped_somehow(alloc: Global, mut disk: MemDisk) -> Result<MemDisk, Fail> {
    if stops_halfway(alloc, &mut disk)? {
        return Ok(disk);
    }
    stopped(disk)
}

// A store, of whose disk this call fails.
fn failing(
    rt: &(impl Abort + Threads + Sync),
    alloc: Global,
    kind: Kind,
    call: u64,
) -> Result<Store<MemDisk>, Fail> {
    let mut disk = stopped(kind.disk(rt, alloc)?)?;
    disk.fail_at(call);
    store_on(rt, alloc, disk)
}

// How many calls its opening makes.
fn opening_calls(
    rt: &(impl Abort + Threads + Sync),
    alloc: Global,
    kind: Kind,
) -> Result<u64, Fail> {
    let disk = failing(rt, alloc, kind, u64::MAX)?.into_disk();
    Ok(disk.calls().len() as u64)
}

// Empties some files.
fn reclaim(alloc: Global, store: &mut Store<MemDisk>) -> Result<(), Fail> {
    for _ in 0..4u8 {
        let _ = Reclaim.of(store, alloc)?;
    }
    Ok(())
}

// A run over what a stop left.
fn goes_on(
    rt: &(impl Abort + Threads + Sync),
    alloc: Global,
    run: &mut Run,
    mut store: Store<MemDisk>,
) -> Result<(), Fail> {
    reclaim(alloc, &mut store)?;
    let _ = run.go(alloc, &mut store)?;
    let _ = run.open(rt, alloc, stopped(store.into_disk())?)?;
    Ok(())
}

// A run up to a call that fails, and another over what a stop left, if the first one met the
// failure.
fn fails_at(
    rt: &(impl Abort + Threads + Sync),
    alloc: Global,
    run: &mut Run,
    call: u64,
) -> Result<bool, Fail> {
    let mut store = failing(rt, alloc, run.kind, call)?;
    let failed = run.go(alloc, &mut store)?;
    let disk = stopped_somehow(alloc, store.into_disk())?;
    let store = run.open(rt, alloc, disk)?;
    if failed {
        goes_on(rt, alloc, run, store)?;
    }
    Ok(failed)
}

// A run of which each call fails once.
fn each_call_fails(
    rt: &(impl Abort + Threads + Sync),
    alloc: Global,
    kind: Kind,
    seed: u64,
    mut met: Met,
) -> Result<Met, Fail> {
    let first = opening_calls(rt, alloc, kind)?;
    let mut more = true;
    for calls in 0..2_000u64 {
        if more {
            let mut run = Run::new(kind, seed, met);
            more = fails_at(rt, alloc, &mut run, first.saturating_add(calls))?;
            met = run.met;
        }
    }
    holds(rt, !more);
    Ok(met)
}

#[test]
fn each_call_of_a_run_may_fail(rt: HostRuntime) -> Result<(), Fail> {
    let mut met = Met::new();
    for seed in 0..2u64 {
        met = each_call_fails(&rt, rt.alloc(), Kind::Whole, seed, met)?;
    }
    holds(
        &rt,
        met.merges > 300 && met.faults > 200 && met.merge_faults > 20,
    );
    Ok(())
}

#[test]
fn each_call_of_jobs_may_fail_beside_one_another(rt: HostRuntime) -> Result<(), Fail> {
    let mut met = Met::new();
    for seed in 0..4u64 {
        met = each_call_fails(&rt, rt.alloc(), Kind::Beside, seed, met)?;
    }
    let enough = met.merges > 100 && met.beside > 100 && met.due_faults > 50;
    assert!(rt; enough, "{met:?}");
    Ok(())
}
