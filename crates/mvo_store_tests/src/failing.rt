//! Jobs over three rounds, each call of which fails once, or which stop within a write.
use crate::disks::{stopped, stops_halfway};
use crate::equal::{holds, same};
use crate::reply::Reply::{self, Installed, Refused};
use crate::step::Step;
use crate::stores::{after_stop, follow, following, store_on};
use mvo_disk::MemDisk;
use mvo_store::{Generation, Store};
use mvo_types::Refusal;
use std::alloc::Global;
use std::process::Abort;
use std::test::Fail;
use std::thread::Threads;

/// A job over a store with three rounds.
#[derive(Clone, Copy)]
pub(crate) struct Job {
    /// The steps up to the three rounds.
    pub(crate) before: &'static [(Step, Reply)],
    /// All its steps.
    pub(crate) whole: Step,
    /// The generation that it installs.
    pub(crate) generation: Generation,
    /// The step that it begins with.
    pub(crate) first: Step,
    /// A job of its kind that goes through after it.
    pub(crate) next: Step,
}

impl Job {
    // A disk with the three rounds.
    fn disk(self, rt: &(impl Abort + Threads + Sync), alloc: Global) -> Result<MemDisk, Fail> {
        stopped(following(rt, alloc, self.before)?.into_disk())
    }

    // How many calls an opening of that disk makes.
    fn opening_calls(self, rt: &(impl Abort + Threads + Sync), alloc: Global) -> Result<u64, Fail> {
        let disk = store_on(rt, alloc, self.disk(rt, alloc)?)?.into_disk();
        Ok(disk.calls().len() as u64)
    }

    // The rounds on a disk of which this call fails.
    fn failing(
        self,
        rt: &(impl Abort + Threads + Sync),
        alloc: Global,
        call: u64,
    ) -> Result<Store<MemDisk>, Fail> {
        let mut disk = self.disk(rt, alloc)?;
        disk.fail_at(call);
        store_on(rt, alloc, disk)
    }

    // Whether the job ended with a fault, and not with the next manifest.
    fn has_failed(
        self,
        rt: &impl Abort,
        alloc: Global,
        store: &mut Store<MemDisk>,
    ) -> Result<bool, Fail> {
        let reply = self.whole.of(store, alloc)?;
        if reply == Installed(self.generation) {
            return Ok(false);
        }
        same(rt, &reply, &Refused(Refusal::DiskFault));
        follow(rt, alloc, store, &[(self.first, Refused(Refusal::Down))])?;
        Ok(true)
    }

    // What was abandoned counts for nothing: the next one goes through.
    fn goes_through(
        self,
        rt: &impl Abort,
        alloc: Global,
        store: &mut Store<MemDisk>,
    ) -> Result<(), Fail> {
        let reply = self.next.of(store, alloc)?;
        holds(rt, matches!(&reply, Installed(_)));
        Ok(())
    }

    // The next one goes through, and a stop behind it takes no round away.
    fn goes_on(
        self,
        rt: &(impl Abort + Threads + Sync),
        alloc: Global,
        mut store: Store<MemDisk>,
    ) -> Result<(), Fail> {
        self.goes_through(rt, alloc, &mut store)?;
        let _ = after_stop(rt, alloc, store, 3)?;
        Ok(())
    }

    // Whether the job failed at this call, after which the rounds must be there.
    fn fails_at(
        self,
        rt: &(impl Abort + Threads + Sync),
        alloc: Global,
        call: u64,
    ) -> Result<bool, Fail> {
        let mut store = self.failing(rt, alloc, call)?;
        let failed = self.has_failed(rt, alloc, &mut store)?;
        let store = after_stop(rt, alloc, store, 3)?;
        if failed {
            self.goes_on(rt, alloc, store)?;
        }
        Ok(failed)
    }

    /// Whatever call fails, and whether or not the disk stops then, the rounds are there.
    pub(crate) fn may_fail_at_each_call(
        self,
        rt: &(impl Abort + Threads + Sync),
        alloc: Global,
    ) -> Result<(), Fail> {
        let first = self.opening_calls(rt, alloc)?;
        let mut more = true;
        for calls in 0..100u64 {
            if more {
                more = self.fails_at(rt, alloc, first.saturating_add(calls))?;
                holds(rt, more || calls > 10);
            }
        }
        holds(rt, !more);
        Ok(())
    }

    // Whether a stop may leave half of the write before this call, after which the rounds must be
    // there.
    fn halves_before(
        self,
        rt: &(impl Abort + Threads + Sync),
        alloc: Global,
        call: u64,
    ) -> Result<bool, Fail> {
        let mut store = self.failing(rt, alloc, call)?;
        let _ = self.has_failed(rt, alloc, &mut store)?;
        let mut disk = store.into_disk();
        if !stops_halfway(alloc, &mut disk)? {
            return Ok(false);
        }
        let _ = after_stop(rt, alloc, store_on(rt, alloc, disk)?, 3)?;
        Ok(true)
    }

    /// A stop within a write, of so many calls, may leave half of it.
    pub(crate) fn may_stop_within_a_write(
        self,
        rt: &(impl Abort + Threads + Sync),
        alloc: Global,
        count: u64,
    ) -> Result<(), Fail> {
        let first = self.opening_calls(rt, alloc)?;
        let mut halves = 0u8;
        for calls in 0..count {
            if self.halves_before(rt, alloc, first.saturating_add(calls))? {
                halves = halves.saturating_add(1);
            }
        }
        holds(rt, halves >= 2);
        Ok(())
    }
}
