//! A disk whose syncs are held until something else has happened.
use super::turns::has_come;
use mvo_disk::{Disk, DiskFault};
use std::sync::atomic::{AtomicU64, Ordering};

/// What a held sync and the thread that lets it go tell one another.
#[derive(Drop)]
pub struct Hold {
    /// 1 from when syncs are to be held.
    pub armed: AtomicU64,
    /// 1 while a sync is held.
    pub held: AtomicU64,
    /// 1 once it may go.
    pub free: AtomicU64,
    /// 1 if one went on without that.
    pub late: AtomicU64,
}

impl Hold {
    pub fn new() -> Hold {
        Hold {
            armed: AtomicU64::new(0),
            held: AtomicU64::new(0),
            free: AtomicU64::new(0),
            late: AtomicU64::new(0),
        }
    }

    // Waits until the sync may go.
    fn pass(&self) {
        if self.armed.load(Ordering::SeqCst) == 0 {
            return;
        }
        self.held.store(1, Ordering::SeqCst);
        if !has_come(&self.free, 1) {
            self.late.store(1, Ordering::SeqCst);
        }
    }
}

/// A disk whose syncs are held.
#[derive(Drop)]
pub struct HeldDisk<'h, D: Disk> {
    pub disk: D,
    pub hold: &'h Hold,
}

impl<'h, D: Disk> Disk for HeldDisk<'h, D> {
    ghost content = { λ d. D.content d.disk };

    ghost may_leave = { λ d. D.may_leave d.disk };

    ghost moment = { λ d. D.moment d.disk };

    ghost left_since = { λ d. D.left_since d.disk };

    ghost fault_count = { λ d. D.fault_count d.disk };

    ghost content_may_stay = { λ d n. D.content_may_stay d.disk n };

    ghost counts_now = { λ d t image le all. D.counts_now d.disk t image le all };

    ghost only_now = { λ d image left. D.only_now d.disk image left };

    ghost counts_later = { λ d t u image le left. D.counts_later d.disk t u image le left };

    fn len(&mut self, file: u16) -> Result<usize, DiskFault> {
        self.disk.len(file)
    }

    fn read_at(&mut self, file: u16, at: usize, into: &mut [u8]) -> Result<(), DiskFault> {
        self.disk.read_at(file, at, into)
    }

    fn write_at(&mut self, file: u16, at: usize, bytes: &[u8]) -> Result<(), DiskFault> {
        self.disk.write_at(file, at, bytes)
    }

    fn cut(&mut self, file: u16, len: usize) -> Result<(), DiskFault> {
        self.disk.cut(file, len)
    }

    fn sync(&mut self, file: u16) -> Result<(), DiskFault> {
        self.hold.pass();
        self.disk.sync(file)
    }

    fn faults(&self) -> u64 {
        self.disk.faults()
    }
}
