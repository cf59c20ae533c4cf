//! A disk whose syncs are counted.
use mvo_disk::{Disk, DiskFault};
use std::sync::atomic::{AtomicU64, Ordering};

/// A disk whose syncs are counted.
#[derive(Drop)]
pub struct Counted<'s, D: Disk> {
    pub disk: D,
    pub syncs: &'s AtomicU64,
}

impl<'s, D: Disk> Disk for Counted<'s, D> {
    ghost content = { λ d. D.content d.disk };

    ghost may_leave = { λ d. D.may_leave d.disk };

    ghost moment = { λ d. D.moment d.disk };

    ghost left_since = { λ d. D.left_since d.disk };

    ghost fault_count = { λ d. D.fault_count d.disk };

    ghost content_may_stay = { λ d n. D.content_may_stay d.disk n };

    ghost counts_now = { λ d t image le all. D.counts_now d.disk t image le all };

    ghost only_now = { λ d image left. D.only_now d.disk image left };

    ghost counts_later = { λ d t u image le left. D.counts_later d.disk t u image le left };

    fn len(&mut self, file: u16) -> Result<usize, DiskFault> {
        self.disk.len(file)
    }

    fn read_at(&mut self, file: u16, at: usize, into: &mut [u8]) -> Result<(), DiskFault> {
        self.disk.read_at(file, at, into)
    }

    fn write_at(&mut self, file: u16, at: usize, bytes: &[u8]) -> Result<(), DiskFault> {
        self.disk.write_at(file, at, bytes)
    }

    fn cut(&mut self, file: u16, len: usize) -> Result<(), DiskFault> {
        self.disk.cut(file, len)
    }

    fn sync(&mut self, file: u16) -> Result<(), DiskFault> {
        self.syncs.fetch_add(1, Ordering::SeqCst);
        self.disk.sync(file)
    }

    fn faults(&self) -> u64 {
        self.disk.faults()
    }
}
