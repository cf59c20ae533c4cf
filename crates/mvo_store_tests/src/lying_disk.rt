//! A disk that gives a wrong answer.
ghost use Rattle.std.specs.Prelude.{◌≡◌, ◌<◌, ◌+◌, ◌^◌, ◌&&◌, length, IsErr};
ghost use Rattle.mvo_disk.specs.declared.limits.TheConstants.{FILE_COUNT};
ghost use Rattle.mvo_disk.specs.Record.{AllFilesStay, GoesOn};

use mvo_disk::{Disk, DiskFault, MemDisk};

/// What is wrong with an answer.
#[derive(Clone, Copy)]
pub(crate) enum Lie {
    /// The byte at this place, counted around the bytes that are read, is another by so much.
    OtherByte(usize, u8),
    ShorterLength,
    LongerLength,
}

impl Lie {
    // The length that is told in the place of this one.
    fn of_length(self, len: usize) -> usize {
        match self {
            Lie::OtherByte(_, _) => len,
            Lie::ShorterLength => len / 2,
            Lie::LongerLength => len.saturating_add(9),
        }
    }

    // Changes what was read.
    fn of_bytes(self, into: &mut [u8])
        ensures { length into.new ≡ length into.old }
    {
        if let Lie::OtherByte(place, by) = self
            && !into.is_empty()
        {
            let place = place % into.len();
            into[place] = into[place].wrapping_add(by);
        }
    }
}

/// A disk in memory of which the answer behind so many is a lie, and each one from then on is not.
#[derive(Drop)]
pub(crate) struct LyingDisk {
    disk: MemDisk,
    lie: Lie,
    left: Option<u32>,
    is_honest: bool,
}

impl LyingDisk {
    pub(crate) fn new(disk: MemDisk, lie: Lie, answers: u32) -> LyingDisk {
        LyingDisk {
            disk,
            lie,
            left: Some(answers),
            is_honest: true,
        }
    }

    /// Whether the lie was due, and if it was, whether it was one.
    pub(crate) fn was_due(&self) -> bool {
        self.left.is_none()
    }

    pub(crate) fn is_honest(&self) -> bool {
        self.is_honest
    }

    // Whether this answer is the one.
    fn is_due(&mut self) -> bool
        ensures disk { self.new.disk ≡ self.old.disk }
        ensures honest { self.new.is_honest ≡ self.old.is_honest }
    {
        match self.left {
            None => false,
            Some(0) => {
                self.left = None;
                true
            }
            Some(answers) => {
                self.left = Some(answers - 1);
                false
            }
        }
    }

    // The disk has given an answer, right or not.
    fn answered(&mut self, is_right: bool)
        ensures disk { self.new.disk ≡ self.old.disk }
        ensures honest { self.new.is_honest ≡ (self.old.is_honest && is_right) }
    {
        self.is_honest = self.is_honest && is_right;
    }

    // A call that fails and changes nothing.
    fn fail<T>(&mut self, file: u16) -> Result<T, DiskFault>
        requires file { file < FILE_COUNT }
        requires room { self.old.disk.fault_count + 1 < 2 ^ 64 }
        ensures err { IsErr result }
        ensures count { self.new.disk.fault_count ≡ self.old.disk.fault_count + 1 }
        ensures honest { self.new.is_honest ≡ self.old.is_honest }
        ensures rest { AllFilesStay self.old.disk self.new.disk }
        ensures time { GoesOn self.old.disk self.new.disk }
    {
        self.disk.fail_at(0);
        match self.disk.len(file) {
            Ok(_) => unreachable!(),
            Err(fault) => Err(fault),
        }
    }
}

impl Disk for LyingDisk {
    ghost use Rattle.std.specs.Prelude.{length};
    ghost use Rattle.mvo_disk.specs.Memory.{counts_now, only_now, counts_later};
    ghost use Rattle.mvo_disk.specs.Record.{calls_of, file_content, images_of, left_since};

    ghost content = { λ d. file_content d.disk };

    ghost may_leave = { λ d. images_of d.disk };

    ghost moment = { λ d. record { calls = length (calls_of d.disk); honest = d.is_honest } };

    ghost left_since = { λ d t. left_since d.disk t.calls };

    ghost fault_count = { λ d. d.disk.fault_count };

    ghost content_may_stay = { λ d n. d.disk.sound n };

    ghost counts_now = { λ d t image before. counts_now d.disk.start.items (calls_of d.disk)
        t.calls image before.calls };

    ghost only_now = { λ d. only_now d.disk.start.items (calls_of d.disk) };

    ghost counts_later = { λ d t u image before. counts_later d.disk.start.items (calls_of d.disk)
        t.calls u.calls image before.calls };

    fn len(&mut self, file: u16) -> Result<usize, DiskFault> {
        let len = self.disk.len(file)?;
        let told = if self.is_due() {
            self.lie.of_length(len)
        } else {
            len
        };
        self.answered(told == len);
        Ok(told)
    }

    // Beyond the end, where only a disk that has lied is read, the slice stays as it was.
    fn read_at(&mut self, file: u16, at: usize, into: &mut [u8]) -> Result<(), DiskFault> {
        let len = self.disk.bytes(file).len();
        if at > len || into.len() > len - at {
            return Ok(());
        }
        self.disk.read_at(file, at, into)?;
        if self.is_due() {
            self.lie.of_bytes(into);
        }
        let written = &self.disk.bytes(file)[at..at + into.len()];
        let is_right = *into == *written;
        self.answered(is_right);
        Ok(())
    }

    fn write_at(&mut self, file: u16, at: usize, bytes: &[u8]) -> Result<(), DiskFault> {
        if at > self.disk.bytes(file).len() {
            return self.fail(file);
        }
        self.disk.write_at(file, at, bytes)
    }

    fn cut(&mut self, file: u16, len: usize) -> Result<(), DiskFault> {
        if len > self.disk.bytes(file).len() {
            return self.fail(file);
        }
        self.disk.cut(file, len)
    }

    fn sync(&mut self, file: u16) -> Result<(), DiskFault> {
        self.disk.sync(file)
    }

    fn faults(&self) -> u64 {
        self.disk.faults()
    }
}
