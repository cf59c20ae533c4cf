//! A disk in a folder of the operating system.
ghost use Rattle.std.specs.Prelude.{◌≡◌, [], ◌<◌, IfOk};
ghost use Rattle.mvo_disk.specs.declared.limits.TheConstants.{FILE_COUNT};

use crate::disk_history::DiskHistory;
use crate::folder::{Folder, FolderRefusal};
use crate::folder_files::FolderFiles;
use crate::read_progress::ReadProgress;
use crate::{Disk, DiskFault, FILE_COUNT, Start};
use std::alloc::Global;
use std::fs::{File, Files};
use std::marker::PhantomData;

/// A disk in a folder of the operating system, over what has its files: file n under its four
/// decimal digits. A file that isn't there is empty, and is made by the first write.
///
/// No byte of the files is kept in memory. What was done and what was answered is a list that
/// proofs alone see: the content and the images are what that list makes of what the files held at
/// first, as `S` has it, and the disk is honest as long as each answer in the list is the content.
///
/// After a write, a cut or a sync that the system failed it is broken: each later call fails with
/// no call of the system, and nothing more is noted (`StaysBroken`). The folder has to be opened
/// again.
///
/// `P` is told of each read how many bytes were read so far, and how many the files held at first.
pub struct DirDisk<F: FolderFiles + Drop, S: Start, P: ReadProgress + Drop> {
    folder: F,
    history: DiskHistory,
    start: PhantomData<S>,
    progress: P,
    read: u64,
    all: u64,
    // Whether the system failed a write, a cut or a sync.
    is_broken: bool,
    fault_count: u64,
}

impl<F: FolderFiles + Drop, S: Start, P: ReadProgress + Drop> Drop for DirDisk<F, S, P> {
    fn drop(self) {
        let DirDisk {
            folder: _,
            history: _,
            start: _,
            progress: _,
            read: _,
            all: _,
            is_broken: _,
            fault_count: _,
        } = self;
    }
}

// Looks for each file, and answers how many bytes they hold.
fn find_all<F: FolderFiles>(folder: &mut F) -> Result<u64, FolderRefusal> {
    let mut all = 0u64;
    for file in 0..FILE_COUNT {
        let len = folder.find(file)?;
        all = all.wrapping_add(len);
    }
    folder.sync_names()?;
    Ok(all)
}

impl<R: Files<File = File> + Drop, S: Start, P: ReadProgress + Drop> DirDisk<Folder<R>, S, P> {
    ghost use Rattle.std.specs.Prelude.{◌≡◌, [], false, IfOk};

    /// The disk in the folder at a path. All that its files hold is durable then. The folder is
    /// this process's until the disk is dropped. The start is used up, so that code over any `S`
    /// opens one folder for each.
    pub fn open(
        rt: R,
        alloc: Global,
        path: &str,
        start: S,
        progress: P,
    ) -> Result<DirDisk<Folder<R>, S, P>, FolderRefusal>
        ensures fresh { IfOk result (λ d. d.history.events ≡ []) }
        ensures count { IfOk result (λ d. d.fault_count ≡ 0) }
        ensures unbroken { IfOk result (λ d. d.is_broken ≡ false) }
    {
        match Folder::open(rt, alloc, path) {
            Ok(folder) => DirDisk::over(folder, start, progress),
            Err(refusal) => Err(refusal),
        }
    }
}

impl<F: FolderFiles + Drop, S: Start, P: ReadProgress + Drop> DirDisk<F, S, P> {
    ghost use Rattle.std.specs.Prelude.{◌≡◌, ◌<◌, ◌+◌, ◌^◌, [], true, false, IfOk, IsErr};

    /// The disk in a folder, of whose files no other disk is told. All that they hold is durable
    /// then. The start is used up, as in `open`.
    pub fn over(mut folder: F, _start: S, progress: P) -> Result<DirDisk<F, S, P>, FolderRefusal>
        ensures fresh { IfOk result (λ d. d.history.events ≡ []) }
        ensures count { IfOk result (λ d. d.fault_count ≡ 0) }
        ensures unbroken { IfOk result (λ d. d.is_broken ≡ false) }
    {
        let all = find_all(&mut folder)?;
        Ok(DirDisk {
            folder,
            history: DiskHistory::new(),
            start: PhantomData,
            progress,
            read: 0,
            all,
            is_broken: false,
            fault_count: 0,
        })
    }

    // A call that failed.
    fn fail<T>(&mut self) -> Result<T, DiskFault>
        requires { self.old.fault_count + 1 < 2 ^ 64 }
        ensures err { IsErr result }
        ensures count { self.new.fault_count ≡ self.old.fault_count + 1 }
        ensures same { self.new.history ≡ self.old.history }
        ensures broken { self.new.is_broken ≡ self.old.is_broken }
    {
        self.fault_count += 1;
        Err(DiskFault)
    }

    // A call that the system failed, and after which memory and folder may differ.
    fn fail_for_good<T>(&mut self) -> Result<T, DiskFault>
        requires { self.old.fault_count + 1 < 2 ^ 64 }
        ensures err { IsErr result }
        ensures count { self.new.fault_count ≡ self.old.fault_count + 1 }
        ensures same { self.new.history ≡ self.old.history }
        ensures broken { self.new.is_broken ≡ true }
    {
        self.is_broken = true;
        self.fail()
    }
}

impl<F: FolderFiles + Drop, S: Start, P: ReadProgress + Drop> Disk for DirDisk<F, S, P> {
    ghost use Rattle.std.specs.Prelude.{◌≡◌, ◌⊎◌, ◌<◌, ◌+◌, ◌^◌, true, length, take, drop};
    ghost use Rattle.std.specs.Prelude.{IfOk, OnOk, OnErr, MatchResult};
    ghost use Rattle.mvo_disk.specs.Disk.{IsHonest, Answers, Counts, Only, Holds, PartlyHolds};
    ghost use Rattle.mvo_disk.specs.Disk.{Torn, Cut, Follows, Reaches, Keeps};
    ghost use Rattle.mvo_disk.specs.History.{file_content_after, MayLeave, LeftSince, is_honest};
    ghost use Rattle.mvo_disk.specs.Noted.{noted_moment, FolderStays, FolderStaysBut};
    ghost use Rattle.mvo_disk.specs.Noted.{FolderSettles, FolderGoesOn, StaysBroken};
    ghost use Rattle.mvo_disk.specs.HistoryLaws.{sound, counts_now, only_now, counts_later};

    ghost content = { λ d. file_content_after S.Start.files d.history.events };

    ghost may_leave = { λ d. MayLeave S.Start.files d.history.events };

    ghost moment = { λ d. noted_moment S.Start.files d.history.events };

    ghost left_since = { λ d t. LeftSince S.Start.files d.history.events t.calls };

    ghost fault_count = { λ d. d.fault_count };

    ghost content_may_stay = { λ d. sound S.Start.files d.history.events };

    ghost counts_now = { λ d t image before. counts_now S.Start.files d.history.events t.calls image
        before.calls };

    ghost only_now = { λ d. only_now S.Start.files d.history.events };

    ghost counts_later = { λ d t u image before. counts_later S.Start.files d.history.events t.calls
        u.calls image before.calls };

    fn len(&mut self, file: u16) -> Result<usize, DiskFault>
        requires file { file < FILE_COUNT }
        requires room { self.old.fault_count + 1 < 2 ^ 64 }
        ensures len { IfOk result (λ n.
            IsHonest (noted_moment S.Start.files self.new.history.events) →
            n ≡ length (file_content_after S.Start.files self.old.history.events file)) }
        ensures honest { Answers (noted_moment S.Start.files self.old.history.events)
            (noted_moment S.Start.files self.new.history.events)
            (λ n. n ≡ length (file_content_after S.Start.files self.old.history.events file))
            result }
        ensures rest { FolderStays S.Start.files self.old.history.events self.new.history.events }
        ensures time { FolderGoesOn S.Start.files self.old.history.events self.new.history.events }
        ensures count { Counts self.old.fault_count self.new.fault_count result }
        ensures broken { StaysBroken self.old.is_broken self.old.history.events
            self.new.is_broken self.new.history.events result }
        ensures breaks { self.new.is_broken ≡ self.old.is_broken }
    {
        if self.is_broken {
            return self.fail();
        }
        let Ok(len) = self.folder.len(file) else {
            return self.fail();
        };
        let Ok(len) = usize::try_from(len) else {
            return self.fail();
        };
        self.history.measured(file, len);
        Ok(len)
    }

    fn read_at(&mut self, file: u16, at: usize, into: &mut [u8]) -> Result<(), DiskFault>
        requires file { file < FILE_COUNT }
        requires room { self.old.fault_count + 1 < 2 ^ 64 }
        ensures bytes { OnOk result
            (IsHonest (noted_moment S.Start.files self.new.history.events) →
            into.new ≡ take (length into.old) (drop at
            (file_content_after S.Start.files self.old.history.events file))) }
        ensures honest { Answers (noted_moment S.Start.files self.old.history.events)
            (noted_moment S.Start.files self.new.history.events)
            (λ _. into.new ≡ take (length into.old) (drop at
            (file_content_after S.Start.files self.old.history.events file))) result }
        ensures rest { FolderStays S.Start.files self.old.history.events self.new.history.events }
        ensures time { FolderGoesOn S.Start.files self.old.history.events self.new.history.events }
        ensures count { Counts self.old.fault_count self.new.fault_count result }
        ensures broken { StaysBroken self.old.is_broken self.old.history.events
            self.new.is_broken self.new.history.events result }
        ensures breaks { self.new.is_broken ≡ self.old.is_broken }
    {
        if self.is_broken {
            return self.fail();
        }
        let Ok(()) = self.folder.read(file, at as u64, into) else {
            return self.fail();
        };
        self.history.gave(file, at, into);
        self.read = self.read.wrapping_add(into.len() as u64);
        self.progress.tell(self.read, self.all);
        Ok(())
    }

    // A write that the system failed may have put any part of the bytes into the folder. It is
    // noted as if all of them stood there: no call asks for them, and no sync succeeds from then
    // on.
    fn write_at(&mut self, file: u16, at: usize, bytes: &[u8]) -> Result<(), DiskFault>
        requires file { file < FILE_COUNT }
        requires room { self.old.fault_count + 1 < 2 ^ 64 }
        ensures written { OnOk result
            (Holds (file_content_after S.Start.files self.old.history.events file) at bytes.now
            (file_content_after S.Start.files self.new.history.events file)) }
        ensures failed { OnErr result (PartlyHolds at (length bytes.now)
            (file_content_after S.Start.files self.old.history.events file)
            (file_content_after S.Start.files self.new.history.events file)) }
        ensures honest { is_honest S.Start.files self.new.history.events ≡
            is_honest S.Start.files self.old.history.events }
        ensures images { Follows (Torn at (length bytes.now))
            (MayLeave S.Start.files self.old.history.events file)
            (MayLeave S.Start.files self.new.history.events file) }
        ensures no_fewer { MatchResult result (λ _. Reaches (Torn at (length bytes.now))
            (MayLeave S.Start.files self.old.history.events file)
            (MayLeave S.Start.files self.new.history.events file))
            (λ _. Keeps (MayLeave S.Start.files self.old.history.events file)
            (MayLeave S.Start.files self.new.history.events file)) }
        ensures rest { FolderStaysBut S.Start.files file self.old.history.events
            self.new.history.events }
        ensures time { FolderGoesOn S.Start.files self.old.history.events self.new.history.events }
        ensures count { Counts self.old.fault_count self.new.fault_count result }
        ensures broken { StaysBroken self.old.is_broken self.old.history.events
            self.new.is_broken self.new.history.events result }
        ensures breaks { OnErr result (self.new.is_broken ≡ true) }
    {
        // What a broken folder holds isn't known: nothing more is noted of it.
        if self.is_broken {
            return self.fail();
        }
        self.history.wrote(file, at, bytes);
        let Ok(()) = self.folder.write(file, at as u64, bytes) else {
            return self.fail_for_good();
        };
        Ok(())
    }

    fn cut(&mut self, file: u16, len: usize) -> Result<(), DiskFault>
        requires file { file < FILE_COUNT }
        requires room { self.old.fault_count + 1 < 2 ^ 64 }
        ensures cut { OnOk result
            (file_content_after S.Start.files self.new.history.events file ≡
            take len (file_content_after S.Start.files self.old.history.events file)) }
        ensures failed { OnErr result
            ((file_content_after S.Start.files self.new.history.events file ≡
            file_content_after S.Start.files self.old.history.events file) ⊎
            (file_content_after S.Start.files self.new.history.events file ≡
            take len (file_content_after S.Start.files self.old.history.events file))) }
        ensures honest { is_honest S.Start.files self.new.history.events ≡
            is_honest S.Start.files self.old.history.events }
        ensures images { Follows (Cut len)
            (MayLeave S.Start.files self.old.history.events file)
            (MayLeave S.Start.files self.new.history.events file) }
        ensures no_fewer { MatchResult result (λ _. Reaches (Cut len)
            (MayLeave S.Start.files self.old.history.events file)
            (MayLeave S.Start.files self.new.history.events file))
            (λ _. Keeps (MayLeave S.Start.files self.old.history.events file)
            (MayLeave S.Start.files self.new.history.events file)) }
        ensures rest { FolderStaysBut S.Start.files file self.old.history.events
            self.new.history.events }
        ensures time { FolderGoesOn S.Start.files self.old.history.events self.new.history.events }
        ensures count { Counts self.old.fault_count self.new.fault_count result }
        ensures broken { StaysBroken self.old.is_broken self.old.history.events
            self.new.is_broken self.new.history.events result }
        ensures breaks { OnErr result (self.new.is_broken ≡ true) }
    {
        if self.is_broken {
            return self.fail();
        }
        self.history.shortened(file, len);
        let Ok(()) = self.folder.cut(file, len as u64) else {
            return self.fail_for_good();
        };
        Ok(())
    }

    fn sync(&mut self, file: u16) -> Result<(), DiskFault>
        requires file { file < FILE_COUNT }
        requires room { self.old.fault_count + 1 < 2 ^ 64 }
        ensures durable { OnOk result
            (Only (file_content_after S.Start.files self.old.history.events file)
            (MayLeave S.Start.files self.new.history.events file)) }
        ensures failed { OnErr result
            (Keeps (MayLeave S.Start.files self.old.history.events file)
            (MayLeave S.Start.files self.new.history.events file)) }
        ensures honest { is_honest S.Start.files self.new.history.events ≡
            is_honest S.Start.files self.old.history.events }
        ensures rest { FolderSettles S.Start.files file self.old.history.events
            self.new.history.events }
        ensures time { FolderGoesOn S.Start.files self.old.history.events self.new.history.events }
        ensures count { Counts self.old.fault_count self.new.fault_count result }
        ensures broken { StaysBroken self.old.is_broken self.old.history.events
            self.new.is_broken self.new.history.events result }
        ensures breaks { OnErr result (self.new.is_broken ≡ true) }
    {
        if self.is_broken {
            return self.fail();
        }
        let Ok(()) = self.folder.sync(file) else {
            return self.fail_for_good();
        };
        self.history.settled(file);
        Ok(())
    }

    fn faults(&self) -> u64 {
        self.fault_count
    }
}
