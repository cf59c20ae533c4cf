//! A disk in memory, which keeps a record of its calls.
ghost use Rattle.std.specs.Prelude.{◌≡◌, ◌<◌, ℕ, length, vec_len, vec_capacity, OnOk};
ghost use Rattle.mvo_disk.specs.declared.limits.TheConstants.{FILE_COUNT};
ghost use Rattle.mvo_disk.specs.Memory.{state_at, held_at, MayLeave};
ghost use Rattle.mvo_disk.specs.Failing.{counted_down};

use crate::file::File;
use crate::files::{copied, cut_in, empty_files, file_at, sync_in, synced_files, write_in};
use crate::stop::{allows_all, images_after};
use crate::{Call, DeviceWork, Disk, DiskFault, FILE_COUNT, FileImage, StopRefusal};
use std::alloc::{AllocError, Global};

/// A disk in memory that can stop at any moment. It keeps a record of its calls.
pub struct MemDisk {
    alloc: Global,
    // The files as they are, and as they were when the record began.
    files: Vec<File>,
    start: Vec<Vec<u8>>,
    calls: Vec<Call>,
    fault_count: u64,
    // How many calls are left before the one that is to fail.
    fails_after: Option<u64>,
    ghost full: { length files.items ≡ FILE_COUNT },
    ghost current: { (n : ℕ) → state_at files.items n ≡ (held_at start.items calls.items n).state },
    ghost sound: { (n : ℕ) → MayLeave start.items calls.items n (state_at files.items n).content },
}

impl Drop for MemDisk {
    fn drop(self) {
        let MemDisk {
            alloc: _,
            files: _,
            start: _,
            calls: _,
            fault_count: _,
            fails_after: _,
        } = self;
    }
}

// Room for one more call.
fn make_room(calls: &mut Vec<Call>) -> Result<(), AllocError>
    ensures same { calls.new.items ≡ calls.old.items }
    ensures ok { OnOk result (vec_len calls.new < vec_capacity calls.new) }
{
    calls.reserve(1)?;
    Ok(())
}

// Whether a call is the one that is to fail.
fn count_down(left: &mut Option<u64>) -> bool
    ensures { (result, left.new) ≡ counted_down left.old }
{
    match *left {
        None => false,
        Some(0) => {
            *left = None;
            true
        }
        Some(calls) => {
            *left = Some(calls - 1);
            false
        }
    }
}

impl MemDisk {
    ghost use Rattle.std.specs.Prelude.{◌≡◌, ◌<◌, ◌+◌, ◌^◌, [], ℕ, length, IfOk, OnOk, OnErr};
    ghost use Rattle.std.specs.Prelude.{None, Some};
    ghost use Rattle.std.specs.Prelude.{IsErr, IsErrOf};
    ghost use Rattle.mvo_disk.specs.Disk.{AllOf, Only};
    ghost use Rattle.mvo_disk.specs.Record.{calls_of, file_content, images_of};
    ghost use Rattle.mvo_disk.specs.Stop.{AreImages, after_stop};

    /// A disk whose files are empty, and an empty record.
    pub fn new(alloc: Global) -> Result<MemDisk, AllocError>
        ensures content { IfOk result (λ disk. (n : ℕ) → file_content disk n ≡ []) }
        ensures synced { IfOk result (λ disk. (n : ℕ) → Only [] (images_of disk n)) }
        ensures count { IfOk result (λ disk. disk.fault_count ≡ 0) }
        ensures record { IfOk result (λ disk. calls_of disk ≡ []) }
        ensures no_fault { IfOk result (λ disk. disk.fails_after ≡ None) }
    {
        let start = empty_files(alloc)?;
        let files = synced_files(alloc, &start)?;
        Ok(MemDisk {
            alloc,
            files,
            start,
            calls: Vec::new(alloc),
            fault_count: 0,
            fails_after: None,
        })
    }

    /// The calls since the record began, in order. One that failed is not among them.
    pub fn calls(&self) -> &[Call]
        ensures record { result.now ≡ calls_of self.now }
        ensures moment { length result.now ≡ (⟦<MemDisk as Disk>⟧.moment self.now).calls }
    {
        &self.calls
    }

    /// Stops the disk. Each chosen file then holds the chosen bytes, the last choice where there
    /// are several, and each other file its content. That is synced, the counter is 0, and the
    /// record begins anew.
    pub fn stop(&mut self, chosen: &[FileImage]) -> Result<(), StopRefusal>
        ensures content { OnOk result ((n : ℕ) → n < FILE_COUNT → file_content self.new n ≡
            after_stop (file_content self.old) chosen.now n) }
        ensures image { OnOk result (AllOf (images_of self.old) (file_content self.new)) }
        ensures durable { OnOk result ((n : ℕ) →
            Only (file_content self.new n) (images_of self.new n)) }
        ensures count { OnOk result (self.new.fault_count ≡ 0) }
        ensures record { OnOk result (calls_of self.new ≡ []) }
        ensures no_fault { OnOk result (self.new.fails_after ≡ None) }

        // Every image can be chosen, and nothing else.
        ensures allowed { OnOk result (AreImages (images_of self.old) chosen.now) }
        ensures refused { IsErrOf result StopRefusal.NotAnImage →
            ¬ AreImages (images_of self.old) chosen.now }
        ensures err { OnErr result (self.new ≡ self.old) }
    {
        if !allows_all(&self.files, chosen) {
            return Err(StopRefusal::NotAnImage);
        }
        let start = images_after(self.alloc, &self.files, chosen)?;
        let files = synced_files(self.alloc, &start)?;
        *self = MemDisk {
            alloc: self.alloc,
            files,
            start,
            calls: Vec::new(self.alloc),
            fault_count: 0,
            fails_after: None,
        };
        Ok(())
    }

    /// The bytes of a file, with no call of the device.
    pub fn bytes(&self, file: u16) -> &[u8]
        requires { file < FILE_COUNT }
        ensures { result.now ≡ file_content self.now file }
    {
        &file_at(&self.files, file).bytes
    }

    /// Lets so many more calls go on, and makes the next one behind them fail and change nothing.
    /// Once it has, or after a stop, no call fails but for want of memory.
    pub fn fail_at(&mut self, calls: u64)
        ensures { self.new ≡ record self.old { fails_after = Some calls } }
    {
        self.fails_after = Some(calls);
    }

    // A call that failed and changed nothing.
    fn fail<T>(&mut self) -> Result<T, DiskFault>
        requires { self.old.fault_count + 1 < 2 ^ 64 }
        ensures err { IsErr result }
        ensures count { self.new.fault_count ≡ self.old.fault_count + 1 }
        ensures same { (self.new.files ≡ self.old.files) × (self.new.start ≡ self.old.start) ×
            (self.new.calls ≡ self.old.calls) }
        ensures due { self.new.fails_after ≡ self.old.fails_after }
    {
        self.fault_count += 1;
        Err(DiskFault)
    }
}

impl Disk for MemDisk {
    ghost use Rattle.std.specs.Prelude.{◌≡◌, ◌⊎◌, ◌≤◌, ◌<◌, ◌+◌, ◌^◌, length, take, drop};
    ghost use Rattle.std.specs.Prelude.{IfOk, OnOk, OnErr, MatchResult};
    ghost use Rattle.mvo_disk.specs.Disk.{Only, Holds, PartlyHolds, Torn, Cut, Follows, Reaches};
    ghost use Rattle.mvo_disk.specs.Disk.{Keeps, Counts};
    ghost use Rattle.mvo_disk.specs.Memory.{counts_now, only_now, counts_later};
    ghost use Rattle.mvo_disk.specs.Record.{calls_of, file_content, images_of, moment_of, left_since};
    ghost use Rattle.mvo_disk.specs.Record.{Records};
    ghost use Rattle.mvo_disk.specs.Disk.{Answers};
    ghost use Rattle.mvo_disk.specs.Record.{AllFilesStay, OtherFilesStay, FileSettles, GoesOn};
    ghost use Rattle.mvo_disk.specs.Record.{RecordsWrite};
    ghost use Rattle.mvo_disk.specs.Failing.{FailsWhenDue};

    ghost content = { file_content };

    ghost may_leave = { images_of };

    ghost moment = { moment_of };

    ghost left_since = { λ m t. left_since m t.calls };

    ghost fault_count = { λ m. m.fault_count };

    ghost content_may_stay = { λ m n. m.sound n };

    ghost counts_now = { λ m t image before. counts_now m.start.items (calls_of m) t.calls image
        before.calls };

    ghost only_now = { λ m. only_now m.start.items (calls_of m) };

    ghost counts_later = { λ m t u image before. counts_later m.start.items (calls_of m) t.calls
        u.calls image before.calls };

    // Each call is refused where it is the one that is to fail, and for want of memory. It is then
    // not recorded, and no file has changed.
    fn len(&mut self, file: u16) -> Result<usize, DiskFault>
        requires file { file < FILE_COUNT }
        requires room { self.old.fault_count + 1 < 2 ^ 64 }
        ensures len { IfOk result (λ n. n ≡ length (file_content self.old file)) }
        ensures honest { Answers (moment_of self.old) (moment_of self.new)
            (λ n. n ≡ length (file_content self.old file)) result }
        ensures rest { AllFilesStay self.old self.new }
        ensures time { GoesOn self.old self.new }
        ensures count { Counts self.old.fault_count self.new.fault_count result }
        ensures due { FailsWhenDue self.old.fails_after self.new.fails_after result }
        ensures record { Records (calls_of self.old) file DeviceWork.Length
            (calls_of self.new) result }
    {
        if count_down(&mut self.fails_after) {
            return self.fail();
        }
        let Ok(()) = make_room(&mut self.calls) else {
            return self.fail();
        };
        let len = file_at(&self.files, file).bytes.len();
        self.calls.push_reserved(Call {
            file,
            work: DeviceWork::Length,
            failed: false,
        });
        Ok(len)
    }

    fn read_at(&mut self, file: u16, at: usize, into: &mut [u8]) -> Result<(), DiskFault>
        requires file { file < FILE_COUNT }
        requires range { at + length into.old ≤ length (file_content self.old file) }
        requires room { self.old.fault_count + 1 < 2 ^ 64 }
        ensures bytes { OnOk result (into.new ≡ take (length into.old)
            (drop at (file_content self.old file))) }
        ensures honest { Answers (moment_of self.old) (moment_of self.new) (λ _. into.new ≡
            take (length into.old) (drop at (file_content self.old file))) result }
        ensures rest { AllFilesStay self.old self.new }
        ensures time { GoesOn self.old self.new }
        ensures count { Counts self.old.fault_count self.new.fault_count result }
        ensures due { FailsWhenDue self.old.fails_after self.new.fails_after result }
        ensures record { Records (calls_of self.old) file (DeviceWork.Read at (length into.old))
            (calls_of self.new) result }
    {
        if count_down(&mut self.fails_after) {
            return self.fail();
        }
        let Ok(()) = make_room(&mut self.calls) else {
            return self.fail();
        };
        let bytes = file_at(&self.files, file).bytes.as_slice();
        let (_, from) = bytes.split_at(at);
        let (range, _) = from.split_at(into.len());
        into.copy_from_slice(range);
        self.calls.push_reserved(Call {
            file,
            work: DeviceWork::Read {
                at,
                len: into.len(),
            },
            failed: false,
        });
        Ok(())
    }

    fn write_at(&mut self, file: u16, at: usize, bytes: &[u8]) -> Result<(), DiskFault>
        requires file { file < FILE_COUNT }
        requires start { at ≤ length (file_content self.old file) }
        requires room { self.old.fault_count + 1 < 2 ^ 64 }
        ensures written { OnOk result (Holds (file_content self.old file) at bytes.now
            (file_content self.new file)) }
        ensures failed { OnErr result (PartlyHolds at (length bytes.now)
            (file_content self.old file) (file_content self.new file)) }
        ensures kept { OnErr result (AllFilesStay self.old self.new) }
        ensures images { Follows (Torn at (length bytes.now)) (images_of self.old file)
            (images_of self.new file) }
        ensures no_fewer { MatchResult result (λ _. Reaches (Torn at (length bytes.now))
            (images_of self.old file) (images_of self.new file))
            (λ _. Keeps (images_of self.old file) (images_of self.new file)) }
        ensures rest { OtherFilesStay file self.old self.new }
        ensures time { GoesOn self.old self.new }
        ensures count { Counts self.old.fault_count self.new.fault_count result }
        ensures due { FailsWhenDue self.old.fails_after self.new.fails_after result }
        ensures record { RecordsWrite (calls_of self.old) file at bytes.now (calls_of self.new)
            result }
    {
        if count_down(&mut self.fails_after) {
            return self.fail();
        }
        let Ok(()) = make_room(&mut self.calls) else {
            return self.fail();
        };
        let Ok(copy) = copied(self.alloc, bytes) else {
            return self.fail();
        };
        let Ok(()) = write_in(&mut self.files, file, at, bytes) else {
            return self.fail();
        };
        self.calls.push_reserved(Call {
            file,
            work: DeviceWork::Write {
                at,
                len: bytes.len(),
                bytes: copy,
            },
            failed: false,
        });
        Ok(())
    }

    fn cut(&mut self, file: u16, len: usize) -> Result<(), DiskFault>
        requires file { file < FILE_COUNT }
        requires shorter { len ≤ length (file_content self.old file) }
        requires room { self.old.fault_count + 1 < 2 ^ 64 }
        ensures cut { OnOk result
            (file_content self.new file ≡ take len (file_content self.old file)) }
        ensures failed { OnErr result ((file_content self.new file ≡ file_content self.old file) ⊎
            (file_content self.new file ≡ take len (file_content self.old file))) }
        ensures kept { OnErr result (AllFilesStay self.old self.new) }
        ensures images { Follows (Cut len) (images_of self.old file) (images_of self.new file) }
        ensures no_fewer { MatchResult result (λ _. Reaches (Cut len) (images_of self.old file)
            (images_of self.new file))
            (λ _. Keeps (images_of self.old file) (images_of self.new file)) }
        ensures rest { OtherFilesStay file self.old self.new }
        ensures time { GoesOn self.old self.new }
        ensures count { Counts self.old.fault_count self.new.fault_count result }
        ensures due { FailsWhenDue self.old.fails_after self.new.fails_after result }
        ensures record { Records (calls_of self.old) file (DeviceWork.Cut len len)
            (calls_of self.new) result }
    {
        if count_down(&mut self.fails_after) {
            return self.fail();
        }
        let Ok(()) = make_room(&mut self.calls) else {
            return self.fail();
        };
        cut_in(&mut self.files, file, len);
        self.calls.push_reserved(Call {
            file,
            work: DeviceWork::Cut { len, new_len: len },
            failed: false,
        });
        Ok(())
    }

    fn sync(&mut self, file: u16) -> Result<(), DiskFault>
        requires file { file < FILE_COUNT }
        requires room { self.old.fault_count + 1 < 2 ^ 64 }
        ensures durable { OnOk result
            (Only (file_content self.old file) (images_of self.new file)) }
        ensures failed { OnErr result (Keeps (images_of self.old file) (images_of self.new file)) }
        ensures kept { OnErr result (AllFilesStay self.old self.new) }
        ensures rest { FileSettles file self.old self.new }
        ensures time { GoesOn self.old self.new }
        ensures count { Counts self.old.fault_count self.new.fault_count result }
        ensures due { FailsWhenDue self.old.fails_after self.new.fails_after result }
        ensures record { Records (calls_of self.old) file DeviceWork.Sync
            (calls_of self.new) result }
    {
        if count_down(&mut self.fails_after) {
            return self.fail();
        }
        let Ok(()) = make_room(&mut self.calls) else {
            return self.fail();
        };
        sync_in(&mut self.files, file);
        self.calls.push_reserved(Call {
            file,
            work: DeviceWork::Sync,
            failed: false,
        });
        Ok(())
    }

    fn faults(&self) -> u64 {
        self.fault_count
    }
}
