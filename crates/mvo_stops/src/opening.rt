//! Opens the store on a disk in memory.
ghost use Rattle.std.specs.Prelude.{◌≡◌, ◌⊎◌, ◌+◌, ℕ, Ok, Err, IfOk, IfErr};
ghost use Rattle.mvo_disk.specs.Record.{file_content};
ghost use Rattle.mvo_store.specs.Opening.{IsAnswer, IsNotOfFiles};

use mvo_disk::MemDisk;
use mvo_store::Store;
use mvo_types::{Refusal, Rows, Stamp};
use std::alloc::Global;
use std::thread::Threads;

/// What opening a store answers: its rows and its mark.
pub type Opened = Result<(Rows, Stamp), Refusal>;

/// Opens the store on a disk, and gives the disk back, whose files hold what they held.
pub fn open(
    rt: &(impl Threads + Sync),
    alloc: Global,
    seed: u64,
    disk: MemDisk,
) -> (Opened, MemDisk)
    ensures answer { IfOk result.0 (λ o. IsAnswer (file_content disk) (Ok (o.0, o.1.0))) }
    ensures refused { IfErr result.0 (λ e.
        IsNotOfFiles e ⊎ IsAnswer (file_content disk) (Err e)) }
    ensures fault { result.0 ≡ Err Refusal.DiskFault →
        result.1.fault_count ≡ disk.fault_count + 1 }
    ensures content { (n : ℕ) → file_content result.1 n ≡ file_content disk n }
{
    match Store::open(rt, alloc, seed, disk) {
        Ok((store, rows, mark)) => (Ok((rows, mark)), store.into_disk()),
        Err((refusal, disk)) => (Err(refusal), disk),
    }
}
