use crate::equal::{holds, same};
use mvo_disk::{Call, DeviceWork, Disk, MemDisk, read_up_to, rewrite_synced, write_synced};
use std::alloc::{AllocError, Global};
use std::process::Abort;
use std::test::Fail;

fn call(file: u16, work: DeviceWork) -> Call {
    Call {
        file,
        work,
        failed: false,
    }
}

/// Writes file 7 anew, beside file 2 with the bytes `abc`.
fn rewrites_beside(rt: &impl Abort, alloc: Global, disk: &mut MemDisk) -> Result<(), Fail> {
    holds(rt, disk.faults() == 0);
    rewrite_synced(disk, 7, b"de")?;
    let read = read_up_to(alloc, disk, 2, 4)?;
    same(rt, &read.as_slice(), &b"abc".as_slice());
    same(rt, &disk.bytes(7), &b"de".as_slice());
    same(rt, &disk.faults(), &0);
    Ok(())
}

/// These calls, of which the first writes the first bytes, and another the second ones.
fn calls_with(first: Vec<u8>, second: Vec<u8>) -> [Call; 7] {
    [
        call(
            2,
            DeviceWork::Write {
                at: 0,
                len: 3,
                bytes: first,
            },
        ),
        call(2, DeviceWork::Sync),
        call(7, DeviceWork::Cut { len: 0, new_len: 0 }),
        call(
            7,
            DeviceWork::Write {
                at: 0,
                len: 2,
                bytes: second,
            },
        ),
        call(7, DeviceWork::Sync),
        call(2, DeviceWork::Length),
        call(2, DeviceWork::Read { at: 0, len: 3 }),
    ]
}

fn made_calls(alloc: Global) -> Result<[Call; 7], AllocError> {
    let first = b"abc".to_vec(alloc)?;
    Ok(calls_with(first, b"de".to_vec(alloc)?))
}

fn are_recorded(rt: &impl Abort, alloc: Global, disk: &mut MemDisk) -> Result<(), Fail> {
    rewrites_beside(rt, alloc, disk)?;
    same(rt, &disk.calls(), &made_calls(alloc)?.as_slice());
    Ok(())
}

#[test]
fn keeps_a_record_of_its_calls(rt: HostRuntime) -> Result<(), Fail> {
    let mut disk = MemDisk::new(rt.alloc())?;
    write_synced(&mut disk, 2, 0, b"abc")?;
    are_recorded(&rt, rt.alloc(), &mut disk)
}
