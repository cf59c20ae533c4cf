use crate::equal::{holds, same};
use mvo_disk::{Disk, DiskFault, MemDisk};
use std::process::Abort;
use std::test::Fail;

// One call after another of each kind, until one fails: how many went on.
fn calls_until_a_fault(disk: &mut MemDisk) -> Result<u64, DiskFault> {
    for number in 0..64 {
        if disk.faults() != 0 {
            return Err(DiskFault);
        }
        let len = disk.bytes(3).len();
        let done = match number % 5 {
            0 => disk.write_at(3, len, b"ab"),
            1 => disk.sync(3),
            2 => disk.len(3).map(|_| ()),
            3 => disk.read_at(3, 0, &mut []),
            _ => disk.cut(3, len / 2),
        };
        if done.is_err() {
            return Ok(number);
        }
    }
    Err(DiskFault)
}

fn fails_call(rt: &impl Abort, disk: &mut MemDisk, number: u64) -> Result<(), Fail> {
    disk.fail_at(number);
    same(rt, &calls_until_a_fault(disk)?, &number);
    same(rt, &disk.faults(), &1);
    same(rt, &(disk.calls().len() as u64), &number);
    Ok(())
}

#[test]
fn fails_the_call_that_was_named(rt: HostRuntime) -> Result<(), Fail> {
    for number in 0..20 {
        let mut disk = MemDisk::new(rt.alloc())?;
        fails_call(&rt, &mut disk, number)?;
    }
    Ok(())
}

fn fails_without_a_change(rt: &impl Abort, disk: &mut MemDisk) -> Result<(), Fail> {
    holds(rt, disk.faults() == 0);
    disk.write_at(3, 0, b"ab")?;
    disk.sync(3)?;
    disk.fail_at(1);
    same(rt, &disk.len(3), &Ok(2));
    same(rt, &disk.write_at(3, 1, b"cd"), &Err(DiskFault));
    same(rt, &disk.bytes(3), &b"ab".as_slice());
    same(rt, &disk.len(3), &Ok(2));
    // A stop takes the counter back, and a fault that is still to come.
    disk.fail_at(0);
    disk.stop(&[])?;
    same(rt, &disk.faults(), &0);
    let len = disk.bytes(3).len();
    same(rt, &disk.cut(3, len / 2), &Ok(()));
    same(rt, &disk.bytes(3), &b"a".as_slice());
    Ok(())
}

#[test]
fn a_call_that_fails_changes_nothing(rt: HostRuntime) -> Result<(), Fail> {
    let mut disk = MemDisk::new(rt.alloc())?;
    fails_without_a_change(&rt, &mut disk)
}
