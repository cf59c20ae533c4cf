//! The numbers of a delta file that came late.
use crate::equal::same;
use crate::files::pair::vectors::pair;
use mvo_disk::{Disk, MemDisk};
use mvo_pair::{Pair, late_numbers};
use std::alloc::Global;
use std::process::Abort;
use std::test::Fail;

/// A disk whose file 5 has these bytes.
fn holding(alloc: Global, bytes: &[u8]) -> Result<MemDisk, Fail> {
    let mut disk = MemDisk::new(alloc)?;
    if disk.faults() != 0 || !disk.bytes(5).is_empty() {
        return Err(Fail::from("a new disk"));
    }
    disk.write_at(5, 0, bytes)?;
    Ok(disk)
}

/// The numbers from a place on, of so many that count in these bytes.
fn late(alloc: Global, bytes: &[u8], entries: u32, from: u32) -> Result<Vec<u32>, Fail> {
    let mut disk = holding(alloc, bytes)?;
    if disk.faults() != 0 || disk.bytes(5).len() < 8 + 4 * entries as usize || from > entries {
        return Err(Fail::from("too short a file"));
    }
    let counted: Pair = pair(9, entries);
    if counted.delta_file != 5 || counted.entries != entries {
        return Err(Fail::from("another pair"));
    }
    Ok(late_numbers(alloc, &mut disk, counted, from)?)
}

/// They are these.
fn are(
    rt: &impl Abort,
    alloc: Global,
    entries: u32,
    from: u32,
    wanted: &[u32],
) -> Result<(), Fail> {
    let bytes = b"MVOE\x01\0\0\0\x07\0\0\0\x02\x01\0\0\x05\0\0\0\x09";
    let found = late(alloc, bytes, entries, from)?;
    same(rt, &found.as_slice(), &wanted);
    Ok(())
}

#[test]
fn numbers_count_from_a_place_on(rt: HostRuntime) -> Result<(), Fail> {
    let alloc = rt.alloc();
    are(&rt, alloc, 3, 0, &[7, 258, 5])?;
    are(&rt, alloc, 3, 1, &[258, 5])?;
    // Nothing behind the counted ones is read.
    are(&rt, alloc, 2, 1, &[258])?;
    are(&rt, alloc, 3, 3, &[])
}
