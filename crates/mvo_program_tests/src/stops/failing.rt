//! A failing sync of a gate, as it stands.
use crate::disks::{formatted, opened};
use crate::equal::{holds, same};
use mvo_disk::MemDisk;
use mvo_script::Driver;
use mvo_store::Store;
use mvo_types::RowKey;
use std::alloc::Global;
use std::process::Abort;
use std::test::Fail;
use std::thread::Threads;

/// Lines with their replies, where the sync of the second gate fails.
const FAILING: [(&str, &str); 14] = [
    ("begin t1", "began 1"),
    ("insert t1 0 5 50 61", "inserted"),
    ("commit t1", "committed 2"),
    ("flush", "durable 2"),
    ("begin t2", "began 3"),
    ("insert t2 0 6 50 62", "inserted"),
    ("commit t2", "committed 4"),
    ("group", "closed 2 4"),
    ("take", "taken"),
    ("body", "written"),
    ("open", "refused 50"),
    ("open", "refused 51"),
    ("poll t1", "yes"),
    ("poll t2", "no"),
];

/// Seven calls append the groups before that sync.
const BEFORE: u64 = 7;

/// The disk behind a stop, which leaves what was synced.
fn stopped(mut disk: MemDisk) -> Result<MemDisk, Fail> {
    match disk.stop(&[]) {
        Ok(_) => Ok(disk),
        Err(error) => Err(Fail::from(error)),
    }
}

/// A driver over a new store whose disk fails at that sync.
fn failing(rt: &(impl Threads + Sync), alloc: Global) -> Result<Driver<MemDisk>, Fail> {
    let disk = opened(rt, alloc, 7, stopped(formatted(alloc)?)?)?.into_disk();
    let opening = disk.calls().len() as u64;
    let mut disk = stopped(disk)?;
    disk.fail_at(opening.saturating_add(BEFORE));
    Ok(Driver::over(alloc, opened(rt, alloc, 7, disk)?))
}

fn assert_line(
    rt: &impl Abort,
    alloc: Global,
    driver: &mut Driver<MemDisk>,
    line: &str,
    reply: &str,
) -> Result<(), Fail> {
    let answered = driver.answer(line.as_bytes()).to_string(alloc)?;
    assert_eq!(rt; answered.as_str(), reply, "at {line}");
    Ok(())
}

/// Asserts the replies to the lines.
fn assert_lines(rt: &impl Abort, alloc: Global, driver: &mut Driver<MemDisk>) -> Result<(), Fail> {
    for (line, reply) in FAILING {
        assert_line(rt, alloc, driver, line, reply)?;
    }
    Ok(())
}

/// The acknowledged rows are on a disk.
fn has_both(rt: &(impl Abort + Threads + Sync), alloc: Global, disk: MemDisk) -> Result<(), Fail> {
    match Store::open(rt, alloc, 7, disk) {
        Ok((_store, rows, mark)) => {
            same(rt, &mark.0, &4);
            for key in [5, 6] {
                holds(rt, rows.contains(RowKey { table: 0, key }));
            }
            Ok(())
        }
        Err((refusal, _)) => Err(Fail::from(refusal)),
    }
}

// Opened again as it stands, the acknowledged row is there, and here also the one whose gate was
// written: it is durable then.
#[test]
fn a_failing_sync_loses_nothing_acknowledged(rt: HostRuntime) -> Result<(), Fail> {
    let alloc = rt.alloc();
    let mut driver = failing(&rt, alloc)?;
    assert_lines(&rt, alloc, &mut driver)?;
    has_both(&rt, alloc, driver.into_world().into_disk())
}
