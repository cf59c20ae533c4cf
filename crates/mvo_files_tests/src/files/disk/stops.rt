use crate::equal::same;
use mvo_disk::{Disk, DiskFault, FileImage, MemDisk, StopRefusal};
use std::alloc::{AllocError, Global};
use std::process::Abort;
use std::test::Fail;

// The texts of the letters a and b with at most three of them.
const TEXTS: [&str; 15] = [
    "", "a", "b", "aa", "ab", "ba", "bb", "aaa", "aab", "aba", "abb", "baa", "bab", "bba", "bbb",
];

#[derive(Clone, Copy)]
enum Step {
    Write(usize, &'static str),
    Cut(usize),
    Sync,
}

use Step::{Cut, Sync, Write};

const ANY: &str = ",a,b,aa,ab,ba,bb,aaa,aab,aba,abb,baa,bab,bba,bbb,";

const FROM_A: &str = "a,aa,ab,aaa,aab,aba,abb,";

const FROM_A_BYTE: &str = "aa,ab,aaa,aab,aba,abb,";

// Steps on a fresh file, with the texts that a stop after them can leave.
const CASES: [(&[Step], &str); 10] = [
    // A fresh file, and one that was written and never synced.
    (&[], ","),
    (&[Write(0, "a")], ANY),
    // A write over the second byte: the first stays, and the length is at least 2.
    (&[Write(0, "ab"), Sync, Write(1, "a")], FROM_A_BYTE),
    (&[Write(0, "ab"), Sync, Write(1, "a"), Sync], "aa,"),
    // A write past the end keeps both bytes, and leaves any behind them.
    (&[Write(0, "ab"), Sync, Write(2, "b")], "ab,aba,abb,"),
    // After a cut the old byte may come back, or another.
    (&[Write(0, "ab"), Sync, Cut(1)], FROM_A),
    (&[Write(0, "ab"), Sync, Cut(1), Sync], "a,"),
    (&[Write(0, "ab"), Sync, Write(1, "a"), Cut(1)], FROM_A),
    // The kept length is the least of the cuts, and writes don't raise it.
    (
        &[Write(0, "ab"), Sync, Cut(1), Write(1, "bb"), Cut(2)],
        FROM_A,
    ),
    (
        &[Write(0, "ab"), Sync, Cut(1), Write(1, "bb"), Sync],
        "abb,",
    ),
];

fn go(disk: &mut MemDisk, step: Step) -> Result<(), DiskFault> {
    let len = disk.bytes(3).len();
    if disk.faults() != 0 {
        return Err(DiskFault);
    }
    match step {
        Step::Write(at, text) if at <= len => disk.write_at(3, at, text.as_bytes())?,
        Step::Cut(to) if to <= len => disk.cut(3, to)?,
        Step::Sync => disk.sync(3)?,
        _ => return Err(DiskFault),
    }
    Ok(())
}

fn after(alloc: Global, steps: &[Step]) -> Result<MemDisk, Fail> {
    let mut disk = MemDisk::new(alloc)?;
    for step in steps {
        go(&mut disk, *step)?;
    }
    Ok(disk)
}

fn image(alloc: Global, file: u16, text: &str) -> Result<FileImage, AllocError> {
    Ok(FileImage {
        file,
        bytes: text.as_bytes().to_vec(alloc)?,
    })
}

// A stop that leaves this text in a file.
fn stop_with(
    alloc: Global,
    disk: &mut MemDisk,
    file: u16,
    text: &str,
) -> Result<Result<(), StopRefusal>, AllocError> {
    let image = image(alloc, file, text)?;
    Ok(disk.stop(&[image]))
}

// Whether a stop after these steps can leave the text.
fn can_leave(alloc: Global, steps: &[Step], text: &str) -> Result<bool, Fail> {
    let mut disk = after(alloc, steps)?;
    match stop_with(alloc, &mut disk, 3, text)? {
        Ok(()) => Ok(true),
        Err(StopRefusal::NotAnImage) => Ok(false),
        Err(refused) => Err(refused)?,
    }
}

// The texts that a stop after these steps can leave, each followed by a comma.
fn images_of(alloc: Global, steps: &[Step]) -> Result<String, Fail> {
    let mut all = String::new(alloc);
    for text in TEXTS {
        if can_leave(alloc, steps, text)? {
            all.push_str(text)?;
            all.push_str(",")?;
        }
    }
    Ok(all)
}

#[test]
fn leaves_the_images_of_the_model(rt: HostRuntime) -> Result<(), Fail> {
    for (steps, texts) in CASES {
        same(&rt, &images_of(rt.alloc(), steps)?.as_str(), &texts);
    }
    Ok(())
}

// Three writes, of which the first is synced.
fn write_two_files(disk: &mut MemDisk) -> Result<(), DiskFault> {
    if disk.faults() != 0 {
        return Err(DiskFault);
    }
    disk.write_at(3, 0, b"ab")?;
    disk.sync(3)?;
    disk.write_at(3, 0, b"b")?;
    disk.write_at(4, 0, b"x")
}

// File 5 was not written.
fn refuses_file_5(rt: &impl Abort, alloc: Global, disk: &mut MemDisk) -> Result<(), Fail> {
    let images = [image(alloc, 3, "bb")?, image(alloc, 5, "a")?];
    same(rt, &disk.stop(&images), &Err(StopRefusal::NotAnImage));
    same(rt, &disk.calls().len(), &4);
    Ok(())
}

// File 4 isn't named, and keeps its content.
fn leaves_file_4(rt: &impl Abort, alloc: Global, disk: &mut MemDisk) -> Result<(), Fail> {
    stop_with(alloc, disk, 3, "abz")??;
    same(rt, &disk.bytes(3), &b"abz".as_slice());
    same(rt, &disk.bytes(4), &b"x".as_slice());
    same(rt, &disk.calls().len(), &0);
    Ok(())
}

fn stops_one_by_one(rt: &impl Abort, alloc: Global, disk: &mut MemDisk) -> Result<(), Fail> {
    write_two_files(disk)?;
    refuses_file_5(rt, alloc, disk)?;
    leaves_file_4(rt, alloc, disk)?;
    // What a stop leaves counts as synced.
    let refused = stop_with(alloc, disk, 4, "")?;
    same(rt, &refused, &Err(StopRefusal::NotAnImage));
    Ok(())
}

#[test]
fn stops_each_file_for_itself(rt: HostRuntime) -> Result<(), Fail> {
    let mut disk = MemDisk::new(rt.alloc())?;
    stops_one_by_one(&rt, rt.alloc(), &mut disk)
}
