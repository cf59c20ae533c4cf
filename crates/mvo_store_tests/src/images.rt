//! Images that were changed by hand, and what their opening answers.
use crate::disks::written;
use crate::equal::{same, same_at};
use crate::stores::SEED;
use crate::vectors::{CHECKPOINTED, DATA, DELTA, FIRST, FRESH, ROTATED, SECOND_ENDED, SEGMENT};
use mvo_disk::{Disk, MemDisk};
use mvo_store::Store;
use mvo_types::{Refusal, Rows, Stamp};
use std::alloc::Global;
use std::process::Abort;
use std::test::Fail;
use std::thread::Threads;

/// Bytes that are put into a file at a place.
type Change = (u16, usize, &'static [u8]);

/// What is put into the files of an image, and the answer.
type Case = (&'static [Change], &'static str);

/// A new store, and one with a group.
const NEW: [Change; 2] = [(0, 0, &FIRST), (2, 0, &FRESH)];

const APPENDED: [Change; 2] = [(0, 0, &FIRST), (2, 0, &SEGMENT)];

/// That group behind a rotation and a checkpoint.
const WITH_PAIR: [Change; 6] = [
    (0, 0, &CHECKPOINTED),
    (1, 0, &ROTATED),
    (2, 0, &SEGMENT),
    (3, 0, &FRESH),
    (4, 0, &DATA),
    (5, 0, &DELTA),
];

/// 2^62 + 1.
const BEYOND: [u8; 8] = [1, 0, 0, 0, 0, 0, 0, 0x40];

const OF_A_NEW_STORE: [Case; 2] = [
    (&[], "mark 0 rows 0"),
    // A sealed segment has a group.
    (&[(1, 0, &ROTATED), (3, 0, &FRESH)], "refused 54 2"),
];

const OF_A_GROUP: [Case; 5] = [
    (&[], "mark 2 rows 1"),
    // Its gate is closed.
    (&[(2, 8, &[0])], "mark 0 rows 0"),
    // It is longer than a body may be.
    (&[(2, 9, &[0xff, 0xff, 0xff, 0xff])], "refused 54 2"),
    // The gate behind it is open, and nothing comes.
    (&[(2, 62, &[0xa5])], "refused 54 2"),
    // The record's end is above the group's mark.
    (&[(2, 31, &[3])], "refused 54 2"),
];

const OF_A_PAIR: [Case; 6] = [
    (&[], "mark 2 rows 1"),
    // The first pair begins at 1.
    (&[(0, 35, &[1])], "refused 54 0"),
    // A number that no record has.
    (&[(0, 55, &[1]), (5, 0, &SECOND_ENDED)], "refused 54 5"),
    // Table 64, and a record too few.
    (&[(4, 16, &[64])], "refused 54 4"),
    (&[(0, 51, &[2])], "refused 54 4"),
    // The pair's hi and the checkpoint mark are beyond the last timestamp.
    (&[(0, 43, &BEYOND), (0, 21, &BEYOND)], "refused 54 0"),
];

/// Puts the bytes into the files.
fn put_all(disk: &mut MemDisk, changes: &[Change]) -> Result<(), Fail> {
    for (file, at, bytes) in changes {
        if *file > 7 || disk.faults() != 0 || disk.bytes(*file).len() < *at {
            return Err(Fail::from("a place in a file"));
        }
        disk.write_at(*file, *at, bytes)?;
    }
    Ok(())
}

/// What an opening answered, as a line.
fn line_of(
    alloc: Global,
    opened: Result<(Store<MemDisk>, Rows, Stamp), (Refusal, MemDisk)>,
) -> Result<String, Fail> {
    match opened {
        Ok((_, rows, mark)) => {
            let count = rows.len();
            Ok(format!(in alloc; "mark {mark} rows {count}")?)
        }
        Err((refusal, _)) => Ok(format!(in alloc; "{refusal}")?),
    }
}

/// What the opening of an image answers, as a line.
fn answer_of(rt: &(impl Threads + Sync), alloc: Global, disk: MemDisk) -> Result<String, Fail> {
    line_of(alloc, Store::open(rt, alloc, SEED, disk))
}

/// What it answers in the calling thread alone.
fn answer_in_turn(alloc: Global, disk: MemDisk) -> Result<String, Fail> {
    line_of(alloc, Store::open_in_turn(alloc, SEED, disk))
}

/// It is this line, of the case with this number.
fn says(rt: &impl Abort, at: usize, found: &String, answer: &str) {
    same_at(rt, at, &found.as_str(), &answer);
}

/// The image with these files and changes.
fn changed(alloc: Global, files: &[Change], changes: &[Change]) -> Result<MemDisk, Fail> {
    let mut disk = MemDisk::new(alloc)?;
    put_all(&mut disk, files)?;
    put_all(&mut disk, changes)?;
    Ok(disk)
}

/// The image with these files is answered so with each of the changes, in threads and in turn.
fn are_answered(
    rt: &(impl Abort + Threads + Sync),
    alloc: Global,
    files: &[Change],
    cases: &[Case],
) -> Result<(), Fail> {
    for (at, (changes, answer)) in cases.iter().enumerate() {
        let found = answer_of(rt, alloc, changed(alloc, files, changes)?)?;
        says(rt, at, &found, answer);
        let in_turn = answer_in_turn(alloc, changed(alloc, files, changes)?)?;
        says(rt, at, &in_turn, answer);
    }
    Ok(())
}

#[test]
fn changed_images_are_answered(rt: HostRuntime) -> Result<(), Fail> {
    let alloc = rt.alloc();
    are_answered(&rt, alloc, &NEW, &OF_A_NEW_STORE)?;
    are_answered(&rt, alloc, &APPENDED, &OF_A_GROUP)?;
    are_answered(&rt, alloc, &WITH_PAIR, &OF_A_PAIR)
}

/// A frame whose last gate is cut off.
#[test]
fn a_segment_that_is_cut_is_refused(rt: HostRuntime) -> Result<(), Fail> {
    let alloc = rt.alloc();
    let disk = written(changed(alloc, &NEW[..1], &[])?, 2, &SEGMENT[..62])?;
    let found = answer_of(&rt, alloc, disk)?;
    same(&rt, &found.as_str(), &"refused 54 2");
    Ok(())
}
