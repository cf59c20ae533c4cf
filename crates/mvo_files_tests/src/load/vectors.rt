//! The vectors of the formats, as the images that a store leaves.
use crate::equal::holds;
use crate::load::image::{
    Case, DATA, DELTA, FRESH, INSERTED, LATER_DATA, NAMED, disk_of, find_all, finds, place_all,
};
use mvo_disk::{Call, DeviceWork};
use std::process::Abort;
use std::test::Fail;

/// Slot 0 as it is formatted: generation 0, segment 2.
pub const FORMATTED: &str =
    "a5 1e000000 4d564f4d 01000000 0000000000000000 0000000000000000 0000 0100 0200";

/// Slot 1 after a rotation: generation 1, segments 2 and 3.
pub const ROTATED: &str =
    "a5 20000000 4d564f4d 01000000 0100000000000000 0000000000000000 0000 0200 0200 0300";

/// Slot 0 after a checkpoint: generation 2, the pair (0, 2] in files 4 and 5, segment 3.
pub const CHECKPOINTED: &str = "a5 3a000000 4d564f4d 01000000 0200000000000000 0200000000000000 \
    0100 0400 0500 0000000000000000 0200000000000000 01000000 00000000 0100 0300";

/// Slot 1 after a merge: generation 5, the pair (0, 4] in files 3 and 8, segment 2.
pub const MERGED: &str = "a5 3a000000 4d564f4d 01000000 0500000000000000 0400000000000000 \
    0100 0300 0800 0000000000000000 0400000000000000 01000000 00000000 0100 0200";

const NO_ROWS: [Case; 1] = [(&[(0, FORMATTED), (2, FRESH)], "0, 0, 8, 0: none")];

#[test]
fn a_formatted_disk_has_no_rows(rt: HostRuntime) -> Result<(), Fail> {
    find_all(&rt, rt.alloc(), &NO_ROWS)
}

const GROUPS: [Case; 1] = [(
    &[(0, FORMATTED), (1, "00"), (2, INSERTED)],
    "0, 2, 62, 1: 50 61",
)];

#[test]
fn groups_of_a_segment_are_put_on_the_rows(rt: HostRuntime) -> Result<(), Fail> {
    find_all(&rt, rt.alloc(), &GROUPS)
}

/// A delete of the row in the group (2, 5].
const DELETED: &str = "4d564f4c 01000000 a5 26000000 0200000000000000 0500000000000000 \
    0100 0500000000000000 0100 02 00 0500000000000000 00";

const SEGMENTS: [Case; 4] = [
    (
        &[(0, FORMATTED), (1, ROTATED), (2, INSERTED), (3, FRESH)],
        "1, 2, 8, 1: 50 61",
    ),
    (
        &[(1, ROTATED), (2, INSERTED), (3, DELETED)],
        "1, 5, 51, 0: none",
    ),
    // Behind the first segment stands mark 2.
    (
        &[(1, ROTATED), (2, INSERTED), (3, INSERTED)],
        "refused 54 3",
    ),
    // A sealed segment has frames.
    (
        &[(0, FORMATTED), (1, ROTATED), (2, FRESH), (3, FRESH)],
        "refused 54 2",
    ),
];

#[test]
fn the_mark_goes_on_through_the_segments(rt: HostRuntime) -> Result<(), Fail> {
    find_all(&rt, rt.alloc(), &SEGMENTS)
}

const CHECKPOINT: [Case; 1] = [(
    &[
        (0, CHECKPOINTED),
        (1, ROTATED),
        (2, INSERTED),
        (3, FRESH),
        (4, DATA),
        (5, DELTA),
    ],
    "2, 2, 8, 1: 50 61",
)];

#[test]
fn a_checkpoint_has_the_rows(rt: HostRuntime) -> Result<(), Fail> {
    find_all(&rt, rt.alloc(), &CHECKPOINT)
}

const MERGED_PAIR: [Case; 1] = [(
    &[
        (0, CHECKPOINTED),
        (1, MERGED),
        (2, FRESH),
        (3, LATER_DATA),
        (4, DATA),
        (5, NAMED),
        (8, DELTA),
    ],
    "5, 4, 8, 1: 50 62",
)];

#[test]
fn a_merged_pair_has_the_rows(rt: HostRuntime) -> Result<(), Fail> {
    find_all(&rt, rt.alloc(), &MERGED_PAIR)
}

const PLACES: [Case; 3] = [
    // The row of the segment has no place.
    (&[(0, FORMATTED), (2, INSERTED)], "nowhere"),
    (
        &[(0, CHECKPOINTED), (3, FRESH), (4, DATA), (5, DELTA)],
        "4 0",
    ),
    (
        &[(1, MERGED), (2, FRESH), (3, LATER_DATA), (8, DELTA)],
        "3 0",
    ),
];

#[test]
fn live_records_have_places(rt: HostRuntime) -> Result<(), Fail> {
    place_all(&rt, rt.alloc(), &PLACES)
}

const NOT_COUNTED: [Case; 2] = [
    (
        &[
            (0, FORMATTED),
            (1, "01 4d564f4d"),
            (2, "4d564f4c 01000000 00 a5ffffffff"),
        ],
        "0, 0, 8, 0: none",
    ),
    // A number that the manifest doesn't count.
    (
        &[(0, CHECKPOINTED), (3, FRESH), (4, DATA), (5, NAMED)],
        "2, 2, 8, 1: 50 61",
    ),
];

#[test]
fn bytes_that_do_not_count_are_not_looked_at(rt: HostRuntime) -> Result<(), Fail> {
    find_all(&rt, rt.alloc(), &NOT_COUNTED)
}

/// There are more calls than these, and the later ones only read.
fn only_read(rt: &impl Abort, calls: &[Call], before: usize) {
    holds(rt, calls.len() > before);
    for call in &calls[before..] {
        let reads = matches!(call.work, DeviceWork::Length | DeviceWork::Read { .. });
        holds(rt, reads);
    }
}

#[test]
fn loading_only_reads(rt: HostRuntime) -> Result<(), Fail> {
    let alloc = rt.alloc();
    let files = [(0, CHECKPOINTED), (3, INSERTED), (4, DATA), (5, DELTA)];
    let mut disk = disk_of(alloc, &files)?;
    let before = disk.calls().len();
    finds(&rt, alloc, &mut disk, "refused 54 3")?;
    only_read(&rt, disk.calls(), before);
    Ok(())
}
