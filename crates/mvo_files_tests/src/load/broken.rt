//! Images that break a rule: the first one decides.
use crate::load::image::{Case, DATA, DELTA, FRESH, INSERTED, NAMED, find_all};
use crate::load::vectors::{CHECKPOINTED, FORMATTED, ROTATED};
use std::test::Fail;

const SLOTS: [Case; 7] = [
    (&[], "refused 53"),
    (&[(0, "00"), (1, "a4"), (2, FRESH)], "refused 53"),
    // An open slot that is too short, also where the other is newer.
    (
        &[(0, "a5 1e000000"), (1, ROTATED), (2, INSERTED), (3, FRESH)],
        "refused 54 0",
    ),
    (&[(0, FORMATTED), (1, "a5"), (2, FRESH)], "refused 54 1"),
    (&[(0, "a5"), (1, "a5"), (2, "00")], "refused 54 0"),
    // A manifest in the slot of the other parity.
    (&[(0, ROTATED), (2, INSERTED), (3, FRESH)], "refused 54 0"),
    // Another version in slot 1, with slot 0 good.
    (
        &[
            (0, FORMATTED),
            (1, "a5 1e000000 4d564f4d 03000000"),
            (2, FRESH),
        ],
        "refused 55",
    ),
];

#[test]
fn slots_are_looked_at_first(rt: HostRuntime) -> Result<(), Fail> {
    find_all(&rt, rt.alloc(), &SLOTS)
}

const PAIRS: [Case; 6] = [
    // Each file in turn is missing, with all behind it.
    (&[(0, CHECKPOINTED)], "refused 54 4"),
    (&[(0, CHECKPOINTED), (4, DATA)], "refused 54 5"),
    (&[(0, CHECKPOINTED), (4, DATA), (5, DELTA)], "refused 54 3"),
    // Another version of each.
    (&[(0, CHECKPOINTED), (4, "4d564f44 02000000")], "refused 55"),
    (
        &[(0, CHECKPOINTED), (4, DATA), (5, "4d564f45 00000000")],
        "refused 55",
    ),
    (
        &[
            (0, CHECKPOINTED),
            (3, "4d564f4c 02000000 00"),
            (4, DATA),
            (5, DELTA),
        ],
        "refused 55",
    ),
];

#[test]
fn pairs_come_before_segments(rt: HostRuntime) -> Result<(), Fail> {
    find_all(&rt, rt.alloc(), &PAIRS)
}

/// The checkpoint with one number counted.
const ONE_NUMBER: &str = "a5 3a000000 4d564f4d 01000000 0200000000000000 0200000000000000 \
    0100 0400 0500 0000000000000000 0200000000000000 01000000 01000000 0100 0300";

const NUMBERS: [Case; 3] = [
    (
        &[(0, ONE_NUMBER), (3, FRESH), (4, DATA), (5, DELTA)],
        "refused 54 5",
    ),
    (
        &[(0, ONE_NUMBER), (3, FRESH), (4, DATA), (5, NAMED)],
        "2, 2, 8, 0: none",
    ),
    (
        &[
            (0, ONE_NUMBER),
            (3, FRESH),
            (4, DATA),
            (5, "4d564f45 01000000 01000000"),
        ],
        "refused 54 5",
    ),
];

#[test]
fn numbers_that_are_counted_are_read(rt: HostRuntime) -> Result<(), Fail> {
    find_all(&rt, rt.alloc(), &NUMBERS)
}
