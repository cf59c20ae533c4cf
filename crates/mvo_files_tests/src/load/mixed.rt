//! Images with files of both versions: each file has the rules of its own.
use crate::load::image::{Case, DATA, DELTA, FRESH, INSERTED, find_all};
use crate::load::vectors::{CHECKPOINTED, FORMATTED, ROTATED};
use std::test::Fail;

/// Slot 0 as version 2 formats it: generation 0, segment 2.
const LATEST_FORMATTED: &str =
    "a5 1e000000 4d564f4d 02000000 0000000000000000 0000000000000000 0000 0100 0200";

/// Slot 1 after a rotation by version 2: generation 1, segments 2 and 3.
const LATEST_ROTATED: &str =
    "a5 20000000 4d564f4d 02000000 0100000000000000 0000000000000000 0000 0200 0200 0300";

/// Slot 0 after a checkpoint by version 2: generation 2, pair (0, 2] in files 4 and 5, segment 3.
const LATEST_CHECKPOINTED: &str = "a5 3a000000 4d564f4d 02000000 0200000000000000 0200000000000000 \
    0100 0400 0500 0000000000000000 0200000000000000 01000000 00000000 0100 0300";

const LATEST_FRESH: &str = "4d564f4c 02000000 00";

/// A delete of table 0, key 5 in the group (2, 5], in a segment of version 2.
const LATEST_DELETED: &str = "4d564f4c 02000000 a5 26000000 0200000000000000 0500000000000000 \
    0100 0500000000000000 0100 02 00 0500000000000000 00";

/// The record (2, 0, 5, 50, 61), and a delta file, of version 2.
const LATEST_DATA: &str =
    "4d564f44 02000000 0200000000000000 00 0500000000000000 3200000000000000 0100 61";

const LATEST_DELTA: &str = "4d564f45 02000000";

/// The record (2, 16, 5, 50, 61), of each version.
const DATA_OF_TABLE_16: &str =
    "4d564f44 01000000 0200000000000000 10 0500000000000000 3200000000000000 0100 61";

const LATEST_DATA_OF_TABLE_16: &str =
    "4d564f44 02000000 0200000000000000 10 0500000000000000 3200000000000000 0100 61";

/// The record (2, 64, 5, 50, 61), which no version has.
const LATEST_DATA_OF_TABLE_64: &str =
    "4d564f44 02000000 0200000000000000 40 0500000000000000 3200000000000000 0100 61";

/// A put of table 16 in the group (0, 2], in a segment of each version.
const INSERTED_IN_TABLE_16: &str =
    "4d564f4c 01000000 a5 31000000 0000000000000000 0200000000000000 \
    0100 0200000000000000 0100 01 10 0500000000000000 3200000000000000 0100 61 00";

const LATEST_INSERTED_IN_TABLE_16: &str =
    "4d564f4c 02000000 a5 31000000 0000000000000000 0200000000000000 \
    0100 0200000000000000 0100 01 10 0500000000000000 3200000000000000 0100 61 00";

const READ: [Case; 7] = [
    (&[(0, LATEST_FORMATTED), (2, FRESH)], "0, 0, 8, 0: none"),
    // A segment of version 1, and one of version 2 behind it.
    (
        &[
            (0, FORMATTED),
            (1, LATEST_ROTATED),
            (2, INSERTED),
            (3, LATEST_DELETED),
        ],
        "1, 5, 51, 0: none",
    ),
    // A pair of each version.
    (
        &[
            (0, LATEST_CHECKPOINTED),
            (1, ROTATED),
            (3, LATEST_FRESH),
            (4, DATA),
            (5, DELTA),
        ],
        "2, 2, 8, 1: 50 61",
    ),
    (
        &[
            (0, LATEST_CHECKPOINTED),
            (3, FRESH),
            (4, LATEST_DATA),
            (5, LATEST_DELTA),
        ],
        "2, 2, 8, 1: 50 61",
    ),
    // A manifest of version 1 that is installed beside an older one of version 2.
    (
        &[
            (0, LATEST_FORMATTED),
            (1, ROTATED),
            (2, INSERTED),
            (3, FRESH),
        ],
        "1, 2, 8, 1: 50 61",
    ),
    // A row of a table that version 2 alone has.
    (
        &[
            (0, LATEST_CHECKPOINTED),
            (3, FRESH),
            (4, LATEST_DATA_OF_TABLE_16),
            (5, LATEST_DELTA),
        ],
        "2, 2, 8, 1: none",
    ),
    (
        &[(0, LATEST_FORMATTED), (2, LATEST_INSERTED_IN_TABLE_16)],
        "0, 2, 62, 1: none",
    ),
];

#[test]
fn files_of_both_versions_are_read(rt: HostRuntime) -> Result<(), Fail> {
    find_all(&rt, rt.alloc(), &READ)
}

const BY_THEIR_OWN: [Case; 5] = [
    (
        &[
            (0, LATEST_CHECKPOINTED),
            (3, FRESH),
            (4, DATA_OF_TABLE_16),
            (5, DELTA),
        ],
        "refused 54 4",
    ),
    // Its record comes before the version of its delta file.
    (
        &[
            (0, LATEST_CHECKPOINTED),
            (3, FRESH),
            (4, DATA_OF_TABLE_16),
            (5, LATEST_DELTA),
        ],
        "refused 54 4",
    ),
    (
        &[
            (0, LATEST_CHECKPOINTED),
            (3, FRESH),
            (4, LATEST_DATA_OF_TABLE_64),
            (5, LATEST_DELTA),
        ],
        "refused 54 4",
    ),
    (
        &[(1, LATEST_ROTATED), (2, INSERTED_IN_TABLE_16), (3, FRESH)],
        "refused 54 2",
    ),
    (
        &[(0, LATEST_FORMATTED), (2, INSERTED_IN_TABLE_16)],
        "refused 54 2",
    ),
];

#[test]
fn each_file_has_the_rules_of_its_own_version(rt: HostRuntime) -> Result<(), Fail> {
    find_all(&rt, rt.alloc(), &BY_THEIR_OWN)
}

/// The pair's files are of one version, and none is later than the manifest that names it.
const LATER: [Case; 4] = [
    (
        &[
            (0, LATEST_CHECKPOINTED),
            (3, FRESH),
            (4, DATA),
            (5, LATEST_DELTA),
        ],
        "refused 55",
    ),
    (
        &[
            (0, LATEST_CHECKPOINTED),
            (3, FRESH),
            (4, LATEST_DATA),
            (5, DELTA),
        ],
        "refused 55",
    ),
    (
        &[
            (0, CHECKPOINTED),
            (3, FRESH),
            (4, LATEST_DATA),
            (5, LATEST_DELTA),
        ],
        "refused 55",
    ),
    (
        &[(0, CHECKPOINTED), (3, LATEST_FRESH), (4, DATA), (5, DELTA)],
        "refused 55",
    ),
];

#[test]
fn no_file_is_later_than_what_names_it(rt: HostRuntime) -> Result<(), Fail> {
    find_all(&rt, rt.alloc(), &LATER)
}

const NO_VERSION: [Case; 9] = [
    (&[(0, "a5 1e000000 4d564f4d 00000000")], "refused 55"),
    (&[(0, "a5 1e000000 4d564f4d ffffffff")], "refused 55"),
    (
        &[(0, LATEST_CHECKPOINTED), (4, "4d564f44 00000000")],
        "refused 55",
    ),
    (
        &[(0, LATEST_CHECKPOINTED), (4, "4d564f44 03000000")],
        "refused 55",
    ),
    (
        &[
            (0, LATEST_CHECKPOINTED),
            (4, LATEST_DATA),
            (5, "4d564f45 03000000"),
        ],
        "refused 55",
    ),
    (
        &[(0, LATEST_FORMATTED), (2, "4d564f4c 00000000 00")],
        "refused 55",
    ),
    (
        &[(0, LATEST_FORMATTED), (2, "4d564f4c ffffffff 00")],
        "refused 55",
    ),
    // A version that is cut short.
    (
        &[(0, LATEST_CHECKPOINTED), (4, "4d564f44 010000")],
        "refused 54 4",
    ),
    (
        &[(0, LATEST_FORMATTED), (2, "4d564f4c 0200")],
        "refused 54 2",
    ),
];

#[test]
fn another_version_is_refused(rt: HostRuntime) -> Result<(), Fail> {
    find_all(&rt, rt.alloc(), &NO_VERSION)
}
