//! The bytes of files, written by hand.

/// A segment without groups.
pub(crate) const FRESH: [u8; 9] = [0x4d, 0x56, 0x4f, 0x4c, 2, 0, 0, 0, 0];

/// Slot 0 of a new store: generation 0, mark 0, no pairs, segment 2.
pub(crate) const FIRST: [u8; 35] = [
    0xa5, 0x1e, 0, 0, 0, 0x4d, 0x56, 0x4f, 0x4d, 2, 0, 0, 0, 0, 0, 0, 0, 0, 0, 0, 0, 0, 0, 0, 0, 0,
    0, 0, 0, 0, 0, 1, 0, 2, 0,
];

/// Slot 1 after a rotation: generation 1, mark 0, no pairs, segments 2 and 3.
pub(crate) const ROTATED: [u8; 37] = [
    0xa5, 0x20, 0, 0, 0, 0x4d, 0x56, 0x4f, 0x4d, 2, 0, 0, 0, 1, 0, 0, 0, 0, 0, 0, 0, 0, 0, 0, 0, 0,
    0, 0, 0, 0, 0, 2, 0, 2, 0, 3, 0,
];

/// The group (0, 2]: one record, end 2, one put at table 0, key 5, sort 50, data 61.
pub(crate) const ONE_PUT: [u8; 49] = [
    0, 0, 0, 0, 0, 0, 0, 0, 2, 0, 0, 0, 0, 0, 0, 0, 1, 0, 2, 0, 0, 0, 0, 0, 0, 0, 1, 0, 1, 0, 5, 0,
    0, 0, 0, 0, 0, 0, 0x32, 0, 0, 0, 0, 0, 0, 0, 1, 0, 0x61,
];

/// The segment with that group.
pub(crate) const SEGMENT: [u8; 63] = [
    0x4d, 0x56, 0x4f, 0x4c, 2, 0, 0, 0, 0xa5, 0x31, 0, 0, 0, 0, 0, 0, 0, 0, 0, 0, 0, 2, 0, 0, 0, 0,
    0, 0, 0, 1, 0, 2, 0, 0, 0, 0, 0, 0, 0, 1, 0, 1, 0, 5, 0, 0, 0, 0, 0, 0, 0, 0x32, 0, 0, 0, 0, 0,
    0, 0, 1, 0, 0x61, 0,
];

/// The data file of the group of one put.
pub(crate) const DATA: [u8; 36] = [
    0x4d, 0x56, 0x4f, 0x44, 2, 0, 0, 0, 2, 0, 0, 0, 0, 0, 0, 0, 0, 5, 0, 0, 0, 0, 0, 0, 0, 0x32, 0,
    0, 0, 0, 0, 0, 0, 1, 0, 0x61,
];

/// A delta file without numbers.
pub(crate) const DELTA: [u8; 8] = [0x4d, 0x56, 0x4f, 0x45, 2, 0, 0, 0];

/// The data file of a merged pair: the put of the group (2, 4].
pub(crate) const MERGED_DATA: [u8; 36] = [
    0x4d, 0x56, 0x4f, 0x44, 2, 0, 0, 0, 4, 0, 0, 0, 0, 0, 0, 0, 0, 5, 0, 0, 0, 0, 0, 0, 0, 0x32, 0,
    0, 0, 0, 0, 0, 0, 1, 0, 0x62,
];

/// Slot 1 after the merge, up to its body's end: generation 5, mark 4, the pair of files 3 and 8
/// from 0 to 4 with one record, and segment 2.
pub(crate) const MERGED: [u8; 63] = [
    0xa5, 0x3a, 0, 0, 0, 0x4d, 0x56, 0x4f, 0x4d, 2, 0, 0, 0, 5, 0, 0, 0, 0, 0, 0, 0, 4, 0, 0, 0, 0,
    0, 0, 0, 1, 0, 3, 0, 8, 0, 0, 0, 0, 0, 0, 0, 0, 0, 4, 0, 0, 0, 0, 0, 0, 0, 1, 0, 0, 0, 0, 0, 0,
    0, 1, 0, 2, 0,
];

/// A delta file with the number 1.
pub(crate) const SECOND_ENDED: [u8; 12] = [0x4d, 0x56, 0x4f, 0x45, 2, 0, 0, 0, 1, 0, 0, 0];

/// One with the number 0.
pub(crate) const ENDED: [u8; 12] = [0x4d, 0x56, 0x4f, 0x45, 2, 0, 0, 0, 0, 0, 0, 0];

/// Slot 0 after a checkpoint: generation 2, mark 2, the pair of files 4 and 5 with one record, and
/// segment 3.
pub(crate) const CHECKPOINTED: [u8; 63] = [
    0xa5, 0x3a, 0, 0, 0, 0x4d, 0x56, 0x4f, 0x4d, 2, 0, 0, 0, 2, 0, 0, 0, 0, 0, 0, 0, 2, 0, 0, 0, 0,
    0, 0, 0, 1, 0, 4, 0, 5, 0, 0, 0, 0, 0, 0, 0, 0, 0, 2, 0, 0, 0, 0, 0, 0, 0, 1, 0, 0, 0, 0, 0, 0,
    0, 1, 0, 3, 0,
];
