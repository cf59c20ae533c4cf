/// How many bytes a frame has at most, with its gate and its length: a body of the greatest length
/// behind five bytes.
pub const MAX_FRAME_LEN: usize = 4_194_309;

/// How many bytes of frames a slice of a reading is to take: 256 KiB, and what the last of them has
/// beyond.
pub const SLICE_LEN: usize = 262_144;
