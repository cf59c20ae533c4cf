/// What a segment of the log has.
#[derive(Clone, Copy, Debug, PartialEq, Eq)]
pub struct SegmentStats {
    /// The file that holds it.
    pub file: u16,
    /// How many bytes of it count, up to its closed gate.
    pub bytes: usize,
    /// How many groups it holds.
    pub groups: usize,
}
