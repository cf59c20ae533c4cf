use crate::slice::Slice;

/// How a call of the store is made of slices.
pub(crate) enum Sliced {
    /// They write a data file.
    Written(Slice),
    /// They put the places that are left, and the call is made behind them.
    Placed,
    /// They cut long files that nobody names, and the call is made behind them.
    Shortened,
    /// They read the pair at this place and the one behind it.
    PairsRead(usize),
    /// They read the oldest sealed segment, and build the pair of it.
    SegmentRead,
}
