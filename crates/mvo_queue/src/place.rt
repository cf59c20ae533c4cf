ghost use Rattle.std.specs.Prelude.{◌+◌, ◌-◌, ◌<◌, ◌^◌};
ghost use Rattle.mvo_queue.specs.Cut.{IsInPiece};

/// How many items a piece holds.
pub(crate) const PIECE: usize = 128;

/// Where an item of a queue lies: in which piece, and behind how many others of that piece.
#[derive(Clone, Copy)]
pub(crate) struct Place {
    pub(crate) piece: usize,
    pub(crate) inner: usize,
}

impl Place {
    /// The place of an item behind so many others, where so many are gone from the first piece.
    pub(crate) fn of(skipped: usize, at: usize) -> Place
        requires first { skipped < PIECE }
        requires within { skipped + at < 2 ^ 64 }
        ensures { IsInPiece PIECE (PIECE - skipped) at result.piece result.inner }
    {
        let piece = (skipped + at) / PIECE;
        let inner = if piece == 0 {
            at
        } else {
            (skipped + at) % PIECE
        };
        Place { piece, inner }
    }
}
