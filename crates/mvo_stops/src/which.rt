/// Which opening it is of what is left at a moment.
#[derive(Clone, Copy, Debug, PartialEq, Eq)]
pub enum Which {
    /// The first.
    First,
    /// The first once more, for a stop behind it.
    Again,
    /// Behind that stop.
    BehindStop,
    /// One of which a call fails.
    Cut,
    /// Behind that fault.
    BehindCut,
    /// One of which a call fails, once more, for a stop there.
    CutAgain,
    /// Behind that stop.
    BehindCutStop,
}

impl Which {
    /// All of them.
    pub const ALL: [Which; 7] = [
        Which::First,
        Which::Again,
        Which::BehindStop,
        Which::Cut,
        Which::BehindCut,
        Which::CutAgain,
        Which::BehindCutStop,
    ];
}
