ghost use Rattle.std.specs.Prelude.{◌≡◌};
ghost use Rattle.mvo_stops.specs.Counting.{counted_on};

/// How much was looked at.
#[derive(Clone, Copy, Debug, PartialEq, Eq)]
pub struct Counts {
    /// The calls of the device at which the script was stopped, and of which each failed once.
    pub calls: u64,
    /// What stops and faults left, each opened and compared with what was promised.
    pub images: u64,
    /// The openings, with those that a stop or a fault cut short.
    pub openings: u64,
}

impl Counts {
    /// Nothing yet.
    pub fn new() -> Counts
        ensures { result ≡ record { calls = 0; images = 0; openings = 0 } }
    {
        Counts {
            calls: 0,
            images: 0,
            openings: 0,
        }
    }

    /// An opening more, of an image or cut short.
    pub fn with_opening(self) -> Counts
        ensures { result ≡ record self { openings = counted_on self.openings } }
    {
        Counts {
            calls: self.calls,
            images: self.images,
            openings: self.openings.saturating_add(1),
        }
    }

    /// An image more.
    pub fn with_image(self) -> Counts
        ensures { result ≡ record self { images = counted_on self.images } }
    {
        Counts {
            calls: self.calls,
            images: self.images.saturating_add(1),
            openings: self.openings,
        }
    }

    /// These and more, of the same calls.
    pub fn and(self, more: Counts) -> Counts
        ensures { result.calls ≡ self.calls }
    {
        Counts {
            calls: self.calls,
            images: self.images.saturating_add(more.images),
            openings: self.openings.saturating_add(more.openings),
        }
    }
}
