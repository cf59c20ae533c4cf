ghost use Rattle.std.specs.Prelude.{◌≡◌};
ghost use Rattle.mvo_hash.specs.Links.{number_or_none};

use std::mem::size_of;

/// The neighbours of a version among the versions of its key: 8 bytes.
#[derive(Clone, Copy, Debug)]
pub struct Link {
    pub older: u32,
    pub newer: u32,
}

const _: () = prove!(size_of::<Link>() == 8);

/// No version.
pub const NONE: u32 = u32::MAX;

/// Stands for the newer neighbour of a number that no key has.
pub const UNHELD: u32 = u32::MAX - 1;

impl Link {
    ghost use Rattle.std.specs.Prelude.{◌≡◌};
    ghost use Rattle.mvo_hash.specs.Links.{no_link};

    /// The link of a number that no key has.
    pub fn unheld() -> Link
        ensures { result ≡ no_link }
    {
        Link {
            older: NONE,
            newer: UNHELD,
        }
    }
}

/// The number, or `NONE`.
pub fn or_none(number: Option<u32>) -> u32
    ensures { result ≡ number_or_none number }
{
    number.unwrap_or(NONE)
}
