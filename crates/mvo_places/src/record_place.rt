ghost use Rattle.std.specs.Prelude.{◌≡◌, ◌<◌, ◌≤◌};
ghost use Rattle.mvo_places.specs.Places.{number_of, place_numbered};

use mvo_types::{MAX_FILE, MAX_PAIR_RECORDS};

/// Where a live record lies.
#[derive(Clone, Copy, Debug, PartialEq, Eq)]
pub struct RecordPlace {
    /// The data file of its pair.
    pub data_file: u16,
    /// Its number in that file.
    pub number: u32,
}

impl RecordPlace {
    /// The place as one number.
    pub(crate) fn as_number(self) -> u32
        requires file { self.data_file ≤ MAX_FILE }
        requires number { self.number < MAX_PAIR_RECORDS }
        ensures { result ≡ number_of self }
    {
        self.data_file as u32 * MAX_PAIR_RECORDS + self.number
    }
}
