//! What was done to the files of a disk and what it answered, as a list that proofs alone see: no
//! memory holds it.
ghost use Rattle.std.specs.Prelude.{◌≡◌, List, [], ◌∷◌};
ghost use Rattle.std.specs.Borrow.{ftrue};
ghost use Rattle.mvo_disk.specs.History.{Event, event_of};

use std::marker::{Model, PhantomData};

// The kinds of what is done to a file.
const MEASURED: u64 = 0;

const WROTE: u64 = 1;

const SHORTENED: u64 = 2;

const SETTLED: u64 = 3;

const GAVE: u64 = 4;

/// What was done to the files of a disk, the newest first.
#[derive(Drop)]
pub struct DiskHistory {
    marker: PhantomData<u8>,
    pub ghost events: { List Event },
}

impl Model for DiskHistory {
    ghost also_owns = { λ _. ftrue };
}

impl DiskHistory {
    ghost use Rattle.std.specs.Prelude.{◌≡◌, List, [], ◌∷◌};
    ghost use Rattle.mvo_disk.specs.History.{event_of, measured, wrote, shortened, settled, gave};

    /// Nothing was done.
    pub fn new() -> DiskHistory
        ensures { result.events ≡ [] }
    {
        DiskHistory {
            marker: PhantomData,
        }
    }

    // One event more. The numbers are its kind, the file, and an offset or a length.
    fn note(&mut self, _numbers: &[u64], _bytes: &[u8])
        ensures { self.new.events ≡ event_of _numbers.now _bytes.now ∷ self.old.events }
    {}

    /// A length was answered.
    pub fn measured(&mut self, file: u16, len: usize)
        ensures { self.new.events ≡ measured file len ∷ self.old.events }
    {
        self.note(&[MEASURED, file as u64, len as u64], &[]);
    }

    /// Bytes were answered.
    pub fn gave(&mut self, file: u16, at: usize, bytes: &[u8])
        ensures { self.new.events ≡ gave file at bytes.now ∷ self.old.events }
    {
        self.note(&[GAVE, file as u64, at as u64], bytes);
    }

    /// Bytes were written, all of them or a part.
    pub fn wrote(&mut self, file: u16, at: usize, bytes: &[u8])
        ensures { self.new.events ≡ wrote file at bytes.now ∷ self.old.events }
    {
        self.note(&[WROTE, file as u64, at as u64], bytes);
    }

    /// A file was cut to a length, or may have been.
    pub fn shortened(&mut self, file: u16, len: usize)
        ensures { self.new.events ≡ shortened file len ∷ self.old.events }
    {
        self.note(&[SHORTENED, file as u64, len as u64], &[]);
    }

    /// A sync of a file succeeded.
    pub fn settled(&mut self, file: u16)
        ensures { self.new.events ≡ settled file ∷ self.old.events }
    {
        self.note(&[SETTLED, file as u64, 0], &[]);
    }
}
