ghost use Rattle.std.specs.Prelude.{◌≡◌, ◌<◌, ◌≤◌, ◌↔◌, ◌++◌, ◌∷◌, [], cond, IsTrue, IfOk, OnErr};
ghost use Rattle.mvo_places.specs.Falling.{MayStandLast, HaveDistinctKeys};
ghost use Rattle.mvo_places.specs.Fixed.{places_of_live, AllLive};

use crate::fixed_keys::FixedKeys;
use crate::record_place::RecordPlace;
use mvo_types::{MAX_FILE, MAX_PAIR_RECORDS, RowKey};
use std::alloc::{AllocError, Global};
use std::marker::Model;

/// Keys with their places, each key below the one before it. Contracts see their list.
///
/// A key takes 13 bytes.
#[derive(Drop)]
pub struct Falling {
    fixed: FixedKeys,
}

impl Model for Falling {
    ghost use Rattle.mvo_places.specs.Falling.{PlaceList, coded_place_list};

    ghost Value = { PlaceList };

    ghost coded = { coded_place_list };

    ghost use Rattle.mvo_places.specs.Falling.{Falls};
    ghost use Rattle.mvo_places.specs.Fixed.{places_of_live, AllLive};

    ghost view = { λ f. places_of_live f.fixed };

    ghost invariant = { λ f. AllLive f.fixed × Falls f.fixed };
}

impl Falling {
    /// No keys, and memory for so many.
    pub fn with_room(alloc: Global, count: usize) -> Result<Falling, AllocError>
        ensures { IfOk result (λ falling. falling ≡ []) }
    {
        Ok(Falling {
            fixed: FixedKeys::with_room(alloc, count)?,
        })
    }

    /// Puts a key behind the others, where it may stand there, and answers that: whether its table
    /// is one that there can be, and it is below the last key. It takes no memory where there is
    /// some for it.
    pub fn push(&mut self, key: RowKey, place: RecordPlace) -> Result<bool, AllocError>
        requires file { place.data_file ≤ MAX_FILE }
        requires number { place.number < MAX_PAIR_RECORDS }
        ensures answer { IfOk result (λ pushed. IsTrue pushed ↔ MayStandLast self.old key) }
        ensures ok { IfOk result (λ pushed.
            self.new ≡ cond pushed (self.old ++ (key, place) ∷ []) self.old) }
        ensures err { OnErr result (self.new ≡ self.old) }
        ensures apart { HaveDistinctKeys self.new }
    {
        self.fixed.push(key, place.as_number())
    }

    /// The keys, with the numbers of their places.
    pub(crate) fn into_fixed(self) -> FixedKeys
        ensures places { places_of_live result ≡ self }
        ensures live { AllLive result }
        ensures apart { HaveDistinctKeys self }
    {
        self.fixed
    }
}
