//! Builds what a checkpoint writes.
ghost use Rattle.std.specs.Prelude.{◌≡◌, ◌≤◌, ◌+◌, ℕ, IfOk, List, length};
ghost use Rattle.mvo_group.specs.Data.{GroupData};
ghost use Rattle.mvo_pair.specs.Data.{Numbered};
ghost use Rattle.mvo_ckpt.specs.Writes.{records_of, gone_of};
ghost use Rattle.mvo_places.specs.Places.{ArePlaces};
ghost use Rattle.mvo_ckpt.specs.Ended.{deltas_of, AreOfPairs};
ghost use Rattle.mvo_ckpt.specs.Building.{IsBuilding, IsBuilt, IsSliceFurther};
ghost use Rattle.mvo_ckpt.specs.declared.building.Building.TheVariants.{Writes, Pairs};
ghost use Rattle.mvo_pair.specs.declared.pair.Pair.{Pair};
ghost use Rattle.mvo_places.specs.Places.{PlaceMap};

use crate::checkpoint::Checkpoint;
use crate::gaining::{Gaining, gain_next, gained, no_gains};
use crate::walking::{Walking, no_walk, take_slice};
use mvo_group::Group;
use mvo_pair::Pair;
use mvo_places::Places;
use std::alloc::{AllocError, Global};

/// How many writes a slice of a checkpoint's building is to take.
pub const SLICE_WRITES: usize = 2_048;

/// What a checkpoint writes, as far as it is built: the writes of the groups are taken from the
/// last to the first, and then the pairs get the numbers that their delta files gain, in their
/// order. The places and the pairs beside which it began stay as they are until it is built.
#[derive(Drop)]
pub enum Building {
    /// Some of the writes are taken.
    Writes(Walking),
    /// All of them, and some of the pairs have their numbers.
    Pairs(Gaining),
}

/// What a slice has come to.
#[derive(Drop)]
pub enum Built {
    /// There is more.
    More(Building),
    /// All is built.
    Ready(Checkpoint),
}

/// The next slice of the walk.
fn walk_on(
    mut walking: Walking,
    alloc: Global,
    places: &Places,
    most: usize,
) -> Result<Built, AllocError>
    ensures built { (ps : List Pair) (gs : List GroupData) →
        IsBuilding places.now.at ps gs (Writes walking) →
        IfOk result (IsBuilt places.now.at ps gs) }
    ensures on { (ps : List Pair) → IfOk result (IsSliceFurther ps (most + 2) (Writes walking)) }
{
    let more = match take_slice(&mut walking, places, most) {
        Ok(more) => more,
        Err(refused) => return Err(refused),
    };
    if more {
        return Ok(Built::More(Building::Writes(walking)));
    }
    let Walking {
        groups: _,
        records: _,
        newest,
    } = walking;
    Ok(Built::More(Building::Pairs(no_gains(alloc, newest))))
}

/// The numbers of the next pair, or the end.
fn gain_on(mut gaining: Gaining, alloc: Global, pairs: &[Pair]) -> Result<Built, AllocError>
    ensures built { (at : PlaceMap) (gs : List GroupData) →
        IsBuilding at pairs.now gs (Pairs gaining) → IfOk result (IsBuilt at pairs.now gs) }
    ensures on { (most : ℕ) → 1 ≤ most →
        IfOk result (IsSliceFurther pairs.now most (Pairs gaining)) }
{
    if gaining.done >= pairs.len() {
        return Ok(Built::Ready(gained(gaining)));
    }
    match gain_next(&mut gaining, alloc, pairs) {
        Ok(()) => Ok(Built::More(Building::Pairs(gaining))),
        Err(refused) => Err(refused),
    }
}

impl Building {
    ghost use Rattle.std.specs.Prelude.{◌≡◌, ◌+◌, List, IfOk};
    ghost use Rattle.mvo_group.specs.Data.{GroupData};
    ghost use Rattle.mvo_pair.specs.declared.pair.Pair.{Pair};
    ghost use Rattle.mvo_ckpt.specs.Building.{IsBuilding, IsBuilt, IsSliceFurther};

    /// Begins a checkpoint of the groups beside places. Nothing is taken yet.
    pub fn begin(alloc: Global, places: &Places, groups: Vec<Group>) -> Building
        ensures { (ps : List Pair) → IsBuilding places.now.at ps groups.items result }
    {
        Building::Writes(no_walk(alloc, places, groups))
    }

    /// The next slice, beside the places and the pairs beside which it began: of the writes so
    /// many, by whole transactions; with the last of them the numbers of the records that they end
    /// are sorted; then the numbers of one pair; and at the end all is turned to its order. The
    /// rows are moved, not copied. Where memory is refused, all that was built is let go.
    pub fn more(
        self,
        alloc: Global,
        places: &Places,
        pairs: &[Pair],
        most: usize,
    ) -> Result<Built, AllocError>
        ensures built { (gs : List GroupData) → IsBuilding places.now.at pairs.now gs self →
            IfOk result (IsBuilt places.now.at pairs.now gs) }
        ensures on { IfOk result (IsSliceFurther pairs.now (most + 2) self) }
    {
        match self {
            Building::Writes(walking) => match walk_on(walking, alloc, places, most) {
                Ok(built) => Ok(built),
                Err(refused) => Err(refused),
            },
            Building::Pairs(gaining) => match gain_on(gaining, alloc, pairs) {
                Ok(built) => Ok(built),
                Err(refused) => Err(refused),
            },
        }
    }
}

/// What a checkpoint of the groups writes beside these pairs, where each live record of theirs has
/// its place: the rows that the groups leave, and for each pair with a live record whose key they
/// write the numbers of those. The rows are moved, not copied. It is built by all of its slices.
///
/// Memory goes with the writes of the groups. So does the time, with one look-up of a place for
/// each key, but for the numbers of ended records: they are sorted, and each pair looks at all of
/// them. The other live records aren't looked at.
pub fn build(
    alloc: Global,
    places: &Places,
    pairs: &[Pair],
    groups: Vec<Group>,
) -> Result<Checkpoint, AllocError>
    ensures records { IfOk result (λ c. c.records ≡ records_of groups.items) }
    ensures gone { IfOk result (λ c. c.gone ≡ gone_of groups.items) }
    ensures deltas { (lives : List (List Numbered)) → ArePlaces pairs.now lives places.now.at →
        IfOk result (λ c. c.deltas ≡ deltas_of groups.items pairs.now lives) }
    ensures known { IfOk result (λ c. AreOfPairs pairs.now c.deltas) }
    ensures few { IfOk result (λ c. length c.deltas ≤ length pairs.now) }
{
    let mut building = Building::begin(alloc, places, groups);
    loop {
        let built = match building.more(alloc, places, pairs, SLICE_WRITES) {
            Ok(built) => built,
            Err(refused) => return Err(refused),
        };
        building = match built {
            Built::More(next) => next,
            Built::Ready(checkpoint) => return Ok(checkpoint),
        };
    }
}
