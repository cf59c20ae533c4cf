//! Places after a merge.
use crate::equal::same_at;
use crate::files::merge::calls::{moved, moved_in_parts, place_of, put};
use crate::files::merge::vectors::two_and_two;
use mvo_pair::DataRecord;
use mvo_places::Places;
use std::alloc::Global;
use std::process::Abort;
use std::test::Fail;

// A later pair has key 9 again, and key 2 was deleted, since the records were read.
const BEFORE: [(u64, u16, u32); 4] = [(7, 2, 1), (9, 8, 0), (1, 4, 0), (6, 6, 1)];

const AFTER: [(u64, Option<(u16, usize)>); 5] = [
    (7, Some((10, 0))),
    (9, Some((8, 0))),
    (1, Some((10, 2))),
    (2, None),
    (6, Some((6, 1))),
];

fn before(alloc: Global) -> Result<Places, Fail> {
    let mut places = Places::new(alloc, 3);
    for (key, data_file, number) in BEFORE {
        put(&mut places, key, data_file, number)?;
    }
    Ok(places)
}

fn have(rt: &impl Abort, places: &Places, wanted: &[(u64, Option<(u16, usize)>)]) {
    for (at, (key, place)) in wanted.iter().enumerate() {
        same_at(rt, at, &place_of(places, *key), place);
    }
}

// The places go over to these records, and are those of AFTER then.
fn moves(rt: &impl Abort, places: &mut Places, records: &[DataRecord]) -> Result<(), Fail> {
    moved(places, 10, records)?;
    have(rt, places, &AFTER);
    Ok(())
}

// So they are where the first record goes before the others.
#[test]
fn places_are_moved_in_parts(rt: HostRuntime) -> Result<(), Fail> {
    let merged = two_and_two(rt.alloc())?;
    let mut places = before(rt.alloc())?;
    moved_in_parts(&mut places, 10, &merged.records, 1)?;
    have(&rt, &places, &AFTER);
    Ok(())
}

#[test]
fn places_are_moved(rt: HostRuntime) -> Result<(), Fail> {
    let merged = two_and_two(rt.alloc())?;
    let mut places = before(rt.alloc())?;
    moves(&rt, &mut places, &merged.records)
}
