//! The calls that are tested, each where it may be made.
use crate::files::merge::making::{have_own_keys, key_of, rises};
use mvo_merge::{Merged, build, move_places, move_places_upto};
use mvo_pair::{DataRecord, Live};
use mvo_places::{Places, RecordPlace};
use std::alloc::Global;
use std::test::Fail;

/// What a merge makes of a few live records with rising numbers.
pub fn built(alloc: Global, left: Vec<Live>, right: Vec<Live>) -> Result<Merged, Fail> {
    if left.len() > 99 || right.len() > 99 || !rises(&left) || !rises(&right) {
        return Err(Fail::from("a few rising numbers"));
    }
    Ok(build(alloc, left, right)?)
}

/// The delta entries for these late numbers.
pub fn renumbered(
    alloc: Global,
    merged: &Merged,
    left: &[u32],
    right: &[u32],
) -> Result<Vec<u32>, Fail> {
    Ok(merged.renumbering.renumber(alloc, left, right)?)
}

/// The key gets a place.
pub fn put(places: &mut Places, key: u64, data_file: u16, number: u32) -> Result<(), Fail> {
    if data_file > 15 || number > 99 {
        return Err(Fail::from("a place"));
    }
    Ok(places.put(key_of(key), RecordPlace { data_file, number })?)
}

/// Where the key has its place.
pub fn place_of(places: &Places, key: u64) -> Option<(u16, usize)> {
    let place = places.get(key_of(key))?;
    Some((place.data_file, place.number as usize))
}

/// The records of a merge of the pairs with data files 2 and 4 lie in this file.
pub fn moved(places: &mut Places, data_file: u16, records: &[DataRecord]) -> Result<(), Fail> {
    if data_file > 15 || records.len() > 199 || !have_own_keys(records) {
        return Err(Fail::from("a few records with keys of their own"));
    }
    move_places(places, 2, 4, data_file, records);
    Ok(())
}

/// The same in two parts.
pub fn moved_in_parts(
    places: &mut Places,
    data_file: u16,
    records: &[DataRecord],
    first: usize,
) -> Result<(), Fail> {
    if data_file > 15 || records.len() > 199 || first > records.len() || !have_own_keys(records) {
        return Err(Fail::from("a few records with keys of their own"));
    }
    move_places_upto(places, 2, 4, data_file, records, 0, first);
    move_places_upto(places, 2, 4, data_file, records, first, records.len());
    Ok(())
}
