//! Places of keys that were there at an opening.
use crate::equal::{holds, holds_at, same, same_at};
use crate::files::ckpt::making::row;
use mvo_pair::DataRecord;
use mvo_places::{Falling, Places, RecordPlace};
use mvo_types::{RowKey, Stamp};
use std::alloc::{AllocError, Global};
use std::process::Abort;
use std::test::Fail;

const LAST: RecordPlace = RecordPlace {
    data_file: 1_023,
    number: 4_194_303,
};

/// Table, key, data file and number of each.
const OPENING: [(u8, u64, u16, u32); 5] = [
    (63, 18_446_744_073_709_551_615, 1_023, 4_194_303),
    (15, 7, 2, 5),
    (2, 1_099_511_627_776, 2, 6),
    (2, 9, 4, 0),
    (0, 0, 0, 4_194_303),
];

/// Tables and keys between those and beyond them.
const OTHERS: [(u8, u64); 11] = [
    (63, 18_446_744_073_709_551_614),
    (15, 8),
    (15, 6),
    (14, 7),
    (2, 10),
    (2, 8),
    (2, 0),
    (1, 0),
    (0, 1),
    (16, 7),
    (15, 18_446_744_073_709_551_615),
];

fn opening(rt: &impl Abort, alloc: Global) -> Result<Places, Fail> {
    let mut falling = Falling::with_room(alloc, 5)?;
    for (table, key, data_file, number) in OPENING {
        holds(rt, data_file <= 1_023);
        holds(rt, number < 4_194_304);
        let pushed = falling.push(RowKey { table, key }, RecordPlace { data_file, number })?;
        holds(rt, pushed);
    }
    Ok(Places::of_falling(alloc, 3, falling))
}

/// These keys have no place.
fn have_none(rt: &impl Abort, places: &Places, keys: &[(u8, u64)]) {
    for (at, one) in keys.iter().enumerate() {
        let key = RowKey {
            table: one.0,
            key: one.1,
        };
        same_at(rt, at, &places.get(key), &None);
        same_at(rt, at, &places.number(key), &None);
    }
}

/// These keys have the places that they had at the opening.
fn have_theirs(rt: &impl Abort, places: &Places, keys: &[(u8, u64, u16, u32)]) {
    for (at, one) in keys.iter().enumerate() {
        let key = RowKey {
            table: one.0,
            key: one.1,
        };
        let place = RecordPlace {
            data_file: one.2,
            number: one.3,
        };
        same_at(rt, at, &places.get(key), &Some(place));
    }
}

#[test]
fn keys_of_an_opening_are_found(rt: HostRuntime) -> Result<(), Fail> {
    let places = opening(&rt, rt.alloc())?;
    same(&rt, &places.seed(), &3);
    have_theirs(&rt, &places, &OPENING);
    have_none(&rt, &places, &OTHERS);
    let number = places.number(RowKey { table: 2, key: 9 });
    same(&rt, &number, &Some(16_777_216));
    Ok(())
}

/// Another place, none, and one again. The last of all numbers is a number like another.
fn change(rt: &impl Abort, places: &mut Places, key: RowKey) -> Result<(), Fail> {
    places.put(key, LAST)?;
    same(rt, &places.get(key), &Some(LAST));
    same(rt, &places.number(key), &Some(4_294_967_295));
    places.remove(key);
    same(rt, &places.get(key), &None);
    places.remove(key);
    same(rt, &places.get(key), &None);
    let place = RecordPlace {
        data_file: 6,
        number: 1,
    };
    places.put(key, place)?;
    same(rt, &places.get(key), &Some(place));
    Ok(())
}

#[test]
fn keys_of_an_opening_change_their_places(rt: HostRuntime) -> Result<(), Fail> {
    let mut places = opening(&rt, rt.alloc())?;
    change(&rt, &mut places, RowKey { table: 2, key: 9 })?;
    have_theirs(&rt, &places, &OPENING[..3]);
    have_theirs(&rt, &places, &OPENING[4..]);
    have_none(&rt, &places, &OTHERS);
    Ok(())
}

/// The last table of files of version 1, the one behind it, and the last of all.
#[test]
fn keys_of_each_table_change_their_places(rt: HostRuntime) -> Result<(), Fail> {
    let mut places = opening(&rt, rt.alloc())?;
    places.reserve(4)?;
    for table in [0, 15, 16, 63] {
        change(&rt, &mut places, RowKey { table, key: 11 })?;
    }
    have_theirs(&rt, &places, &OPENING);
    have_none(&rt, &places, &OTHERS);
    Ok(())
}

#[test]
fn keys_come_beside_those_of_an_opening(rt: HostRuntime) -> Result<(), Fail> {
    let mut places = opening(&rt, rt.alloc())?;
    places.reserve(1)?;
    change(&rt, &mut places, RowKey { table: 2, key: 10 })?;
    have_theirs(&rt, &places, &OPENING);
    have_none(&rt, &places, &OTHERS[..4]);
    have_none(&rt, &places, &OTHERS[5..]);
    Ok(())
}

/// Records of the keys 0 and 9 of table 0.
fn two_records(alloc: Global) -> Result<Vec<DataRecord>, AllocError> {
    let mut records = Vec::new(alloc);
    for key in [0, 9] {
        records.push(DataRecord {
            begin: Stamp(4),
            row: row(alloc, key, 0, 0)?,
        })?;
    }
    Ok(records)
}

fn takes_over(rt: &impl Abort, places: &mut Places, records: &[DataRecord]) -> Result<(), Fail> {
    let gone = [RowKey { table: 2, key: 9 }, RowKey { table: 2, key: 10 }];
    holds(rt, records.len() < 3);
    places.reserve(records.len())?;
    places.take_over(6, records, &gone);
    let at = |number| {
        Some(RecordPlace {
            data_file: 6,
            number,
        })
    };
    same(rt, &places.get(RowKey { table: 0, key: 0 }), &at(0));
    same(rt, &places.get(RowKey { table: 0, key: 9 }), &at(1));
    have_theirs(rt, places, &OPENING[..3]);
    have_none(rt, places, &[(2, 9), (2, 10)]);
    Ok(())
}

#[test]
fn a_checkpoint_is_taken_over_an_opening(rt: HostRuntime) -> Result<(), Fail> {
    let alloc = rt.alloc();
    let mut places = opening(&rt, alloc)?;
    let records = two_records(alloc)?;
    takes_over(&rt, &mut places, &records)
}

/// Table and key, and whether it may stand behind those before it.
const PUSHED: [(u8, u64, bool); 9] = [
    (64, 0, false),
    (63, 7, true),
    (63, 7, false),
    (63, 8, false),
    (63, 6, true),
    (3, 100, true),
    (4, 0, false),
    (3, 99, true),
    (3, 99, false),
];

#[test]
fn only_keys_that_fall_are_taken(rt: HostRuntime) -> Result<(), Fail> {
    let alloc = rt.alloc();
    let mut falling = Falling::with_room(alloc, 0)?;
    for (at, one) in PUSHED.iter().enumerate() {
        let key = RowKey {
            table: one.0,
            key: one.1,
        };
        let place = RecordPlace {
            data_file: 1,
            number: 2,
        };
        holds_at(&rt, at, falling.push(key, place)? == one.2);
    }
    let places = Places::of_falling(alloc, 3, falling);
    have_theirs(
        &rt,
        &places,
        &[(63, 7, 1, 2), (63, 6, 1, 2), (3, 100, 1, 2), (3, 99, 1, 2)],
    );
    have_none(&rt, &places, &[(64, 0), (63, 8), (4, 0)]);
    Ok(())
}
