//! Places by key.
use crate::equal::{holds, same};
use crate::files::ckpt::making::row;
use mvo_pair::{DataRecord, Live};
use mvo_places::{Places, RecordPlace};
use mvo_types::{RowKey, Stamp};
use std::alloc::{AllocError, Global};
use std::process::Abort;
use std::test::Fail;

const LAST: RecordPlace = RecordPlace {
    data_file: 1_023,
    number: 4_194_303,
};

fn puts_and_removes(rt: &impl Abort, places: &mut Places) -> Result<(), Fail> {
    let key = RowKey {
        table: 15,
        key: u64::MAX,
    };
    let other = RowKey { table: 0, key: 0 };
    let first = RecordPlace {
        data_file: 2,
        number: 0,
    };
    same(rt, &places.get(key), &None);
    places.reserve(2)?;
    places.put(key, LAST)?;
    places.put(other, first)?;
    same(rt, &places.get(key), &Some(LAST));
    same(rt, &places.get(other), &Some(first));
    same(rt, &places.number(key), &Some(4_294_967_295));
    same(rt, &places.number(other), &Some(8_388_608));
    places.put(key, first)?;
    same(rt, &places.get(key), &Some(first));
    places.remove(key);
    same(rt, &places.get(key), &None);
    same(rt, &places.get(other), &Some(first));
    Ok(())
}

#[test]
fn places_are_put_and_removed(rt: HostRuntime) -> Result<(), Fail> {
    let mut places = Places::new(rt.alloc(), 3);
    same(&rt, &places.seed(), &3);
    puts_and_removes(&rt, &mut places)
}

/// A record of this begin, and of a row with this key.
fn entry(alloc: Global, begin: u64, key: u64) -> Result<DataRecord, AllocError> {
    let row = row(alloc, key, 0, 0)?;
    let begin = Stamp(begin);
    Ok(DataRecord { begin, row })
}

/// Live records of the keys from 100 on, under each third number.
fn forty_live(alloc: Global) -> Result<Vec<Live>, AllocError> {
    let mut live = Vec::new(alloc);
    for number in 0u32..40 {
        let entry = entry(alloc, 2, u64::from(number) + 100)?;
        live.push(Live {
            number: number * 3,
            entry,
        })?;
    }
    Ok(live)
}

/// The places get those of these records, and have each one then.
fn gains_forty(rt: &impl Abort, places: &mut Places, live: &[Live]) -> Result<(), Fail> {
    holds(rt, live.iter().all(|l| l.number < 4_194_304));
    places.add_pair(6, live)?;
    for number in 0u32..40 {
        let key = RowKey {
            table: 0,
            key: u64::from(number) + 100,
        };
        same(
            rt,
            &places.get(key),
            &Some(RecordPlace {
                data_file: 6,
                number: number * 3,
            }),
        );
    }
    same(rt, &places.get(RowKey { table: 0, key: 99 }), &None);
    Ok(())
}

#[test]
fn live_records_have_their_places(rt: HostRuntime) -> Result<(), Fail> {
    let alloc = rt.alloc();
    let mut places = Places::new(alloc, 3);
    let live = forty_live(alloc)?;
    gains_forty(&rt, &mut places, &live)
}

/// The keys 0, 1 and 2 get their places in file 2.
fn put_three(places: &mut Places) -> Result<(), AllocError> {
    for number in 0u32..3 {
        let place = RecordPlace {
            data_file: 2,
            number,
        };
        places.put(key_of(u64::from(number)), place)?;
    }
    Ok(())
}

/// Records of the keys 1 and 9.
fn two_records(alloc: Global) -> Result<Vec<DataRecord>, AllocError> {
    let mut records = Vec::new(alloc);
    for key in [1, 9] {
        records.push(entry(alloc, 4, key)?)?;
    }
    Ok(records)
}

fn takes_over(rt: &impl Abort, places: &mut Places, records: &[DataRecord]) -> Result<(), Fail> {
    put_three(places)?;
    holds(rt, records.len() < 3);
    places.reserve(records.len())?;
    places.take_over(6, records, &[key_of(0), key_of(7)]);
    let at = |data_file, number| Some(RecordPlace { data_file, number });
    same(rt, &places.get(key_of(0)), &None);
    same(rt, &places.get(key_of(1)), &at(6, 0));
    same(rt, &places.get(key_of(2)), &at(2, 2));
    same(rt, &places.get(key_of(7)), &None);
    same(rt, &places.get(key_of(9)), &at(6, 1));
    Ok(())
}

/// The same in two parts: the keys and the first record, and then the second one.
fn takes_over_in_parts(
    rt: &impl Abort,
    places: &mut Places,
    records: &[DataRecord],
) -> Result<(), Fail> {
    put_three(places)?;
    holds(rt, records.len() < 3);
    places.reserve(records.len())?;
    places.take_over_upto(6, records, &[key_of(0), key_of(7)], 0, 3);
    let at = |data_file, number| Some(RecordPlace { data_file, number });
    same(rt, &places.get(key_of(0)), &None);
    same(rt, &places.get(key_of(1)), &at(6, 0));
    same(rt, &places.get(key_of(9)), &None);
    places.take_over_upto(6, records, &[key_of(0), key_of(7)], 3, 4);
    same(rt, &places.get(key_of(1)), &at(6, 0));
    same(rt, &places.get(key_of(9)), &at(6, 1));
    Ok(())
}

#[test]
fn a_checkpoint_is_taken_over_in_parts(rt: HostRuntime) -> Result<(), Fail> {
    let alloc = rt.alloc();
    let mut places = Places::new(alloc, 3);
    let records = two_records(alloc)?;
    takes_over_in_parts(&rt, &mut places, &records)
}

#[test]
fn a_checkpoint_is_taken_over(rt: HostRuntime) -> Result<(), Fail> {
    let alloc = rt.alloc();
    let mut places = Places::new(alloc, 3);
    let records = two_records(alloc)?;
    takes_over(&rt, &mut places, &records)
}

fn key_of(key: u64) -> RowKey {
    RowKey { table: 0, key }
}
