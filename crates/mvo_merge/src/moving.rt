//! Brings the places of live records up to date.
ghost use Rattle.std.specs.Prelude.{◌≡◌, ◌<◌, ◌≤◌, length, take};
ghost use Rattle.std.specs.FinMap.{get};
ghost use Rattle.mvo_places.specs.Places.{PlaceMap};
ghost use Rattle.mvo_merge.specs.Moved.{HaveOwnKeys, lies_in, with_one, moved};

use mvo_pair::DataRecord;
use mvo_places::{Places, RecordPlace};
use mvo_types::{MAX_FILE, MAX_PAIR_RECORDS, RowKey};

/// Whether the key has its place in one of the two data files.
fn lies_in(places: &Places, left: u16, right: u16, key: RowKey) -> bool
    ensures { result ≡ lies_in left right (get places.now.at key) }
{
    match places.get(key) {
        Some(place) => place.data_file == left || place.data_file == right,
        None => false,
    }
}

/// Gives the key another place, where it has its place in one of the two data files.
fn move_place(places: &mut Places, left: u16, right: u16, key: RowKey, place: RecordPlace)
    requires file { place.data_file ≤ MAX_FILE }
    requires number { place.number < MAX_PAIR_RECORDS }
    ensures moved { places.new.at ≡ with_one left right key place places.old.at }
    ensures room { places.new.room ≡ places.old.room }
{
    if lies_in(places, left, right, key) {
        let Ok(()) = places.put(key, place) else {
            unreachable!()
        };
    }
}

/// Brings what a merge makes of the places from its first so many records to the first so many
/// more: the records of the merged pair whose keys have their places in the left or the right
/// pair's data file lie in this one, each at its own number. A key whose record came to a delta
/// meanwhile has its place elsewhere, or none, and keeps it.
///
/// So it is where each record has a key of its own. It takes no memory and no room, and the time of
/// two look-ups a record.
pub fn move_places_upto(
    places: &mut Places,
    left: u16,
    right: u16,
    data_file: u16,
    records: &[DataRecord],
    from: usize,
    upto: usize,
)
    requires file { data_file ≤ MAX_FILE }
    requires few { length records.now ≤ MAX_PAIR_RECORDS }
    requires order { from ≤ upto }
    requires among { upto ≤ length records.now }
    ensures moved { HaveOwnKeys records.now → (at : PlaceMap) →
        places.old.at ≡ moved left right data_file (take from records.now) at →
        places.new.at ≡ moved left right data_file (take upto records.now) at }
    ensures room { places.new.room ≡ places.old.room }
{
    for number in from..upto {
        let entry = &records[number];
        let place = RecordPlace {
            data_file,
            number: number as u32,
        };
        move_place(places, left, right, entry.row.key, place);
    }
}

/// The same of all its records.
pub fn move_places(
    places: &mut Places,
    left: u16,
    right: u16,
    data_file: u16,
    records: &[DataRecord],
)
    requires file { data_file ≤ MAX_FILE }
    requires few { length records.now ≤ MAX_PAIR_RECORDS }
    ensures moved { HaveOwnKeys records.now →
        places.new.at ≡ moved left right data_file records.now places.old.at }
    ensures room { places.new.room ≡ places.old.room }
{
    move_places_upto(places, left, right, data_file, records, 0, records.len());
}
