ghost use Rattle.std.specs.Prelude.{◌≡◌, ◌<◌, ◌≤◌, ◌+◌, ◌-◌, length, take, All, OnOk, OnErr, IfOk, IsSome, None};
ghost use Rattle.std.specs.Option.{option_map};
ghost use Rattle.std.specs.List.{enumerate_from};
ghost use Rattle.std.specs.FinMap as map;
ghost use Rattle.mvo_places.specs.Places.{no_places, number_of, AreSmall, with_live};
ghost use Rattle.mvo_places.specs.Places.{PlaceMap, without_keys, taken_places, taken_upto};
ghost use Rattle.mvo_places.specs.Falling.{HaveDistinctKeys};

use crate::falling::Falling;
use crate::fixed_keys::FixedKeys;
use crate::record_place::RecordPlace;
use mvo_hash::OpenTable;
use mvo_pair::{DataRecord, Live};
use mvo_types::{MAX_FILE, MAX_PAIR_RECORDS, RowKey};
use std::alloc::{AllocError, Global};
use std::marker::Model;

/// The place of the live record of each key. Contracts see a finite map, and the room: how many
/// more keys can be put before every key is moved to a larger table.
///
/// The keys that `of_falling` was given take 13 bytes each for good, whether they are removed or
/// not, and no room where they are put again. Each other key has a slot of 16 bytes in an open
/// table of which at most two thirds are used: 24 bytes a key or more. A search takes as many steps
/// as the count of the former keys has bits, and then those in the open table.
pub struct Places {
    fixed: FixedKeys,
    heads: OpenTable,
    seed: u64,
}

impl Drop for Places {
    fn drop(self) {
        let Places {
            fixed: _,
            heads: _,
            seed: _,
        } = self;
    }
}

impl Model for Places {
    ghost use Rattle.mvo_places.specs.Places.{PlaceTable, coded_place_table};

    ghost Value = { PlaceTable };

    ghost coded = { coded_place_table };

    ghost use Rattle.mvo_places.specs.Fixed.{table_over};

    ghost view = { λ t. table_over t.fixed t.heads };
}

impl Places {
    /// No places, and no room. It takes no memory. The seed is one that who chooses the keys can't
    /// know.
    pub fn new(alloc: Global, seed: u64) -> Places
        ensures { result ≡ no_places }
    {
        Places {
            fixed: FixedKeys::new(alloc),
            heads: OpenTable::new(alloc, seed),
            seed,
        }
    }

    /// The places of these keys, and no room for more. It takes no memory.
    pub fn of_falling(alloc: Global, seed: u64, falling: Falling) -> Places
        ensures at { result.at ≡ map.from_entries falling }
        ensures room { result.room ≡ 0 }
        ensures apart { HaveDistinctKeys falling }
    {
        Places {
            fixed: falling.into_fixed(),
            heads: OpenTable::new(alloc, seed),
            seed,
        }
    }

    /// The seed that it was made with.
    pub fn seed(&self) -> u64
        ensures { AreSmall self.now.at }
    {
        self.seed
    }

    /// Makes room for so many more keys, so that no key is moved while they are put.
    pub fn reserve(&mut self, keys: usize) -> Result<(), AllocError>
        ensures same { self.new.at ≡ self.old.at }
        ensures ok { OnOk result (keys ≤ self.new.room) }
        ensures more { self.old.room ≤ self.new.room }
        ensures err { OnErr result (self.new ≡ self.old) }
        ensures short { OnErr result (self.old.room < keys) }
    {
        self.heads.reserve(keys)
    }

    /// The place of a key, as one number.
    pub fn number(&self, key: RowKey) -> Option<u32>
        ensures number { result ≡ option_map number_of (map.get self.now.at key) }
        ensures small { AreSmall self.now.at }
    {
        match self.fixed.get(key) {
            Some(number) => number,
            None => self.heads.get(key),
        }
    }

    /// The place of a key.
    pub fn get(&self, key: RowKey) -> Option<RecordPlace>
        ensures place { result ≡ map.get self.now.at key }
        ensures small { AreSmall self.now.at }
    {
        match self.number(key) {
            Some(number) => Some(RecordPlace {
                data_file: (number / MAX_PAIR_RECORDS) as u16,
                number: number % MAX_PAIR_RECORDS,
            }),
            None => None,
        }
    }

    /// Gives the key the place. A key that is there takes no memory and no room. One that isn't
    /// takes room for one key at most; where there is none, it takes the time of moving every key.
    pub fn put(&mut self, key: RowKey, place: RecordPlace) -> Result<(), AllocError>
        requires file { place.data_file ≤ MAX_FILE }
        requires number { place.number < MAX_PAIR_RECORDS }
        ensures ok { OnOk result (self.new.at ≡ map.insert self.old.at key place) }
        ensures room { self.old.room ≤ self.new.room + 1 }
        ensures again { IsSome (map.get self.old.at key) → self.new.room ≡ self.old.room }
        ensures err { OnErr result (self.new ≡ self.old) }
        ensures absent { OnErr result (map.get self.old.at key ≡ None) }
        ensures full { OnErr result (self.old.room ≡ 0) }
    {
        let number = place.as_number();
        if self.fixed.set(key, Some(number)) {
            return Ok(());
        }
        self.heads.put(key, number)?;
        Ok(())
    }

    /// Removes the key, if it is there. It takes no memory, and gives no room back.
    pub fn remove(&mut self, key: RowKey)
        ensures gone { self.new.at ≡ map.remove self.old.at key }
        ensures room { self.new.room ≡ self.old.room }
    {
        if !self.fixed.set(key, None) {
            self.heads.remove(key);
        }
    }

    /// Puts the places of the live records of a pair. The room for them is made first. Refused, it
    /// leaves some of them there.
    pub fn add_pair(&mut self, data_file: u16, live: &[Live]) -> Result<(), AllocError>
        requires file { data_file ≤ MAX_FILE }
        requires numbers { All (λ l. l.0 < MAX_PAIR_RECORDS) live.now }
        ensures { OnOk result (self.new.at ≡ with_live data_file live.now self.old.at) }
    {
        self.reserve(live.len())?;
        for one in live {
            let number = one.number;
            self.put(one.entry.row.key, RecordPlace { data_file, number })?;
        }
        Ok(())
    }

    /// Removes keys, where they are there.
    fn remove_keys(&mut self, keys: &[RowKey])
        ensures gone { self.new.at ≡ without_keys keys.now self.old.at }
        ensures room { self.new.room ≡ self.old.room }
    {
        for key in keys {
            self.remove(*key);
        }
    }

    /// Puts the places of the records from one number up to another, each at its own number. The
    /// room for them is there.
    fn put_records(&mut self, data_file: u16, records: &[DataRecord], from: usize, upto: usize)
        requires file { data_file ≤ MAX_FILE }
        requires few { length records.now ≤ MAX_PAIR_RECORDS }
        requires order { from ≤ upto }
        requires among { upto ≤ length records.now }
        requires room { upto ≤ self.old.room + from }
        ensures put { (at : PlaceMap) →
            self.old.at ≡ with_live data_file (enumerate_from 0 (take from records.now)) at →
            self.new.at ≡ with_live data_file (enumerate_from 0 (take upto records.now)) at }
        ensures room { self.old.room + from ≤ self.new.room + upto }
    {
        for number in from..upto {
            let entry = &records[number];
            let place = RecordPlace {
                data_file,
                number: number as u32,
            };
            let Ok(()) = self.put(entry.row.key, place) else {
                unreachable!()
            };
        }
    }

    /// Brings what a checkpoint makes of the places from the first so many of its changes to the
    /// first so many more: first these keys lose their places, one after another, and then its
    /// records get theirs, each in the data file of its pair at its own number. The room for the
    /// records is there, so it takes no memory.
    pub fn take_over_upto(
        &mut self,
        data_file: u16,
        records: &[DataRecord],
        gone: &[RowKey],
        from: usize,
        upto: usize,
    )
        requires file { data_file ≤ MAX_FILE }
        requires few { length records.now ≤ MAX_PAIR_RECORDS }
        requires order { from ≤ upto }
        requires room { length records.now ≤ self.old.room + (from - length gone.now) }
        ensures taken { (at : PlaceMap) →
            self.old.at ≡ taken_upto data_file records.now gone.now from at →
            self.new.at ≡ taken_upto data_file records.now gone.now upto at }
        ensures room { length records.now ≤ self.new.room + (upto - length gone.now) }
    {
        let (keys, all) = (gone.len(), records.len());
        self.remove_keys(&gone[from.min(keys)..upto.min(keys)]);
        let first = from.saturating_sub(keys).min(all);
        let last = upto.saturating_sub(keys).min(all);
        self.put_records(data_file, records, first, last);
    }

    /// Takes over what a checkpoint makes of the places: its records lie in the data file of its
    /// pair, each at its own number, and these keys have no record. The room for the records is
    /// there, so it takes no memory.
    pub fn take_over(&mut self, data_file: u16, records: &[DataRecord], gone: &[RowKey])
        requires file { data_file ≤ MAX_FILE }
        requires few { length records.now ≤ MAX_PAIR_RECORDS }
        requires room { length records.now ≤ self.old.room }
        ensures { self.new.at ≡ taken_places data_file records.now gone.now self.old.at }
    {
        self.take_over_upto(data_file, records, gone, 0, gone.len() + records.len());
    }
}
