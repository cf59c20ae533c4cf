//! Makes rows, groups, pairs and places.
use mvo_group::{Group, Record, Write};
use mvo_pair::Pair;
use mvo_places::{Places, RecordPlace};
use mvo_types::{Row, RowKey, Stamp};
use std::alloc::{AllocError, Global};
use std::test::Fail;

/// A row of table 0 with one byte of data.
pub fn row(alloc: Global, key: u64, sort: u64, byte: u8) -> Result<Row, AllocError> {
    Row::new(RowKey { table: 0, key }, sort, vec![in alloc; byte]?)
}

/// The write of a transaction that writes nothing else.
pub fn commit(alloc: Global, end: u64, write: Write) -> Result<Record, AllocError> {
    Ok(Record {
        end: Stamp(end),
        writes: vec![in alloc; write]?,
    })
}

/// The group (prev, mark] of these transactions.
pub fn group(prev: u64, mark: u64, records: Vec<Record>) -> Result<Group, Fail> {
    Ok(Group::new(Stamp(prev), Stamp(mark), records).ok_or("a group")?)
}

/// The group (prev, mark] of one transaction that ends at the mark, with one write.
pub fn group_of_one(alloc: Global, prev: u64, mark: u64, write: Write) -> Result<Group, Fail> {
    let mut records = Vec::new(alloc);
    records.push(commit(alloc, mark, write)?)?;
    group(prev, mark, records)
}

/// A pair with this data file. Nothing else of it is looked at.
pub fn pair(data_file: u16) -> Pair {
    Pair {
        data_file,
        delta_file: 0,
        lo: Stamp(0),
        hi: Stamp(0),
        records: 0,
        entries: 0,
    }
}

/// The same places in a table.
pub fn table_of(alloc: Global, list: &[(RowKey, RecordPlace)]) -> Result<Places, AllocError> {
    let mut places = Places::new(alloc, 7);
    for entry in list {
        let place = RecordPlace {
            data_file: entry.1.data_file % 1_024,
            number: entry.1.number % 4_194_304,
        };
        places.put(entry.0, place)?;
    }
    Ok(places)
}
