use crate::equal::{holds, same};
use crate::files::changes::changed;
use mvo_format::{FIRST_FORMAT, Format};
use mvo_group::{Group, Record, Write};
use mvo_types::{Row, RowKey, Stamp};
use std::alloc::Global;
use std::process::Abort;
use std::test::Fail;

/// The group (0, 1] without records.
const EMPTY: [u8; 18] = [0, 0, 0, 0, 0, 0, 0, 0, 1, 0, 0, 0, 0, 0, 0, 0, 0, 0];

/// The group (0, 2] with one record, end 2, of one put of (0, 5), sort 50, data 61.
const ONE_PUT: [u8; 49] = [
    0, 0, 0, 0, 0, 0, 0, 0, 2, 0, 0, 0, 0, 0, 0, 0, 1, 0, 2, 0, 0, 0, 0, 0, 0, 0, 1, 0, 1, 0, 5, 0,
    0, 0, 0, 0, 0, 0, 0x32, 0, 0, 0, 0, 0, 0, 0, 1, 0, 0x61,
];

/// The group (0, 2] with one record, end 2, of one delete of (0, 7).
const ONE_DELETE: [u8; 38] = [
    0, 0, 0, 0, 0, 0, 0, 0, 2, 0, 0, 0, 0, 0, 0, 0, 1, 0, 2, 0, 0, 0, 0, 0, 0, 0, 1, 0, 2, 0, 7, 0,
    0, 0, 0, 0, 0, 0,
];

/// The group (0, 2] of one record, end 2, with one write.
fn of_one(alloc: Global, write: Write) -> Result<Group, Fail> {
    let mut writes = Vec::new(alloc);
    writes.push(write)?;
    let mut records = Vec::new(alloc);
    records.push(Record {
        end: Stamp(2),
        writes,
    })?;
    Ok(Group::new(Stamp(0), Stamp(2), records).ok_or("a group")?)
}

/// The group (0, 2] of the put of ONE_PUT.
fn of_put(alloc: Global) -> Result<Group, Fail> {
    let row = Row::new(RowKey { table: 0, key: 5 }, 50, [0x61].to_vec(alloc)?)?;
    of_one(alloc, Write::Put(row))
}

/// The group is encoded as these bytes.
fn is_encoded(rt: &impl Abort, group: &Group, bytes: &[u8]) -> Result<(), Fail> {
    same(rt, &group.encode()?.as_slice(), &bytes);
    same(rt, &group.encoded_len(), &bytes.len());
    Ok(())
}

/// Both groups, one behind the other, are so long.
fn both_are_long(rt: &impl Abort, first: &Group, second: &Group, len: usize) -> Result<(), Fail> {
    let mut both = first.encode()?;
    second.encode_into(&mut both)?;
    same(rt, &both.len(), &len);
    Ok(())
}

fn are_written(rt: &impl Abort, empty: &Group, put: &Group, delete: &Group) -> Result<(), Fail> {
    is_encoded(rt, empty, &EMPTY)?;
    is_encoded(rt, put, &ONE_PUT)?;
    same(rt, &put.encoded_len(), &49);
    is_encoded(rt, delete, &ONE_DELETE)?;
    same(rt, &delete.encoded_len(), &38);
    both_are_long(rt, put, delete, 87)
}

#[test]
fn the_vectors_are_written(rt: HostRuntime) -> Result<(), Fail> {
    let alloc = rt.alloc();
    let empty = Group::new(Stamp(0), Stamp(1), Vec::new(alloc)).ok_or("a group")?;
    let put = of_put(alloc)?;
    let delete = of_one(alloc, Write::Delete(RowKey { table: 0, key: 7 }))?;
    are_written(&rt, &empty, &put, &delete)
}

fn read(alloc: Global, vector: &[u8]) -> Result<Group, Fail> {
    Ok(Group::decode(alloc, FIRST_FORMAT, vector)?.ok_or("a group")?)
}

fn is_empty(rt: &impl Abort, group: &Group) {
    same(rt, &(group.prev(), group.mark()), &(Stamp(0), Stamp(1)));
    same(rt, &group.records().len(), &0);
}

fn is_of_put(rt: &impl Abort, group: &Group) -> Result<(), Fail> {
    same(rt, &(group.prev(), group.mark()), &(Stamp(0), Stamp(2)));
    let first = group.records().first().ok_or("a record")?;
    same(rt, &first.end, &Stamp(2));
    let write = first.writes.first().ok_or("a write")?;
    same(rt, &write.key(), &RowKey { table: 0, key: 5 });
    Ok(())
}

#[test]
fn the_vectors_are_read(rt: HostRuntime) -> Result<(), Fail> {
    let alloc = rt.alloc();
    is_empty(&rt, &read(alloc, &EMPTY)?);
    is_of_put(&rt, &read(alloc, &ONE_PUT)?)?;
    let records = read(alloc, &ONE_DELETE)?.into_records();
    same(&rt, &records.len(), &1);
    Ok(())
}

// Whether the put, of one byte in table 0, is read where a version allows so many bytes of data.
fn is_read(alloc: Global, max_data_len: u16) -> Result<bool, Fail> {
    let format = Format {
        version: 1,
        max_table: 0,
        max_data_len,
    };
    Ok(Group::decode(alloc, format, &ONE_PUT)?.is_some())
}

#[test]
fn the_limits_are_those_of_the_version(rt: HostRuntime) -> Result<(), Fail> {
    holds(&rt, is_read(rt.alloc(), 1)?);
    holds(&rt, !is_read(rt.alloc(), 0)?);
    Ok(())
}

/// Whether the bytes are a group, which must be encoded as exactly these.
fn is_group(rt: &impl Abort, alloc: Global, bytes: &[u8]) -> Result<bool, Fail> {
    let Some(group) = Group::decode(alloc, FIRST_FORMAT, bytes)? else {
        return Ok(false);
    };
    same(rt, &group.encode()?.as_slice(), &bytes);
    Ok(true)
}

/// Whether the vector with such a change is a group.
fn stays_group(
    rt: &impl Abort,
    alloc: Global,
    vector: &[u8],
    at: usize,
    change: u8,
) -> Result<bool, Fail> {
    is_group(rt, alloc, &changed(alloc, vector, at, change)?)
}

/// Cuts a vector at each length, which leaves no group. Puts each other value at each byte, which
/// leaves a group in so many cases, and then one that encodes to exactly those bytes.
fn is_one_spelling(
    rt: &impl Abort,
    alloc: Global,
    vector: &[u8],
    groups: usize,
) -> Result<(), Fail> {
    for len in 0..vector.len() {
        holds(
            rt,
            Group::decode(alloc, FIRST_FORMAT, &vector[..len])?.is_none(),
        );
    }
    let mut found = 0usize;
    for i in 0..vector.len() {
        for change in 1..=255 {
            if stays_group(rt, alloc, vector, i, change)? {
                found = found.wrapping_add(1);
            }
        }
    }
    same(rt, &found, &groups);
    Ok(())
}

// A mark of 2 to 255, one with another byte set, or one of at most 63 * 2^56 + 1.
#[test]
fn the_empty_group_has_one_spelling(rt: HostRuntime) -> Result<(), Fail> {
    is_one_spelling(&rt, rt.alloc(), &EMPTY, 254 + 6 * 255 + 63)
}

// Prev 1; a greater mark; end 1; tables 1 to 15; other keys, sorts and data.
#[test]
fn a_put_has_one_spelling(rt: HostRuntime) -> Result<(), Fail> {
    let marks = 253 + 6 * 255 + 63;
    is_one_spelling(
        &rt,
        rt.alloc(),
        &ONE_PUT,
        1 + marks + 1 + 15 + 8 * 255 + 8 * 255 + 255,
    )
}

// Prev 1; a greater mark; end 1; tables 1 to 15; other keys.
#[test]
fn a_delete_has_one_spelling(rt: HostRuntime) -> Result<(), Fail> {
    let marks = 253 + 6 * 255 + 63;
    is_one_spelling(&rt, rt.alloc(), &ONE_DELETE, 1 + marks + 1 + 15 + 8 * 255)
}
