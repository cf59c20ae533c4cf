//! The checkpoints of one row that is put, updated and deleted.
use crate::equal::{holds, same};
use crate::files::ckpt::making::{group_of_one, pair, row, table_of};
use mvo_ckpt::{Checkpoint, build};
use mvo_group::{Group, Write};
use mvo_pair::Pair;
use mvo_places::RecordPlace;
use mvo_types::RowKey;
use std::alloc::Global;
use std::process::Abort;
use std::test::Fail;

const KEY: RowKey = RowKey { table: 0, key: 5 };

/// The group (prev, mark] of a put of the key, with this byte of data.
fn put(alloc: Global, prev: u64, mark: u64, byte: u8) -> Result<Group, Fail> {
    group_of_one(alloc, prev, mark, Write::Put(row(alloc, 5, 50, byte)?))
}

/// That group alone.
fn only_put(alloc: Global, prev: u64, mark: u64, byte: u8) -> Result<Vec<Group>, Fail> {
    let mut groups = Vec::new(alloc);
    groups.push(put(alloc, prev, mark, byte)?)?;
    Ok(groups)
}

/// A put of the key, and then a delete of it.
fn put_and_delete(alloc: Global) -> Result<Vec<Group>, Fail> {
    let mut groups = only_put(alloc, 2, 4, 0x62)?;
    groups.push(group_of_one(alloc, 4, 6, Write::Delete(KEY))?)?;
    Ok(groups)
}

/// The checkpoint of these groups, where the key has its place under this number in file 4.
fn checkpoint(
    alloc: Global,
    number: u32,
    pairs: &[Pair],
    groups: Vec<Group>,
) -> Result<Checkpoint, Fail> {
    let place = RecordPlace {
        data_file: 4,
        number,
    };
    let places = table_of(alloc, &[(KEY, place)])?;
    Ok(build(alloc, &places, pairs, groups)?)
}

/// The only record is a put of the key with this begin and this byte of data.
fn has_put(
    rt: &impl Abort,
    alloc: Global,
    made: &Checkpoint,
    begin: u64,
    byte: u8,
) -> Result<(), Fail> {
    let [record] = made.records.as_slice() else {
        return Err(Fail::from("one record"));
    };
    same(rt, &record.begin.0, &begin);
    holds(rt, record.row.same(&row(alloc, 5, 50, byte)?));
    Ok(())
}

/// The only delta names this number of file 4.
fn ends(rt: &impl Abort, made: &Checkpoint, number: u32) {
    match made.deltas.as_slice() {
        [delta] => {
            same(rt, &delta.data_file, &4);
            same(rt, &delta.numbers.as_slice(), &[number].as_slice());
        }
        _ => holds(rt, false),
    }
}

#[test]
fn a_put_is_a_record(rt: HostRuntime) -> Result<(), Fail> {
    let alloc = rt.alloc();
    let made = build(
        alloc,
        &table_of(alloc, &[])?,
        &[],
        only_put(alloc, 0, 2, 0x61)?,
    )?;
    same(&rt, &made.gone.len(), &0);
    same(&rt, &made.deltas.len(), &0);
    has_put(&rt, alloc, &made, 2, 0x61)
}

#[test]
fn an_update_ends_the_record_of_the_older_pair(rt: HostRuntime) -> Result<(), Fail> {
    let alloc = rt.alloc();
    let made = checkpoint(alloc, 0, &[pair(4)], only_put(alloc, 2, 4, 0x62)?)?;
    ends(&rt, &made, 0);
    has_put(&rt, alloc, &made, 4, 0x62)
}

#[test]
fn a_delete_leaves_no_record(rt: HostRuntime) -> Result<(), Fail> {
    let alloc = rt.alloc();
    let made = checkpoint(alloc, 9, &[pair(6), pair(4)], put_and_delete(alloc)?)?;
    same(&rt, &made.records.len(), &0);
    same(&rt, &made.gone.as_slice(), &[KEY].as_slice());
    ends(&rt, &made, 9);
    Ok(())
}
