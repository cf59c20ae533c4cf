//! Walks writes from the last to the first, and keeps the last one of each key.
ghost use Rattle.std.specs.Prelude.{◌≡◌, OnOk, map};
ghost use Rattle.mvo_group.specs.Data.{write_data};
ghost use Rattle.mvo_ckpt.specs.Writes.{stamped};
ghost use Rattle.mvo_ckpt.specs.Walk.{walk_of, none_met, with_place, with_write, step, walk_writes};

use mvo_group::Write;
use mvo_hash::Heads;
use mvo_pair::DataRecord;
use mvo_places::Places;
use mvo_types::{RowKey, Stamp};
use std::alloc::{AllocError, Global};

/// What the last write of each key leaves, the last first, and the places of the live records at
/// those keys.
#[derive(Drop)]
pub struct Newest {
    pub seen: Heads,
    pub records: Vec<DataRecord>,
    pub gone: Vec<RowKey>,
    pub places: Vec<u32>,
}

/// No write yet.
pub fn no_writes(alloc: Global, seed: u64) -> Newest
    ensures { walk_of result ≡ none_met }
{
    Newest {
        seen: Heads::new(alloc, seed),
        records: Vec::new(alloc),
        gone: Vec::new(alloc),
        places: Vec::new(alloc),
    }
}

/// Appends what the last write of a key leaves there.
fn add_write(newest: &mut Newest, end: Stamp, write: Write) -> Result<(), AllocError>
    ensures { OnOk result (walk_of newest.new ≡
        with_write (end.0, write_data write) (walk_of newest.old)) }
{
    match write {
        Write::Put(row) => newest.records.push(DataRecord { begin: end, row })?,
        Write::Delete(key) => newest.gone.push(key)?,
    }
    Ok(())
}

/// Appends the place of the live record at the key, if there is one.
fn add_place(newest: &mut Newest, places: &Places, key: RowKey) -> Result<(), AllocError>
    ensures { OnOk result (walk_of newest.new ≡ with_place places.now.at key (walk_of newest.old)) }
{
    if let Some(number) = places.number(key) {
        newest.places.push(number)?;
    }
    Ok(())
}

/// Takes a write that stands in front of those before, unless it is of a key that they write.
fn take_write(
    newest: &mut Newest,
    places: &Places,
    end: Stamp,
    write: Write,
) -> Result<(), AllocError>
    ensures { OnOk result (walk_of newest.new ≡
        step places.now.at (end.0, write_data write) (walk_of newest.old)) }
{
    let key = write.key();
    if newest.seen.put(key, 0)?.is_some() {
        return Ok(());
    }
    add_place(newest, places, key)?;
    add_write(newest, end, write)?;
    Ok(())
}

/// Takes the writes of a transaction that stand in front of those before.
pub fn take_writes(
    newest: &mut Newest,
    places: &Places,
    end: Stamp,
    mut writes: Vec<Write>,
) -> Result<(), AllocError>
    ensures { OnOk result (walk_of newest.new ≡
        walk_writes places.now.at (stamped end.0 (map write_data writes.items))
        (walk_of newest.old)) }
{
    while let Some(write) = writes.pop() {
        take_write(newest, places, end, write)?;
    }
    Ok(())
}
