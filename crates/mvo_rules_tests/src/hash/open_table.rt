use crate::equal::{holds, same, same_at};
use crate::numbers::Numbers;
use mvo_hash::OpenTable;
use mvo_types::RowKey;
use std::alloc::{AllocError, Global};
use std::process::Abort;
use std::test::Fail;

/// A key that is new takes room for one, and its later numbers take none.
fn takes_room_for_one(
    rt: &impl Abort,
    table: &mut OpenTable,
    key: RowKey,
    number: u32,
) -> Result<(), Fail> {
    let room = table.room();
    same(rt, &table.put(key, number)?, &None);
    same(rt, &table.room().checked_add(1), &Some(room));
    let later = number.saturating_add(1);
    same(rt, &table.put(key, later)?, &Some(number));
    same(rt, &table.get(key), &Some(later));
    same(rt, &table.room().checked_add(1), &Some(room));
    Ok(())
}

/// Room for 500 keys lasts for them, whose keys begin there.
fn lasts_for_500(rt: &impl Abort, table: &mut OpenTable, first: u64) -> Result<(), Fail> {
    table.reserve(500)?;
    holds(rt, table.room() >= 500);
    for step in 0u32..500 {
        let key = first.saturating_add(step as u64);
        takes_room_for_one(rt, table, RowKey { table: 1, key }, step)?;
    }
    Ok(())
}

#[test]
fn reserved_room_lasts_for_so_many_keys(rt: HostRuntime) -> Result<(), Fail> {
    let mut table = OpenTable::new(rt.alloc(), 11);
    lasts(&rt, &mut table)
}

fn lasts(rt: &impl Abort, table: &mut OpenTable) -> Result<(), Fail> {
    same(rt, &table.room(), &0);
    for first in [0, 1000, 2000] {
        lasts_for_500(rt, table, first)?;
    }
    for (key, number) in [(0, 1), (499, 500), (1000, 1), (2499, 500)] {
        same(rt, &table.get(RowKey { table: 1, key }), &Some(number));
    }
    Ok(())
}

const KEY: RowKey = RowKey { table: 2, key: 3 };

/// Puts the key, and answers the room that is left.
fn room_behind_one(table: &mut OpenTable) -> Result<usize, AllocError> {
    table.put(KEY, 4)?;
    Ok(table.room())
}

/// The key leaves and comes back, and there is as much room as before.
fn comes_back(
    rt: &impl Abort,
    table: &mut OpenTable,
    room: usize,
    number: u32,
) -> Result<(), Fail> {
    holds(rt, table.remove(KEY).is_some());
    same(rt, &table.room(), &room);
    same(rt, &table.put(KEY, number)?, &None);
    same(rt, &table.room(), &room);
    same(rt, &table.get(KEY), &Some(number));
    Ok(())
}

fn comes_and_goes(rt: &impl Abort, table: &mut OpenTable) -> Result<(), Fail> {
    let room = room_behind_one(table)?;
    for number in 0u32..100 {
        comes_back(rt, table, room, number)?;
    }
    Ok(())
}

#[test]
fn a_slot_that_a_key_left_takes_no_room_again(rt: HostRuntime) -> Result<(), Fail> {
    let mut table = OpenTable::new(rt.alloc(), 12);
    comes_and_goes(&rt, &mut table)
}

fn refuses_room(rt: &impl Abort, table: &mut OpenTable) -> Result<(), Fail> {
    let room = room_behind_one(table)?;
    for keys in [usize::MAX, usize::MAX / 2, usize::MAX / 4, usize::MAX / 32] {
        same(rt, &table.reserve(keys), &Err(AllocError));
        same(rt, &table.room(), &room);
        same(rt, &table.get(KEY), &Some(4));
    }
    Ok(())
}

#[test]
fn room_beyond_memory_is_refused(rt: HostRuntime) -> Result<(), Fail> {
    let mut table = OpenTable::new(rt.alloc(), 13);
    refuses_room(&rt, &mut table)
}

/// A key comes, and the one four steps before it goes.
fn take_turns(rt: &impl Abort, table: &mut OpenTable, step: u32) -> Result<(), Fail> {
    let key = u64::from(step);
    same(rt, &table.put(RowKey { table: 2, key }, step)?, &None);
    holds(rt, table.room() <= 64);
    let key = key.saturating_sub(4);
    let old = table.remove(RowKey { table: 2, key });
    holds(rt, old.is_some() || step < 5);
    Ok(())
}

fn take_all_turns(rt: &impl Abort, table: &mut OpenTable) -> Result<(), Fail> {
    for step in 0u32..20_000 {
        take_turns(rt, table, step)?;
    }
    Ok(())
}

#[test]
fn keys_that_come_and_go_take_no_more_memory(rt: HostRuntime) -> Result<(), Fail> {
    let mut table = OpenTable::new(rt.alloc(), 14);
    take_all_turns(&rt, &mut table)
}

// How many keys there are. A table has slots for few more, so that some search runs past its last
// slot in most tables.
const FEW: usize = 12;

/// The same change of the table and of a plain list of the numbers by key, which had the same.
fn change_both(
    rt: &impl Abort,
    table: &mut OpenTable,
    plain: &mut [Option<u32>],
    at: usize,
    number: Option<u32>,
) -> Result<(), Fail> {
    let Some(listed) = plain.get_mut(at) else {
        return Ok(());
    };
    let key = RowKey {
        table: 1,
        key: at as u64,
    };
    let before = match number {
        Some(number) => table.put(key, number)?,
        None => table.remove(key),
    };
    same(rt, &before, listed);
    *listed = number;
    Ok(())
}

/// The table has the keys of the list, with their numbers, and none of the others.
fn has_the_same(rt: &impl Abort, table: &OpenTable, plain: &[Option<u32>], step: u32) {
    for (at, number) in plain.iter().enumerate() {
        let key = at as u64;
        same_at(
            rt,
            &table.get(RowKey { table: 1, key }),
            number,
            u64::from(step),
        );
    }
}

fn agree(
    rt: &impl Abort,
    table: &mut OpenTable,
    plain: &mut [Option<u32>],
    numbers: &mut Numbers,
) -> Result<(), Fail> {
    for step in 0u32..500 {
        let at = (numbers.below(FEW as u64) & 0xff) as usize;
        let number = if numbers.below(3) == 0 {
            None
        } else {
            Some(step)
        };
        change_both(rt, table, plain, at, number)?;
        has_the_same(rt, table, plain, step);
    }
    Ok(())
}

/// By so many seeds each key has its home at the end of some table.
fn agree_by_seeds(rt: &impl Abort, alloc: Global) -> Result<(), Fail> {
    let mut numbers = Numbers::new();
    for seed in 0u64..100 {
        let mut plain: [Option<u32>; FEW] = [None; FEW];
        agree(
            rt,
            &mut OpenTable::new(alloc, seed),
            &mut plain,
            &mut numbers,
        )?;
    }
    Ok(())
}

#[test]
fn keys_that_run_past_the_end_are_found(rt: HostRuntime) -> Result<(), Fail> {
    agree_by_seeds(&rt, rt.alloc())
}
