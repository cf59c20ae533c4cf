use crate::equal::{holds, same, same_at};
use crate::numbers::Numbers;
use mvo_hash::Heads;
use mvo_types::RowKey;
use std::alloc::AllocError;
use std::process::Abort;
use std::test::Fail;

fn some_key(numbers: &mut Numbers) -> RowKey {
    let table = if numbers.below(2) == 0 { 0 } else { 15 };
    let key = numbers.below(300);
    RowKey { table, key }
}

fn listed(list: &[(RowKey, u32)], key: RowKey) -> Option<u32> {
    for entry in list {
        if entry.0 == key {
            return Some(entry.1);
        }
    }
    None
}

fn taken(list: &mut Vec<(RowKey, u32)>, key: RowKey) -> Option<u32> {
    match list.iter().position(|entry| entry.0 == key) {
        Some(at) if at < list.len() => Some(list.remove(at).1),
        _ => None,
    }
}

// The same call of the heads and of the list, and what each answered.
fn done_to_both(
    heads: &mut Heads,
    list: &mut Vec<(RowKey, u32)>,
    call: u64,
    key: RowKey,
    number: u32,
) -> Result<(Option<u32>, Option<u32>), AllocError> {
    let before = taken(list, key);
    let answer = match call {
        0 | 1 => heads.remove(key),
        2 => {
            if before.is_some() {
                list.push((key, number))?;
            }
            heads.set(key, number)
        }
        _ => {
            list.push((key, number))?;
            heads.put(key, number)?
        }
    };
    Ok((answer, before))
}

/// One step on both, which answer alike, and say the same of two keys.
fn step_on_both(
    rt: &impl Abort,
    numbers: &mut Numbers,
    heads: &mut Heads,
    list: &mut Vec<(RowKey, u32)>,
    step: u32,
) -> Result<(), Fail> {
    let key = some_key(numbers);
    let call = numbers.below(5);
    let (answer, wanted) = done_to_both(heads, list, call, key, step)?;
    same_at(rt, &answer, &wanted, u64::from(step));
    for shown in [key, some_key(numbers)] {
        let wanted = listed(list.as_slice(), shown);
        same_at(rt, &heads.get(shown), &wanted, u64::from(step));
    }
    Ok(())
}

/// Many steps on both. By seed 3 room is reserved first.
fn agree(
    rt: &impl Abort,
    heads: &mut Heads,
    list: &mut Vec<(RowKey, u32)>,
    seed: u64,
) -> Result<(), Fail> {
    let mut numbers = Numbers::new();
    if seed == 3 {
        heads.reserve(600)?;
    }
    for step in 0u32..6000 {
        step_on_both(rt, &mut numbers, heads, list, step)?;
    }
    for entry in &*list {
        same(rt, &heads.get(entry.0), &Some(entry.1));
    }
    Ok(())
}

#[test]
fn agrees_with_a_plain_list(rt: HostRuntime) -> Result<(), Fail> {
    for seed in 0u64..4 {
        let mut list: Vec<(RowKey, u32)> = Vec::new(rt.alloc());
        agree(&rt, &mut Heads::new(rt.alloc(), seed), &mut list, seed)?;
    }
    Ok(())
}

fn key_of_pattern(table: u8, step: u32) -> RowKey {
    let key = u64::from(step) << 40;
    RowKey { table, key }
}

fn puts(rt: &impl Abort, heads: &mut Heads, key: RowKey, number: u32) -> Result<(), Fail> {
    same(rt, &heads.put(key, number)?, &None);
    Ok(())
}

fn has_pattern(rt: &impl Abort, heads: &Heads, step: u32) {
    same(rt, &heads.get(key_of_pattern(1, step)), &Some(step));
    same(rt, &heads.get(key_of_pattern(2, step)), &None);
}

const LAST: RowKey = RowKey {
    table: 255,
    key: u64::MAX,
};

fn keeps_pattern(rt: &impl Abort, heads: &mut Heads) -> Result<(), Fail> {
    for step in 0u32..3000 {
        puts(rt, heads, key_of_pattern(1, step), step)?;
    }
    for step in 0u32..3000 {
        has_pattern(rt, heads, step);
    }
    puts(rt, heads, LAST, u32::MAX)?;
    same(rt, &heads.get(LAST), &Some(u32::MAX));
    Ok(())
}

#[test]
fn keys_of_one_pattern_stay_apart(rt: HostRuntime) -> Result<(), Fail> {
    let mut heads = Heads::new(rt.alloc(), 7);
    keeps_pattern(&rt, &mut heads)
}

/// Room is reserved, and no more where that is refused. It answers the room.
fn reserves(rt: &impl Abort, heads: &mut Heads) -> Result<usize, Fail> {
    same(rt, &heads.room(), &0);
    heads.reserve(2560)?;
    let room = heads.room();
    holds(rt, room >= 10);
    same(rt, &heads.reserve(usize::MAX), &Err(AllocError));
    same(rt, &heads.room(), &room);
    Ok(room)
}

fn takes_room_for_one(rt: &impl Abort, heads: &mut Heads) -> Result<(), Fail> {
    let room = reserves(rt, heads)?;
    let key = RowKey { table: 1, key: 5 };
    puts(rt, heads, key, 6)?;
    holds(rt, heads.room() >= room.saturating_sub(1));
    same(rt, &heads.get(key), &Some(6));
    Ok(())
}

#[test]
fn room_is_reserved_for_a_share_in_each_table(rt: HostRuntime) -> Result<(), Fail> {
    let mut heads = Heads::new(rt.alloc(), 11);
    takes_room_for_one(&rt, &mut heads)
}
