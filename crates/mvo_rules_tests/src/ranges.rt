use crate::equal::{holds, same};
use crate::numbers::Numbers;
use mvo_range::{RangeIndex, SortPlace, Walk};
use mvo_types::RowKey;
use std::alloc::{AllocError, Global};
use std::process::Abort;
use std::test::Fail;

impl Numbers {
    fn place(&mut self) -> SortPlace {
        let table = if self.below(2) == 0 { 0 } else { 1 };
        let sort = self.below(6);
        let key = self.below(6);
        SortPlace::new(RowKey { table, key }, sort)
    }
}

// The entries that a plain list has of a table, with a sort in the range, in order.
fn listed(
    alloc: Global,
    list: &[(SortPlace, u32)],
    first: SortPlace,
    is_behind: bool,
    hi: u64,
) -> Result<Vec<(SortPlace, u32)>, AllocError> {
    let mut found: Vec<(SortPlace, u32)> = Vec::new(alloc);
    for entry in list {
        let from = if is_behind {
            first < entry.0
        } else {
            first.sort <= entry.0.sort
        };
        if entry.0.table == first.table && from && entry.0.sort <= hi {
            found.push(*entry)?;
        }
    }
    found.sort()?;
    Ok(found)
}

fn taken(list: &mut Vec<(SortPlace, u32)>, place: SortPlace) -> Option<u32> {
    match list.iter().position(|entry| entry.0 == place) {
        Some(at) if at < list.len() => Some(list.remove(at).1),
        _ => None,
    }
}

// Removes the place from both, or else puts the number there in both.
fn change_both(
    rt: &impl Abort,
    index: &mut RangeIndex,
    list: &mut Vec<(SortPlace, u32)>,
    place: SortPlace,
    number: Option<u32>,
) -> Result<(), Fail> {
    let want = taken(list, place);
    let was = match number {
        Some(number) => {
            list.push((place, number))?;
            index.add(place, number)?
        }
        None => index.remove(place),
    };
    same(rt, &was, &want);
    same(rt, &index.len(), &list.len());
    Ok(())
}

// Both have the same entries from the place on, or behind it.
fn compare_walk(
    rt: &impl Abort,
    list: &Vec<(SortPlace, u32)>,
    walk: Walk,
    first: SortPlace,
    is_behind: bool,
    hi: u64,
) -> Result<(), Fail> {
    let alloc = *list.allocator();
    let walked: Vec<(SortPlace, u32)> = walk.collect(alloc)?;
    let want = listed(alloc, list.as_slice(), first, is_behind, hi)?;
    same(rt, &walked.as_slice(), &want.as_slice());
    Ok(())
}

// Both have the same entries from the place on and behind it.
fn compare(
    rt: &impl Abort,
    index: &RangeIndex,
    list: &Vec<(SortPlace, u32)>,
    first: SortPlace,
    hi: u64,
) -> Result<(), Fail> {
    let walk = index.between(first.table, first.sort, hi);
    compare_walk(rt, list, walk, first, false, hi)?;
    compare_walk(rt, list, index.after(first, hi), first, true, hi)
}

// One step on both.
fn step_on_both(
    rt: &impl Abort,
    numbers: &mut Numbers,
    index: &mut RangeIndex,
    list: &mut Vec<(SortPlace, u32)>,
    step: u32,
) -> Result<(), Fail> {
    let place = numbers.place();
    let number = if numbers.below(3) == 0 {
        None
    } else {
        Some(step)
    };
    change_both(rt, index, list, place, number)?;
    let first = numbers.place();
    compare(rt, index, list, first, numbers.below(6))
}

// Many steps on both.
fn agree(
    rt: &impl Abort,
    index: &mut RangeIndex,
    list: &mut Vec<(SortPlace, u32)>,
) -> Result<(), Fail> {
    let mut numbers = Numbers::new();
    for step in 0u32..4000 {
        step_on_both(rt, &mut numbers, index, list, step)?;
    }
    Ok(())
}

#[test]
fn agrees_with_a_plain_list(rt: HostRuntime) -> Result<(), Fail> {
    let mut index = RangeIndex::new(rt.alloc());
    agree(&rt, &mut index, &mut Vec::new(rt.alloc()))
}

// The entries are added one after another, and kept.
fn add_all(added: &mut RangeIndex, entries: &mut Vec<(SortPlace, u32)>) -> Result<(), AllocError> {
    let mut numbers = Numbers::of(2463534242);
    for number in 0u32..500 {
        let place = numbers.place();
        added.add(place, number)?;
        entries.push((place, number))?;
    }
    Ok(())
}

// Both have the same entries of the table.
fn compare_table(
    rt: &impl Abort,
    alloc: Global,
    built: &RangeIndex,
    added: &RangeIndex,
    table: u8,
) -> Result<(), Fail> {
    let left: Vec<(SortPlace, u32)> = built.between(table, 0, u64::MAX).collect(alloc)?;
    let right: Vec<(SortPlace, u32)> = added.between(table, 0, u64::MAX).collect(alloc)?;
    same(rt, &left.as_slice(), &right.as_slice());
    Ok(())
}

fn compare_tables(
    rt: &impl Abort,
    alloc: Global,
    built: &RangeIndex,
    added: &RangeIndex,
) -> Result<(), Fail> {
    same(rt, &built.len(), &added.len());
    for table in 0..2 {
        compare_table(rt, alloc, built, added, table)?;
    }
    Ok(())
}

// What is built of the entries in one go is what they were added to.
fn builds(rt: &impl Abort, alloc: Global, added: &mut RangeIndex) -> Result<(), Fail> {
    let mut entries: Vec<(SortPlace, u32)> = Vec::new(alloc);
    add_all(added, &mut entries)?;
    let built = RangeIndex::from_entries(alloc, entries)?;
    compare_tables(rt, alloc, &built, added)
}

#[test]
fn builds_in_one_go(rt: HostRuntime) -> Result<(), Fail> {
    let mut added = RangeIndex::new(rt.alloc());
    builds(&rt, rt.alloc(), &mut added)
}

// The first entry is this one.
fn begins_with(rt: &impl Abort, walk: Walk, wanted: Option<(SortPlace, u32)>) {
    let mut walk = walk;
    same(rt, &walk.next(), &wanted);
}

fn takes_last(rt: &impl Abort, index: &mut RangeIndex) -> Result<(), Fail> {
    let key = RowKey {
        table: 255,
        key: u64::MAX,
    };
    let last = SortPlace::new(key, u64::MAX);
    same(rt, &index.add(last, u32::MAX)?, &None);
    same(rt, &index.get(last), &Some(u32::MAX));
    same(rt, &last.row_key().key, &u64::MAX);
    let walk = index.between(255, 0, u64::MAX);
    begins_with(rt, walk, Some((last, u32::MAX)));
    begins_with(rt, index.between(255, u64::MAX, 0), None);
    begins_with(rt, index.after(last, u64::MAX), None);
    Ok(())
}

fn stands_at_the_ends(rt: &impl Abort, index: &mut RangeIndex) -> Result<(), Fail> {
    holds(rt, index.is_empty());
    takes_last(rt, index)?;
    holds(rt, !index.is_empty());
    Ok(())
}

#[test]
fn stands_at_the_ends_of_the_numbers(rt: HostRuntime) -> Result<(), Fail> {
    let mut index = RangeIndex::new(rt.alloc());
    stands_at_the_ends(&rt, &mut index)
}
