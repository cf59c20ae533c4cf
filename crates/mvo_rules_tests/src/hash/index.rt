ghost use Rattle.std.specs.Prelude.{◌≡◌, ◌==◌, IfOk};
ghost use Rattle.std.specs.List.{list_any};
ghost use Rattle.mvo_hash.specs.Lists.{numbers_of, is_among};

use crate::equal::{holds, same, same_at};
use crate::numbers::Numbers;
use mvo_chain::{Version, VersionNo};
use mvo_hash::HashIndex;
use mvo_types::RowKey;
use std::alloc::{AllocError, Global};
use std::mem::size_of;
use std::process::Abort;
use std::test::Fail;

fn some_version(numbers: &mut Numbers) -> VersionNo {
    VersionNo((numbers.below(300) & 0xffff) as u32)
}

fn some_key(numbers: &mut Numbers) -> RowKey {
    let table = if numbers.below(2) == 0 { 0 } else { 15 };
    let key = numbers.below(4) << 60;
    RowKey { table, key }
}

// The versions of a key in a list with the newest last.
fn listed(
    alloc: Global,
    list: &[(RowKey, VersionNo)],
    key: RowKey,
) -> Result<Vec<VersionNo>, AllocError> {
    let mut versions = Vec::new(alloc);
    for entry in list.iter().rev() {
        if entry.0 == key {
            versions.push(entry.1)?;
        }
    }
    Ok(versions)
}

fn is_among(versions: &[VersionNo], version: VersionNo) -> bool
    ensures { result ≡ list_any (λ v. version.0 == v.0) versions.now }
{
    versions.iter().any(|v| version.0 == v.0)
}

// Whether the key has the version, by its list.
fn has(
    alloc: Global,
    index: &HashIndex,
    key: RowKey,
    version: VersionNo,
) -> Result<bool, AllocError>
    ensures { IfOk result (λ b. b ≡ is_among version.0 (numbers_of index.now.versions key)) }
{
    let versions = index.versions_of(alloc, key)?;
    Ok(is_among(versions.as_slice(), version))
}

// Removes the version from both where some key has it, and else adds it to both. Answers whether
// the index knew which.
fn toggled_in_both(
    index: &mut HashIndex,
    list: &mut Vec<(RowKey, VersionNo)>,
    key: RowKey,
    number: VersionNo,
) -> Result<bool, AllocError> {
    let alloc = *list.allocator();
    match list.iter().position(|entry| entry.1 == number) {
        Some(at) if at < list.len() => {
            let owner = list.remove(at).0;
            let there = has(alloc, index, owner, number)?;
            if there {
                index.remove(owner, number);
            }
            Ok(there)
        }
        _ => {
            list.push((key, number))?;
            let held = index.is_held(number);
            if !held {
                index.add(key, number)?;
            }
            Ok(!held)
        }
    }
}

// Brings the version to the front in both, where some key has it. Answers whether the index knew.
fn fronted_in_both(
    index: &mut HashIndex,
    list: &mut Vec<(RowKey, VersionNo)>,
    number: VersionNo,
) -> Result<bool, AllocError> {
    let alloc = *list.allocator();
    match list.iter().position(|entry| entry.1 == number) {
        Some(at) if at < list.len() => {
            let entry = list.remove(at);
            list.push(entry)?;
            let there = has(alloc, index, entry.0, number)?;
            if there {
                index.bring_to_front(entry.0, number);
            }
            Ok(there)
        }
        _ => Ok(!index.is_held(number)),
    }
}

// The version in front of the one at a place of the list.
fn before(versions: &[VersionNo], at: usize) -> Option<VersionNo> {
    if at == 0 {
        return None;
    }
    versions.get(at - 1).copied()
}

// Whether the walk from version to version goes over these, and that back.
fn walks_over(index: &HashIndex, versions: &[VersionNo]) -> bool {
    for (i, version) in versions.iter().enumerate() {
        let held = index.is_held(*version);
        if !held {
            return false;
        }
        if index.older(*version) != versions.get(i + 1).copied() {
            return false;
        }
        if index.newer(*version) != before(versions, i) {
            return false;
        }
    }
    true
}

// The index has these versions of the key, the newest first.
fn assert_versions(
    rt: &impl Abort,
    alloc: Global,
    index: &HashIndex,
    key: RowKey,
    wanted: &[VersionNo],
) -> Result<(), Fail> {
    same(rt, &index.versions_of(alloc, key)?.as_slice(), &wanted);
    same(rt, &index.newest(key), &wanted.first().copied());
    holds(rt, walks_over(index, wanted));
    Ok(())
}

// One step on both, at which the index knows what the list has. It answers the key.
fn step_on_both(
    rt: &impl Abort,
    numbers: &mut Numbers,
    index: &mut HashIndex,
    list: &mut Vec<(RowKey, VersionNo)>,
    step: u32,
) -> Result<RowKey, Fail> {
    let key = some_key(numbers);
    let number = some_version(numbers);
    let room = index.room();
    let knew = if numbers.below(3) == 0 {
        toggled_in_both(index, list, key, number)?
    } else {
        let knew = fronted_in_both(index, list, number)?;
        same_at(rt, &index.room(), &room, u64::from(step));
        knew
    };
    same_at(rt, &knew, &true, u64::from(step));
    Ok(key)
}

// Many steps on both.
fn agree(
    rt: &impl Abort,
    index: &mut HashIndex,
    list: &mut Vec<(RowKey, VersionNo)>,
) -> Result<(), Fail> {
    let alloc = *list.allocator();
    let mut numbers = Numbers::new();
    for step in 0u32..9000 {
        let key = step_on_both(rt, &mut numbers, index, list, step)?;
        for shown in [key, some_key(&mut numbers)] {
            let wanted = listed(alloc, list.as_slice(), shown)?;
            assert_versions(rt, alloc, index, shown, wanted.as_slice())?;
        }
    }
    Ok(())
}

#[test]
fn agrees_with_a_plain_list(rt: HostRuntime) -> Result<(), Fail> {
    for seed in 0u64..3 {
        let mut list = Vec::new(rt.alloc());
        agree(&rt, &mut HashIndex::new(rt.alloc(), seed), &mut list)?;
    }
    Ok(())
}

const KEYS: [RowKey; 2] = [RowKey { table: 3, key: 4 }, RowKey { table: 3, key: 5 }];

// Adds 8 versions, in turn to one key and the other.
fn add_in_turn(rt: &impl Abort, index: &mut HashIndex) -> Result<(), Fail> {
    for number in 0u32..8 {
        let number = VersionNo(number);
        let key = KEYS[(number.0 & 1) as usize];
        let held = index.is_held(number);
        holds(rt, !held);
        index.add(key, number)?;
    }
    Ok(())
}

// Brings the version to the front of the first key, which then has these. The other keeps its own.
fn bring_to_front(
    rt: &impl Abort,
    alloc: Global,
    index: &mut HashIndex,
    number: u32,
    wanted: [u32; 4],
) -> Result<(), Fail> {
    let number = VersionNo(number);
    let there = has(alloc, index, KEYS[0], number)?;
    holds(rt, there);
    index.bring_to_front(KEYS[0], number);
    assert_versions(rt, alloc, index, KEYS[0], &wanted.map(|n| VersionNo(n)))?;
    assert_versions(
        rt,
        alloc,
        index,
        KEYS[1],
        &[7, 5, 3, 1].map(|n| VersionNo(n)),
    )
}

#[test]
fn a_version_comes_to_the_front_of_its_key_alone(rt: HostRuntime) -> Result<(), Fail> {
    let mut index = HashIndex::new(rt.alloc(), 2);
    add_in_turn(&rt, &mut index)?;
    // The oldest, one in between, and one that is in front already.
    for (number, wanted) in [(0, [0, 6, 4, 2]), (4, [4, 0, 6, 2]), (4, [4, 0, 6, 2])] {
        bring_to_front(&rt, rt.alloc(), &mut index, number, wanted)?;
    }
    Ok(())
}

// The index takes the version, and gives it back.
fn takes(
    rt: &impl Abort,
    alloc: Global,
    index: &mut HashIndex,
    key: RowKey,
    number: VersionNo,
) -> Result<(), Fail> {
    let held = index.is_held(number);
    holds(rt, !held);
    same(rt, &index.add(key, number), &Ok(()));
    same(rt, &index.newest(key), &Some(number));
    let there = has(alloc, index, key, number)?;
    holds(rt, there);
    index.remove(key, number);
    assert_versions(rt, alloc, index, key, &[])
}

// The index has no place for the version.
fn refuses(rt: &impl Abort, index: &mut HashIndex, key: RowKey, number: VersionNo) {
    let held = index.is_held(number);
    holds(rt, !held);
    same(rt, &index.add(key, number), &Err(AllocError));
    same(rt, &index.newest(key), &None);
}

#[test]
fn the_last_two_numbers_are_refused(rt: HostRuntime) -> Result<(), Fail> {
    let mut index = HashIndex::new(rt.alloc(), 1);
    for number in [VersionNo(u32::MAX - 1), VersionNo(u32::MAX)] {
        refuses(&rt, &mut index, KEYS[0], number);
    }
    takes(&rt, rt.alloc(), &mut index, KEYS[0], VersionNo(9))
}

#[test]
fn a_version_with_its_links_takes_at_most_96_bytes(rt: HostRuntime) {
    // The links of a version are 8 bytes, as is proved where they are declared.
    let slot = size_of::<Option<Version>>() + size_of::<VersionNo>();
    holds(&rt, slot + 8 <= 96);
}

// Room is reserved, and no more where that is refused.
fn reserves(rt: &impl Abort, index: &mut HashIndex) -> Result<(), Fail> {
    same(rt, &index.room(), &0);
    index.reserve(2560)?;
    let reserved = index.room();
    holds(rt, reserved >= 10);
    same(rt, &index.reserve(usize::MAX), &Err(AllocError));
    same(rt, &index.room(), &reserved);
    Ok(())
}

// A version takes room for one at most.
fn takes_room_for_one(rt: &impl Abort, index: &mut HashIndex, step: u32) -> Result<(), Fail> {
    let key = RowKey {
        table: 1,
        key: (step / 2) as u64,
    };
    let number = VersionNo(step);
    let held = index.is_held(number);
    holds(rt, !held);
    let room = index.room();
    index.add(key, number)?;
    holds(rt, index.room() >= room.saturating_sub(1));
    same(rt, &index.newest(key), &Some(number));
    Ok(())
}

// A version that is removed gives no room back where its key has another.
fn gives_no_room_back(rt: &impl Abort, alloc: Global, index: &mut HashIndex) -> Result<(), Fail> {
    let room = index.room();
    let key = RowKey { table: 1, key: 7 };
    let there = has(alloc, index, key, VersionNo(14))?;
    holds(rt, there);
    index.remove(key, VersionNo(14));
    same(rt, &index.room(), &room);
    same(rt, &index.newest(key), &Some(VersionNo(15)));
    Ok(())
}

#[test]
fn room_is_reserved_for_a_share_of_the_versions(rt: HostRuntime) -> Result<(), Fail> {
    let mut index = HashIndex::new(rt.alloc(), 5);
    reserves(&rt, &mut index)?;
    for step in 0u32..500 {
        takes_room_for_one(&rt, &mut index, step)?;
    }
    gives_no_room_back(&rt, rt.alloc(), &mut index)
}
