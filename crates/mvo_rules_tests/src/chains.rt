use crate::equal::{holds, same, same_at};
use crate::numbers::Numbers;
use mvo_chain::{Chains, Pieces, Version, VersionNo};
use mvo_types::{Row, RowKey, Stamp, TxId};
use mvo_word::{Held, Word};
use std::alloc::{AllocError, Global};
use std::process::Abort;
use std::test::Fail;

/// What the plain list has of a version.
#[derive(Clone, Copy, Debug, PartialEq)]
struct Plain {
    key: u64,
    begin: Held,
    end: Held,
}

/// The number of a version, of which there may be none.
fn number_of(numbers: &mut Numbers) -> VersionNo {
    VersionNo(numbers.below(40).min(39) as u32)
}

fn row(alloc: Global, key: u64) -> Result<Row, AllocError> {
    Row::from_slice(alloc, RowKey { table: 3, key }, key / 2, &[7, 8])
}

fn plain_of(version: &Version) -> Plain {
    Plain {
        key: version.row.key.key,
        begin: version.begin.read(),
        end: version.end.read(),
    }
}

/// Adds in one call or in two.
fn add_in_chains(chains: &mut Chains, row: Row, begin: Word) -> Result<VersionNo, AllocError> {
    if row.sort % 2 == 0 {
        return chains.add(row, begin);
    }
    chains.make_room()?;
    Ok(chains.fill(row, begin))
}

fn has_hole(list: &[Option<Plain>]) -> bool {
    for slot in list {
        if slot.is_none() {
            return true;
        }
    }
    false
}

/// Whether the list has a version at the place.
fn has_one(list: &[Option<Plain>], at: usize) -> bool {
    matches!(list.get(at), Some(Some(_)))
}

/// Adds to the list, at the place of a hole where there is one.
fn add_to_list(
    rt: &impl Abort,
    list: &mut Vec<Option<Plain>>,
    at: usize,
    plain: Plain,
) -> Result<(), AllocError> {
    if !has_hole(list) {
        same(rt, &at, &list.len());
        list.push(Some(plain))?;
        return Ok(());
    }
    holds(rt, at < list.len() && !has_one(list, at));
    if let Some(slot) = list.get_mut(at) {
        *slot = Some(plain);
    }
    Ok(())
}

/// Adds to both, and looks whether the number is that of a hole, where there is one.
fn add(
    rt: &impl Abort,
    alloc: Global,
    chains: &mut Chains,
    list: &mut Vec<Option<Plain>>,
    key: u64,
) -> Result<(), AllocError> {
    let begin = Stamp(key % 1000);
    let number = add_in_chains(chains, row(alloc, key)?, Word::stamp(begin))?;
    let plain = Plain {
        key,
        begin: Held::At(begin),
        end: Held::Infinity,
    };
    add_to_list(rt, list, number.index(), plain)
}

/// One of the calls that change a version, if there is one, and what it is then.
fn change_in_chains(
    numbers: &mut Numbers,
    chains: &mut Chains,
    number: VersionNo,
    plain: Plain,
) -> Plain {
    if chains.get(number).is_none() {
        return plain;
    }
    match numbers.below(3) {
        0 => {
            let by = TxId(numbers.below(1000).min(1000));
            chains.claim_end(number, by);
            Plain {
                end: Held::By(by),
                ..plain
            }
        }
        1 => {
            chains.set_begin(number, Word::INFINITY);
            Plain {
                begin: Held::Infinity,
                ..plain
            }
        }
        _ => {
            let stamp = Stamp(numbers.below(1000).min(1000));
            chains.set_end(number, Word::stamp(stamp));
            Plain {
                end: Held::At(stamp),
                ..plain
            }
        }
    }
}

/// One of the calls that change a version, on both.
fn change(
    rt: &impl Abort,
    numbers: &mut Numbers,
    chains: &mut Chains,
    list: &mut Vec<Option<Plain>>,
    number: VersionNo,
) {
    let is_there = chains.get(number).is_some();
    same_at(
        rt,
        &is_there,
        &has_one(list, number.index()),
        u64::from(number.0),
    );
    if let Some(Some(plain)) = list.get_mut(number.index()) {
        *plain = change_in_chains(numbers, chains, number, *plain);
    }
}

/// The row is that of the version.
fn was_of(rt: &impl Abort, row: &Row, plain: Plain) {
    same(rt, &plain.key, &row.key.key);
    same(rt, &row.bytes(), &[7, 8].as_slice());
}

fn take_out(
    rt: &impl Abort,
    chains: &mut Chains,
    list: &mut Vec<Option<Plain>>,
    number: VersionNo,
) {
    if chains.get(number).is_none() {
        return;
    }
    same_at(
        rt,
        &has_one(list, number.index()),
        &true,
        u64::from(number.0),
    );
    let row = chains.take_out(number);
    if let Some(slot) = list.get_mut(number.index()) {
        if let Some(plain) = *slot {
            was_of(rt, &row, plain);
        }
        *slot = None;
    }
}

/// A call of both.
fn call(
    rt: &impl Abort,
    alloc: Global,
    numbers: &mut Numbers,
    chains: &mut Chains,
    list: &mut Vec<Option<Plain>>,
    step: u64,
) -> Result<(), AllocError> {
    let number = number_of(numbers);
    match numbers.below(4) {
        0 if list.len() < 30 || has_hole(list) => add(rt, alloc, chains, list, step)?,
        1 => take_out(rt, chains, list, number),
        _ => change(rt, numbers, chains, list, number),
    }
    Ok(())
}

/// Both have the same at each place, and nothing behind.
fn compare(rt: &impl Abort, chains: &Chains, list: &[Option<Plain>], step: u64) {
    same(rt, &chains.slot_count(), &list.len());
    for number in 0..42 {
        let version = chains.get(VersionNo(number)).map(plain_of);
        let plain = list.get(number as usize).copied().flatten();
        same_at(rt, &version, &plain, step);
    }
}

/// Many calls of both.
fn agree(
    rt: &impl Abort,
    alloc: Global,
    chains: &mut Chains,
    list: &mut Vec<Option<Plain>>,
    seed: u64,
) -> Result<(), AllocError> {
    let mut numbers = Numbers::of(seed);
    for step in 0..3000 {
        call(rt, alloc, &mut numbers, chains, list, step)?;
        compare(rt, chains, list, step);
    }
    Ok(())
}

#[test]
fn random_calls_do_what_they_do_to_a_plain_list(rt: HostRuntime) -> Result<(), Fail> {
    for seed in 1..6 {
        let mut list = Vec::new(rt.alloc());
        agree(
            &rt,
            rt.alloc(),
            &mut Chains::new(rt.alloc()),
            &mut list,
            seed,
        )?;
    }
    Ok(())
}

/// Looks whether both have the same at a place, and at those beside it.
fn compare_near(rt: &impl Abort, pieces: &Pieces<u64>, list: &Vec<u64>, at: usize) {
    for place in at.saturating_sub(2)..at.saturating_add(3) {
        let item = pieces.get(place).copied();
        same_at(rt, &item, &list.get(place).copied(), place as u64);
        if place < pieces.len() {
            same(rt, &Some(pieces[place]), &item);
        }
    }
}

/// Adds an item to both, and then changes one of both.
fn grow(
    rt: &impl Abort,
    pieces: &mut Pieces<u64>,
    list: &mut Vec<u64>,
    numbers: &mut Numbers,
    item: u64,
) -> Result<(), AllocError> {
    compare_near(rt, pieces, list, list.len());
    pieces.push(item)?;
    list.push(item)?;
    same(rt, &pieces.len(), &list.len());
    let at = numbers.below(list.len() as u64) as usize;
    change_item(pieces, list, at, item.saturating_add(5000));
    compare_near(rt, pieces, list, at);
    Ok(())
}

fn change_item(pieces: &mut Pieces<u64>, list: &mut Vec<u64>, at: usize, item: u64) {
    if at < pieces.len() {
        pieces[at] = item;
    }
    if let Some(place) = list.get_mut(at) {
        *place = item;
    }
}

fn grow_and_compare(
    rt: &impl Abort,
    pieces: &mut Pieces<u64>,
    list: &mut Vec<u64>,
) -> Result<(), AllocError> {
    let mut numbers = Numbers::of(9);
    for item in 0..2500 {
        grow(rt, pieces, list, &mut numbers, item)?;
    }
    for at in 0..2503 {
        same_at(
            rt,
            &pieces.get(at).copied(),
            &list.get(at).copied(),
            at as u64,
        );
    }
    Ok(())
}

/// More than two pieces have, changed while they grow.
#[test]
fn pieces_do_what_a_plain_list_does(rt: HostRuntime) -> Result<(), Fail> {
    let mut list = Vec::new(rt.alloc());
    grow_and_compare(&rt, &mut Pieces::new(rt.alloc()), &mut list)?;
    Ok(())
}

#[test]
fn a_version_takes_at_most_88_bytes(rt: HostRuntime) {
    holds(
        &rt,
        size_of::<Option<Version>>() + size_of::<VersionNo>() <= 88,
    );
}

fn shared<T: Send + Sync>(value: T) -> T {
    value
}

#[test]
fn versions_may_be_shared_between_threads(rt: HostRuntime) {
    let chains = shared(Chains::new(rt.alloc()));
    same(&rt, &chains.slot_count(), &0);
}
