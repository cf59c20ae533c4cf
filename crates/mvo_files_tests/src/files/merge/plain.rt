//! A plain slow merge, for what building one is compared with.
use crate::equal::holds;
use crate::files::merge::calls::{built, moved, place_of, put, renumbered};
use crate::files::merge::making::live;
use crate::numbers::Numbers;
use mvo_merge::Merged;
use mvo_pair::Live;
use mvo_places::Places;
use std::alloc::{AllocError, Global};
use std::process::Abort;
use std::test::Fail;

/// A record: its number in its pair, its key, and whether it is still live when the merge is
/// installed.
type Line = (u32, u64, bool);

/// Some live records of a pair, whose keys begin at one.
fn some_lines(alloc: Global, numbers: &mut Numbers, first: u64) -> Result<Vec<Line>, AllocError> {
    let mut lines = Vec::new(alloc);
    for number in 0u32..30 {
        if numbers.below(2) == 0 {
            let key = first.saturating_add(u64::from(number));
            lines.push((number, key, numbers.below(3) > 0))?;
        }
    }
    Ok(lines)
}

fn lives_of(alloc: Global, lines: &[Line], begin: u64) -> Result<Vec<Live>, AllocError> {
    let mut lives = Vec::new(alloc);
    for line in lines {
        lives.push(live(alloc, line.0, begin, line.1)?)?;
    }
    Ok(lives)
}

/// The numbers that came late to the delta, from the last to the first.
fn late_of(alloc: Global, lines: &[Line]) -> Result<Vec<u32>, AllocError> {
    let mut late = Vec::new(alloc);
    for line in lines.iter().rev() {
        if !line.2 {
            late.push(line.0)?;
        }
    }
    Ok(late)
}

/// The lines of both pairs, one pair after the other.
fn both(alloc: Global, left: &[Line], right: &[Line]) -> Result<Vec<Line>, AllocError> {
    let mut all = Vec::new(alloc);
    all.extend_from_slice(left)?;
    all.extend_from_slice(right)?;
    Ok(all)
}

/// Whether the records are those of the lines, in their order.
fn has_records(merged: &Merged, all: &[Line]) -> bool {
    merged.records.len() == all.len()
        && merged
            .records
            .iter()
            .zip(all)
            .all(|(entry, line)| entry.row.key.key == line.1)
}

/// Whether the entries name each record once that isn't live any more, and no other.
fn names_others(entries: &[u32], all: &[Line]) -> bool {
    let once = |number: usize| { entries.iter().filter(|e| **e as usize == number).count() };
    all.iter().enumerate().all(|(number, line)| once(number) == if line.2 { 0 } else { 1 })
        && entries.iter().all(|e| (*e as usize) < all.len())
}

/// The place of a line's record before the merge, in the pair's data file. A key whose record came
/// late has its place in file 6, or none.
fn put_line(places: &mut Places, data_file: u16, line: Line) -> Result<(), Fail> {
    if line.2 {
        put(places, line.1, data_file, line.0)?;
    } else if line.0 % 2 == 0 {
        put(places, line.1, 6, line.0)?;
    }
    Ok(())
}

/// The places of the live records: those of the left pair in file 2, those of the right one in
/// file 4.
fn places_of(alloc: Global, left: &[Line], right: &[Line]) -> Result<Places, Fail> {
    let mut places = Places::new(alloc, 9);
    for line in left {
        put_line(&mut places, 2, *line)?;
    }
    for line in right {
        put_line(&mut places, 4, *line)?;
    }
    Ok(places)
}

/// The place of a line's key after the merge into file 8, which has it as this record.
fn wanted(at: usize, line: &Line) -> Option<(u16, usize)> {
    if line.2 {
        Some((8, at))
    } else if line.0 % 2 == 0 {
        Some((6, line.0 as usize))
    } else {
        None
    }
}

/// Whether each key has its place then.
fn has_places(places: &Places, all: &[Line]) -> bool {
    all.iter()
        .enumerate()
        .all(|(at, line)| place_of(places, line.1) == wanted(at, line))
}

/// The merge of the two pairs' live records, which must be those of the lines.
fn merge(rt: &impl Abort, alloc: Global, left: &[Line], right: &[Line]) -> Result<Merged, Fail> {
    let merged = built(alloc, lives_of(alloc, left, 2)?, lives_of(alloc, right, 4)?)?;
    holds(rt, has_records(&merged, &both(alloc, left, right)?));
    Ok(merged)
}

/// The merged pair's delta entries for what came late of these lines.
fn late_entries(
    alloc: Global,
    merged: &Merged,
    left: &[Line],
    right: &[Line],
) -> Result<Vec<u32>, Fail> {
    let (left, right) = (late_of(alloc, left)?, late_of(alloc, right)?);
    renumbered(alloc, merged, &left, &right)
}

/// How many numbers the merged pair's delta gets, each of which must be one that came late.
fn late_numbers(
    rt: &impl Abort,
    alloc: Global,
    merged: &Merged,
    left: &[Line],
    right: &[Line],
) -> Result<usize, Fail> {
    let entries = late_entries(alloc, merged, left, right)?;
    holds(rt, names_others(&entries, &both(alloc, left, right)?));
    Ok(entries.len())
}

/// The keys have the places that a merge leaves them.
fn places_stand(
    rt: &impl Abort,
    alloc: Global,
    merged: &Merged,
    left: &[Line],
    right: &[Line],
) -> Result<(), Fail> {
    let mut places = places_of(alloc, left, right)?;
    moved(&mut places, 8, &merged.records)?;
    holds(rt, has_places(&places, &both(alloc, left, right)?));
    Ok(())
}

/// How many numbers the delta of the lines' merge gets, which must be the plain one.
fn agrees(rt: &impl Abort, alloc: Global, left: &[Line], right: &[Line]) -> Result<usize, Fail> {
    let merged = merge(rt, alloc, left, right)?;
    places_stand(rt, alloc, &merged, left, right)?;
    late_numbers(rt, alloc, &merged, left, right)
}

fn some_agree(rt: &impl Abort, alloc: Global, numbers: &mut Numbers) -> Result<usize, Fail> {
    let left = some_lines(alloc, numbers, 100)?;
    let right = some_lines(alloc, numbers, 40)?;
    agrees(rt, alloc, &left, &right)
}

#[test]
fn agrees_with_a_plain_merge(rt: HostRuntime) -> Result<(), Fail> {
    let mut numbers = Numbers::new(0);
    let mut named = 0usize;
    for _ in 0u32..40 {
        named = named.saturating_add(some_agree(&rt, rt.alloc(), &mut numbers)?);
    }
    holds(&rt, named > 100);
    Ok(())
}
