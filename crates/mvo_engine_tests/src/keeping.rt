//! What is due, over counts alone: of a store that writes its log, checkpoints and merges.

use crate::equal::same;
use mvo_keep::{Chore, Policy, Served, Standing, due};
use mvo_pair::Pair;
use mvo_store::{Due, StoreCall};
use mvo_types::Stamp;
use std::alloc::{AllocError, Global};
use std::test::Fail;

/// A store without a transaction, with one empty segment.
fn idle(alloc: Global) -> Standing {
    Standing {
        has_group: false,
        has_commits: false,
        step: None,
        may_reclaim: false,
        pairs: Vec::new(alloc),
        segments: 1,
        last_segment: 13,
        tale_start: Stamp(7),
        tale_length: 0,
        earlier_mark: Stamp(7),
        oldest_begin: Stamp(9),
        may_collect: false,
        served: Served::Files,
    }
}

fn number(of: u64) -> u32 {
    u32::try_from(of).unwrap_or(u32::MAX)
}

fn pair_of(records: u64, dead: u64) -> Pair {
    Pair {
        data_file: 2,
        delta_file: 3,
        lo: Stamp(0),
        hi: Stamp(1),
        records: number(records),
        entries: number(dead),
    }
}

fn live(pair: &Pair) -> u64 {
    u64::from(pair.records.saturating_sub(pair.entries))
}

fn all_live(pairs: &[Pair]) -> u64 {
    let mut all = 0u64;
    for pair in pairs {
        all = all.saturating_add(live(pair));
    }
    all
}

fn share(of: u64, part: u64, whole: u64) -> u64 {
    of.saturating_mul(part).checked_div(whole).unwrap_or(0)
}

/// So many rows of all are written over, evenly.
fn overwrite(pairs: &mut [Pair], rows: u64, written: u64) {
    let all = all_live(pairs);
    let over = share(written, all.min(rows), rows);
    for pair in pairs {
        let dead = share(over, live(pair), all).min(live(pair));
        pair.entries = pair.entries.saturating_add(number(dead));
    }
}

/// A checkpoint of a segment of so many rows.
fn checkpoint(standing: &mut Standing, rows: u64, written: u64) -> Result<(), AllocError> {
    overwrite(&mut standing.pairs, rows, written);
    standing.pairs.push(pair_of(written, 0))?;
    standing.segments = standing.segments.saturating_sub(1);
    Ok(())
}

/// A merge of the pair at the place and the one behind it.
fn merge(standing: &mut Standing, place: usize) {
    let Some([left, right, ..]) = standing.pairs.get(place..) else {
        return;
    };
    let records = live(left).saturating_add(live(right));
    if let Some(left) = standing.pairs.get_mut(place) {
        *left = pair_of(records, 0);
    }
    let behind = place.saturating_add(1);
    if behind < standing.pairs.len() {
        let _ = standing.pairs.remove(behind);
    }
}

/// Seals a segment so many times, of as many rows each that are written over evenly, and does what
/// is due behind each. Answers the most pairs that there were.
fn most_pairs(alloc: Global, rows: u64, written: u64, segments: u64) -> Result<usize, AllocError> {
    let policy = Policy::standard();
    let mut standing = idle(alloc);
    let mut most = 0usize;
    for _ in 0..segments {
        standing.segments = 2;
        for _ in 0..200 {
            match due(&policy, &standing) {
                Some(Chore::Checkpoint) => checkpoint(&mut standing, rows, written)?,
                Some(Chore::Merge(place)) => merge(&mut standing, place),
                _ => break,
            }
            most = most.max(standing.pairs.len());
        }
    }
    Ok(most)
}

// A simulation of the same rules beside this says so.
#[test]
fn pairs_stay_few(rt: HostRuntime) -> Result<(), Fail> {
    let alloc = rt.alloc();
    for (rows, written, segments, pairs) in [
        (1_000_000, 130_000, 2_000, 3),
        (10_000_000, 130_000, 2_000, 7),
        (10_000_000, 520_000, 1_000, 6),
        (100_000_000, 130_000, 4_000, 40),
        (100_000_000, 520_000, 2_000, 37),
    ] {
        same(&rt, &most_pairs(alloc, rows, written, segments)?, &pairs);
    }
    Ok(())
}

/// The next number of a sequence that looks as if it were drawn, below another.
fn drawn(state: &mut u64, below: u64) -> u64 {
    *state = state
        .wrapping_mul(6_364_136_223_846_793_005)
        .wrapping_add(1_442_695_040_888_963_407);
    (*state >> 33).checked_rem(below).unwrap_or(0)
}

/// Does the chore that is due of the files, if one is.
fn do_due(
    standing: &mut Standing,
    policy: &Policy,
    rows: u64,
    written: u64,
) -> Result<(), AllocError> {
    match due(policy, standing) {
        Some(Chore::Checkpoint) => checkpoint(standing, rows, written),
        Some(Chore::Merge(place)) => {
            merge(standing, place);
            Ok(())
        }
        _ => Ok(()),
    }
}

/// So many draws: one of sixteen seals a segment, and behind the others the chore that is due is
/// done, of a segment of up to 520,000 rows, of a store of up to 50,000,000. Answers the most
/// segments and the most pairs that there were.
fn most_drawn(alloc: Global, draws: u64) -> Result<(usize, usize), AllocError> {
    let policy = Policy::standard();
    let mut standing = idle(alloc);
    let mut state = 7u64;
    let mut rows = 1_000_000u64;
    let (mut segments, mut pairs) = (0usize, 0usize);
    for number in 0..draws {
        if number % 50_000 == 0 {
            rows = drawn(&mut state, 50_000_000).max(1_000);
        }
        let written = drawn(&mut state, 520_000).max(1);
        if drawn(&mut state, 16) == 0 {
            standing.segments = standing.segments.saturating_add(1);
        } else {
            do_due(&mut standing, &policy, rows, written)?;
        }
        segments = segments.max(standing.segments);
        pairs = pairs.max(standing.pairs.len());
    }
    Ok((segments, pairs))
}

// A simulation of the same rules and draws beside this says so: there never are as many as may be.
#[test]
fn drawn_sizes_fill_no_store(rt: HostRuntime) -> Result<(), Fail> {
    same(&rt, &most_drawn(rt.alloc(), 1_000_000)?, &(5, 25));
    Ok(())
}

/// All is due, and the files come before the memory.
fn all_due(alloc: Global, call: StoreCall) -> Result<Standing, AllocError> {
    let mut standing = idle(alloc);
    for number in 0..48u64 {
        standing.pairs.push(pair_of(1_000 + number, 0))?;
    }
    standing.has_group = true;
    standing.step = Some(call);
    standing.may_reclaim = true;
    standing.segments = 2;
    standing.last_segment = 16_777_216;
    standing.tale_length = 1;
    standing.tale_start = Stamp(3);
    standing.earlier_mark = Stamp(5);
    standing.oldest_begin = Stamp(6);
    standing.may_collect = true;
    standing.served = Served::Memory(16);
    Ok(standing)
}

// Everything is due, and the files come first; what is first of them is done, and then what comes
// next.
#[test]
fn what_is_due_comes_in_turn(rt: HostRuntime) -> Result<(), Fail> {
    let alloc = rt.alloc();
    let policy = Policy::standard();
    let call = StoreCall::Step(Due::Data);
    same(&rt, &due(&policy, &idle(alloc)), &None);
    let mut standing = all_due(alloc, call)?;
    same(&rt, &due(&policy, &standing), &Some(Chore::Flush));
    standing.has_group = false;
    same(&rt, &due(&policy, &standing), &Some(Chore::Step(call)));
    standing.step = None;
    same(&rt, &due(&policy, &standing), &Some(Chore::Reclaim));
    standing.may_reclaim = false;
    same(&rt, &due(&policy, &standing), &Some(Chore::Merge(0)));
    standing.pairs.truncate(47);
    same(&rt, &due(&policy, &standing), &Some(Chore::Checkpoint));
    standing.segments = 1;
    same(&rt, &due(&policy, &standing), &Some(Chore::Rotate));
    standing.last_segment = 16_777_215;
    same(&rt, &due(&policy, &standing), &Some(Chore::Merge(45)));
    standing.pairs.truncate(1);
    same(&rt, &due(&policy, &standing), &Some(Chore::Trim(Stamp(5))));
    standing.oldest_begin = Stamp(5);
    same(&rt, &due(&policy, &standing), &Some(Chore::Collect(1_024)));
    standing.may_collect = false;
    same(&rt, &due(&policy, &standing), &None);
    Ok(())
}

/// With a file to be emptied: what was served last, whether a trim and a collection are due, and
/// what is done.
const TURNS: [(Served, bool, bool, Chore); 12] = [
    (Served::Files, true, true, Chore::Trim(Stamp(5))),
    (Served::Files, false, true, Chore::Collect(1_024)),
    (Served::Files, true, false, Chore::Trim(Stamp(5))),
    (Served::Files, false, false, Chore::Reclaim),
    (Served::Memory(0), true, true, Chore::Collect(1_024)),
    (Served::Memory(0), true, false, Chore::Reclaim),
    (Served::Memory(15), true, true, Chore::Collect(1_024)),
    (Served::Memory(15), false, false, Chore::Reclaim),
    (Served::Memory(16), true, true, Chore::Reclaim),
    (Served::Memory(16), false, true, Chore::Reclaim),
    (Served::Memory(17), true, true, Chore::Reclaim),
    (Served::Memory(17), false, false, Chore::Reclaim),
];

// Neither the files nor the memory wait for ever where the others always have something to do.
#[test]
fn files_and_memory_are_served_by_turns(rt: HostRuntime) -> Result<(), Fail> {
    let policy = Policy::standard();
    let mut standing = idle(rt.alloc());
    standing.may_reclaim = true;
    standing.tale_length = 1;
    standing.tale_start = Stamp(3);
    standing.earlier_mark = Stamp(5);
    for (last, may_trim, may_collect, chore) in TURNS {
        standing.served = last;
        standing.oldest_begin = if may_trim { Stamp(6) } else { Stamp(5) };
        standing.may_collect = may_collect;
        same(&rt, &due(&policy, &standing), &Some(chore));
    }
    standing.may_reclaim = false;
    standing.may_collect = true;
    standing.served = Served::Memory(16);
    same(&rt, &due(&policy, &standing), &Some(Chore::Collect(1_024)));
    standing.oldest_begin = Stamp(6);
    same(&rt, &due(&policy, &standing), &Some(Chore::Trim(Stamp(5))));
    Ok(())
}

// Pairs of which most is dead are merged, and none that together are too large.
#[test]
fn what_is_dead_goes(rt: HostRuntime) -> Result<(), Fail> {
    let alloc = rt.alloc();
    let policy = Policy::standard();
    let mut standing = idle(alloc);
    standing.pairs.push(pair_of(900_000, 400_000))?;
    standing.pairs.push(pair_of(400_000, 250_000))?;
    standing.pairs.push(pair_of(100_000, 50_000))?;
    same(&rt, &due(&policy, &standing), &Some(Chore::Merge(1)));
    standing.pairs.truncate(2);
    same(&rt, &due(&policy, &standing), &None);
    standing.pairs.truncate(0);
    standing.pairs.push(pair_of(2_200_000, 0))?;
    standing.pairs.push(pair_of(1_994_305, 0))?;
    same(&rt, &due(&policy, &standing), &None);
    standing.pairs.truncate(1);
    standing.pairs.push(pair_of(1_994_304, 0))?;
    same(&rt, &due(&policy, &standing), &Some(Chore::Merge(0)));
    Ok(())
}
