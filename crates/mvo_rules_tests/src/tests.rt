use crate::counts::{Counts, count};
use crate::engine::{Engine, SORTS};
use crate::equal::{above, holds, same, same_at};
use crate::keys::key_of;
use crate::numbers::Numbers;
use crate::open::Open;
use crate::plain::{checked, shown_of_others};
use mvo_txn::TxState;
use mvo_types::{Entry, RowKey, Stamp, TxId};
use mvo_validate::{Check, Entries};
use mvo_visible::Shown;
use std::alloc::Global;
use std::mem::swap;
use std::process::Abort;
use std::test::Fail;

const STEPS: u64 = 6_000;

const SEEDS: [u64; 6] = [
    1,
    0x9e37_79b9_7f4a_7c15,
    2_026,
    77,
    0xdead_beef,
    123_456_789,
];

/// What a transaction is shown: what it wrote last itself, and else what the others show.
fn wanted(engine: &Engine, tx: &Open, key: RowKey, counts: &mut Counts) -> Shown {
    match tx.last_write(key) {
        Some(version) => {
            if version.is_some() {
                count(&mut counts.own);
            } else {
                count(&mut counts.own_deleted);
            }
            Shown {
                version,
                depends_on: None,
            }
        }
        None => shown_of_others(engine, Stamp(tx.id.0), key),
    }
}

/// Compares what each Active transaction is shown, and one that would begin in between.
fn compare_shown(rt: &impl Abort, engine: &Engine, at: Stamp, key: RowKey, counts: &mut Counts) {
    for tx in engine.open.iter() {
        if engine.table.state(tx.id) == Some(TxState::Active) {
            let shown = engine.shown_to(tx.id, key);
            let want = wanted(engine, tx, key, counts);
            same_at(rt, &shown, &want, tx.id.0);
            compare_at_once(rt, engine, tx.id, key, want);
            if shown.depends_on.is_some() {
                count(&mut counts.speculative);
            }
        }
    }
    let id = TxId(at.0);
    if engine.table.state(id).is_none() {
        let want = shown_of_others(engine, at, key);
        same_at(rt, &engine.shown_to(id, key), &want, id.0);
        compare_at_once(rt, engine, id, key, want);
    }
}

/// Compares what is told by the first version alone, where that tells it.
fn compare_at_once(rt: &impl Abort, engine: &Engine, id: TxId, key: RowKey, want: Shown) {
    if let Some(shown) = engine.shown_at_once_to(id, key) {
        same_at(rt, &shown, &want, id.0);
    }
}

/// Compares the checks of an entry for each transaction that is Preparing.
fn compare_checks(rt: &impl Abort, engine: &Engine, entry: Entry, counts: &mut Counts) {
    for tx in engine.open.iter() {
        if let Some(TxState::Preparing(end)) = engine.table.state(tx.id) {
            let check = engine.check(tx.id, end, entry);
            let want = checked(engine, Stamp(tx.id.0), end, entry);
            same_at(rt, &check, &want, tx.id.0);
            if let Check::Differs(stamp) = check {
                note_difference(engine, stamp, entry, counts);
            }
        }
    }
}

fn note_difference(engine: &Engine, stamp: Stamp, entry: Entry, counts: &mut Counts) {
    if matches!(entry, Entry::Range(_, _, _)) {
        count(&mut counts.ranges);
    }
    for tx in engine.open.iter() {
        if engine.table.state(tx.id) == Some(TxState::Preparing(stamp)) {
            count(&mut counts.by_preparing);
        }
    }
}

/// Counts a key that two Preparing transactions inserted.
fn note_inserts(engine: &Engine, key: RowKey, counts: &mut Counts) {
    let mut inserts = 0u64;
    for tx in engine.open.iter() {
        if engine.is_preparing(tx.id) && tx.has_inserted(key) {
            count(&mut inserts);
        }
    }
    if inserts > 1 {
        count(&mut counts.inserted_twice);
    }
}

/// Counts where one is Preparing that can only be aborted, and where many are Preparing.
fn note_preparing(engine: &Engine, counts: &mut Counts) {
    let mut preparing = 0u64;
    for tx in engine.open.iter() {
        if engine.is_preparing(tx.id) {
            count(&mut preparing);
            if tx.flagged {
                count(&mut counts.doomed);
            }
        }
    }
    if preparing > 2 {
        count(&mut counts.crowded);
    }
}

fn compare(rt: &impl Abort, engine: &Engine, draws: &mut Numbers, counts: &mut Counts) {
    note_preparing(engine, counts);
    let at = Stamp(draws.below(engine.table.clock().0.saturating_add(2)));
    for key in 0..4 {
        compare_shown(rt, engine, at, key_of(key), counts);
        compare_checks(rt, engine, Entry::Key(key_of(key)), counts);
        note_inserts(engine, key_of(key), counts);
    }
    let entry = Entry::Range(3, draws.below(SORTS), draws.below(SORTS));
    compare_checks(rt, engine, entry, counts);
}

/// Each case of interest is met often enough.
fn assert_met(rt: &impl Abort, counts: &Counts) {
    let floors = [
        (counts.speculative, 1_500),
        (counts.own, 1_500),
        (counts.own_deleted, 1_500),
        (counts.by_preparing, 1_500),
        (counts.crowded, 150),
        (counts.doomed, 150),
        (counts.inserted_twice, 50),
        (counts.ranges, 50),
    ];
    above(rt, &floors);
}

fn assert_run(rt: &impl Abort, counts: &Counts) {
    same(rt, &counts.strange, &0);
    let floors = [
        (counts.conflicts, 60),
        (counts.failed, 60),
        (counts.committed, 60),
        (counts.moved, 60),
        (counts.waits, 20),
        (counts.flagged, 20),
        (counts.ended_unput, 0),
    ];
    above(rt, &floors);
}

/// The steps with draws from one seed.
fn take_steps(
    rt: &impl Abort,
    engine: &mut Engine,
    seed: u64,
    counts: &mut Counts,
) -> Result<(), Fail> {
    let mut draws = Numbers::of(seed);
    for _step in 0..STEPS {
        engine.advance(&mut draws)?;
        compare(rt, engine, &mut draws, counts);
    }
    Ok(())
}

/// The steps of one seed. What they met is added.
fn agree(
    rt: &impl Abort,
    alloc: Global,
    seed: u64,
    counts: &mut Counts,
    run: &mut Counts,
) -> Result<(), Fail> {
    let mut engine = Engine::new(alloc, seed)?;
    swap(&mut engine.counts, run);
    let taken = take_steps(rt, &mut engine, seed, counts);
    swap(&mut engine.counts, run);
    taken
}

#[test]
fn agrees_with_plain_walks(rt: HostRuntime) -> Result<(), Fail> {
    let mut counts = Counts::new();
    let mut run = Counts::new();
    for seed in SEEDS {
        agree(&rt, rt.alloc(), seed, &mut counts, &mut run)?;
    }
    assert_met(&rt, &counts);
    assert_run(&rt, &run);
    Ok(())
}

const KEY: Entry = Entry::Key(RowKey { table: 3, key: 7 });

const RANGE: Entry = Entry::Range(3, 7, 9);

const EMPTY: Entry = Entry::Range(3, 9, 7);

/// Entries in turn, and whether each is new.
const CALLS: [(Entry, bool); 5] = [
    (RANGE, true),
    (KEY, true),
    (RANGE, false),
    (EMPTY, true),
    (KEY, false),
];

fn note_all(rt: &impl Abort, entries: &mut Entries) -> Result<(), Fail> {
    same(rt, &entries.at(0), &None);
    for (place, (entry, is_new)) in CALLS.iter().enumerate() {
        entries.make_room()?;
        same_at(rt, &entries.note(*entry), is_new, place as u64);
    }
    Ok(())
}

const IN_ORDER: [Option<Entry>; 4] = [Some(RANGE), Some(KEY), Some(EMPTY), None];

fn stand_in_order(rt: &impl Abort, entries: &Entries) {
    same(rt, &entries.len(), &3);
    for (place, entry) in IN_ORDER.iter().enumerate() {
        same_at(rt, &entries.at(place), entry, place as u64);
    }
}

fn check_entries(rt: &impl Abort, entries: &mut Entries) -> Result<(), Fail> {
    note_all(rt, entries)?;
    stand_in_order(rt, entries);
    holds(rt, entries.contains(EMPTY));
    holds(rt, !entries.contains(Entry::Key(key_of(9))));
    Ok(())
}

#[test]
fn entries_stand_in_the_order_of_their_first_use(rt: HostRuntime) -> Result<(), Fail> {
    let mut entries = Entries::new(rt.alloc());
    check_entries(&rt, &mut entries)
}

/// Notes a key, and sees whether it is a new one.
fn note_key(rt: &impl Abort, entries: &mut Entries, key: u64, is_new: bool) -> Result<(), Fail> {
    entries.make_room()?;
    holds(rt, entries.has_room());
    same_at(rt, &entries.note(Entry::Key(key_of(key))), &is_new, key);
    Ok(())
}

/// Notes the keys from 20 to 39 as they rise, those from 19 to 0 as they fall, and all once more.
fn note_many(rt: &impl Abort, entries: &mut Entries) -> Result<(), Fail> {
    for key in 20..40 {
        note_key(rt, entries, key, true)?;
    }
    for key in (0..20).rev() {
        note_key(rt, entries, key, true)?;
    }
    for key in 0..40 {
        note_key(rt, entries, key, false)?;
    }
    Ok(())
}

/// Places, and the keys that stand there.
const MANY: [(usize, u64); 6] = [(0, 20), (15, 35), (16, 36), (19, 39), (20, 19), (39, 0)];

fn many_stand_in_order(rt: &impl Abort, entries: &Entries) {
    same(rt, &entries.len(), &40);
    for (place, key) in MANY.iter() {
        same_at(
            rt,
            &entries.at(*place),
            &Some(Entry::Key(key_of(*key))),
            *key,
        );
    }
}

#[test]
fn many_keys_are_noted_once_in_each_order(rt: HostRuntime) -> Result<(), Fail> {
    let mut entries = Entries::new(rt.alloc());
    holds(&rt, !entries.has_room());
    note_and_clear(&rt, &mut entries)
}

fn note_and_clear(rt: &impl Abort, entries: &mut Entries) -> Result<(), Fail> {
    note_many(rt, entries)?;
    many_stand_in_order(rt, entries);
    entries.clear();
    note_many(rt, entries)?;
    many_stand_in_order(rt, entries);
    Ok(())
}
