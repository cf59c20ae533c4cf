//! Garbage is taken out, and nothing else.
use crate::equal::{holds, same, same_at};
use mvo_chain::VersionNo;
use mvo_collect::{Collection, Waiting, collect_one};
use mvo_types::{Row, RowKey, Rows, Stamp, TxId};
use mvo_versions::Versions;
use mvo_word::Word;
use std::alloc::{AllocError, Global};
use std::process::Abort;
use std::test::Fail;
use std::thread::Threads;

/// Versions, and what waits among them.
struct Kept {
    versions: Versions,
    waiting: Waiting,
}

impl Drop for Kept {
    fn drop(self) {
        let Kept {
            versions: _,
            waiting: _,
        } = self;
    }
}

fn row(alloc: Global, key: u64) -> Result<Row, AllocError> {
    Row::from_slice(alloc, RowKey { table: 0, key }, key, &[97])
}

/// Rows with the keys 1 and 2, put at the mark 2: the versions 0 and 1.
fn two_rows(rt: &(impl Threads + Sync), alloc: Global) -> Result<Kept, AllocError> {
    let mut rows = Rows::new(alloc);
    for key in [1, 2] {
        rows.put(row(alloc, key)?)?;
    }
    Ok(Kept {
        versions: Versions::load(rt, alloc, 7, rows, Stamp(2))?,
        waiting: Waiting::new(alloc),
    })
}

fn is_there(kept: &Kept, number: u32) -> bool {
    kept.versions.get(VersionNo(number)).is_some()
}

/// A call with this start comes to that.
fn collects(rt: &impl Abort, kept: &mut Kept, start: u64, wanted: Collection) {
    let came_to = collect_one(&mut kept.versions, &mut kept.waiting, Stamp(start));
    same_at(rt, &came_to, &wanted, start);
}

fn set_end(kept: &mut Kept, number: VersionNo, end: Word) {
    if kept.versions.get(number).is_some() {
        kept.versions.set_end(number, end);
    }
}

/// A transaction with this end has ended the version.
fn end_at(kept: &mut Kept, number: u32, end: u32) -> Result<(), AllocError> {
    let end = Stamp(u64::from(end));
    kept.waiting.make_room_for_ended(1)?;
    kept.waiting.push_ended(end, VersionNo(number));
    set_end(kept, VersionNo(number), Word::stamp(end));
    Ok(())
}

#[test]
fn a_version_goes_once_its_end_is_not_above_the_start(rt: HostRuntime) -> Result<(), Fail> {
    let mut kept = two_rows(&rt, rt.alloc())?;
    goes_at_its_end(&rt, &mut kept)
}

fn goes_at_its_end(rt: &impl Abort, kept: &mut Kept) -> Result<(), Fail> {
    collects(rt, kept, 9, Collection::Nothing);
    end_at(kept, 0, 4)?;
    collects(rt, kept, 3, Collection::Nothing);
    holds(rt, is_there(kept, 0));
    collects(rt, kept, 4, Collection::Collected);
    holds(rt, !is_there(kept, 0));
    holds(rt, is_there(kept, 1));
    collects(rt, kept, 9, Collection::Nothing);
    Ok(())
}

#[test]
fn what_is_no_garbage_any_more_is_passed_over(rt: HostRuntime) -> Result<(), Fail> {
    let mut kept = two_rows(&rt, rt.alloc())?;
    passes_over(&rt, &mut kept)
}

fn passes_over(rt: &impl Abort, kept: &mut Kept) -> Result<(), Fail> {
    end_at(kept, 0, 4)?;
    end_at(kept, 1, 5)?;
    set_end(kept, VersionNo(0), Word::INFINITY);
    collects(rt, kept, 5, Collection::Collected);
    holds(rt, is_there(kept, 0));
    holds(rt, !is_there(kept, 1));
    Ok(())
}

/// A transaction puts a row, is aborted and finishes the word.
fn put_and_take_back(kept: &mut Kept, row: Row) -> Result<VersionNo, AllocError> {
    kept.waiting.make_room()?;
    let number = kept.versions.put(row, TxId(3), None)?;
    kept.waiting.owe();
    if kept.versions.get(number).is_some() {
        kept.versions.set_begin(number, Word::INFINITY);
    }
    kept.waiting.bury(number);
    Ok(number)
}

#[test]
fn a_put_that_was_taken_back_goes_at_any_start(rt: HostRuntime) -> Result<(), Fail> {
    let mut kept = two_rows(&rt, rt.alloc())?;
    goes_after_an_abort(&rt, rt.alloc(), &mut kept)
}

fn goes_after_an_abort(rt: &impl Abort, alloc: Global, kept: &mut Kept) -> Result<(), Fail> {
    let number = put_and_take_back(kept, row(alloc, 5)?)?;
    same(rt, &number, &VersionNo(2));
    collects(rt, kept, 0, Collection::Collected);
    holds(rt, !is_there(kept, 2));
    collects(rt, kept, 0, Collection::Nothing);
    Ok(())
}

/// A word is replaced after a commit: nothing waits for it.
#[test]
fn what_is_repaid_leaves_nothing(rt: HostRuntime) -> Result<(), Fail> {
    let mut kept = two_rows(&rt, rt.alloc())?;
    kept.waiting.make_room()?;
    kept.waiting.owe();
    kept.waiting.repay();
    collects(&rt, &mut kept, 0, Collection::Nothing);
    Ok(())
}
