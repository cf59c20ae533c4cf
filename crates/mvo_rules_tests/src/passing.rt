//! An old reader, which passes over many newer versions of a key at a step, is shown what a plain
//! list says, as versions come, end, come to the front and go.
use crate::equal::{holds, same_at};
use mvo_chain::VersionNo;
use mvo_txn::TxnTable;
use mvo_types::{Row, RowKey, Rows, Stamp, TxId};
use mvo_versions::Versions;
use mvo_word::Word;
use std::alloc::{AllocError, Global};
use std::process::Abort;
use std::test::Fail;
use std::thread::Threads;

const KEY: RowKey = RowKey { table: 2, key: 5 };

/// No reader begins at this or later.
const LATEST: u64 = 1000;

/// When a version begins, and when it ends, if it does.
#[derive(Clone, Copy)]
struct Plain {
    number: VersionNo,
    begin: u32,
    end: Option<u32>,
}

/// The versions of a key, and a plain list of them, newest last.
struct Both {
    versions: Versions,
    table: TxnTable<u64>,
    list: Vec<Plain>,
}

impl Drop for Both {
    fn drop(self) {
        let Both {
            versions: _,
            table: _,
            list: _,
        } = self;
    }
}

fn row(alloc: Global, sort: u32) -> Result<Row, AllocError> {
    Row::from_slice(alloc, KEY, u64::from(sort), &[7])
}

/// One version, which begins at 2.
fn begin(rt: &(impl Threads + Sync), alloc: Global) -> Result<Both, Fail> {
    let mut rows = Rows::new(alloc);
    rows.put(row(alloc, 0)?)?;
    let mut list = Vec::new(alloc);
    list.push(Plain {
        number: VersionNo(0),
        begin: 2,
        end: None,
    })?;
    Ok(Both {
        versions: Versions::load(rt, alloc, 5, rows, Stamp(2))?,
        table: TxnTable::new(alloc, Stamp(2))?,
        list,
    })
}

fn stamp_of(at: Option<u32>) -> Word {
    match at {
        Some(at) => Word::stamp(Stamp(u64::from(at))),
        None => Word::INFINITY,
    }
}

/// Its last version ends by a transaction, and this commits at the time.
fn end_last(both: &mut Both, at: u32) {
    let Some(last) = both.list.last_mut() else {
        return;
    };
    last.end = Some(at);
    if both.versions.get(last.number).is_some() {
        both.versions.end(last.number, TxId(u64::from(at)));
    }
    if both.versions.get(last.number).is_some() {
        both.versions.set_end(last.number, stamp_of(Some(at)));
    }
}

/// And the end is taken back.
fn last_goes_on(both: &mut Both) {
    let Some(last) = both.list.last_mut() else {
        return;
    };
    last.end = None;
    if both.versions.get(last.number).is_some() {
        both.versions.set_end(last.number, stamp_of(None));
    }
}

/// A version is put by a transaction that has not ended.
fn put(alloc: Global, both: &mut Both, by: u32) -> Result<VersionNo, AllocError> {
    both.versions
        .put(row(alloc, by / 100)?, TxId(u64::from(by)), None)
}

/// The transaction commits at the time.
fn commit(both: &mut Both, number: VersionNo, at: u32) -> Result<(), AllocError> {
    if both.versions.get(number).is_some() {
        both.versions.set_begin(number, stamp_of(Some(at)));
    }
    both.list.push(Plain {
        number,
        begin: at,
        end: None,
    })?;
    Ok(())
}

fn update(alloc: Global, both: &mut Both, at: u32) -> Result<(), AllocError> {
    let number = put(alloc, both, at)?;
    end_last(both, at);
    commit(both, number, at)
}

/// The first of two that were put comes to the front, and begins where the other one ends.
fn update_twice(alloc: Global, both: &mut Both, at: u32) -> Result<(), AllocError> {
    let newest = put(alloc, both, at)?;
    let number = put(alloc, both, at)?;
    end_last(both, at);
    if both.versions.get(newest).is_some() {
        both.versions.bring_to_front(newest);
    }
    commit(both, number, at)?;
    let later = at.saturating_add(2);
    end_last(both, later);
    commit(both, newest, later)
}

/// A version that has ended comes to the front, and goes from there.
fn front_and_out(both: &mut Both, at: usize) {
    if let Some(plain) = both.list.get(at) {
        if both.versions.get(plain.number).is_some() {
            both.versions.bring_to_front(plain.number);
        }
    }
    take_out(both, at);
}

fn take_out(both: &mut Both, at: usize) {
    if at < both.list.len() {
        let number = both.list.remove(at).number;
        if both.versions.get(number).is_some() {
            both.versions.take_out(number);
        }
    }
}

/// Whether the version begins before the reader, and doesn't end before it.
fn is_shown(plain: &Plain, reader: u64) -> bool {
    let ended = match plain.end {
        Some(end) => u64::from(end) < reader,
        None => false,
    };
    u64::from(plain.begin) < reader && !ended
}

fn plain_shown(list: &[Plain], reader: u64) -> Option<VersionNo> {
    for plain in list {
        if is_shown(plain, reader) {
            return Some(plain.number);
        }
    }
    None
}

/// Each reader is shown what the list says, and so is nobody as of its begin. No two times are one:
/// versions have even ones.
fn agree(rt: &impl Abort, both: &Both) {
    for half in 0..LATEST / 2 {
        let reader = half.saturating_mul(2).saturating_add(1);
        let shown = both.versions.shown(&both.table, TxId(reader), KEY);
        let wanted = plain_shown(both.list.as_slice(), reader);
        same_at(rt, &shown.version, &wanted, reader);
        same_at(rt, &shown.depends_on, &None, reader);
        let to_nobody = both
            .versions
            .shown_as(&both.table, Stamp(reader), TxId(0), KEY);
        same_at(rt, &to_nobody.version, &wanted, reader);
    }
}

/// So many versions more, two apart.
fn come(
    rt: &impl Abort,
    alloc: Global,
    both: &mut Both,
    from: u32,
    count: u32,
) -> Result<(), Fail> {
    for step in 0..count {
        update(alloc, both, from.saturating_add(step.saturating_mul(2)))?;
        if step % 60 == 0 {
            agree(rt, both);
        }
    }
    agree(rt, both);
    Ok(())
}

/// So many go: the one at the place, and each so much behind the one that went before.
fn go(rt: &impl Abort, both: &mut Both, from: usize, apart: usize, count: usize) {
    for step in 0..count {
        take_out(both, from.saturating_add(step.saturating_mul(apart)));
        if step % 8 == 0 {
            agree(rt, both);
        }
    }
    agree(rt, both);
}

#[test]
fn old_readers_are_shown_the_same_as_versions_come(rt: HostRuntime) -> Result<(), Fail> {
    let mut both = begin(&rt, rt.alloc())?;
    come(&rt, rt.alloc(), &mut both, 4, 300)?;
    holds(&rt, both.list.len() == 301);
    Ok(())
}

fn end(rt: &impl Abort, alloc: Global, both: &mut Both) -> Result<(), Fail> {
    come(rt, alloc, both, 4, 300)?;
    end_last(both, 610);
    agree(rt, both);
    last_goes_on(both);
    agree(rt, both);
    end_last(both, 620);
    let number = put(alloc, both, 630)?;
    commit(both, number, 630)?;
    agree(rt, both);
    Ok(())
}

#[test]
fn old_readers_are_shown_the_same_as_versions_end(rt: HostRuntime) -> Result<(), Fail> {
    let mut both = begin(&rt, rt.alloc())?;
    end(&rt, rt.alloc(), &mut both)
}

fn come_to_the_front(rt: &impl Abort, alloc: Global, both: &mut Both) -> Result<(), Fail> {
    come(rt, alloc, both, 4, 270)?;
    for step in 0..20u32 {
        update_twice(alloc, both, step.saturating_mul(4).saturating_add(600))?;
        agree(rt, both);
    }
    front_and_out(both, 200);
    agree(rt, both);
    Ok(())
}

#[test]
fn old_readers_are_shown_the_same_as_one_comes_to_the_front(rt: HostRuntime) -> Result<(), Fail> {
    let mut both = begin(&rt, rt.alloc())?;
    come_to_the_front(&rt, rt.alloc(), &mut both)
}

/// From which place, how far apart and how many go.
const GOING: [(usize, usize, usize); 4] = [(260, 0, 4), (120, 0, 20), (0, 0, 4), (3, 5, 30)];

/// The numbers of those that went are given again, to the newest ones.
fn go_and_come(rt: &impl Abort, alloc: Global, both: &mut Both) -> Result<(), Fail> {
    come(rt, alloc, both, 4, 300)?;
    for (from, apart, count) in GOING {
        go(rt, both, from, apart, count);
    }
    come(rt, alloc, both, 610, 150)?;
    go(rt, both, 0, 0, 60);
    Ok(())
}

#[test]
fn old_readers_are_shown_the_same_as_versions_go(rt: HostRuntime) -> Result<(), Fail> {
    let mut both = begin(&rt, rt.alloc())?;
    go_and_come(&rt, rt.alloc(), &mut both)
}
