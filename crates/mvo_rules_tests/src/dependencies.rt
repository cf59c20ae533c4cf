use crate::equal::same;
use mvo_deps::{
    Dependencies, Node, register, register_all, report_abort, report_commit, waiting_for,
};
use mvo_txn::{Located, TxState, TxnTable};
use mvo_types::{Refusal, Stamp, TxId};
use std::alloc::{AllocError, Global};
use std::process::Abort;
use std::test::Fail;

type Table = TxnTable<Node<u64>>;

/// What the plain list has of a transaction.
#[derive(Drop)]
struct Plain {
    id: TxId,
    on: Vec<TxId>,
    aborted: Option<TxId>,
}

/// A generator of numbers, by a seed.
#[derive(Drop)]
struct Draws(u64);

impl Draws {
    fn below(&mut self, bound: u64) -> u64 {
        self.0 = self
            .0
            .wrapping_mul(6_364_136_223_846_793_005)
            .wrapping_add(1_442_695_040_888_963_407);
        if bound == 0 {
            0
        } else {
            (self.0 >> 33) % bound
        }
    }
}

fn begin(table: &mut Table, alloc: Global) -> Result<TxId, Refusal> {
    table.begin(Node {
        dependencies: Dependencies::new(alloc),
        own: 7,
    })
}

fn located(table: &Table, id: TxId) -> Located {
    let seat = table.seat_of(id);
    Located { id, seat }
}

fn prepare(table: &mut Table, id: TxId) -> Result<(), Refusal> {
    let seat = table.seat_of(id);
    if let Some(TxState::Active) = table.state(id) {
        table.prepare(Located { id, seat })?;
    }
    Ok(())
}

fn settle(table: &mut Table, id: TxId, aborts: bool) {
    let seat = table.seat_of(id);
    let tx = Located { id, seat };
    match table.state(id) {
        Some(TxState::Preparing(_)) if aborts => {
            table.abort(tx);
            report_abort(table, tx);
        }
        Some(TxState::Preparing(_)) => {
            let _ = table.commit(tx);
            report_commit(table, tx);
        }
        _ => {}
    }
}

fn is_preparing(table: &Table, id: TxId) -> bool {
    match table.state(id) {
        Some(TxState::Preparing(_)) => true,
        _ => false,
    }
}

/// For whom a transaction waits.
fn awaited(table: &Table, id: TxId) -> Option<TxId> {
    match table.get(located(table, id)) {
        Some(seat) => waiting_for(table, &seat.kept.dependencies),
        None => None,
    }
}

/// The counter, the flag and whom it waits for, as a walk over the plain list tells them. Ends are
/// drawn in the order of ids here.
fn compare(rt: &impl Abort, table: &Table, plain: &Plain) {
    let mut unsettled = 0usize;
    let mut least: Option<TxId> = None;
    for id in &plain.on {
        if is_preparing(table, *id) {
            unsettled = unsettled.saturating_add(1);
            least = Some(match least {
                Some(other) => TxId(other.0.min(id.0)),
                None => *id,
            });
        }
    }
    same(rt, &awaited(table, plain.id), &least);
    if let Some(seat) = table.get(located(table, plain.id)) {
        same(rt, &seat.kept.own, &7);
        same(rt, &seat.kept.dependencies.unsettled(), &unsettled);
        same(rt, &seat.kept.dependencies.aborted(), &plain.aborted);
    }
}

/// Registers a dependency twice, where it is one to register.
fn depend(table: &mut Table, plain: &mut Plain, on: TxId) -> Result<(), AllocError> {
    if !is_preparing(table, on) || on.0 >= plain.id.0 {
        return Ok(());
    }
    let tx = located(table, plain.id);
    register(table, tx, on)?;
    register(table, tx, on)?;
    if !plain.on.contains(&on) {
        plain.on.push(on)?;
    }
    Ok(())
}

fn note_abort(list: &mut Vec<Plain>, id: TxId) {
    for plain in list.iter_mut() {
        if plain.aborted.is_none() && plain.on.contains(&id) {
            plain.aborted = Some(id);
        }
    }
}

/// Begins one in both.
fn begin_both(table: &mut Table, list: &mut Vec<Plain>, alloc: Global) -> Result<(), Refusal> {
    let id = begin(table, alloc)?;
    list.push(Plain {
        id,
        on: Vec::new(alloc),
        aborted: None,
    })?;
    Ok(())
}

/// Begins 40 in both, of which the first 20 are Preparing then.
fn begin_all(table: &mut Table, list: &mut Vec<Plain>, alloc: Global) -> Result<(), Refusal> {
    for _ in 0..40 {
        begin_both(table, list, alloc)?;
    }
    for id in 1..=20 {
        prepare(table, TxId(id))?;
    }
    Ok(())
}

/// Settles one in both, which may abort it.
fn settle_both(table: &mut Table, list: &mut Vec<Plain>, on: TxId, aborts: bool) {
    if aborts && is_preparing(table, on) {
        note_abort(list, on);
    }
    settle(table, on, aborts);
}

/// A step on both.
fn step_on_both(
    table: &mut Table,
    list: &mut Vec<Plain>,
    draws: &mut Draws,
) -> Result<(), AllocError> {
    let on = TxId(draws.below(20).wrapping_add(1));
    if draws.below(8) == 0 {
        settle_both(table, list, on, draws.below(2) == 0);
    }
    let place = draws.below(40) as usize;
    match list.get_mut(place) {
        Some(plain) => depend(table, plain, on),
        None => Ok(()),
    }
}

fn walk_both(
    rt: &impl Abort,
    table: &mut Table,
    list: &mut Vec<Plain>,
    seed: u64,
) -> Result<(), Fail> {
    let mut draws = Draws(seed);
    for _ in 0..400 {
        step_on_both(table, list, &mut draws)?;
        for plain in &*list {
            compare(rt, table, plain);
        }
    }
    Ok(())
}

fn begin_and_walk(
    rt: &impl Abort,
    alloc: Global,
    table: &mut Table,
    seed: u64,
) -> Result<(), Fail> {
    let mut list: Vec<Plain> = Vec::new(alloc);
    begin_all(table, &mut list, alloc)?;
    walk_both(rt, table, &mut list, seed)
}

fn walk(rt: &impl Abort, alloc: Global, seed: u64) -> Result<(), Fail> {
    let mut table = TxnTable::new(alloc, Stamp(0))?;
    begin_and_walk(rt, alloc, &mut table, seed)
}

#[test]
fn is_as_a_plain_list(rt: HostRuntime) -> Result<(), Fail> {
    for seed in 1..=5 {
        walk(&rt, rt.alloc(), seed)?;
    }
    Ok(())
}

fn depend_on_all(table: &mut Table, id: TxId, on: &[TxId]) -> Result<(), AllocError> {
    let seat = table.seat_of(id);
    match table.state(id) {
        Some(_) => register_all(table, Located { id, seat }, on),
        None => Ok(()),
    }
}

/// The fifth depends on three of the others, which are Preparing.
fn depend_on_three(table: &mut Table, alloc: Global) -> Result<(), Fail> {
    for _ in 0..5 {
        begin(table, alloc)?;
    }
    for id in 1..=4 {
        prepare(table, TxId(id))?;
    }
    let fifth = located(table, TxId(5));
    register(table, fifth, TxId(3))?;
    depend_on_all(table, TxId(5), &[TxId(4), TxId(2), TxId(4), TxId(3)])?;
    Ok(())
}

/// The fifth waits for the three, one after another.
fn wait_for_three(rt: &impl Abort, table: &mut Table) {
    let on = [TxId(2), TxId(3), TxId(4)];
    for (settled, id) in on.iter().enumerate() {
        same(rt, &awaited(table, TxId(5)), &Some(*id));
        if let Some(seat) = table.get(located(table, TxId(5))) {
            same(
                rt,
                &seat.kept.dependencies.unsettled(),
                &3usize.saturating_sub(settled),
            );
        }
        settle(table, *id, false);
    }
    same(rt, &awaited(table, TxId(5)), &None);
}

fn depend_and_wait(rt: &impl Abort, alloc: Global, table: &mut Table) -> Result<(), Fail> {
    depend_on_three(table, alloc)?;
    wait_for_three(rt, table);
    Ok(())
}

#[test]
fn registers_several(rt: HostRuntime) -> Result<(), Fail> {
    let mut table = TxnTable::new(rt.alloc(), Stamp(0))?;
    depend_and_wait(&rt, rt.alloc(), &mut table)
}
