//! Orders of three lines, by four threads, from a small stock. An order gives up where a line is
//! short, and nothing is left of the lines before it.
ghost use Rattle.std.specs.Prelude.{◌≡◌};
ghost use Rattle.mvo_engine.specs.Opened.{IsNamedBy};

use anyhow::bail;
use mvo_disk::{Disk, MemDisk};
use mvo_engine::{Engine, Fresh, OpenGate, Outcome, Run, Session, Transaction};
use mvo_types::{Refusal, Row, RowKey};
use std::alloc::Global;
use std::marker::Brand;
use std::sync::Wait;
use std::thread;
use std::thread::Threads;

/// How many threads order, and how often each does.
const THREADS: usize = 4;

const ORDERS: u64 = 50;

/// How many items there are, and how many pieces of each at the start: fewer than are ordered.
const ITEMS: u64 = 10;

const STOCK: u64 = 30;

/// How often an order is tried at most.
const TIMES: u32 = 1_000_000;

/// The tables of what is left of each item, and of what is sold. The sort of a row is the number.
const LEFT: u8 = 1;

const SOLD: u8 = 2;

/// One piece of each of three items.
#[derive(Drop)]
struct Order {
    alloc: Global,
    lines: [u64; 3],
}

impl<L: Run, D: Disk> Transaction<(), L, D, OpenGate> for Order {
    fn run<R: Wait>(
        &self,
        rt: &R,
        session: &mut Session<'_, L, D, OpenGate>,
    ) -> Result<Outcome<()>, Refusal> {
        let [first, second, third] = self.lines;
        if sell(rt, self.alloc, session, first)?
            && sell(rt, self.alloc, session, second)?
            && sell(rt, self.alloc, session, third)?
        {
            return Ok(Outcome::Commit(()));
        }
        Ok(Outcome::GiveUp(()))
    }
}

/// Sells a piece, if one is left.
fn sell<L: Run, D: Disk, R: Wait>(
    rt: &R,
    alloc: Global,
    session: &mut Session<'_, L, D, OpenGate>,
    item: u64,
) -> Result<bool, Refusal>
    ensures { session.new.receipts ≡ session.old.receipts }
{
    let left = number_of(&session.get(rt, key_of(LEFT, item))?);
    if left == 0 {
        return Ok(false);
    }
    let sold = number_of(&session.get(rt, key_of(SOLD, item))?);
    let left = Row::from_slice(alloc, key_of(LEFT, item), left.saturating_sub(1), &[])?;
    let sold = Row::from_slice(alloc, key_of(SOLD, item), sold.saturating_add(1), &[])?;
    session.put(rt, left)?;
    session.put(rt, sold)?;
    Ok(true)
}

fn key_of(table: u8, item: u64) -> RowKey {
    RowKey { table, key: item }
}

fn number_of(row: &Option<Row>) -> u64 {
    match row {
        Some(row) => row.sort,
        None => 0,
    }
}

/// What came of it: how many orders were sold, how many pieces, and how many are left.
#[derive(Drop)]
struct Sales {
    orders: u64,
    sold: u64,
    left: u64,
}

/// Opens the disk, and has all threads order.
fn on_disk<D: Disk + Drop + Send, R: Threads + Wait + Sync>(
    rt: &R,
    alloc: Global,
    seed: u64,
    disk: D,
) -> Result<Sales, Refusal> {
    match Fresh::open(rt, alloc, seed, disk) {
        Ok(fresh) => run::<Brand, D, R>(rt, alloc, fresh),
        Err((refusal, _)) => Err(refusal),
    }
}

fn run<L: Run + Send + Sync, D: Disk + Drop + Send, R: Threads + Wait + Sync>(
    rt: &R,
    alloc: Global,
    fresh: Fresh<D>,
) -> Result<Sales, Refusal>
    requires { IsNamedBy D.Disk L.opening L.marks L.ring L.name L.parts fresh }
{
    let engine = Engine::<L, D, OpenGate>::new(fresh, OpenGate);
    sell_all(rt, alloc, &engine)
}

fn sell_all<L: Run + Send + Sync, D: Disk + Drop + Send, R: Threads + Wait + Sync>(
    rt: &R,
    alloc: Global,
    engine: &Engine<L, D, OpenGate>,
) -> Result<Sales, Refusal> {
    let mut session = engine.session(rt)?;
    fill(rt, alloc, &mut session)?;
    let orders = order_in_threads(rt, alloc, engine)?;
    count(rt, &mut session, orders)
}

/// The orders of all threads. Answers how many were sold.
fn order_in_threads<L: Run + Send + Sync, D: Disk + Send, R: Threads + Wait + Sync>(
    rt: &R,
    alloc: Global,
    engine: &Engine<L, D, OpenGate>,
) -> Result<u64, Refusal> {
    let sold = thread::map_indices(
        rt,
        alloc,
        THREADS,
        &|worker| order_all(rt, alloc, engine, worker as u64),
    )?;
    sum_of(sold)
}

/// Puts the stock, in one transaction.
fn fill<L: Run, D: Disk, R: Wait>(
    rt: &R,
    alloc: Global,
    session: &mut Session<'_, L, D, OpenGate>,
) -> Result<(), Refusal> {
    session.begin_tx(rt)?;
    for item in 0..ITEMS {
        session.add(rt, Row::from_slice(alloc, key_of(LEFT, item), STOCK, &[])?)?;
    }
    session.commit_tx(rt)?;
    Ok(())
}

/// The orders of one thread. Answers how many were sold.
fn order_all<L: Run, D: Disk, R: Wait>(
    rt: &R,
    alloc: Global,
    engine: &Engine<L, D, OpenGate>,
    worker: u64,
) -> Result<u64, Refusal> {
    let mut session = engine.session(rt)?;
    let mut orders = 0u64;
    for number in 0..ORDERS {
        let order = choice(alloc, worker, number);
        if session.transact(rt, TIMES, &order)?.end.is_some() {
            orders = orders.saturating_add(1);
        }
    }
    Ok(orders)
}

/// Which items a thread orders.
fn choice(alloc: Global, worker: u64, number: u64) -> Order {
    let first = worker.wrapping_mul(3).wrapping_add(number);
    let lines = [
        first % ITEMS,
        first.wrapping_add(3) % ITEMS,
        first.wrapping_add(7) % ITEMS,
    ];
    Order { alloc, lines }
}

fn sum_of(sold: Vec<Result<u64, Refusal>>) -> Result<u64, Refusal> {
    let mut sum = 0u64;
    for one in sold {
        sum = sum.saturating_add(one?);
    }
    Ok(sum)
}

/// Counts what is sold and what is left.
fn count<L: Run, D: Disk, R: Wait>(
    rt: &R,
    session: &mut Session<'_, L, D, OpenGate>,
    orders: u64,
) -> Result<Sales, Refusal> {
    session.begin_tx(rt)?;
    let sold = total(&session.rows(rt, SOLD, 0, u64::MAX)?);
    let left = total(&session.rows(rt, LEFT, 0, u64::MAX)?);
    session.commit_tx(rt)?;
    Ok(Sales { orders, sold, left })
}

fn total(rows: &[Row]) -> u64 {
    let mut total = 0u64;
    for row in rows {
        total = total.saturating_add(row.sort);
    }
    total
}

/// Orders from the stock of a new store, and tells what came of it.
pub fn sell_out(
    rt: &(impl Print + Threads + Wait + Sync),
    alloc: Global,
    seed: u64,
    disk: MemDisk,
) -> Result<(), anyhow::Error> {
    let sales = match on_disk(rt, alloc, seed, disk) {
        Ok(sales) => sales,
        Err(refusal) => bail!("nothing is sold: {refusal}"),
    };
    println!(rt;
        "{} pieces left and sold",
        sales.left.saturating_add(sales.sold)
    )?;
    if sales.sold != sales.orders.saturating_mul(3) {
        bail!("not each order is whole")
    }
    println!(rt; "each order is whole")?;
    Ok(())
}
