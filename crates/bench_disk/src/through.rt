//! A log of many segments through a world that is kept: how many segments there are at most, and
//! whether its rows are those of the commits.

use anyhow::{Result, bail};
use mvo_disk::Disk;
use mvo_keep::{Chore, Keeper, Policy, Sight};
use mvo_script::{Driver, LineReply};
use mvo_store::Store;
use mvo_types::{Refusal, RowKey, Rows};
use mvo_world::{Reply, World};
use std::alloc::Global;
use std::io::Write;
use std::thread::Threads;

/// The seed of the store's tables.
const SEED: u64 = 7;

/// How many rows there are, how many of them a transaction replaces, and how many bytes of data
/// each has.
const ROWS: u64 = 4_096;

const REPLACED: u64 = 256;

const DATA: u64 = 4_096;

/// How many turns come behind each transaction.
const TURNS: u64 = 40;

/// What a run came to.
#[derive(Clone, Copy)]
pub struct Through {
    /// How many bytes were appended.
    pub bytes: u64,
    /// The most segments that there were.
    pub segments: usize,
    /// How many checkpoints and merges began.
    pub checkpoints: u64,
    pub merges: u64,
    /// The most by which checkpoints were ahead of merges: there never were more pairs.
    pub pairs: u64,
}

impl Through {
    /// What it came to before it began.
    fn none() -> Through {
        Through {
            bytes: 0,
            segments: 0,
            checkpoints: 0,
            merges: 0,
            pairs: 0,
        }
    }

    /// Counts a chore.
    fn note(&mut self, chore: Chore) {
        match chore {
            Chore::Checkpoint => self.checkpoints = self.checkpoints.saturating_add(1),
            Chore::Merge(_) => self.merges = self.merges.saturating_add(1),
            _ => {}
        }
        self.pairs = self.pairs.max(self.checkpoints.saturating_sub(self.merges));
    }

    /// Counts the groups between two sights of a world.
    fn note_log(&mut self, before: Sight, behind: Sight) {
        let grown = (behind.last_segment as u64).saturating_sub(before.last_segment as u64);
        self.bytes = self.bytes.saturating_add(grown);
        self.segments = self.segments.max(behind.segments);
    }
}

/// A segment of 1 MiB is full, eight pairs are many, and 64 dead records.
fn policy() -> Policy {
    Policy {
        many_pairs: 8,
        full_segment: 1_048_576,
        most_live: 4_194_304,
        many_dead: 64,
        collected: 1_024,
        in_a_row: 16,
    }
}

/// The byte of a row's data after so many transactions.
fn byte_of(key: u64, transactions: u64) -> u8 {
    let turns = ROWS.checked_div(REPLACED).unwrap_or(1);
    let place = key.checked_div(REPLACED).unwrap_or(0);
    // The last transaction that replaced it, counted from 1.
    let behind = transactions.wrapping_sub(place.wrapping_add(1));
    let last = transactions.wrapping_sub(behind.checked_rem(turns).unwrap_or(0));
    last.to_le_bytes()[0]
}

/// Asks a line, and answers whether it is refused.
fn ask<D: Disk>(driver: &mut Driver<D>, line: &[u8]) -> Option<Refusal> {
    match driver.answer(line) {
        LineReply::Answered(Reply::Refused(refusal)) => Some(refusal),
        _ => None,
    }
}

fn asked<D: Disk>(driver: &mut Driver<D>, line: &[u8]) -> Result<()> {
    match ask(driver, line) {
        Some(refusal) => bail!("a line is refused: {refusal}"),
        None => Ok(()),
    }
}

/// The transaction of this number, counted from 1, puts the rows of its turn anew.
fn commit<D: Disk>(alloc: Global, driver: &mut Driver<D>, number: u64) -> Result<()> {
    let turns = ROWS.checked_div(REPLACED).unwrap_or(1);
    let place = number.wrapping_sub(1).checked_rem(turns).unwrap_or(0);
    let first = place.wrapping_mul(REPLACED);
    let word = if number > turns { "update" } else { "insert" };
    let data = data_of(alloc, number.to_le_bytes()[0])?;
    let mut line = Vec::new(alloc);
    asked(driver, b"begin t")?;
    for key in first..first.saturating_add(REPLACED) {
        line.clear();
        write!(line, "{word} t 0 {key} {key} ")?;
        line.extend_from_slice(&data)?;
        asked(driver, &line)?;
    }
    asked(driver, b"commit t")
}

/// The digits of so many bytes.
fn data_of(alloc: Global, byte: u8) -> Result<Vec<u8>> {
    let mut data = Vec::with_capacity(alloc, 2 * DATA as usize)?;
    for _ in 0..DATA {
        write!(data, "{byte:02x}")?;
    }
    Ok(data)
}

/// Makes turns.
fn keep<D: Disk>(driver: &mut Driver<D>, keeper: &mut Keeper, through: &mut Through) -> Result<()> {
    for _ in 0..TURNS {
        match driver.keep(&policy(), keeper) {
            Ok(Some(chore)) => through.note(chore),
            Ok(None) => {}
            Err(refusal) => bail!("a look is refused: {refusal}"),
        }
    }
    Ok(())
}

/// A transaction, a flush, and what is due then.
fn round<D: Disk + Drop>(
    alloc: Global,
    world: World<D>,
    keeper: &mut Keeper,
    number: u64,
    through: &mut Through,
) -> Result<World<D>> {
    let before = world.sight();
    let mut driver = Driver::over(alloc, world);
    commit(alloc, &mut driver, number)?;
    asked(&mut driver, b"flush")?;
    let world = driver.into_world();
    through.note_log(before, world.sight());
    let mut driver = Driver::over(alloc, world);
    keep(&mut driver, keeper, through)?;
    Ok(driver.into_world())
}

/// Brings so many MiB of log through a world over the disk, and compares the rows of what is on it
/// then.
pub fn run<D: Disk + Drop>(
    rt: &(impl Threads + Sync),
    alloc: Global,
    disk: D,
    mebibytes: u64,
) -> Result<Through> {
    let Ok(mut world) = World::open(rt, alloc, SEED, disk) else {
        bail!("the store isn't opened");
    };
    let mut keeper = Keeper::new();
    let mut through = Through::none();
    for number in 1..mebibytes.saturating_add(1) {
        world = round(alloc, world, &mut keeper, number, &mut through)?;
    }
    compare(rt, alloc, world.into_disk(), mebibytes)?;
    Ok(through)
}

/// Compares the rows of the store on the disk.
fn compare<D: Disk + Drop>(
    rt: &(impl Threads + Sync),
    alloc: Global,
    disk: D,
    transactions: u64,
) -> Result<()> {
    let Ok((store, rows, _)) = Store::open(rt, alloc, SEED, disk) else {
        bail!("the store isn't opened again");
    };
    let _ = store.into_disk();
    are_rows_of(&rows, transactions)
}

/// Whether each row is the one that was committed last.
fn are_rows_of(rows: &Rows, transactions: u64) -> Result<()> {
    for key in 0..ROWS {
        let Some(row) = rows.get(RowKey { table: 0, key })? else {
            bail!("a row is missing");
        };
        let byte = byte_of(key, transactions);
        if row.bytes().iter().any(|it| *it != byte) {
            bail!("a row is another");
        }
    }
    Ok(())
}
