//! Loads the live records of all pairs.
ghost use Rattle.std.specs.Prelude.{◌≡◌, ◌<◌, ◌+◌, ◌^◌, List, IfOk};
ghost use Rattle.mvo_pair.specs.Data.{Numbered};
ghost use Rattle.mvo_pair.specs.Data.{AreApart};
ghost use Rattle.mvo_places.specs.Rows.{rows_of};
ghost use Rattle.mvo_load.specs.Parts.{Joins};
ghost use Rattle.mvo_load.specs.Pairs.{HavePairs};

use crate::at_once::at_once;
use crate::gather::gather;
use crate::pair_reader::PairReader;
use crate::single::pair_on;
use mvo_disk::Disk;
use mvo_manifest::Manifest;
use mvo_pair::{DataRecord, Live};
use mvo_places::Places;
use mvo_types::{Refusal, Rows};
use std::alloc::{AllocError, Global};

/// Fewer records than this are read one pair after another: starting threads takes longer than it.
const FEW_RECORDS: u64 = 8_192;

/// Puts the live records of a pair on the rows of those before. Whether no two of all have one key.
pub fn join(rows: &mut Rows, live: Vec<Live>) -> Result<bool, AllocError>
    ensures { IfOk result (λ apart. (before : List (List Numbered)) → AreApart before →
        rows.old ≡ rows_of before → Joins before live.items apart rows.new) }
{
    let count = live.len();
    let before = rows.len();
    for one in live {
        let Live { entry, .. } = one;
        let DataRecord { row, .. } = entry;
        rows.put(row)?;
    }
    // A key that stood there already makes no new place.
    Ok(rows.len() - before == count)
}

/// The rows and the places of the live records of a manifest's pairs, one pair after another.
fn load_in_turn<D: Disk>(
    alloc: Global,
    disk: &mut D,
    upto: u32,
    manifest: &Manifest,
    seed: u64,
) -> Result<(Rows, Places), Refusal>
    requires room { D.fault_count disk.old + 1 < 2 ^ 64 }
    ensures { HavePairs D.Disk upto manifest.now disk.old disk.new result }
{
    let mut places = Places::new(alloc, seed);
    let mut rows = Rows::new(alloc);
    let mut rest = manifest.pairs();
    while let [pair, after @ ..] = rest {
        let live = match pair_on(alloc, disk, upto, *pair) {
            Ok(live) => live,
            Err(e) => return Err(e),
        };
        places.add_pair(pair.data_file, &live)?;
        if !join(&mut rows, live)? {
            return Err(Refusal::Corrupt(pair.data_file));
        }
        rest = after;
    }
    Ok((rows, places))
}

/// The rows and the places of the live records of a manifest's pairs, made of all of them at once.
/// Where a pair breaks a rule, or two records have one key, the pairs are read again one after
/// another, to find the first broken rule.
fn load_beside<D: Disk, P: PairReader>(
    reader: &P,
    alloc: Global,
    disk: &mut D,
    upto: u32,
    manifest: &Manifest,
    seed: u64,
) -> Result<(Rows, Places), Refusal>
    requires reader { P.may_read }
    requires room { D.fault_count disk.old + 1 < 2 ^ 64 }
    ensures { HavePairs D.Disk upto manifest.now disk.old disk.new result }
{
    let gathered = match gather(reader, alloc, disk, upto, manifest) {
        Ok(gathered) => gathered,
        Err(e) => return Err(e),
    };
    if let Some(all) = gathered {
        if let Some(made) = at_once(alloc, seed, all)? {
            return Ok(made);
        }
    }
    match load_in_turn(alloc, disk, upto, manifest, seed) {
        Ok(found) => Ok(found),
        Err(e) => Err(e),
    }
}

/// How many records the pairs of a manifest have, by what it says of them.
fn count_of(manifest: &Manifest) -> u64 {
    let mut count = 0u64;
    for pair in manifest.pairs() {
        count = count.saturating_add(pair.records as u64);
    }
    count
}

/// The rows and the places of the live records of a manifest's pairs: of few one pair after
/// another, and of more all at once, as the reader reads them.
pub fn load_pairs<D: Disk, P: PairReader>(
    reader: &P,
    alloc: Global,
    disk: &mut D,
    upto: u32,
    manifest: &Manifest,
    seed: u64,
) -> Result<(Rows, Places), Refusal>
    requires reader { P.may_read }
    requires room { D.fault_count disk.old + 1 < 2 ^ 64 }
    ensures { HavePairs D.Disk upto manifest.now disk.old disk.new result }
{
    if count_of(manifest) < FEW_RECORDS {
        return match load_in_turn(alloc, disk, upto, manifest, seed) {
            Ok(found) => Ok(found),
            Err(e) => Err(e),
        };
    }
    match load_beside(reader, alloc, disk, upto, manifest, seed) {
        Ok(found) => Ok(found),
        Err(e) => Err(e),
    }
}
