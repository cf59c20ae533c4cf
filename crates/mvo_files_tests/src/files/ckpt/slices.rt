//! A checkpoint that is built in slices.
use crate::equal::same;
use crate::files::ckpt::making::{group_of_one, pair, row, table_of};
use mvo_ckpt::{Building, Built, Checkpoint, SLICE_WRITES};
use mvo_group::{Group, Write};
use mvo_pair::Pair;
use mvo_places::{Places, RecordPlace};
use mvo_types::RowKey;
use std::alloc::Global;
use std::test::Fail;

const KEY: RowKey = RowKey { table: 0, key: 5 };

/// A put of a key, a put of the other one, and a delete of the first.
fn groups(alloc: Global) -> Result<Vec<Group>, Fail> {
    let mut groups = Vec::new(alloc);
    let put = Write::Put(row(alloc, 5, 50, 0x61)?);
    groups.push(group_of_one(alloc, 0, 2, put)?)?;
    let put = Write::Put(row(alloc, 6, 50, 0x62)?);
    groups.push(group_of_one(alloc, 2, 4, put)?)?;
    groups.push(group_of_one(alloc, 4, 6, Write::Delete(KEY))?)?;
    Ok(groups)
}

/// The checkpoint of these groups, by slices of so many writes, and how many slices it was built
/// in.
fn sliced(
    alloc: Global,
    places: &Places,
    pairs: &[Pair],
    most: usize,
) -> Result<(Checkpoint, usize), Fail> {
    let mut building = Building::begin(alloc, places, groups(alloc)?);
    for count in 1usize..100 {
        building = match building.more(alloc, places, pairs, most)? {
            Built::More(next) => next,
            Built::Ready(made) => return Ok((made, count)),
        };
    }
    Err(Fail::from("no end"))
}

// Three groups with a transaction each are six steps; then come the end of the walk, two pairs and
// the end.
#[test]
fn a_checkpoint_is_built_in_slices(rt: HostRuntime) -> Result<(), Fail> {
    let alloc = rt.alloc();
    let place = RecordPlace {
        data_file: 4,
        number: 9,
    };
    let places = table_of(alloc, &[(KEY, place)])?;
    for (most, slices) in [(0, 10), (2, 7), (SLICE_WRITES, 4)] {
        let (made, count) = sliced(alloc, &places, &[pair(6), pair(4)], most)?;
        same(&rt, &count, &slices);
        same(&rt, &made.records.len(), &1);
        same(&rt, &made.gone.as_slice(), &[KEY].as_slice());
        same(&rt, &made.deltas.len(), &1);
    }
    Ok(())
}
