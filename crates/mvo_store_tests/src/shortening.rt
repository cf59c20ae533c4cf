//! Long files that nobody names.
use crate::disks::{are_long, new_disk, written};
use crate::reply::Reply::{self, Emptied, Written};
use crate::step::Step::{self, Reclaim, Shorten};
use crate::stores::{follow, store_on};
use mvo_store::{Progress, Reclaimed};
use std::test::Fail;

/// What a slice cuts off, and what it leaves where it is all that there is.
const SLICE: usize = 8_388_608;

/// Two slices and two bytes more.
const LONG: usize = 16_777_218;

const CUT_IN_TWO: [(Step, Reply); 4] = [
    (Shorten, Written(Progress::More)),
    (Shorten, Written(Progress::More)),
    (Shorten, Written(Progress::Ready)),
    (Shorten, Written(Progress::Ready)),
];

const THEN_EMPTIED: [(Step, Reply); 3] = [
    (Reclaim, Emptied(Reclaimed::More)),
    (Reclaim, Emptied(Reclaimed::More)),
    (Reclaim, Emptied(Reclaimed::Done)),
];

#[test]
fn long_files_are_cut_by_slices(rt: HostRuntime) -> Result<(), Fail> {
    let short = vec![in rt.alloc(); 0x61u8; SLICE]?;
    let long = vec![in rt.alloc(); 0x61u8; LONG]?;
    let disk = written(new_disk(rt.alloc())?, 5, &short)?;
    let disk = written(disk, 7, &long)?;
    let mut store = store_on(&rt, rt.alloc(), disk)?;
    follow(&rt, rt.alloc(), &mut store, &CUT_IN_TWO)?;
    let disk = store.into_disk();
    are_long(&rt, &disk, &[(2, 9), (5, SLICE), (7, 2)]);
    let mut store = store_on(&rt, rt.alloc(), disk)?;
    follow(&rt, rt.alloc(), &mut store, &THEN_EMPTIED)?;
    are_long(&rt, &store.into_disk(), &[(5, 0), (7, 0)]);
    Ok(())
}
