use crate::bodies::Body::{OnePut, Round};
use crate::disks::{are_long, formatted, hold, holding, new_disk, stopped, written};
use crate::equal::{holds, same};
use crate::reply::Reply::{self, Done, Emptied, Installed, Marked, Refused};
use crate::step::Step::{
    self, Append, AppendBody, AppendOpen, CanTake, InstallBody, InstallClose, InstallOpen, Mark,
    Reclaim, Rotate, RotateWrite, Take,
};
use crate::stores::{
    after_stop, follow, following, gives, has_row, names, new_store, rows_on, store_on, store_with,
};
use crate::vectors::{FIRST, FRESH, ROTATED, SEGMENT};
use mvo_disk::{DeviceWork, Disk, MemDisk};
use mvo_store::{Generation, Reclaimed, Store, format};
use mvo_types::{Refusal, Stamp};
use std::alloc::Global;
use std::process::Abort;
use std::test::Fail;
use std::thread::Threads;

// The refusal, and the bytes of slot 0, of slot 1 and of file 2 then.
fn refused(alloc: Global, disk: MemDisk) -> Result<String, Fail> {
    match format(alloc, disk) {
        Ok(_) => Ok(format!(in alloc; "formatted")?),
        Err((refusal, disk)) => {
            let lens = (
                disk.bytes(0).len(),
                disk.bytes(1).len(),
                disk.bytes(2).len(),
            );
            Ok(format!(in alloc; "{refusal} {} {} {}", lens.0, lens.1, lens.2)?)
        }
    }
}

#[test]
fn a_new_store_is_written(rt: HostRuntime) -> Result<(), Fail> {
    let disk = new_disk(rt.alloc())?;
    hold(&rt, &disk, &[(0, &FIRST), (1, &[0]), (2, &FRESH), (3, &[])]);
    same(&rt, &disk.faults(), &0);
    Ok(())
}

#[test]
fn a_store_is_not_formatted_again(rt: HostRuntime) -> Result<(), Fail> {
    let alloc = rt.alloc();
    let again = refused(alloc, new_disk(alloc)?)?;
    same(&rt, &again.as_str(), &"refused 57 35 1 9");
    Ok(())
}

#[test]
fn an_open_gate_is_enough(rt: HostRuntime) -> Result<(), Fail> {
    let alloc = rt.alloc();
    for (slot, answer) in [(0, "refused 57 1 0 0"), (1, "refused 57 0 1 0")] {
        let open = refused(alloc, holding(alloc, slot, &[0xa5])?)?;
        same(&rt, &open.as_str(), &answer);
    }
    Ok(())
}

// What the files hold once a store is formatted over this one.
fn formatted_over(
    rt: &impl Abort,
    alloc: Global,
    file: (u16, &[u8]),
    files: &[(u16, &[u8])],
) -> Result<(), Fail> {
    let disk = formatted(alloc, holding(alloc, file.0, file.1)?)?;
    hold(rt, &disk, files);
    Ok(())
}

// What stands behind a closed gate stays, and other files too.
#[test]
fn a_closed_slot_is_written_over(rt: HostRuntime) -> Result<(), Fail> {
    let alloc = rt.alloc();
    let slots: [(u16, &[u8]); 2] = [(0, &FIRST), (1, &[1, 0xa5, 2])];
    formatted_over(&rt, alloc, (1, &[1, 0xa5, 2]), &slots)?;
    formatted_over(&rt, alloc, (2, &[7; 20]), &[(2, &FRESH)])?;
    formatted_over(&rt, alloc, (7, &[7; 20]), &[(7, &[7; 20])])
}

// ---- a store

const ONE_GROUP: [(Step, Reply); 3] = [
    (Mark, Marked(Stamp(0))),
    (Append(OnePut), Marked(Stamp(2))),
    (Mark, Marked(Stamp(2))),
];

#[test]
fn a_group_is_appended(rt: HostRuntime) -> Result<(), Fail> {
    let alloc = rt.alloc();
    let disk = following(&rt, alloc, &ONE_GROUP)?.into_disk();
    hold(&rt, &disk, &[(2, &SEGMENT)]);
    let rows = rows_on(&rt, alloc, disk, 2)?;
    has_row(&rt, &rows, b"a")
}

const ONE_BODY: [(Step, Reply); 2] = [(Take(OnePut), Done), (AppendBody, Done)];

#[test]
fn a_body_alone_counts_for_nothing(rt: HostRuntime) -> Result<(), Fail> {
    let alloc = rt.alloc();
    let disk = stopped(following(&rt, alloc, &ONE_BODY)?.into_disk())?;
    are_long(&rt, &disk, &[(2, 63)]);
    gives(&rt, alloc, disk, 0, &[(5, None)])
}

const GROUP_AND_ROTATION: [(Step, Reply); 3] = [
    (Append(OnePut), Marked(Stamp(2))),
    (Rotate, Installed(Generation(1))),
    (Step::Generation, Installed(Generation(1))),
];

// A disk with one group and a rotation.
fn rotated(rt: &(impl Abort + Threads + Sync), alloc: Global) -> Result<MemDisk, Fail> {
    let store = following(rt, alloc, &GROUP_AND_ROTATION)?;
    names(rt, &store, &[2, 3]);
    Ok(store.into_disk())
}

// The next group goes to the fresh segment.
const NEXT_GROUP: [(Step, Reply); 1] = [(Append(Round(2)), Marked(Stamp(4)))];

#[test]
fn a_rotation_is_installed(rt: HostRuntime) -> Result<(), Fail> {
    let alloc = rt.alloc();
    let disk = rotated(&rt, alloc)?;
    hold(
        &rt,
        &disk,
        &[(0, &FIRST), (1, &ROTATED), (2, &SEGMENT), (3, &FRESH)],
    );
    let mut store = store_with(&rt, alloc, disk, 2, &[(5, Some(1))])?;
    follow(&rt, alloc, &mut store, &NEXT_GROUP)?;
    are_long(&rt, &store.into_disk(), &[(2, 63), (3, 63)]);
    Ok(())
}

const EACH_ROUND: [[(Step, Reply); 2]; 3] = [
    [
        (Append(Round(1)), Marked(Stamp(2))),
        (Rotate, Installed(Generation(1))),
    ],
    [
        (Append(Round(2)), Marked(Stamp(4))),
        (Rotate, Installed(Generation(2))),
    ],
    [
        (Append(Round(3)), Marked(Stamp(6))),
        (Rotate, Installed(Generation(3))),
    ],
];

#[test]
fn three_rounds_are_kept(rt: HostRuntime) -> Result<(), Fail> {
    let alloc = rt.alloc();
    let mut store = new_store(&rt, alloc)?;
    let mut rounds = 0u8;
    for steps in EACH_ROUND {
        follow(&rt, alloc, &mut store, &steps)?;
        rounds = rounds.saturating_add(1);
        store = after_stop(&rt, alloc, store, rounds)?;
    }
    names(&rt, &store, &[2, 3, 4, 5]);
    Ok(())
}

// One round, and the steps of a rotation.
const ROTATION: [(Step, Reply); 5] = [
    (Append(Round(1)), Marked(Stamp(2))),
    (RotateWrite, Done),
    (InstallClose, Done),
    (InstallBody, Done),
    (InstallOpen, Installed(Generation(1))),
];

// A store with one round, and so many steps of a rotation.
fn rotating(
    rt: &(impl Abort + Threads + Sync),
    alloc: Global,
    steps: usize,
) -> Result<Store<MemDisk>, Fail> {
    holds(rt, steps < 5);
    following(rt, alloc, &ROTATION[..steps + 1])
}

// A stop after each step of a rotation takes nothing away.
#[test]
fn a_rotation_may_be_stopped(rt: HostRuntime) -> Result<(), Fail> {
    let alloc = rt.alloc();
    for (steps, generation) in [(0, 0), (1, 0), (2, 0), (3, 0), (4, 1)] {
        let store = after_stop(&rt, alloc, rotating(&rt, alloc, steps)?, 1)?;
        same(&rt, &store.manifest().generation(), &generation);
    }
    Ok(())
}

const NOTHING_IS_DUE: [(Step, Reply); 4] = [
    (CanTake, Done),
    (AppendBody, Refused(Refusal::NothingToDo)),
    (RotateWrite, Refused(Refusal::NothingToDo)),
    (InstallClose, Refused(Refusal::NothingToDo)),
];

#[test]
fn nothing_is_due_at_first(rt: HostRuntime) -> Result<(), Fail> {
    let _ = following(&rt, rt.alloc(), &NOTHING_IS_DUE)?;
    Ok(())
}

const ANOTHER_ROTATION: [(Step, Reply); 2] = [
    (RotateWrite, Refused(Refusal::Busy)),
    (InstallBody, Refused(Refusal::NothingToDo)),
];

#[test]
fn one_rotation_runs_at_a_time(rt: HostRuntime) -> Result<(), Fail> {
    let mut store = rotating(&rt, rt.alloc(), 1)?;
    follow(&rt, rt.alloc(), &mut store, &ANOTHER_ROTATION)
}

const A_GATE_IS_CLOSED: [(Step, Reply); 7] = [
    (Take(Round(2)), Done),
    (CanTake, Refused(Refusal::Busy)),
    (AppendBody, Done),
    (AppendBody, Refused(Refusal::Busy)),
    (InstallOpen, Refused(Refusal::Busy)),
    (AppendOpen, Marked(Stamp(4))),
    (InstallOpen, Installed(Generation(1))),
];

// Nothing is installed behind a body whose gate is closed.
#[test]
fn an_install_waits_for_a_gate(rt: HostRuntime) -> Result<(), Fail> {
    let mut store = rotating(&rt, rt.alloc(), 3)?;
    follow(&rt, rt.alloc(), &mut store, &A_GATE_IS_CLOSED)
}

// ---- reclaiming

// How many cuts and syncs the disk was asked for.
fn changes(disk: &MemDisk) -> (usize, usize) {
    let calls = disk.calls();
    let cuts = calls
        .iter()
        .filter(|call| matches!(&call.work, DeviceWork::Cut { .. }));
    let syncs = calls
        .iter()
        .filter(|call| matches!(&call.work, DeviceWork::Sync));
    (cuts.count(), syncs.count())
}

const DEAD_FILE_BESIDE_A_GROUP: [(Step, Reply); 3] = [
    (Append(OnePut), Marked(Stamp(2))),
    (Reclaim, Emptied(Reclaimed::More)),
    (Reclaim, Emptied(Reclaimed::Done)),
];

#[test]
fn a_dead_file_is_emptied(rt: HostRuntime) -> Result<(), Fail> {
    let alloc = rt.alloc();
    let disk = formatted(alloc, holding(alloc, 7, &[7; 20])?)?;
    let mut store = store_on(&rt, alloc, disk)?;
    follow(&rt, alloc, &mut store, &DEAD_FILE_BESIDE_A_GROUP)?;
    let disk = stopped(store.into_disk())?;
    hold(&rt, &disk, &[(7, &[]), (2, &SEGMENT), (1, &[0])]);
    Ok(())
}

const A_FILE_IS_EMPTIED: [(Step, Reply); 1] = [(Reclaim, Emptied(Reclaimed::More))];

// A store whose disk has bytes in the files 4 and 7, which are dead.
fn two_dead_files(rt: &(impl Threads + Sync), alloc: Global) -> Result<Store<MemDisk>, Fail> {
    let disk = formatted(alloc, holding(alloc, 7, &[7; 20])?)?;
    store_on(rt, alloc, stopped(written(disk, 4, &[4])?)?)
}

#[test]
fn one_file_is_emptied_by_a_call(rt: HostRuntime) -> Result<(), Fail> {
    let alloc = rt.alloc();
    let mut store = two_dead_files(&rt, alloc)?;
    follow(&rt, alloc, &mut store, &A_FILE_IS_EMPTIED)?;
    let disk = store.into_disk();
    are_long(&rt, &disk, &[(4, 0), (7, 20)]);
    // Opening syncs the two slots and the segment.
    same(&rt, &changes(&disk), &(1, 4));
    Ok(())
}

const ALL_IS_EMPTIED: [(Step, Reply); 1] = [(Reclaim, Emptied(Reclaimed::Done))];

const A_SEGMENT_IS_EMPTIED: [(Step, Reply); 2] = [
    (Reclaim, Emptied(Reclaimed::More)),
    (Reclaim, Emptied(Reclaimed::Done)),
];

// The fresh segment of a rotation that runs is kept. It is dead where the rotation is abandoned.
#[test]
fn a_rotation_keeps_its_segment(rt: HostRuntime) -> Result<(), Fail> {
    let alloc = rt.alloc();
    let mut store = rotating(&rt, alloc, 1)?;
    follow(&rt, alloc, &mut store, &ALL_IS_EMPTIED)?;
    let disk = store.into_disk();
    hold(&rt, &disk, &[(3, &FRESH)]);
    let mut store = store_on(&rt, alloc, disk)?;
    follow(&rt, alloc, &mut store, &A_SEGMENT_IS_EMPTIED)?;
    are_long(&rt, &store.into_disk(), &[(3, 0), (2, 63)]);
    Ok(())
}
