//! A store over files of version 1.
use crate::bodies::Body::OnePut;
use crate::calls::{BODY, CLOSE, OPEN, accept, answers};
use crate::disks::{hold, written};
use crate::equal::same;
use crate::stores::store_on;
use crate::told::Told::{self, Durable, Installed, Ready, Refused, Shut, Written};
use crate::vectors::SEGMENT;
use mvo_disk::MemDisk;
use mvo_store::StoreCall::{AppendBody, AppendOpen, RotateWrite};
use mvo_store::{Generation, Store, StoreCall};
use mvo_types::{Refusal, Stamp};
use std::alloc::Global;
use std::test::Fail;
use std::thread::Threads;

/// Slot 0 of a new store of version 1, and its segment.
const OLD_SLOT: [u8; 35] = [
    0xa5, 0x1e, 0, 0, 0, 0x4d, 0x56, 0x4f, 0x4d, 1, 0, 0, 0, 0, 0, 0, 0, 0, 0, 0, 0, 0, 0, 0, 0, 0,
    0, 0, 0, 0, 0, 1, 0, 2, 0,
];

const OLD_SEGMENT: [u8; 9] = [0x4d, 0x56, 0x4f, 0x4c, 1, 0, 0, 0, 0];

/// Slot 1 then: of version 2, generation 1, mark 0, no pairs, segment 3.
const REPLACED: [u8; 35] = [
    0xa5, 0x1e, 0, 0, 0, 0x4d, 0x56, 0x4f, 0x4d, 2, 0, 0, 0, 1, 0, 0, 0, 0, 0, 0, 0, 0, 0, 0, 0, 0,
    0, 0, 0, 0, 0, 1, 0, 3, 0,
];

/// The group isn't appended to the old segment, and is to the one in its place.
const TO_A_NEW_SEGMENT: [(StoreCall, Told); 7] = [
    (AppendBody, Refused(Refusal::OldSegment)),
    (RotateWrite, Ready),
    (CLOSE, Shut),
    (BODY, Written),
    (OPEN, Installed(Generation(1))),
    (AppendBody, Written),
    (AppendOpen, Durable(Stamp(2))),
];

fn old_store(rt: &(impl Threads + Sync), alloc: Global) -> Result<Store<MemDisk>, Fail> {
    let disk = written(MemDisk::new(alloc)?, 0, &OLD_SLOT)?;
    let disk = written(written(disk, 1, &[0])?, 2, &OLD_SEGMENT)?;
    store_on(rt, alloc, disk)
}

#[test]
fn an_old_segment_is_replaced(rt: HostRuntime) -> Result<(), Fail> {
    let alloc = rt.alloc();
    let mut store = old_store(&rt, alloc)?;
    same(&rt, &store.old_files(), &1);
    accept(&mut store, alloc, OnePut)?;
    answers(&rt, &mut store, &TO_A_NEW_SEGMENT);
    same(&rt, &store.old_files(), &0);
    let disk = store.into_disk();
    let slots: [(u16, &[u8]); 2] = [(0, &OLD_SLOT), (1, &REPLACED)];
    hold(&rt, &disk, &slots);
    hold(&rt, &disk, &[(2, &OLD_SEGMENT), (3, &SEGMENT)]);
    Ok(())
}
