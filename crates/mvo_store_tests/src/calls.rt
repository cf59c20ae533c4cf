//! The calls of a store, one after another.
use crate::bodies::Body::{self, OnePut, Updated};
use crate::equal::{holds, same, same_at};
use crate::stores::{new_store, spans};
use crate::told::Told::{self, Durable, Installed, Ready, Reclaimed, Refused, Shut, Written};
use crate::told::told_of;
use mvo_disk::MemDisk;
use mvo_format::LAST_FORMAT;
use mvo_group::Group;
use mvo_store::Reclaimed::{Done, More};
use mvo_store::StoreCall::{
    AppendBody, AppendOpen, CheckpointRead, MergeRead, Reclaim, RotateWrite,
};
use mvo_store::{Due, Generation, InstallStep, Progress, Store, StoreCall};
use mvo_types::{Refusal, Stamp};
use std::alloc::Global;
use std::process::Abort;
use std::test::Fail;

/// The steps of jobs.
pub(crate) const DATA: StoreCall = StoreCall::Step(Due::Data);

pub(crate) const DELTA: StoreCall = StoreCall::Step(Due::Delta);

pub(crate) const MERGE_DATA: StoreCall = StoreCall::Step(Due::MergeData);

pub(crate) const MERGE_DELTA: StoreCall = StoreCall::Step(Due::MergeDelta);

pub(crate) const CLOSE: StoreCall = StoreCall::Step(Due::Install(InstallStep::Close));

pub(crate) const BODY: StoreCall = StoreCall::Step(Due::Install(InstallStep::Body));

pub(crate) const OPEN: StoreCall = StoreCall::Step(Due::Install(InstallStep::Open));

/// Each call is answered so.
pub(crate) fn answers(rt: &impl Abort, store: &mut Store<MemDisk>, calls: &[(StoreCall, Told)]) {
    for (at, (call, wanted)) in calls.iter().enumerate() {
        same_at(rt, at, &told_of(store.call(*call)), wanted);
    }
}

/// The store takes the group, which it can.
pub(crate) fn accept(store: &mut Store<MemDisk>, alloc: Global, body: Body) -> Result<(), Fail> {
    let body = body.bytes(alloc)?;
    let group = Group::decode(alloc, LAST_FORMAT, &body)?.ok_or("the bytes are a group")?;
    if store.can_take().is_some() || group.prev().0 != store.mark().0 {
        return Err(Fail::from("a group that can be taken"));
    }
    store.accept_group(group);
    Ok(())
}

/// A group becomes durable. Its segment is sealed then, becomes a pair, and is emptied.
const TO_A_PAIR: [(StoreCall, Told); 14] = [
    (AppendBody, Written),
    (AppendOpen, Durable(Stamp(2))),
    (RotateWrite, Ready),
    (CLOSE, Shut),
    (BODY, Written),
    (OPEN, Installed(Generation(1))),
    (CheckpointRead, Told::Progress(Progress::More)),
    (DATA, Told::Progress(Progress::More)),
    (DELTA, Told::Progress(Progress::Ready)),
    (CLOSE, Shut),
    (BODY, Written),
    (OPEN, Installed(Generation(2))),
    (Reclaim, Reclaimed(More)),
    (Reclaim, Reclaimed(Done)),
];

/// So does the next, with a delta file for the first pair.
const TO_ANOTHER_PAIR: [(StoreCall, Told); 13] = [
    (AppendBody, Written),
    (AppendOpen, Durable(Stamp(4))),
    (RotateWrite, Ready),
    (CLOSE, Shut),
    (BODY, Written),
    (OPEN, Installed(Generation(3))),
    (CheckpointRead, Told::Progress(Progress::More)),
    (DATA, Told::Progress(Progress::More)),
    (DELTA, Told::Progress(Progress::More)),
    (DELTA, Told::Progress(Progress::Ready)),
    (CLOSE, Shut),
    (BODY, Written),
    (OPEN, Installed(Generation(4))),
];

/// The two pairs become one.
const TO_ONE_PAIR: [(StoreCall, Told); 6] = [
    (MergeRead(0), Told::Progress(Progress::More)),
    (MERGE_DATA, Told::Progress(Progress::More)),
    (MERGE_DELTA, Told::Progress(Progress::Ready)),
    (CLOSE, Shut),
    (BODY, Written),
    (OPEN, Installed(Generation(5))),
];

fn answers_each(rt: &impl Abort, alloc: Global, store: &mut Store<MemDisk>) -> Result<(), Fail> {
    accept(store, alloc, OnePut)?;
    answers(rt, store, &TO_A_PAIR);
    accept(store, alloc, Updated)?;
    answers(rt, store, &TO_ANOTHER_PAIR);
    spans(rt, store, &[(0, 2), (2, 4)]);
    answers(rt, store, &TO_ONE_PAIR);
    spans(rt, store, &[(0, 4)]);
    Ok(())
}

#[test]
fn each_call_is_answered(rt: HostRuntime) -> Result<(), Fail> {
    let alloc = rt.alloc();
    let mut store = new_store(&rt, alloc)?;
    answers_each(&rt, alloc, &mut store)
}

const NOTHING_IS_DUE: [(StoreCall, Told); 13] = [
    (AppendBody, Refused(Refusal::NothingToDo)),
    (AppendOpen, Refused(Refusal::NothingToDo)),
    (RotateWrite, Refused(Refusal::NothingToDo)),
    (CheckpointRead, Refused(Refusal::NothingToDo)),
    (MergeRead(0), Refused(Refusal::NothingToDo)),
    (DATA, Refused(Refusal::NothingToDo)),
    (DELTA, Refused(Refusal::NothingToDo)),
    (MERGE_DATA, Refused(Refusal::NothingToDo)),
    (MERGE_DELTA, Refused(Refusal::NothingToDo)),
    (CLOSE, Refused(Refusal::NothingToDo)),
    (BODY, Refused(Refusal::NothingToDo)),
    (OPEN, Refused(Refusal::NothingToDo)),
    (Reclaim, Reclaimed(Done)),
];

#[test]
fn a_call_is_refused_as_its_method_is(rt: HostRuntime) -> Result<(), Fail> {
    let mut store = new_store(&rt, rt.alloc())?;
    answers(&rt, &mut store, &NOTHING_IS_DUE);
    Ok(())
}

const IS_APPENDED: [(StoreCall, Told); 2] = [
    (AppendBody, Written),
    (AppendOpen, Durable(Stamp(2))),
];

fn accepts_one(rt: &impl Abort, alloc: Global, store: &mut Store<MemDisk>) -> Result<(), Fail> {
    accept(store, alloc, OnePut)?;
    same(rt, &store.can_take(), &Some(Refusal::Busy));
    answers(rt, store, &IS_APPENDED);
    holds(rt, store.can_take().is_none());
    Ok(())
}

#[test]
fn a_group_is_accepted_where_none_is_pending(rt: HostRuntime) -> Result<(), Fail> {
    let mut store = new_store(&rt, rt.alloc())?;
    accepts_one(&rt, rt.alloc(), &mut store)
}
