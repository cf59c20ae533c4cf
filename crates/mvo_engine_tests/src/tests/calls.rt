//! Calls of a store.

use mvo_store::{Due, InstallStep, StoreCall};

pub const DATA: StoreCall = StoreCall::Step(Due::Data);

pub const DELTA: StoreCall = StoreCall::Step(Due::Delta);

pub const MERGE_DATA: StoreCall = StoreCall::Step(Due::MergeData);

pub const MERGE_DELTA: StoreCall = StoreCall::Step(Due::MergeDelta);

pub const CLOSE: StoreCall = StoreCall::Step(Due::Install(InstallStep::Close));

pub const BODY: StoreCall = StoreCall::Step(Due::Install(InstallStep::Body));

pub const OPEN: StoreCall = StoreCall::Step(Due::Install(InstallStep::Open));
