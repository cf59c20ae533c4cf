//! Whole jobs, each from its first step to its installing. One that is refused stops there, and
//! undoes nothing.
ghost use Rattle.mvo_store.specs.Wholes.{AreDeltas, AreToRefusal, IsCheckpoint, install, merge, rotation};

use crate::call::StoreCall;
use crate::done::Done;
use crate::install::install_step::InstallStep;
use crate::jobs::due::Due;
use crate::jobs::progress::Progress;
use crate::jobs::store_caller::StoreCaller;
use mvo_types::Refusal;

/// All steps of an install.
fn run_install<C: StoreCaller>(caller: &mut C) -> Result<Done, Refusal>
    ensures { AreToRefusal C.comes_to install caller.old result caller.new }
{
    caller.call(StoreCall::Step(Due::Install(InstallStep::Close)))?;
    caller.call(StoreCall::Step(Due::Install(InstallStep::Body)))?;
    caller.call(StoreCall::Step(Due::Install(InstallStep::Open)))
}

/// A rotation of the log: a fresh segment, and the steps of its install. Answers as the last of
/// them does, or with the first refusal.
pub fn run_rotation<C: StoreCaller>(caller: &mut C) -> Result<Done, Refusal>
    ensures { AreToRefusal C.comes_to rotation caller.old result caller.new }
{
    caller.call(StoreCall::RotateWrite)?;
    run_install(caller)
}

/// Writes delta files while more are left.
fn write_deltas<C: StoreCaller>(caller: &mut C) -> Result<Done, Refusal>
    ensures { AreDeltas C.comes_to caller.old result caller.new }
{
    for _ in 0..u64::MAX {
        match caller.call(StoreCall::Step(Due::Delta)) {
            Ok(Done::Progress(Progress::More)) => {}
            result => return result,
        }
    }
    Ok(Done::Progress(Progress::More))
}

/// A checkpoint of the oldest sealed segment: it is read, the data file of its pair is written and
/// then each delta file, and the pair is installed. Answers as the last step does, or with the
/// first refusal.
pub fn run_checkpoint<C: StoreCaller>(caller: &mut C) -> Result<Done, Refusal>
    ensures { IsCheckpoint C.comes_to caller.old result caller.new }
{
    caller.call(StoreCall::CheckpointRead)?;
    caller.call(StoreCall::Step(Due::Data))?;
    write_deltas(caller)?;
    run_install(caller)
}

/// A merge of the pair at a place, counted from 0, and the one behind it: they are read, the files
/// of their pair are written, and it is installed. Answers as the last step does, or with the first
/// refusal.
pub fn run_merge<C: StoreCaller>(caller: &mut C, place: usize) -> Result<Done, Refusal>
    ensures { AreToRefusal C.comes_to (merge place) caller.old result caller.new }
{
    caller.call(StoreCall::MergeRead(place))?;
    caller.call(StoreCall::Step(Due::MergeData))?;
    caller.call(StoreCall::Step(Due::MergeDelta))?;
    run_install(caller)
}
