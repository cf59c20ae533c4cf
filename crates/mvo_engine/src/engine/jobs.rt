//! The jobs of the store, each from its first step to its installing.
ghost use Rattle.std.specs.Prelude.{◌≡◌, IfOk};
ghost use Rattle.mvo_engine.specs.Calls.{installed_by};
ghost use Rattle.mvo_engine.specs.Jobs.{IsInstallAnswer, opens_a_manifest, slices_of, told_of};

use super::Engine;
use super::call_by_call::CallByCall;
use crate::gate::Gate;
use crate::place::Place;
use crate::read_slices::ReadSlices;
use crate::run::Run;
use crate::slice::Slice;
use crate::sliced::Sliced;
use mvo_disk::Disk;
use mvo_store::{
    Done, Due, Generation, InstallStep, Progress, Spent, StoreCall, run_checkpoint, run_merge,
    run_rotation,
};
use mvo_types::Refusal;
use std::sync::Wait;

impl<L: Run, D: Disk, G: Gate + Drop> Engine<L, D, G> {
    ghost use Rattle.mvo_store.specs.Wholes.{AreToRefusal, IsCheckpoint, rotation, merge};
    ghost use Rattle.mvo_engine.specs.Jobs.{IsCallAlone, IsInSlices, IsDataAlone, IsBehindPlaces};
    ghost use Rattle.mvo_engine.specs.Jobs.{IsOneCallAlone, AreSlicesAlone, IsSliceAlone, told_of};
    ghost use Rattle.mvo_engine.specs.Jobs.{IsReadAlone, IsReadOnAlone, IsBehindCuts};
    ghost use Rattle.mvo_store.specs.declared.call.StoreCall.TheVariants.{Step};
    ghost use Rattle.mvo_store.specs.declared.jobs.due.Due.TheVariants.{Install as InstallDue};
    ghost use Rattle.mvo_store.specs.declared.install.install_step.InstallStep.TheVariants.{Open};

    /// All steps of a rotation of the log, from the fresh segment to its installing. The lock of
    /// the store is taken anew for each step, so that others flush in between: those who wait for
    /// their commits are let by first. Hold no guard meanwhile. Answers the generation of the
    /// installed manifest.
    ///
    /// It stops at the first step that is refused, and what its earlier steps did stays done: the
    /// steps that are left may be made under the guard of the store. Refused: Down, Busy where a
    /// job runs, ClockSpent, NothingToDo where the last segment holds no group, SegmentsFull,
    /// OutOfMemory, DiskFault.
    pub fn rotate<R: Wait>(&self, rt: &R) -> Result<Generation, Refusal>
        ensures { AreToRefusal (IsCallAlone D.Disk) rotation tt (told_of result) tt }
    {
        let mut caller = CallByCall { engine: self, rt };
        generation_of(run_rotation(&mut caller))
    }

    /// All steps of a checkpoint of the oldest sealed segment, up to its installing, as `rotate`
    /// makes its own.
    ///
    /// Refused as `rotate` is, but with Busy where a checkpoint or a rotation runs, or a merge of
    /// which all files are written, with NothingToDo where no segment is sealed, and with PairsFull
    /// in place of SegmentsFull. A merge in another thread goes on in between up to its last file.
    pub fn checkpoint<R: Wait>(&self, rt: &R) -> Result<Generation, Refusal>
        ensures { IsCheckpoint (IsCallAlone D.Disk) tt (told_of result) tt }
    {
        let mut caller = CallByCall { engine: self, rt };
        generation_of(run_checkpoint(&mut caller))
    }

    /// All steps of a merge of the pair at a place, from 0 on, and the one behind it, up to its
    /// installing, as `rotate` makes its own.
    ///
    /// Refused as `rotate` is, but with Busy where a merge or a rotation runs, with NothingToDo
    /// where the pair behind isn't there, and with PairTooLarge in place of SegmentsFull.
    /// Checkpoints in another thread are made in between. Where one runs when the last file is to
    /// be written, this is Busy too, and the merge stays where it is: once the checkpoint is
    /// installed it goes on under the guard of the store, by the call of its last file and the
    /// steps of its install. That call's NothingToDo tells that no merge waits.
    pub fn merge<R: Wait>(&self, rt: &R, place: usize) -> Result<Generation, Refusal>
        ensures { AreToRefusal (IsCallAlone D.Disk) (merge place) tt (told_of result) tt }
    {
        let mut caller = CallByCall { engine: self, rt };
        generation_of(run_merge(&mut caller, place))
    }

    // A call of the store in a turn of its own, which is given back behind it; but a data file is
    // written by slices, a segment and two pairs are read by slices, and so are the places put
    // before a manifest is installed, each in a turn of its own. Before a job begins, and before a
    // file is reclaimed, long files that nobody names are cut by slices.
    pub(crate) fn call_in_turn<R: Wait>(&self, rt: &R, call: StoreCall) -> Result<Done, Refusal>
        ensures { IsCallAlone D.Disk tt call result tt }
    {
        let done = self.uncounted_in_turn(rt, call);
        self.counting.count_call(call, &done);
        done
    }

    // So it is made, and isn't counted.
    fn uncounted_in_turn<R: Wait>(&self, rt: &R, call: StoreCall) -> Result<Done, Refusal>
        ensures { IsCallAlone D.Disk tt call result tt }
    {
        match slices_of(call) {
            None => self.one_call_in_turn(rt, call),
            Some(sliced) => self.in_slices(rt, sliced, call),
        }
    }

    // A call that is made of slices, or behind them.
    fn in_slices<R: Wait>(&self, rt: &R, sliced: Sliced, call: StoreCall) -> Result<Done, Refusal>
        ensures { IsInSlices D.Disk sliced call result }
    {
        match sliced {
            Sliced::Written(slice) => self.data_in_turns(rt, slice),
            Sliced::Placed => self.behind_places(rt, call),
            Sliced::Shortened => self.behind_cuts(rt, call),
            Sliced::PairsRead(place) => self.read_behind_cuts(rt, ReadSlices::of_pairs(place)),
            Sliced::SegmentRead => self.read_behind_cuts(rt, ReadSlices::of_segment()),
        }
    }

    // Writes a data file.
    fn data_in_turns<R: Wait>(&self, rt: &R, slice: Slice) -> Result<Done, Refusal>
        ensures { IsDataAlone D.Disk slice result }
    {
        match self.slices_in_turns(rt, slice) {
            Ok(()) => Ok(Done::Progress(Progress::More)),
            Err(refusal) => Err(refusal),
        }
    }

    // Cuts long files that nobody names, and makes the call.
    fn behind_cuts<R: Wait>(&self, rt: &R, call: StoreCall) -> Result<Done, Refusal>
        ensures { IsBehindCuts D.Disk (IsOneCallAlone D.Disk call) result }
    {
        match self.slices_in_turns(rt, Slice::Shorten) {
            Ok(()) => self.one_call_in_turn(rt, call),
            Err(refusal) => Err(refusal),
        }
    }

    // The same, and reads what a job is made of.
    fn read_behind_cuts<R: Wait>(&self, rt: &R, slices: ReadSlices) -> Result<Done, Refusal>
        ensures { IsBehindCuts D.Disk (IsReadAlone D.Disk slices) result }
    {
        match self.slices_in_turns(rt, Slice::Shorten) {
            Ok(()) => self.read_in_turns(rt, slices),
            Err(refusal) => Err(refusal),
        }
    }

    // Reads what a job is made of.
    fn read_in_turns<R: Wait>(&self, rt: &R, slices: ReadSlices) -> Result<Done, Refusal>
        ensures { IsReadAlone D.Disk slices result }
    {
        match self.slice_in_turn(rt, slices.begin) {
            Ok(_) => self.read_on_in_turns(rt, slices),
            Err(refusal) => Err(refusal),
        }
    }

    // Reads it on up to its end. Where that is refused, what is read is forgotten: nobody goes on
    // with it, and others would wait for it.
    fn read_on_in_turns<R: Wait>(&self, rt: &R, slices: ReadSlices) -> Result<Done, Refusal>
        ensures { IsReadOnAlone D.Disk slices result }
    {
        match self.slices_in_turns(rt, slices.on) {
            Ok(()) => Ok(Done::Progress(Progress::More)),
            Err(refusal) => {
                let _ = self.slice_in_turn(rt, slices.forget);
                Err(refusal)
            }
        }
    }

    // Puts the places that are left, and makes the call. Where none are left, or the store is down,
    // they are refused, and the call says what there is to say.
    fn behind_places<R: Wait>(&self, rt: &R, call: StoreCall) -> Result<Done, Refusal>
        ensures { IsBehindPlaces D.Disk call result }
    {
        let _ = self.slices_in_turns(rt, Slice::Places);
        self.one_call_in_turn(rt, call)
    }

    // Makes the slices up to the last.
    fn slices_in_turns<R: Wait>(&self, rt: &R, slice: Slice) -> Result<(), Refusal>
        ensures { AreSlicesAlone D.Disk slice result }
    {
        for _ in rt.forever() {
            match self.slice_in_turn(rt, slice) {
                Ok(Progress::More) => {}
                Ok(Progress::Ready) => return Ok(()),
                Err(refusal) => return Err(refusal),
            }
        }
        unreachable!()
    }

    // One of them.
    fn slice_in_turn<R: Wait>(&self, rt: &R, slice: Slice) -> Result<Progress, Refusal>
        ensures { IsSliceAlone D.Disk slice result }
    {
        self.gate.pass(Place::Turn);
        let turn = self.turns.take(rt);
        let mut store = self.guard_store(rt);
        let since = self.nanos();
        let progress = store.slice(slice);
        self.count_hold(since);
        drop(store);
        drop(turn);
        progress
    }

    // The call alone.
    fn one_call_in_turn<R: Wait>(&self, rt: &R, call: StoreCall) -> Result<Done, Refusal>
        ensures { IsOneCallAlone D.Disk call result }
    {
        if opens_a_manifest(call) {
            return self.opening_in_turn(rt);
        }
        self.any_call_in_turn(rt, call)
    }

    // Any call alone.
    fn any_call_in_turn<R: Wait>(&self, rt: &R, call: StoreCall) -> Result<Done, Refusal>
        ensures { IsOneCallAlone D.Disk call result }
    {
        self.gate.pass(Place::Turn);
        let turn = self.turns.take(rt);
        let mut store = self.guard_store(rt);
        let since = self.nanos();
        let done = store.call(call);
        self.count_hold(since);
        drop(store);
        drop(turn);
        done
    }

    // The last step of an install, alone. What the job held is let go of behind the lock and the
    // turn: that takes the time of giving back the memory of each of its rows.
    fn opening_in_turn<R: Wait>(&self, rt: &R) -> Result<Done, Refusal>
        ensures { IsOneCallAlone D.Disk (Step (InstallDue Open)) result }
    {
        self.gate.pass(Place::Turn);
        let turn = self.turns.take(rt);
        let mut store = self.guard_store(rt);
        let since = self.nanos();
        let opened = store.open_installed();
        self.count_hold(since);
        drop(store);
        drop(turn);
        installed_by(opened)
    }
}

// How a call is made of slices, or behind some.
fn slices_of(call: StoreCall) -> Option<Sliced>
    ensures { result ≡ slices_of call }
{
    match call {
        StoreCall::Step(Due::Data) => Some(Sliced::Written(Slice::Checkpoint)),
        StoreCall::Step(Due::MergeData) => Some(Sliced::Written(Slice::Merge)),
        StoreCall::Step(Due::Install(InstallStep::Close)) => Some(Sliced::Placed),
        StoreCall::MergeRead(place) => Some(Sliced::PairsRead(place)),
        StoreCall::CheckpointRead => Some(Sliced::SegmentRead),
        StoreCall::RotateWrite | StoreCall::Reclaim => Some(Sliced::Shortened),
        _ => None,
    }
}

// Whether it is the last step of an install.
fn opens_a_manifest(call: StoreCall) -> bool
    ensures { result ≡ opens_a_manifest call }
{
    match call {
        StoreCall::Step(Due::Install(InstallStep::Open)) => true,
        _ => false,
    }
}

// What the call answers that installs a manifest. What the job held is let go of.
fn installed_by(opened: Result<(Generation, Spent), Refusal>) -> Result<Done, Refusal>
    ensures { result ≡ installed_by opened }
{
    match opened {
        Ok((generation, _)) => Ok(Done::Installed(generation)),
        Err(refusal) => Err(refusal),
    }
}

// What a whole job answers, which ends with an install.
fn generation_of(came: Result<Done, Refusal>) -> Result<Generation, Refusal>
    requires { IfOk came IsInstallAnswer }
    ensures { told_of result ≡ came }
{
    match came {
        Ok(Done::Installed(generation)) => Ok(generation),
        Ok(_) => unreachable!(),
        Err(refusal) => Err(refusal),
    }
}
