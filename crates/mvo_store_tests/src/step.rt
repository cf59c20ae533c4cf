//! Steps of a store.
use crate::bodies::Body;
use crate::reply::{Reply, done, emptied, free, installed, marked, written};
use mvo_disk::MemDisk;
use mvo_format::LAST_FORMAT;
use mvo_group::Group;
use mvo_store::{Durable, Generation, Progress, Store};
use mvo_types::Refusal;
use std::alloc::Global;
use std::test::Fail;

#[derive(Clone, Copy)]
pub(crate) enum Step {
    /// The mark that the store has.
    Mark,
    /// The generation of its manifest.
    Generation,
    /// Whether it can take a group.
    CanTake,
    Take(Body),
    AppendBody,
    AppendOpen,
    /// Takes a group and appends it: the mark that is durable then.
    Append(Body),
    RotateWrite,
    CheckpointRead,
    /// Begins to read its segment.
    CheckpointBegin,
    /// The next slice of it.
    CheckpointReadSlice,
    /// Forgets what is read of it.
    CheckpointForget,
    CheckpointData,
    /// The next slice of its data file.
    CheckpointSlice,
    CheckpointDelta,
    MergeRead(usize),
    /// Begins to read the pair at this place and the one behind it.
    MergeBegin(usize),
    /// The next slice of them.
    MergeReadSlice,
    /// Forgets what is read of them.
    MergeForget,
    MergeData,
    /// The next slice of its data file.
    MergeSlice,
    MergeDelta,
    /// The next slice of the places that a job puts.
    PlaceSlice,
    InstallClose,
    InstallBody,
    InstallOpen,
    /// All steps of a rotation.
    Rotate,
    /// All steps of a checkpoint.
    Checkpoint,
    /// All steps of a merge of the pair at this place and the one behind it.
    Merge(usize),
    /// The same where the two are read in slices.
    MergeInSlices(usize),
    /// The step of a job that comes next, that of a merge first.
    Due,
    Reclaim,
    /// Cuts the end of a long file off that nobody names.
    Shorten,
}

/// The steps of jobs that run.
const DUE: [Step; 7] = [
    Step::MergeData,
    Step::MergeDelta,
    Step::CheckpointData,
    Step::CheckpointDelta,
    Step::InstallClose,
    Step::InstallBody,
    Step::InstallOpen,
];

fn take(store: &mut Store<MemDisk>, alloc: Global, body: Body) -> Result<Reply, Fail> {
    let body = body.bytes(alloc)?;
    let group = Group::decode(alloc, LAST_FORMAT, &body)?.ok_or("the bytes are a group")?;
    if group.prev().0 != store.mark().0 {
        return Err(Fail::from("the group follows the mark"));
    }
    match store.take_group(group) {
        Ok(()) => Ok(Reply::Done),
        Err((refusal, _)) => Ok(Reply::Refused(refusal)),
    }
}

fn append(store: &mut Store<MemDisk>) -> Result<Durable, Refusal> {
    store.append_body()?;
    store.append_open()
}

fn take_and_append(store: &mut Store<MemDisk>, alloc: Global, body: Body) -> Result<Reply, Fail> {
    match take(store, alloc, body)? {
        Reply::Done => Ok(marked(append(store))),
        refused => Ok(refused),
    }
}

fn install(store: &mut Store<MemDisk>) -> Result<Generation, Refusal> {
    store.install_close()?;
    store.install_body()?;
    store.install_open()
}

fn rotate(store: &mut Store<MemDisk>) -> Result<Generation, Refusal> {
    store.rotate_write()?;
    install(store)
}

fn write_deltas(store: &mut Store<MemDisk>) -> Result<(), Refusal> {
    for _ in 0..65 {
        if store.checkpoint_delta()? == Progress::Ready {
            break;
        }
    }
    Ok(())
}

fn checkpoint(store: &mut Store<MemDisk>) -> Result<Generation, Refusal> {
    store.checkpoint_read()?;
    store.checkpoint_data()?;
    write_deltas(store)?;
    install(store)
}

fn write_merge(store: &mut Store<MemDisk>) -> Result<Generation, Refusal> {
    store.merge_data()?;
    store.merge_delta()?;
    install(store)
}

fn merge(store: &mut Store<MemDisk>, place: usize) -> Result<Generation, Refusal> {
    store.merge_read(place)?;
    write_merge(store)
}

fn merge_in_slices(store: &mut Store<MemDisk>, place: usize) -> Result<Generation, Refusal> {
    store.merge_begin(place)?;
    for _ in 0..65 {
        if store.merge_read_slice()? == Progress::Ready {
            break;
        }
    }
    write_merge(store)
}

/// Makes the first step that is due. None runs on where none is.
fn due(store: &mut Store<MemDisk>) -> Reply {
    for step in DUE {
        match step.of_job(store) {
            Reply::Refused(Refusal::NothingToDo | Refusal::Busy) => {}
            reply => return reply,
        }
    }
    Reply::Refused(Refusal::NothingToDo)
}

impl Step {
    /// What the step is answered.
    pub(crate) fn of(self, store: &mut Store<MemDisk>, alloc: Global) -> Result<Reply, Fail> {
        Ok(match self {
            Step::Mark => Reply::Marked(store.mark()),
            Step::Generation => Reply::Installed(Generation(store.manifest().generation())),
            Step::CanTake => free(store.can_take()),
            Step::Take(body) => take(store, alloc, body)?,
            Step::AppendBody => done(store.append_body()),
            Step::AppendOpen => marked(store.append_open()),
            Step::Append(body) => take_and_append(store, alloc, body)?,
            Step::RotateWrite => done(store.rotate_write()),
            Step::CheckpointRead => done(store.checkpoint_read()),
            Step::CheckpointBegin => done(store.checkpoint_begin()),
            Step::MergeRead(place) => done(store.merge_read(place)),
            Step::MergeBegin(place) => done(store.merge_begin(place)),
            Step::Rotate => installed(rotate(store)),
            Step::Checkpoint => installed(checkpoint(store)),
            Step::Merge(place) => installed(merge(store, place)),
            Step::MergeInSlices(place) => installed(merge_in_slices(store, place)),
            Step::Due => due(store),
            Step::Reclaim => emptied(store.reclaim()),
            Step::Shorten => written(store.shorten_slice()),
            step => step.of_job(store),
        })
    }

    /// What a step of a job that runs is answered.
    fn of_job(self, store: &mut Store<MemDisk>) -> Reply {
        match self {
            Step::CheckpointReadSlice => written(store.checkpoint_read_slice()),
            Step::CheckpointForget => done(store.checkpoint_forget()),
            Step::CheckpointData => done(store.checkpoint_data()),
            Step::CheckpointSlice => written(store.checkpoint_slice()),
            Step::CheckpointDelta => written(store.checkpoint_delta()),
            Step::MergeReadSlice => written(store.merge_read_slice()),
            Step::MergeForget => done(store.merge_forget()),
            Step::MergeData => done(store.merge_data()),
            Step::MergeSlice => written(store.merge_slice()),
            Step::MergeDelta => done(store.merge_delta()),
            Step::PlaceSlice => written(store.place_slice()),
            Step::InstallClose => done(store.install_close()),
            Step::InstallBody => done(store.install_body()),
            _ => installed(store.install_open()),
        }
    }
}
