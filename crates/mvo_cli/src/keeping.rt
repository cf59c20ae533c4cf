//! Brings the files of a store to rest: its log into pairs, pairs together, and no bytes that
//! nobody needs.
use crate::fault::Fault;
use crate::folder::{Holdings, held_of, open_disk};
use crate::seed::draw_seed;
use mvo_disk::Disk;
use mvo_format::HEADER_LEN;
use mvo_keep::{Policy, Served, Standing, due};
use mvo_store::{Done, Reclaimed, Store, StoreCall};
use mvo_types::{Refusal, Rows, Stamp};
use std::alloc::{AllocError, Global};
use std::fs::{File, Files};
use std::random::RandomSource;
use std::sync::Wait;
use std::thread::Threads;

/// What the store in a folder holds, once nothing is due of its files. The folder isn't used any
/// longer then.
pub fn keep_held<R>(rt: &R, folder: &str, is_terminal: bool) -> Result<Holdings, Fault>
where
    R: AllocGlobal
        + Eprint
        + Files<File = File>
        + RandomSource
        + Threads
        + Wait
        + Sync
        + Clone
        + Drop,
{
    match open_disk(rt, folder, is_terminal) {
        Ok(disk) => kept_on(rt, rt.alloc(), disk),
        Err(fault) => Err(fault),
    }
}

/// The same of the store on a disk.
fn kept_on<D: Disk + Drop>(
    rt: &(impl RandomSource + Threads + Wait + Sync),
    alloc: Global,
    disk: D,
) -> Result<Holdings, Fault> {
    let seed = draw_seed(rt)?;
    match Store::open(rt, alloc, seed, disk) {
        Ok((store, rows, mark)) => kept_of(rt, alloc, store, rows, mark),
        Err((refusal, _)) => Err(Fault::Refused(refusal)),
    }
}

/// The same of an opened store.
fn kept_of<D: Disk + Drop>(
    rt: &impl Wait,
    alloc: Global,
    store: Store<D>,
    rows: Rows,
    mark: Stamp,
) -> Result<Holdings, Fault> {
    let mut store = store;
    match bring_to_rest(rt, alloc, &mut store) {
        Ok(()) => Ok(held_of(&store, rows, mark)),
        Err(refusal) => Err(Fault::Refused(refusal)),
    }
}

/// Does what is due of the files, one chore after another, until nothing is. A last segment is full
/// as soon as it holds a group.
fn bring_to_rest<D: Disk>(
    rt: &impl Wait,
    alloc: Global,
    store: &mut Store<D>,
) -> Result<(), Refusal> {
    let mut policy = Policy::standard();
    policy.full_segment = HEADER_LEN as u64 + 1;
    let mut may_reclaim = true;
    for _ in rt.forever() {
        let Some(call) = next_call(alloc, store, &policy, may_reclaim)? else {
            return Ok(());
        };
        may_reclaim = may_still_reclaim(&store.call(call)?, may_reclaim);
    }
    unreachable!()
}

/// The call that is due, if one is.
fn next_call<D: Disk>(
    alloc: Global,
    store: &Store<D>,
    policy: &Policy,
    may_reclaim: bool,
) -> Result<Option<StoreCall>, AllocError> {
    let standing = standing_of(alloc, store, may_reclaim)?;
    Ok(match due(policy, &standing) {
        Some(chore) => chore.call(),
        None => None,
    })
}

/// What counts of a store that nobody else uses: nothing is committed, and memory isn't kept.
fn standing_of<D: Disk>(
    alloc: Global,
    store: &Store<D>,
    may_reclaim: bool,
) -> Result<Standing, AllocError> {
    let manifest = store.manifest();
    let mark = store.mark();
    Ok(Standing {
        has_group: store.has_group(),
        has_commits: false,
        step: store.next_step().map(StoreCall::Step),
        may_reclaim,
        pairs: manifest.pairs().iter().copied().collect(alloc)?,
        segments: manifest.segments().len(),
        last_segment: store.last_gate() as u64,
        tale_start: mark,
        tale_length: 0,
        earlier_mark: mark,
        oldest_begin: mark,
        may_collect: false,
        served: Served::Files,
    })
}

/// Whether a file may hold bytes that nobody needs: none does behind a reclaim that found none, and
/// an install leaves some.
fn may_still_reclaim(done: &Done, may_reclaim: bool) -> bool {
    match done {
        Done::Reclaimed(Reclaimed::Done) => false,
        Done::Installed(_) => true,
        _ => may_reclaim,
    }
}
