//! An engine that looks after itself: what is due is done, turn by turn, until nothing is.

use super::asking::Ask::{Begin, Change, Changes, Find, Put, Read, Rollback};
use super::calls::{BODY, CLOSE, DATA, DELTA, OPEN};
use super::rows::{many, put};
use super::steps::CoreStep::Trim;
use super::steps::Step::{Core, Flush, One, Other, Store};
use super::steps::StoreStep::Call;
use super::steps::{Line, follow};
use super::told::NOTHING_TO_DO;
use super::told::Told::{Byte, Done, Number, Ready};
use super::trial::{Alone, Meeting, Trial, tried, tried_anew};
use crate::equal::{holds, same};
use mvo_disk::Disk;
use mvo_engine::{
    CoreStats, Engine, Gate, Kept, OpenGate, Run, Session, Stats, StoreStats, Totals,
};
use mvo_keep::{Chore, Keeper, Policy};
use mvo_store::StoreCall::RotateWrite;
use mvo_types::{Refusal, Stamp};
use std::alloc::Global;
use std::process::Abort;
use std::sync::Wait;
use std::sync::atomic::{AtomicU64, Ordering};
use std::test::*;
use std::thread::{Threads, join};

/// With a segment of some 40 bytes it is full, and four dead records are many.
fn policy() -> Policy {
    Policy {
        many_pairs: 48,
        full_segment: 40,
        most_live: 4_194_304,
        many_dead: 4,
        collected: 200,
        in_a_row: 16,
    }
}

const RECLAIM: Kept = Kept::Did(Chore::Reclaim);

const FLUSH: Kept = Kept::Did(Chore::Flush);

const COLLECT: Kept = Kept::Did(Chore::Collect(200));

/// In a new store there is nothing to do, once it has looked.
const NEW: [Kept; 4] = [COLLECT, RECLAIM, Kept::Idle, Kept::Idle];

/// The row is put by 2.
const PUT: [Line; 1] = [(One(Put(1)), Number(2))];

/// It isn't in a group at the first look, and still isn't at the second. Then its segment is full:
/// a fresh one is installed, and the sealed one goes into a pair. Its file is emptied. Behind the
/// first step of these the commit goes from memory, and there is no garbage.
const PUT_AWAY: [Kept; 19] = [
    Kept::Idle,
    FLUSH,
    Kept::Did(Chore::Rotate),
    Kept::Did(Chore::Trim(Stamp(2))),
    COLLECT,
    Kept::Did(Chore::Step(CLOSE)),
    Kept::Did(Chore::Step(BODY)),
    Kept::Did(Chore::Step(OPEN)),
    RECLAIM,
    Kept::Did(Chore::Checkpoint),
    Kept::Did(Chore::Step(DATA)),
    Kept::Did(Chore::Step(DELTA)),
    Kept::Did(Chore::Step(CLOSE)),
    Kept::Did(Chore::Step(BODY)),
    Kept::Did(Chore::Step(OPEN)),
    RECLAIM,
    RECLAIM,
    Kept::Idle,
    Kept::Idle,
];

fn put_away() -> Stats {
    Stats {
        core: CoreStats {
            clock: Stamp(2),
            closed: Stamp(2),
            last_end: None,
            unfinished: 0,
            oldest: None,
            tale_start: Stamp(2),
            places: 1,
            versions: 1,
            sorted_keys: 1,
            aborted: 0,
            replaced: 0,
            sent: 1,
            sessions: 2,
        },
        store: StoreStats {
            durable: Stamp(2),
            has_group: false,
            generation: 2,
            segments: 1,
            last_segment: 8,
            pairs: 1,
            records: 1,
            dead: 0,
            step: None,
            received: 1,
            grouped: 1,
            log_bytes: 49,
        },
    }
}

/// What was counted then.
fn counted() -> Totals {
    Totals {
        commits: 1,
        write_conflicts: 0,
        failed_validations: 0,
        aborted_dependencies: 0,
        groups: 1,
        rotations: 1,
        checkpoints: 1,
        merges: 0,
        longest_hold: 0,
    }
}

/// The turns come to these.
fn keep_so<L: Run, D: Disk, G: Gate + Drop, R: Abort + Wait>(
    rt: &R,
    alloc: Global,
    engine: &Engine<L, D, G>,
    keeper: &mut Keeper,
    turns: &[Kept],
) -> Result<(), Refusal> {
    let policy = policy();
    let mut came = Vec::new(alloc);
    for _ in turns {
        came.push(engine.keep(rt, &policy, keeper)?)?;
    }
    same(rt, &came.as_slice(), &turns);
    Ok(())
}

/// Turns until nothing was due twice. Answers how many chores were done.
fn keep_to_rest<L: Run, D: Disk, G: Gate + Drop, R: Wait>(
    rt: &R,
    engine: &Engine<L, D, G>,
    keeper: &mut Keeper,
) -> Result<u32, Refusal> {
    let policy = policy();
    let mut done = 0u32;
    let mut rests = 0u32;
    for _ in 0..2_000 {
        match engine.keep(rt, &policy, keeper)? {
            Kept::Did(_) => {
                done = done.saturating_add(1);
                rests = 0;
            }
            Kept::Idle => rests = rests.saturating_add(1),
        }
        if rests == 3 {
            break;
        }
    }
    Ok(done)
}

/// A rotation is begun by hand, behind a change.
const HALF_WAY: [Line; 3] = [
    (One(Change(2)), Number(4)),
    (Flush, Number(4)),
    (Store(Call(RotateWrite)), Ready),
];

/// It is brought to its end first; meanwhile the commit goes from memory, and what it replaced.
const BROUGHT_ON: [Kept; 7] = [
    Kept::Did(Chore::Step(CLOSE)),
    Kept::Did(Chore::Trim(Stamp(4))),
    COLLECT,
    Kept::Did(Chore::Step(BODY)),
    Kept::Did(Chore::Step(OPEN)),
    RECLAIM,
    Kept::Did(Chore::Checkpoint),
];

/// A reader is in its transaction, while the row is changed.
const READING: [Line; 3] = [
    (Other(Begin), Number(5)),
    (Other(Read), Byte(Some(2))),
    (One(Changes(3, 12)), Number(25)),
];

/// It goes on seeing its row, and what it needs stays. Then it goes.
const READ: [Line; 3] = [
    (Other(Read), Byte(Some(2))),
    (Core(Trim(25)), NOTHING_TO_DO),
    (Other(Rollback), Done),
];

/// One begins, and is rolled back.
const BEGUN: [Line; 2] = [(Other(Begin), Number(26)), (Other(Rollback), Done)];

/// Nothing is due for that.
const NOTHING: [Kept; 3] = [Kept::Idle, Kept::Idle, Kept::Idle];

/// The row is the last that was put.
const LAST: [Line; 1] = [(One(Find), Byte(Some(12)))];

/// Keeps it until nothing is due: all is durable and in one pair, no job runs, and the stored
/// commits up to the stamp are let go.
fn rest<L: Run, D: Disk, G: Gate + Drop, R: Abort + Wait>(
    rt: &R,
    engine: &Engine<L, D, G>,
    keeper: &mut Keeper,
    start: Stamp,
) -> Result<(), Refusal> {
    let done = keep_to_rest(rt, engine, keeper)?;
    let stats = engine.stats(rt);
    holds(rt, 0 < done && done < 1_000);
    same(rt, &stats.store.durable, &stats.core.clock);
    same(rt, &stats.core.tale_start, &start);
    same(rt, &stats.store.step, &None);
    same(rt, &(stats.store.segments, stats.store.pairs), &(1, 1));
    same(rt, &(stats.store.records, stats.store.dead), &(1, 0));
    Ok(())
}

/// What an engine comes to that is kept by one thread, as sessions use it.
pub fn keep_alone<L: Run, D: Disk, G: Gate + Drop, R: Abort + Wait>(
    rt: &R,
    alloc: Global,
    engine: &Engine<L, D, G>,
) -> Result<(), Refusal> {
    let mut one = engine.session(rt)?;
    let mut other = engine.session(rt)?;
    let mut keeper = Keeper::new();
    keep_so(rt, alloc, engine, &mut keeper, &NEW)?;
    follow(rt, alloc, engine, &mut one, &mut other, &PUT);
    keep_so(rt, alloc, engine, &mut keeper, &PUT_AWAY)?;
    same(rt, &engine.stats(rt), &put_away());
    same(rt, &engine.totals(), &counted());
    follow(rt, alloc, engine, &mut one, &mut other, &HALF_WAY);
    keep_so(rt, alloc, engine, &mut keeper, &BROUGHT_ON)?;
    rest(rt, engine, &mut keeper, Stamp(4))?;
    follow(rt, alloc, engine, &mut one, &mut other, &READING);
    rest(rt, engine, &mut keeper, Stamp(4))?;
    follow(rt, alloc, engine, &mut one, &mut other, &READ);
    rest(rt, engine, &mut keeper, Stamp(25))?;
    follow(rt, alloc, engine, &mut one, &mut other, &BEGUN);
    keep_so(rt, alloc, engine, &mut keeper, &NOTHING)?;
    follow(rt, alloc, engine, &mut one, &mut other, &LAST);
    Ok(())
}

/// One thread keeps the engine, and the other commits: what it waits for is made durable, and so is
/// the rest once all is over.
pub fn keep_beside<
    L: Run + Send + Sync,
    D: Disk + Send,
    G: Gate + Drop + Send + Sync,
    R: Abort + Threads + Wait + Sync,
>(rt: &R, alloc: Global, engine: &Engine<L, D, G>) -> Result<(), Refusal> {
    let mut session = engine.session(rt)?;
    let over = AtomicU64::new(0);
    let end = commit_beside(rt, alloc, engine, &mut session, &over)?;
    same(rt, &end, &Stamp(802));
    holds(rt, session.poll_durable(end));
    holds(rt, engine.stats(rt).store.durable >= end);
    Ok(())
}

/// Answers the end of the last commit, where the keeper wasn't refused.
fn commit_beside<
    L: Run + Send + Sync,
    D: Disk + Send,
    G: Gate + Drop + Send + Sync,
    R: Threads + Wait + Sync,
>(
    rt: &R,
    alloc: Global,
    engine: &Engine<L, D, G>,
    session: &mut Session<'_, L, D, G>,
    over: &AtomicU64,
) -> Result<Stamp, Refusal> {
    let policy = policy();
    let (kept, end) = join(
        rt,
        || engine.keep_until(rt, &policy, over),
        || commit_and_end(rt, alloc, session, over),
    );
    kept?;
    end
}

/// Commits, waits until that is durable, commits again, and says that it is over.
fn commit_and_end<L: Run, D: Disk, G: Gate + Drop, R: Wait>(
    rt: &R,
    alloc: Global,
    session: &mut Session<'_, L, D, G>,
    over: &AtomicU64,
) -> Result<Stamp, Refusal> {
    let end = commit_both(rt, alloc, session);
    over.store(1, Ordering::SeqCst);
    over.wake_all();
    end
}

fn commit_both<L: Run, D: Disk, G: Gate + Drop, R: Wait>(
    rt: &R,
    alloc: Global,
    session: &mut Session<'_, L, D, G>,
) -> Result<Stamp, Refusal> {
    put(rt, alloc, session, 1)?;
    let end = many(rt, alloc, session, 200, 2)?;
    session.wait_durable(rt, end)?;
    many(rt, alloc, session, 200, 3)
}

#[test]
fn what_is_due_is_done(rt: HostRuntime) -> Result<(), Fail> {
    let alloc = rt.alloc();
    let disk = tried_anew(&rt, alloc, OpenGate, Trial::Alone(Alone::Kept))?;
    tried(&rt, alloc, disk, OpenGate, Trial::Steps(&LAST))?;
    Ok(())
}

#[test]
fn an_engine_is_kept_by_a_thread(rt: HostRuntime) -> Result<(), Fail> {
    let alloc = rt.alloc();
    let disk = tried_anew(&rt, alloc, OpenGate, Trial::Threads(Meeting::Keeping))?;
    tried(
        &rt,
        alloc,
        disk,
        OpenGate,
        Trial::Steps(&[(One(Find), Byte(Some(3)))]),
    )?;
    Ok(())
}
