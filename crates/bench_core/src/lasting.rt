//! Updates of few rows through sessions of an engine, each of which its session makes durable.
//! Between them the log is kept short and memory is let go of.
ghost use Rattle.mvo_engine.specs.Opened.{IsNamedBy};

use crate::checksum::Checksum;
use crate::config::Config;
use crate::draft::Draft;
use crate::figure::Figure;
use crate::filling::{EACH, put};
use crate::folder::Scratch;
use crate::keys::mixed;
use crate::resident::anonymous;
use crate::rows::key_of;
use crate::shared::found;
use crate::steady::{KEYS, PARTS};
use crate::stopped::Stopped;
use anyhow::{Result, bail};
use mvo_disk::Disk;
use mvo_engine::{Engine, Fresh, OpenGate, Run, Session};
use mvo_store::{Done, Generation, Reclaimed, StoreCall, format};
use mvo_types::{Refusal, Stamp};
use std::alloc::{AllocError, Global};
use std::marker::Brand;
use std::sync::Wait;
use std::thread::Threads;

/// So many sessions update in turn.
const SESSIONS: u64 = 4;

/// Behind so many updates the log is shortened, and memory is let go of.
const TURN: u64 = 1_000;

/// An engine with its sessions, and the checksum of what they have read.
struct Lasting<'e, L: Run, D: Disk> {
    alloc: Global,
    engine: &'e Engine<L, D, OpenGate>,
    sessions: Vec<Session<'e, L, D, OpenGate>>,
    sum: Checksum,
}

impl<'e, L: Run, D: Disk> Drop for Lasting<'e, L, D> {
    fn drop(self) {
        let Lasting {
            alloc: _,
            engine: _,
            sessions: _,
            sum: _,
        } = self;
    }
}

/// The updates of `steady` over a store in a folder, and prints how much memory there is after each
/// part: it is to stay what it was after the first.
pub fn run<R: Threads + Wait + Sync>(rt: &HostRuntime, threads: &R, config: &Config) -> Result<()> {
    let scratch = Scratch::new(rt)?;
    let ran = in_folder(rt, threads, config, &scratch);
    scratch.remove(rt)?;
    ran
}

fn in_folder<R: Threads + Wait + Sync>(
    rt: &HostRuntime,
    threads: &R,
    config: &Config,
    scratch: &Scratch,
) -> Result<()> {
    match format(rt.alloc(), scratch.disk(rt, "steady")?) {
        Ok(disk) => on_disk(rt, threads, config, disk),
        Err((refusal, _)) => bail!("no store is written: {refusal}"),
    }
}

/// Opens the disk, and updates through an engine over it.
fn on_disk<D: Disk + Drop, R: Threads + Wait + Sync>(
    rt: &HostRuntime,
    threads: &R,
    config: &Config,
    disk: D,
) -> Result<()> {
    match Fresh::open(threads, rt.alloc(), 7, disk) {
        Ok(fresh) => with_engine::<Brand, D, R>(rt, threads, config, fresh),
        Err((refusal, _)) => bail!("the disk isn't opened: {refusal}"),
    }
}

/// It is written for every run, which the parts name.
fn with_engine<L: Run, D: Disk + Drop, R: Wait>(
    rt: &HostRuntime,
    threads: &R,
    config: &Config,
    fresh: Fresh<D>,
) -> Result<()>
    requires { IsNamedBy D.Disk L.opening L.marks L.ring L.name L.parts fresh }
{
    let engine = Engine::<L, D, OpenGate>::new(fresh, OpenGate);
    on_engine(rt, threads, config, &engine)
}

fn on_engine<L: Run, D: Disk, R: Wait>(
    rt: &HostRuntime,
    threads: &R,
    config: &Config,
    engine: &Engine<L, D, OpenGate>,
) -> Result<()> {
    let mut lasting = Lasting::begin(threads, rt.alloc(), engine, config.data)?;
    update_all(rt, threads, config, &mut lasting)
}

fn update_all<L: Run, D: Disk, R: Wait>(
    rt: &HostRuntime,
    threads: &R,
    config: &Config,
    lasting: &mut Lasting<'_, L, D>,
) -> Result<()> {
    let figure = Figure::start(rt, config, "steady_sessions")?;
    let each = config.steady / PARTS;
    let mut first = 0;
    for part in 0..PARTS {
        let from = part.wrapping_mul(each);
        lasting.update(threads, from, from.saturating_add(each))?;
        let bytes = anonymous(rt);
        first = if part == 0 { bytes } else { first };
        figure.tell_memory(rt, from.saturating_add(each), bytes, first)?;
    }
    figure.tell(rt, each.saturating_mul(PARTS), lasting.sum)
}

impl<'e, L: Run, D: Disk> Lasting<'e, L, D> {
    /// The rows are put, which counts as reading them, and the sessions made.
    fn begin<R: Wait>(
        rt: &R,
        alloc: Global,
        engine: &'e Engine<L, D, OpenGate>,
        data: u64,
    ) -> Result<Lasting<'e, L, D>, Stopped> {
        let mut session = engine.session(rt)?;
        put_all(rt, alloc, &mut session, data)?;
        let sum = sum_loaded(alloc, data)?;
        let sessions = sessions_of(rt, alloc, engine, session)?;
        Ok(Lasting {
            alloc,
            engine,
            sessions,
            sum,
        })
    }

    /// The updates with these numbers, each by the next session, and what is due between them.
    fn update<R: Wait>(&mut self, rt: &R, from: u64, to: u64) -> Result<(), Stopped> {
        let mut last = Stamp(0);
        for at in from..to {
            last = self.update_one(rt, at)?;
            if at % TURN == 0 {
                keep_up(rt, self.engine, last)?;
            }
        }
        Ok(keep_up(rt, self.engine, last)?)
    }

    fn update_one<R: Wait>(&mut self, rt: &R, at: u64) -> Result<Stamp, Stopped> {
        match self.sessions.get_mut((at % SESSIONS) as usize) {
            Some(session) => Ok(update_by(
                rt,
                self.alloc,
                session,
                mixed(at) % KEYS,
                &mut self.sum,
            )?),
            None => Err(Stopped::Unexpected),
        }
    }
}

/// Puts all rows.
fn put_all<L: Run, D: Disk, R: Wait>(
    rt: &R,
    alloc: Global,
    session: &mut Session<'_, L, D, OpenGate>,
    data: u64,
) -> Result<(), Refusal> {
    for batch in 0..KEYS / EACH {
        let from = batch.wrapping_mul(EACH);
        put(rt, alloc, session, (from, from.wrapping_add(EACH)), data)?;
    }
    Ok(())
}

/// The checksum of the rows that are put.
fn sum_loaded(alloc: Global, data: u64) -> Result<Checksum, AllocError> {
    let mut draft = Draft::new(alloc);
    let mut sum = Checksum(0);
    for key in 0..KEYS {
        sum.add(&draft.loaded(key, data)?);
    }
    Ok(sum)
}

/// All sessions, with the one that there is.
fn sessions_of<'e, L: Run, D: Disk, R: Wait>(
    rt: &R,
    alloc: Global,
    engine: &'e Engine<L, D, OpenGate>,
    first: Session<'e, L, D, OpenGate>,
) -> Result<Vec<Session<'e, L, D, OpenGate>>, Refusal> {
    let mut sessions = Vec::new(alloc);
    sessions.push(first)?;
    for _ in 1..SESSIONS {
        sessions.push(engine.session(rt)?)?;
    }
    Ok(sessions)
}

/// Reads a row and updates it in a transaction, which is durable then. Where that ends.
fn update_by<L: Run, D: Disk, R: Wait>(
    rt: &R,
    alloc: Global,
    session: &mut Session<'_, L, D, OpenGate>,
    key: u64,
    sum: &mut Checksum,
) -> Result<Stamp, Refusal> {
    session.begin_tx(rt)?;
    let row = found(session.read(rt, key_of(key))?)?;
    sum.add(&row);
    session.update(rt, Draft::new(alloc).changed(&row, 1)?)?;
    let end = session.commit_tx(rt)?;
    session.make_durable(rt, end)?;
    Ok(end)
}

/// Brings what is in the log into one pair, empties the files that are left behind, and lets go of
/// what is stored up to the stamp.
fn keep_up<L: Run, D: Disk, R: Wait>(
    rt: &R,
    engine: &Engine<L, D, OpenGate>,
    upto: Stamp,
) -> Result<(), Refusal> {
    was_due(engine.rotate(rt))?;
    was_due(engine.checkpoint(rt))?;
    was_due(engine.merge(rt, 0))?;
    for _ in rt.forever() {
        if let Done::Reclaimed(Reclaimed::Done) = engine.lock_store(rt).call(StoreCall::Reclaim)? {
            break;
        }
    }
    trim(rt, engine, upto)?;
    engine.collect(rt);
    Ok(())
}

/// Whether there was something to do.
fn was_due(installed: Result<Generation, Refusal>) -> Result<bool, Refusal> {
    match installed {
        Ok(_) => Ok(true),
        Err(Refusal::NothingToDo) => Ok(false),
        Err(refusal) => Err(refusal),
    }
}

fn trim<L: Run, D: Disk, R: Wait>(
    rt: &R,
    engine: &Engine<L, D, OpenGate>,
    upto: Stamp,
) -> Result<(), Refusal> {
    let mut core = engine.lock_core(rt);
    if upto <= core.tale_start() {
        return Ok(());
    }
    core.trim_tale(upto)
}
