use crate::others::Others;
use mvo_disk::Disk;
use mvo_engine::{Engine, Gate, Run};
use mvo_types::{Refusal, Stamp};
use std::sync::Wait;

/// What a thread does for the engine, between its transactions or beside those of others, as
/// `Upkeep` does for a core: commits go into groups and these into the log, the tale is trimmed,
/// and versions are collected.
#[derive(Drop)]
pub struct Keeping {
    /// So many rows are read or put from one turn to the next; 0 if none is to come.
    every: u64,
    /// How many rows were read or put since the last turn, and commits.
    done: u64,
    /// Whether the tale is trimmed, and so versions are collected.
    trims: bool,
    /// The mark of an earlier turn, up to which the tale is trimmed next.
    upto: Stamp,
}

impl Keeping {
    /// A turn after every so many rows, with a trim and a collection or without.
    pub fn new(every: u64, trims: bool) -> Keeping {
        Keeping {
            every,
            done: 0,
            trims,
            upto: Stamp(0),
        }
    }

    /// A transaction of so many rows is over. Has a turn if one is due.
    pub fn count<L: Run, D: Disk, G: Gate + Drop, R: Wait>(
        &mut self,
        rt: &R,
        engine: &Engine<L, D, G>,
        rows: u64,
    ) -> Result<(), Refusal> {
        self.done = self.done.saturating_add(rows).saturating_add(1);
        if self.every == 0 || self.done < self.every {
            return Ok(());
        }
        self.done = 0;
        self.turn(rt, engine)
    }

    /// Has a turn each millisecond until the others are at their end; none where none is to come.
    pub fn keep_on<L: Run, D: Disk, G: Gate + Drop, R: Wait>(
        &mut self,
        rt: &R,
        engine: &Engine<L, D, G>,
        others: &Others,
    ) -> Result<(), Refusal> {
        if self.every == 0 {
            return Ok(());
        }
        for _ in rt.forever() {
            others.sleep(rt);
            if others.have_left() {
                return Ok(());
            }
            self.turn(rt, engine)?;
        }
        unreachable!()
    }

    fn turn<L: Run, D: Disk, G: Gate + Drop, R: Wait>(
        &mut self,
        rt: &R,
        engine: &Engine<L, D, G>,
    ) -> Result<(), Refusal> {
        let mark = engine.flush(rt)?;
        if !self.trims {
            return Ok(());
        }
        if is_trimmed(rt, engine, self.upto) {
            self.upto = mark;
        }
        engine.collect(rt);
        Ok(())
    }
}

/// Trims up to the stamp, and says whether that is done, now or before: not while a transaction is
/// open that began before it.
fn is_trimmed<L: Run, D: Disk, G: Gate + Drop, R: Wait>(
    rt: &R,
    engine: &Engine<L, D, G>,
    upto: Stamp,
) -> bool {
    let mut core = engine.lock_core(rt);
    upto <= core.tale_start() || core.trim_tale(upto).is_ok()
}
