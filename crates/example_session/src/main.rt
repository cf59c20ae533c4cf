//! Moves money between two accounts, durably.
#![tactic(auto)]

mod over_world;

use mvo_disk::MemDisk;
use mvo_engine::{Engine, OpenGate, Outcome, Program, Run, SeenDurable, Session, Transaction};
use mvo_types::{Refusal, Row, RowKey, Stamp};

const FROM: RowKey = RowKey { table: 0, key: 1 };

const TO: RowKey = RowKey { table: 0, key: 2 };

/// Moves so much, if it is there. The sort of an account's row is the money in it, at first 100.
#[derive(Drop)]
struct Transfer(std::alloc::Global, u64);

impl<L: Run> Transaction<u64, L, MemDisk, OpenGate> for Transfer {
    fn run<R: std::sync::Wait>(
        &self,
        rt: &R,
        session: &mut Session<'_, L, MemDisk, OpenGate>,
    ) -> Result<Outcome<u64>, Refusal> {
        let from = session.get(rt, FROM)?.map_or(100, |row| row.sort);
        let to = session.get(rt, TO)?.map_or(100, |row| row.sort);
        let (Some(left), Some(sum)) = (from.checked_sub(self.1), to.checked_add(self.1)) else {
            return Ok(Outcome::GiveUp(to));
        };
        session.put(rt, Row::from_slice(self.0, FROM, left, &[])?)?;
        session.put(rt, Row::from_slice(self.0, TO, sum, &[])?)?;
        Ok(Outcome::Commit(sum))
    }
}

impl Program<u64, MemDisk> for Transfer {
    fn run<L: Run + Send + Sync, R: std::thread::Threads + std::sync::Wait + Sync>(
        &self,
        rt: &R,
        engine: &Engine<L, MemDisk, OpenGate>,
        seen: &mut Vec<SeenDurable<L>>,
    ) -> Result<u64, Refusal> {
        let mut session = engine.session(rt)?;
        let done = session.transact(rt, 100, self)?;
        session.make_durable(rt, done.end.unwrap_or(Stamp(0)))?;
        seen.push(session.seen())?;
        Ok(done.told)
    }
}

fn main(rt: HostRuntime) -> Result<(), anyhow::Error> {
    let (alloc, mut seed) = (rt.alloc(), [0; 8]);
    std::random::RandomSource::fill_bytes(&rt, &mut seed)?;
    let seed = u64::from_le_bytes(seed);
    let disk = mvo_store::format(alloc, MemDisk::new(alloc)?).map_err(|refused| refused.0)?;
    let given = mvo_engine::with_engine(&rt, alloc, seed, disk, &Transfer(alloc, 30));
    let (money, _disk) = given.map_err(|refused| refused.0)?;
    println!(rt; "the other account has {money}")?;
    over_world::run(&rt, alloc)
}
