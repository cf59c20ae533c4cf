use crate::part::Part;
use anyhow::{Result, bail};
use std::alloc::Global;
use std::env;

/// A workload.
#[derive(Clone, Copy, PartialEq, Eq)]
pub enum Work {
    Load,
    Reads,
    UniformReads,
    ZipfReads,
    ReadOnlyReads,
    Updates,
    Scans,
    Mixed,
    Hot,
    Crowd,
    Stalls,
    Threads,
    BesideReader,
    Report,
    Steady,
    Worn,
}

/// The names by which workloads are asked for.
const NAMES: [(&str, Work); 16] = [
    ("load", Work::Load),
    ("reads", Work::Reads),
    ("reads_uniform", Work::UniformReads),
    ("reads_zipf", Work::ZipfReads),
    ("reads_read_only", Work::ReadOnlyReads),
    ("updates", Work::Updates),
    ("scans", Work::Scans),
    ("mixed", Work::Mixed),
    ("hot", Work::Hot),
    ("open", Work::Crowd),
    ("stalls", Work::Stalls),
    ("threads", Work::Threads),
    ("beside_reader", Work::BesideReader),
    ("report", Work::Report),
    ("steady", Work::Steady),
    ("worn", Work::Worn),
];

/// Those that load rows of their own.
const APART: [Work; 6] = [
    Work::Stalls,
    Work::Threads,
    Work::BesideReader,
    Work::Report,
    Work::Steady,
    Work::Worn,
];

/// What is run, and how much of it.
pub struct Config {
    /// How many rows are loaded.
    pub rows: u64,
    /// How many bytes of data a row has.
    pub data: u64,
    /// Transactions of one or two rows.
    pub transactions: u64,
    /// Transactions of ten or a hundred rows, and reads of an old reader.
    pub fewer: u64,
    /// Updates of the hot key.
    pub hot: u64,
    /// Transactions that stay open.
    pub open: u64,
    /// Updates of few keys.
    pub steady: u64,
    /// So many rows are read or put from one turn of the upkeep to the next; 0 for none.
    pub upkeep: u64,
    works: Vec<Work>,
    parts: Vec<Part>,
}

impl Drop for Config {
    fn drop(self) {
        let Config {
            rows: _,
            data: _,
            transactions: _,
            fewer: _,
            hot: _,
            open: _,
            steady: _,
            upkeep: _,
            works: _,
            parts: _,
        } = self;
    }
}

impl Config {
    fn new(alloc: Global) -> Config {
        Config {
            rows: 1_000_000,
            data: 100,
            transactions: 300_000,
            fewer: 10_000,
            hot: 100_000,
            open: 1_000,
            steady: 10_000_000,
            upkeep: 64,
            works: Vec::new(alloc),
            parts: Vec::new(alloc),
        }
    }

    /// What the arguments say.
    pub fn given(rt: &HostRuntime) -> Result<Config> {
        let mut config = Config::new(rt.alloc());
        config.take_all(rt)?;
        Ok(config)
    }

    fn take_all(&mut self, rt: &HostRuntime) -> Result<()> {
        for word in env::args(rt)?.skip(1) {
            self.take(word.as_str())?;
        }
        if self.rows % 2 != 0 || self.rows <= self.open.max(8) {
            bail!("rows has to be even, and more than 8 and than open");
        }
        if self.data > 1_024 {
            bail!("data has to be at most 1024");
        }
        Ok(())
    }

    /// Whether rows are to be loaded: for all workloads but those that load their own.
    pub fn loads(&self) -> bool {
        self.runs_all() || self.works.iter().any(|work| !APART.contains(work))
    }

    /// Whether the workload is to run.
    pub fn has(&self, work: Work) -> bool {
        self.runs_all() || self.works.contains(&work)
    }

    /// Whether the part is to be made.
    pub fn has_part(&self, part: Part) -> bool {
        self.runs_all() || self.parts.contains(&part)
    }

    fn runs_all(&self) -> bool {
        self.works.is_empty() && self.parts.is_empty()
    }

    fn take(&mut self, word: &str) -> Result<()> {
        match word.split_once('=') {
            Some((name, value)) => self.set(name, value.parse::<u64>()?),
            None => self.add(word),
        }
    }

    fn set(&mut self, name: &str, value: u64) -> Result<()> {
        match name {
            "rows" => self.rows = value,
            "data" => self.data = value,
            "transactions" => self.transactions = value,
            "fewer" => self.fewer = value,
            "hot" => self.hot = value,
            "open" => self.open = value,
            "steady" => self.steady = value,
            "upkeep" => self.upkeep = value,
            _ => bail!("no number has this name"),
        }
        Ok(())
    }

    fn add(&mut self, word: &str) -> Result<()> {
        match Work::named(word) {
            Some(work) => self.works.push(work)?,
            None => self.parts.push(Part::named(word)?)?,
        }
        Ok(())
    }
}

impl Work {
    fn named(word: &str) -> Option<Work> {
        for (name, work) in NAMES {
            if name == word {
                return Some(work);
            }
        }
        None
    }
}
