//! How much memory the parts of a row take, each made by itself. The memory of one is used again by
//! the next, so a figure is right where its part is the only one of a run.
use crate::config::Config;
use crate::draft::Draft;
use crate::figure::Figure;
use crate::part::Part;
use crate::resident::resident;
use crate::rows::{key_of, sort_of};
use anyhow::Result;
use mvo_chain::{Chains, VersionNo};
use mvo_hash::{HashIndex, Heads};
use mvo_range::{RangeIndex, SortPlace};
use mvo_types::{Row, Rows, Stamp, TxId};
use mvo_versions::Versions;
use mvo_word::Word;
use std::alloc::{AllocError, Global};
use std::thread::Threads;

/// The seed of the core's key index.
const SEED: u64 = 7;

/// A part that is being made: how much memory there was before.
#[derive(Clone, Copy)]
struct Look<'a> {
    rt: &'a HostRuntime,
    figure: Figure<'a>,
    rows: u64,
    data: u64,
    before: u64,
}

/// Makes the part for all rows, and prints how many bytes a row it took.
pub fn run(
    rt: &HostRuntime,
    threads: &(impl Threads + Sync),
    config: &Config,
    part: Part,
) -> Result<()> {
    let figure = Figure::start(rt, config, part.name())?;
    let look = Look {
        rt,
        figure,
        rows: config.rows,
        data: config.data,
        before: resident(rt),
    };
    match part {
        Part::Rows => row_list(look),
        Part::Copies => copies(look),
        Part::Versions => chains(look),
        Part::Heads => heads(look),
        Part::Index => index(look),
        Part::Order => order(look),
        Part::Rising => rising(look),
        Part::Built => built(look),
        Part::All => versions(threads, look),
        Part::Loaded => at_once(threads, look),
    }
}

impl<'a> Look<'a> {
    fn alloc(&self) -> Global {
        self.rt.alloc()
    }

    /// The row whose block is shared.
    fn first_row(&self) -> Result<Row, AllocError> {
        let mut draft = Draft::new(self.alloc());
        draft.loaded(0, self.data)
    }

    /// Prints the bytes of memory for one of the rows, while what was made is held.
    fn tell<T>(&self, _: &T) -> Result<()> {
        let bytes = resident(self.rt).saturating_sub(self.before);
        self.figure.tell_part(self.rt, self.data, bytes)
    }
}

fn row_list(look: Look<'_>) -> Result<()> {
    let mut list = Vec::with_capacity(look.alloc(), look.rows as usize)?;
    add_rows(&look, &mut list)?;
    look.tell(&list)
}

fn add_rows(look: &Look<'_>, list: &mut Vec<Row>) -> Result<(), AllocError> {
    let mut draft = Draft::new(look.alloc());
    for key in 0..look.rows {
        list.push(draft.loaded(key, look.data)?)?;
    }
    Ok(())
}

fn copies(look: Look<'_>) -> Result<()> {
    let mut list = Vec::with_capacity(look.alloc(), look.rows as usize)?;
    add_copies(&look, &mut list)?;
    look.tell(&list)
}

fn add_copies(look: &Look<'_>, list: &mut Vec<Row>) -> Result<(), AllocError> {
    let row = look.first_row()?;
    for _ in 0..look.rows {
        list.push(row.copy()?)?;
    }
    Ok(())
}

fn chains(look: Look<'_>) -> Result<()> {
    let mut chains = Chains::new(look.alloc());
    add_versions(&look, &mut chains)?;
    look.tell(&chains)
}

fn add_versions(look: &Look<'_>, chains: &mut Chains) -> Result<(), AllocError> {
    let row = look.first_row()?;
    for _ in 0..look.rows {
        chains.add(row.copy()?, Word::stamp(Stamp(1)))?;
    }
    Ok(())
}

/// The number that the version of a key has where keys come in turn.
fn number_of(key: u64) -> u32 {
    (key & 0xFFFF_FFFF) as u32
}

fn heads(look: Look<'_>) -> Result<()> {
    let mut heads = Heads::new(look.alloc(), SEED);
    add_heads(&look, &mut heads)?;
    look.tell(&heads)
}

fn add_heads(look: &Look<'_>, heads: &mut Heads) -> Result<(), AllocError> {
    for key in 0..look.rows {
        heads.put(key_of(key), number_of(key))?;
    }
    Ok(())
}

fn index(look: Look<'_>) -> Result<()> {
    let mut index = HashIndex::new(look.alloc(), SEED);
    add_links(&look, &mut index)?;
    look.tell(&index)
}

fn add_links(look: &Look<'_>, index: &mut HashIndex) -> Result<(), AllocError> {
    for key in 0..look.rows {
        let number = VersionNo(number_of(key));
        if !index.is_held(number) {
            index.add(key_of(key), number)?;
        }
    }
    Ok(())
}

fn order(look: Look<'_>) -> Result<()> {
    let mut order = RangeIndex::new(look.alloc());
    for key in 0..look.rows {
        order.add(SortPlace::new(key_of(key), sort_of(key)), 1)?;
    }
    look.tell(&order)
}

fn rising(look: Look<'_>) -> Result<()> {
    let mut order = RangeIndex::new(look.alloc());
    for key in 0..look.rows {
        order.add(SortPlace::new(key_of(key), key), 1)?;
    }
    look.tell(&order)
}

fn built(look: Look<'_>) -> Result<()> {
    let order = RangeIndex::from_entries(look.alloc(), places(&look)?)?;
    look.tell(&order)
}

fn places(look: &Look<'_>) -> Result<Vec<(SortPlace, u32)>, AllocError> {
    let mut places = Vec::with_capacity(look.alloc(), look.rows as usize)?;
    for key in 0..look.rows {
        places.push((SortPlace::new(key_of(key), key), 1))?;
    }
    Ok(places)
}

fn versions(rt: &(impl Threads + Sync), look: Look<'_>) -> Result<()> {
    let alloc = look.alloc();
    let mut versions = Versions::load(rt, alloc, SEED, Rows::new(alloc), Stamp(1))?;
    put_all(&look, &mut versions)?;
    look.tell(&versions)
}

fn put_all(look: &Look<'_>, versions: &mut Versions) -> Result<(), AllocError> {
    let mut draft = Draft::new(look.alloc());
    for key in 0..look.rows {
        versions.put(draft.loaded(key, look.data)?, TxId(3), None)?;
    }
    Ok(())
}

fn at_once(rt: &(impl Threads + Sync), look: Look<'_>) -> Result<()> {
    let mut list = Rows::new(look.alloc());
    list_all(&look, &mut list)?;
    let versions = Versions::load(rt, look.alloc(), SEED, list, Stamp(1))?;
    look.tell(&versions)
}

fn list_all(look: &Look<'_>, list: &mut Rows) -> Result<(), AllocError> {
    let mut draft = Draft::new(look.alloc());
    for key in 0..look.rows {
        list.put(draft.loaded(key, look.data)?)?;
    }
    Ok(())
}
