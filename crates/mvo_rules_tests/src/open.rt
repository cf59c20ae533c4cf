use mvo_chain::VersionNo;
use mvo_types::{RowKey, TxId};
use mvo_validate::Entries;
use mvo_visible::Shown;
use std::alloc::{AllocError, Global};

/// A word that a transaction wrote.
#[derive(Clone, Copy)]
pub enum Written {
    Begin(VersionNo),
    End(VersionNo),
}

/// An unfinished transaction.
pub struct Open {
    pub id: TxId,
    /// One that it depends on is Aborted.
    pub flagged: bool,
    pub entries: Entries,
    /// How many entries are checked.
    pub checked: usize,
    /// The words that are still to be replaced, in the order of writing.
    pub words: Vec<Written>,
    /// Its writes in turn: the version put, or none for a delete.
    pub writes: Vec<(RowKey, Option<VersionNo>)>,
    /// The keys that it inserted.
    pub inserted: Vec<RowKey>,
    pub depends_on: Vec<TxId>,
}

impl Drop for Open {
    fn drop(self) {
        let Open {
            id: _,
            flagged: _,
            entries: _,
            checked: _,
            words: _,
            writes: _,
            inserted: _,
            depends_on: _,
        } = self;
    }
}

impl Open {
    pub fn new(alloc: Global, id: TxId) -> Open {
        Open {
            id,
            flagged: false,
            entries: Entries::new(alloc),
            checked: 0,
            words: Vec::new(alloc),
            writes: Vec::new(alloc),
            inserted: Vec::new(alloc),
            depends_on: Vec::new(alloc),
        }
    }

    pub fn depend(&mut self, shown: Shown) -> Result<(), AllocError> {
        if let Some(on) = shown.depends_on {
            self.depends_on.push(on)?;
        }
        Ok(())
    }

    pub fn does_depend(&self, on: TxId) -> bool {
        self.depends_on.iter().any(|other| *other == on)
    }

    pub fn has_inserted(&self, key: RowKey) -> bool {
        self.inserted.iter().any(|other| *other == key)
    }

    /// Its last write of the key, if it wrote it.
    pub fn last_write(&self, key: RowKey) -> Option<Option<VersionNo>> {
        let mut last = None;
        for (written, version) in self.writes.iter() {
            if *written == key {
                last = Some(*version);
            }
        }
        last
    }
}
