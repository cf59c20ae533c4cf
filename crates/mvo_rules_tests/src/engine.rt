ghost use Rattle.std.specs.Prelude.{◌≡◌, ◌==◌, IfOk};
ghost use Rattle.std.specs.List.{list_any};
ghost use Rattle.mvo_hash.specs.Lists.{numbers_of, is_among};

use crate::counts::{Counts, count};
use crate::numbers::Numbers;
use crate::open::{Open, Written};
use mvo_chain::{Chains, VersionNo};
use mvo_hash::HashIndex;
use mvo_range::{RangeIndex, SortPlace};
use mvo_txn::{Located, TxState, TxnTable};
use mvo_types::{Entry, MAX_STAMP, Refusal, Row, RowKey, Stamp, TxId};
use mvo_validate::{Check, check_entry};
use mvo_visible::{Shown, ended_by, names, shown, shown_at_once};
use mvo_word::{Held, Word};
use std::alloc::{AllocError, Global};

pub const SORTS: u64 = 5;

const MOST_AT_ONCE: u64 = 6;

/// A small engine, of which a step is drawn at a time.
pub struct Engine {
    alloc: Global,
    pub chains: Chains,
    pub index: HashIndex,
    pub ranges: RangeIndex,
    pub table: TxnTable<u8>,
    pub open: Vec<Open>,
    pub counts: Counts,
}

impl Drop for Engine {
    fn drop(self) {
        let Engine {
            alloc: _,
            chains: _,
            index: _,
            ranges: _,
            table: _,
            open: _,
            counts: _,
        } = self;
    }
}

impl Engine {
    pub fn new(alloc: Global, seed: u64) -> Result<Engine, AllocError> {
        Ok(Engine {
            alloc,
            chains: Chains::new(alloc),
            index: HashIndex::new(alloc, seed),
            ranges: RangeIndex::new(alloc),
            table: TxnTable::new(alloc, Stamp(7))?,
            open: Vec::new(alloc),
            counts: Counts::new(),
        })
    }

    /// One step, of a transaction that begins or of one that is open.
    pub fn advance(&mut self, draws: &mut Numbers) -> Result<(), AllocError> {
        let at = draws.below(MOST_AT_ONCE) as usize;
        if at >= self.open.len() {
            self.collect()?;
            return self.begin();
        }
        let mut tx = self.open.swap_remove(at);
        match self.table.state(tx.id) {
            Some(TxState::Active) => self.operate(&mut tx, draws)?,
            Some(TxState::Preparing(end)) => self.lead_on(&mut tx, end, draws)?,
            Some(TxState::Committed(end)) => self.finish(&mut tx, Some(end)),
            Some(TxState::Aborted) => self.finish(&mut tx, None),
            None => count(&mut self.counts.strange),
        }
        if self.table.state(tx.id).is_some() {
            self.open.push(tx)?;
        }
        Ok(())
    }

    pub fn begin(&mut self) -> Result<(), AllocError> {
        match self.table.begin(0) {
            Ok(id) => self.open.push(Open::new(self.alloc, id))?,
            Err(Refusal::OutOfMemory) => return Err(AllocError),
            Err(_) => count(&mut self.counts.strange),
        }
        Ok(())
    }

    fn operate(&mut self, tx: &mut Open, draws: &mut Numbers) -> Result<(), AllocError> {
        // One that depends on an Aborted one may go on for a while, and even draw its end.
        if tx.flagged && draws.below(3) == 0 {
            return self.abort(tx);
        }
        match draws.below(12) {
            0 => self.abort(tx)?,
            1 | 2 => self.precommit(tx)?,
            3 | 4 => self.scan(tx, draws.below(SORTS), draws.below(SORTS))?,
            5 | 6 => {
                self.look(tx, draws.key())?;
            }
            7 | 8 => self.insert(tx, draws.key(), draws.below(SORTS))?,
            9 | 10 => self.update(tx, draws.key(), draws.below(SORTS))?,
            _ => self.delete(tx, draws.key())?,
        }
        Ok(())
    }

    fn look(&mut self, tx: &mut Open, key: RowKey) -> Result<Option<VersionNo>, AllocError> {
        tx.entries.make_room()?;
        tx.entries.note(Entry::Key(key));
        let found = self.shown_to(tx.id, key);
        tx.depend(found)?;
        Ok(found.version)
    }

    pub fn shown_to(&self, id: TxId, key: RowKey) -> Shown {
        let at = Stamp(id.0);
        shown(&self.chains, &self.index, &self.table, at, id, key)
    }

    pub fn shown_at_once_to(&self, id: TxId, key: RowKey) -> Option<Shown> {
        shown_at_once(&self.chains, &self.index.walk(key), Stamp(id.0))
    }

    fn scan(&mut self, tx: &mut Open, lo: u64, hi: u64) -> Result<(), AllocError> {
        tx.entries.make_room()?;
        tx.entries.note(Entry::Range(3, lo, hi));
        for (place, _) in self.ranges.between(3, lo, hi) {
            tx.depend(self.shown_to(tx.id, place.row_key()))?;
        }
        Ok(())
    }

    pub fn insert(&mut self, tx: &mut Open, key: RowKey, sort: u64) -> Result<(), AllocError> {
        if self.look(tx, key)?.is_none() {
            tx.inserted.push(key)?;
            self.put(tx, key, sort)?;
        }
        Ok(())
    }

    fn update(&mut self, tx: &mut Open, key: RowKey, sort: u64) -> Result<(), AllocError> {
        if let Some(number) = self.look(tx, key)? {
            if self.end(tx, number)? {
                self.put(tx, key, sort)?;
            }
        }
        Ok(())
    }

    pub fn delete(&mut self, tx: &mut Open, key: RowKey) -> Result<(), AllocError> {
        if let Some(number) = self.look(tx, key)? {
            if self.end(tx, number)? {
                tx.writes.push((key, None))?;
            }
        }
        Ok(())
    }

    fn put(&mut self, tx: &mut Open, key: RowKey, sort: u64) -> Result<(), AllocError> {
        let row = Row::new(key, sort, Vec::new(self.alloc))?;
        let begin = Word::id(TxId(tx.id.0.min(MAX_STAMP)));
        let number = self.chains.add(row, begin)?;
        self.ranges.add(SortPlace::new(key, sort), number.0)?;
        self.to_front(key, number)?;
        tx.words.push(Written::Begin(number))?;
        tx.writes.push((key, Some(number)))?;
        Ok(())
    }

    fn to_front(&mut self, key: RowKey, number: VersionNo) -> Result<(), AllocError> {
        if self.index.is_held(number) {
            count(&mut self.counts.strange);
            return Ok(());
        }
        self.index.add(key, number)
    }

    /// Ends a shown version, or aborts the transaction where another has ended it.
    fn end(&mut self, tx: &mut Open, number: VersionNo) -> Result<bool, AllocError> {
        let Some(version) = self.chains.get(number) else {
            count(&mut self.counts.strange);
            return Ok(false);
        };
        if ended_by(&self.table, version.end, tx.id).is_some() {
            count(&mut self.counts.conflicts);
            self.abort(tx)?;
            return Ok(false);
        }
        self.chains.claim_end(number, TxId(tx.id.0.min(MAX_STAMP)));
        tx.words.push(Written::End(number))?;
        Ok(true)
    }

    /// Draws the end, and brings to the front of their keys the versions that it put, and those
    /// that it ended and that nobody has put any more.
    pub fn precommit(&mut self, tx: &Open) -> Result<(), AllocError> {
        if self.table.state(tx.id) != Some(TxState::Active) {
            count(&mut self.counts.strange);
            return Ok(());
        }
        let (id, seat) = (tx.id, self.table.seat_of(tx.id));
        if self.table.prepare(Located { id, seat }).is_err() {
            return Err(AllocError);
        }
        for word in tx.words.iter() {
            match word {
                Written::Begin(number) => self.bring_to_front(*number)?,
                Written::End(number) => {
                    if self.is_unput(*number) {
                        count(&mut self.counts.ended_unput);
                        self.bring_to_front(*number)?;
                    }
                }
            }
        }
        Ok(())
    }

    /// Whether the version's put is by an Aborted one, or taken back.
    fn is_unput(&self, number: VersionNo) -> bool {
        match self.chains.get(number) {
            Some(version) => match version.begin.read() {
                Held::At(_) => false,
                Held::Infinity => true,
                Held::By(id) => self.table.state(id) == Some(TxState::Aborted),
            },
            None => false,
        }
    }

    fn bring_to_front(&mut self, number: VersionNo) -> Result<(), AllocError> {
        let Some(version) = self.chains.get(number) else {
            count(&mut self.counts.strange);
            return Ok(());
        };
        let key = version.row.key;
        if !has(self.alloc, &self.index, key, number)? {
            count(&mut self.counts.strange);
            return Ok(());
        }
        if self.index.newest(key) != Some(number) {
            count(&mut self.counts.moved);
        }
        self.index.bring_to_front(key, number);
        Ok(())
    }

    /// Takes a version off the list of its key, and answers the key.
    fn taken_off(&mut self, number: VersionNo) -> Result<Option<RowKey>, AllocError> {
        let Some(version) = self.chains.get(number) else {
            count(&mut self.counts.strange);
            return Ok(None);
        };
        let key = version.row.key;
        if !has(self.alloc, &self.index, key, number)? {
            count(&mut self.counts.strange);
            return Ok(None);
        }
        self.index.remove(key, number);
        Ok(Some(key))
    }

    /// A check, the end or the withdrawal of a Preparing transaction.
    fn lead_on(
        &mut self,
        tx: &mut Open,
        end: Stamp,
        draws: &mut Numbers,
    ) -> Result<(), AllocError> {
        if (tx.flagged && draws.below(3) == 0) || draws.below(12) == 0 {
            return self.abort(tx);
        }
        match tx.entries.at(tx.checked) {
            Some(entry) => match self.check(tx.id, end, entry) {
                Check::Same => tx.checked = tx.checked.saturating_add(1),
                Check::Differs(_) => {
                    count(&mut self.counts.failed);
                    self.abort(tx)?;
                }
            },
            None => self.settle(tx),
        }
        Ok(())
    }

    pub fn check(&self, id: TxId, end: Stamp, entry: Entry) -> Check {
        let begin = Stamp(id.0);
        let (index, ranges) = (&self.index, &self.ranges);
        check_entry(&self.chains, index, ranges, &self.table, begin, end, entry)
    }

    pub fn is_preparing(&self, id: TxId) -> bool {
        matches!(self.table.state(id), Some(TxState::Preparing(_)))
    }

    pub fn settle(&mut self, tx: &Open) {
        if tx.flagged {
            return;
        }
        if tx.depends_on.iter().any(|on| self.is_preparing(*on)) {
            count(&mut self.counts.waits);
            return;
        }
        let (id, seat) = (tx.id, self.table.seat_of(tx.id));
        match self.table.state(id) {
            Some(TxState::Preparing(_)) => {
                let _ = self.table.commit(Located { id, seat });
                count(&mut self.counts.committed);
            }
            _ => count(&mut self.counts.strange),
        }
    }

    /// Withdraws it, and brings the versions that it put to the front of their keys.
    pub fn abort(&mut self, aborted: &Open) -> Result<(), AllocError> {
        let (id, seat) = (aborted.id, self.table.seat_of(aborted.id));
        match self.table.state(id) {
            Some(TxState::Active) => self.table.abort(Located { id, seat }),
            Some(TxState::Preparing(_)) => self.table.abort(Located { id, seat }),
            _ => count(&mut self.counts.strange),
        }
        for tx in self.open.iter_mut() {
            if tx.does_depend(aborted.id) {
                tx.flagged = true;
                count(&mut self.counts.flagged);
            }
        }
        for word in aborted.words.iter() {
            if let Written::Begin(number) = word {
                self.bring_to_front(*number)?;
            }
        }
        Ok(())
    }

    /// Replaces one word, or lets the transaction leave.
    pub fn finish(&mut self, tx: &mut Open, end: Option<Stamp>) {
        if !tx.words.is_empty() {
            let word = tx.words.remove(0);
            self.replace(tx.id, word, end);
            return;
        }
        let (id, seat) = (tx.id, self.table.seat_of(tx.id));
        match self.table.state(id) {
            Some(TxState::Committed(_)) => {
                let _ = self.table.terminate(Located { id, seat });
            }
            Some(TxState::Aborted) => {
                let _ = self.table.terminate(Located { id, seat });
            }
            _ => count(&mut self.counts.strange),
        }
    }

    fn replace(&mut self, id: TxId, word: Written, end: Option<Stamp>) {
        let finished = match end {
            Some(end) => Word::stamp(Stamp(end.0.min(MAX_STAMP))),
            None => Word::INFINITY,
        };
        match word {
            Written::Begin(number) => {
                if self.chains.get(number).is_none() {
                    return count(&mut self.counts.strange);
                }
                self.chains.set_begin(number, finished);
            }
            Written::End(number) => {
                let Some(version) = self.chains.get(number) else {
                    return count(&mut self.counts.strange);
                };
                if names(version.end, id) {
                    self.chains.set_end(number, finished);
                }
            }
        }
    }

    /// Takes out every version that nobody can be shown any more.
    fn collect(&mut self) -> Result<(), AllocError> {
        let horizon = self.table.oldest_begin();
        for number in 0..self.chains.slot_count() {
            let number = number_at(number);
            if self.is_garbage(number, horizon) {
                self.taken_off(number)?;
                if self.chains.get(number).is_some() {
                    let _ = self.chains.take_out(number);
                }
            }
        }
        Ok(())
    }

    fn is_garbage(&self, number: VersionNo, horizon: Stamp) -> bool {
        let Some(version) = self.chains.get(number) else {
            return false;
        };
        match version.end.read() {
            Held::At(stamp) => stamp <= horizon,
            Held::By(_) => false,
            Held::Infinity => version.begin.read() == Held::Infinity,
        }
    }
}

/// The number of a slot, of which there are few.
pub fn number_at(slot: usize) -> VersionNo {
    VersionNo((slot & 0xffff) as u32)
}

/// Whether the key has the version.
fn has(
    alloc: Global,
    index: &HashIndex,
    key: RowKey,
    version: VersionNo,
) -> Result<bool, AllocError>
    ensures { IfOk result (λ b. b ≡ is_among version.0 (numbers_of index.now.versions key)) }
{
    let versions = index.versions_of(alloc, key)?;
    Ok(holds(versions.as_slice(), version))
}

fn holds(versions: &[VersionNo], version: VersionNo) -> bool
    ensures { result ≡ list_any (λ v. version.0 == v.0) versions.now }
{
    versions.iter().any(|v| version.0 == v.0)
}
