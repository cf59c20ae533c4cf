//! Reads the data file of a pair in slices.
ghost use Rattle.std.specs.Prelude.{◌≡◌, ◌≢◌, ◌⊎◌, ◌↔◌, ◌<◌, ◌≤◌, ◌+◌, ◌-◌, ◌/◌, ◌^◌, ◌&&◌, ℕ, List, IsTrue, IfOk, OnOk, IfErr, MatchOption, length, drop};
ghost use Rattle.mvo_pair.specs.Coming.{IsNextRecord, IsReadingBegun, IsNoReading, FoundIsLoaded, IsReadOn, IsBroken, AreNamed, behind_record, at_start, is_behind, nothing_more, still_found};
ghost use Rattle.mvo_pair.specs.Answers.{Tells, file_refusal};
ghost use Rattle.mvo_pair.specs.Loading.{LoadsAs};
ghost use Rattle.mvo_pair.specs.Reading.{Finds, IsBytes, keeps};
ghost use Rattle.mvo_pair.specs.declared.reading.ReadSoFar.{ReadSoFar};

use crate::data::{DATA_MAGIC, RECORD, entry_len, entry_of, from_place, keeps};
use crate::data_record::DataRecord;
use crate::delta::read_delta;
use crate::header::{HEADER, behind_format};
use crate::live::{Live, add_unnamed};
use crate::pair::{Pair, refusal_of};
use crate::unread::Unread;
use mvo_format::Format;
use mvo_types::{Refusal, RowKey, Stamp};
use std::alloc::{AllocError, Global};
use std::marker::Model;

/// The most bytes that a record takes in a data file.
pub const MOST_RECORD: usize = 65_562;

/// How far the data file of a pair is read.
#[derive(Clone, Copy)]
pub struct ReadSoFar {
    /// How many of its records are read.
    pub count: u32,
    /// Where in the file the next one begins, in bytes.
    pub place: usize,
    /// The begin and the key of the last one.
    pub last: Option<(Stamp, RowKey)>,
}

/// A pair whose data file is read in slices. It holds what its header and its delta file say: one
/// byte a record, and none of the records.
#[derive(Drop)]
pub struct PairReading {
    pair: Pair,
    format: Format,
    named: Vec<bool>,
    refused: Option<Refusal>,
}

impl Model for PairReading {
    ghost use Rattle.std.specs.Prelude.{◌≡◌, length};
    ghost use Rattle.mvo_pair.specs.Coming.{PairReadingData};

    ghost Value = { PairReadingData };

    ghost view = { λ r. record {
      pair = r.pair;
      format = r.format;
      named = r.named.items;
      refused = r.refused;
    } };

    ghost invariant = { λ r. length r.named.items ≡ r.pair.records };
}

/// Whether the record stands behind the last one.
#[tactic(auto, unfolding(crate::specs::Coming::is_behind))]
fn is_behind(last: Option<(Stamp, RowKey)>, entry: &DataRecord) -> bool
    ensures { result ≡ is_behind last entry.now }
{
    match last {
        Some(last) => last < (entry.begin, entry.row.key),
        None => true,
    }
}

/// Whether the record keeps its rules, and stands behind the last one.
fn is_kept(format: Format, pair: Pair, last: Option<(Stamp, RowKey)>, entry: &DataRecord) -> bool
    ensures { result ≡ (keeps format pair.lo.0 pair.hi.0 entry.now && is_behind last entry.now) }
{
    keeps(format, pair, entry) && is_behind(last, entry)
}

/// The record at the front, behind the last one, and how many bytes it takes.
fn next_record(
    alloc: Global,
    format: Format,
    pair: Pair,
    last: Option<(Stamp, RowKey)>,
    bytes: &[u8],
) -> Result<Option<(DataRecord, usize)>, Unread>
    ensures { IsNextRecord format pair.lo.0 pair.hi.0 last bytes.now result }
{
    let Some(len) = entry_len(bytes) else {
        return Ok(None);
    };
    let entry = entry_of(alloc, len, bytes)?;
    if !is_kept(format, pair, last, &entry) {
        return Err(Unread::Broken);
    }
    Ok(Some((entry, len)))
}

impl ReadSoFar {
    /// Before the first record.
    pub fn start() -> ReadSoFar
        ensures { result ≡ at_start }
    {
        ReadSoFar {
            count: 0,
            place: HEADER,
            last: None,
        }
    }

    /// Behind the next record, which takes so many bytes.
    fn behind(self, entry: &DataRecord, len: usize) -> ReadSoFar
        requires count { self.count + 1 < 2 ^ 32 }
        requires place { self.place + len < 2 ^ 64 }
        ensures { result ≡ behind_record self entry.now len }
    {
        ReadSoFar {
            count: self.count + 1,
            place: self.place + len,
            last: Some((entry.begin, entry.row.key)),
        }
    }
}

/// Whether so many records can't stand in a data file of so many bytes.
fn are_too_many(records: u32, data_len: usize) -> bool
    ensures { IsTrue result ↔ ((data_len - 8) / 27 < records) }
{
    records as usize > data_len.saturating_sub(HEADER) / RECORD
}

/// How a delta file is refused, unless memory was.
fn refused_later(file: u16, e: Unread) -> Option<Refusal>
    ensures { MatchOption result (e ≡ Unread.Memory)
        (λ refusal. (e ≢ Unread.Memory) × (refusal ≡ file_refusal file e)) }
{
    match e {
        Unread::Memory => None,
        Unread::OtherVersion => Some(Refusal::BadVersion),
        Unread::Broken => Some(Refusal::Corrupt(file)),
    }
}

/// Which of a pair's records its delta file names, and how it is refused if it is: then it names
/// all.
fn named_by(
    alloc: Global,
    format: Format,
    pair: Pair,
    delta: &[u8],
) -> Result<(Vec<bool>, Option<Refusal>), AllocError>
    ensures named { IfOk result (λ x. AreNamed format pair delta.now x.0.items x.1) }
    ensures many { IfOk result (λ x. length x.0.items ≡ pair.records) }
{
    match read_delta(alloc, format.version, pair.records, pair.entries, delta) {
        Ok(named) => Ok((named, None)),
        Err(e) => match refused_later(pair.delta_file, e) {
            Some(refusal) => Ok((vec![in alloc; true; pair.records as usize]?, Some(refusal))),
            None => Err(AllocError),
        },
    }
}

impl PairReading {
    /// Begins to read a pair of a version up to this one, whose data file has so many bytes, of
    /// which the first eight are wanted here, and whose delta file has these bytes. It takes a byte
    /// of memory a record.
    ///
    /// Refused: Corrupt with the data file or BadVersion, by the first rule that its header or its
    /// length breaks, or OutOfMemory. Where the delta file breaks a rule, `end` tells it, behind
    /// all that the data file breaks.
    pub fn begin(
        alloc: Global,
        upto: u32,
        pair: Pair,
        data_len: usize,
        front: &[u8],
        delta: &[u8],
    ) -> Result<PairReading, Refusal>
        ensures begun { IfOk result (IsReadingBegun upto pair front.now delta.now) }
        ensures loaded { FoundIsLoaded upto pair }
        ensures header { OnOk result (8 ≤ length front.now) }
        ensures front_bytes { IsBytes front.now }
        ensures delta_bytes { IsBytes delta.now }
        ensures pair { IfOk result (λ r. r.pair ≡ pair) }
        ensures refused { IfErr result (λ e. (e ≡ Refusal.OutOfMemory)
            ⊎ IsNoReading upto pair data_len front.now delta.now e) }
    {
        let format = match behind_format(DATA_MAGIC, upto, front) {
            Ok((format, _)) => format,
            Err(e) => return Err(refusal_of(pair.data_file, e)),
        };
        if are_too_many(pair.records, data_len) {
            return Err(Refusal::Corrupt(pair.data_file));
        }
        let (named, refused) = named_by(alloc, format, pair, delta)?;
        Ok(PairReading {
            pair,
            format,
            named,
            refused,
        })
    }

    /// The pair that is read.
    pub fn pair(&self) -> Pair
        ensures { result ≡ self.now.pair }
    {
        self.pair
    }

    /// Whether all records are read.
    pub fn is_whole(&self, so_far: ReadSoFar) -> bool
        ensures { IsTrue result ↔ (self.now.pair.records ≤ so_far.count) }
    {
        self.pair.records <= so_far.count
    }

    /// Reads on, of the next bytes of the data file: so many records at most. Answers those of them
    /// that are live, and how far the file is read then. Bytes behind the last whole record are to
    /// come again. It takes memory for the records alone.
    ///
    /// Refused: Corrupt with the data file where a record breaks a rule, or where not one is whole;
    /// so hand it the rest of the file, or at least `MOST_RECORD` bytes. Or OutOfMemory; then it
    /// may be repeated.
    pub fn more(
        &self,
        alloc: Global,
        from: ReadSoFar,
        most: u32,
        bytes: &[u8],
    ) -> Result<(Vec<Live>, ReadSoFar), Refusal>
        requires { from.place + length bytes.now < 2 ^ 64 }
        ensures on { IfOk result (λ x. IsReadOn self.now from bytes.now x.0.items x.1) }
        ensures further { IfOk result (λ x.
            0 < most → from.count < self.now.pair.records → from.count < x.1.count) }
        ensures few { IfOk result (λ x. x.1.count ≤ from.count + most) }
        ensures refused { IfErr result (λ e. (e ≡ Refusal.OutOfMemory)
            ⊎ IsBroken self.now from bytes.now e) }
        ensures why { IfErr result (λ e. (e ≡ Refusal.OutOfMemory)
            ⊎ (e ≡ Refusal.Corrupt self.now.pair.data_file)) }
        ensures bytes { IsBytes bytes.now }
    {
        let left = self.pair.records.saturating_sub(from.count);
        let mut live = Vec::new(alloc);
        let mut so_far = from;
        let mut rest = bytes;
        for _ in 0..most.min(left) {
            let next = match next_record(alloc, self.format, self.pair, so_far.last, rest) {
                Ok(next) => next,
                Err(e) => return Err(refusal_of(self.pair.data_file, e)),
            };
            let Some((entry, len)) = next else {
                if so_far.count == from.count {
                    return Err(Refusal::Corrupt(self.pair.data_file));
                }
                return Ok((live, so_far));
            };
            let number = so_far.count;
            so_far = so_far.behind(&entry, len);
            rest = from_place(len, rest);
            let is_named = self.named[number as usize];
            add_unnamed(&mut live, is_named, number, entry)?;
        }
        Ok((live, so_far))
    }

    /// Ends a reading: behind all records it tells how the delta file is refused, if it is.
    pub fn end(&self) -> Result<(), Refusal>
        ensures { (so_far : ReadSoFar) (rest : List ℕ) → self.now.pair.records ≤ so_far.count →
            still_found self.now so_far rest ≡ nothing_more result }
    {
        match self.refused {
            Some(e) => Err(e),
            None => Ok(()),
        }
    }

    /// The live records of a pair whose data file has these bytes.
    fn read_all(&self, alloc: Global, data_bytes: &[u8]) -> Result<Vec<Live>, Refusal>
        ensures { Finds Refusal.OutOfMemory (λ v. v.items) result
            (still_found self.now at_start (drop 8 data_bytes.now)) }
    {
        let mut live = Vec::new(alloc);
        let mut so_far = ReadSoFar::start();
        'slices: while !self.is_whole(so_far) {
            let rest = from_place(so_far.place, data_bytes);
            let (mut some, next) = match self.more(alloc, so_far, u32::MAX, rest) {
                Ok((some, next)) => (some, next),
                Err(e) => return Err(e),
            };
            live.append(&mut some)?;
            so_far = next;
        }
        match self.end() {
            Ok(()) => Ok(live),
            Err(e) => Err(e),
        }
    }
}

/// The live records of a pair whose files have these bytes, or the first broken rule: of the data
/// file, which is of a version up to this one, and then of the delta file, which is of the same
/// version. Time and memory are linear in what the bytes hold, whatever the counts say.
pub fn load_pair(
    alloc: Global,
    upto: u32,
    pair: Pair,
    data_bytes: &[u8],
    delta: &[u8],
) -> Result<Vec<Live>, Refusal>
    ensures { Tells (λ e. e ≡ Refusal.OutOfMemory) (λ v. v.items) result
        (LoadsAs upto pair data_bytes.now delta.now) }
{
    let len = data_bytes.len();
    let reading = match PairReading::begin(alloc, upto, pair, len, data_bytes, delta) {
        Ok(reading) => reading,
        Err(e) => return Err(e),
    };
    match reading.read_all(alloc, data_bytes) {
        Ok(live) => Ok(live),
        Err(e) => Err(e),
    }
}
