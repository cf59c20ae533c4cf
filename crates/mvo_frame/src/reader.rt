ghost use Rattle.std.specs.Prelude.{◌↔◌, IsTrue};
ghost use Rattle.mvo_frame.specs.Frames.{IsEnough};

use crate::contents::Contents;
use crate::kind::Kind;
use crate::magic::MAGIC;
use crate::reached::Reached;
use crate::stepping::next_group;
use mvo_format::{Format, HEADER_LEN, behind_header};
use mvo_group::Group;
use mvo_types::{Refusal, Stamp};
use std::alloc::Global;
use std::marker::Model;

/// A segment that is read in slices: the groups so far, and where the next gate stands. It holds
/// none of the segment's bytes. Contracts see it as its format, its file, the gate's place, the
/// mark of the last group and the groups.
#[derive(Debug, Drop)]
pub struct SegmentReader {
    format: Format,
    file: u16,
    gate: usize,
    mark: Stamp,
    groups: Vec<Group>,
}

impl Model for SegmentReader {
    ghost use Rattle.std.specs.Prelude.{◌<◌};
    ghost use Rattle.mvo_types.specs.declared.limits.TheConstants.{MAX_SEGMENT_LEN};
    ghost use Rattle.mvo_frame.specs.Slices.{ReaderData};

    ghost Value = { ReaderData };

    ghost view = { λ r. record {
      format = r.format;
      file = r.file;
      gate = r.gate;
      mark = r.mark.0;
      groups = r.groups.items;
    } };

    ghost invariant = { λ r. r.gate < MAX_SEGMENT_LEN };
}

impl SegmentReader {
    ghost use Rattle.std.specs.Prelude.{◌≡◌, ◌⊎◌, ◌<◌, ◌≤◌, ◌+◌, ◌++◌, ℕ, List, [], length, take, drop};
    ghost use Rattle.std.specs.Prelude.{IfOk, IfErr, OnOk, OnErr, Ok, Err};
    ghost use Rattle.std.specs.Option.{option_map};
    ghost use Rattle.mvo_types.specs.declared.limits.TheConstants.{MAX_SEGMENT_LEN};
    ghost use Rattle.mvo_types.specs.declared.refusal.Refusal.TheVariants.{OutOfMemory, Corrupt};
    ghost use Rattle.mvo_format.specs.declared.header.TheConstants.{HEADER_LEN};
    ghost use Rattle.mvo_frame.specs.declared.kind.Kind.{Kind};
    ghost use Rattle.mvo_frame.specs.declared.lengths.TheConstants.{MAX_FRAME_LEN};
    ghost use Rattle.mvo_frame.specs.declared.reached.Reached.TheVariants.{More, End};
    ghost use Rattle.mvo_frame.specs.Slices.{ReaderData, IsReadTo, IsWindow, HasClosedGateAt, SegmentHas, IsToldOf, group_next, IsGroupRead};
    ghost use Rattle.mvo_frame.specs.Standing.{IsAllRead};

    /// Begins to read a segment of a version up to this one, whose first group follows a mark, from
    /// its first bytes: 8 of them, or more, or all that there are.
    ///
    /// Refused: Corrupt with the file or BadVersion, as the magic and the version say.
    pub fn begin(
        alloc: Global,
        upto: u32,
        file: u16,
        start: Stamp,
        head: &[u8],
    ) -> Result<SegmentReader, Refusal>
        ensures begun { (n : ℕ) (bytes : List ℕ) → HEADER_LEN ≤ n → head.now ≡ take n bytes →
            IfOk result (IsReadTo upto start.0 bytes) }
        ensures none { IfOk result (λ r. r.groups ≡ []) }
        ensures file { IfOk result (λ r. r.file ≡ file) }
        ensures refused { (n : ℕ) (bytes : List ℕ) → HEADER_LEN ≤ n → head.now ≡ take n bytes →
            IfErr result (λ e. (kind : Kind) → SegmentHas upto file start.0 kind bytes (Err e)) }
    {
        match behind_header(file, MAGIC, upto, head) {
            Ok((format, _)) => Ok(SegmentReader {
                format,
                file,
                gate: HEADER_LEN,
                mark: start,
                groups: Vec::new(alloc),
            }),
            Err(refusal) => Err(refusal),
        }
    }

    /// Where the next gate stands: the next slice's bytes begin there.
    pub fn gate(&self) -> usize
        ensures value { result ≡ self.now.gate }
        ensures few { result < MAX_SEGMENT_LEN }
    {
        self.gate
    }

    /// The segment's file.
    pub fn file(&self) -> u16
        ensures { result ≡ self.now.file }
    {
        self.file
    }

    // Reads one group more, where the gate that the bytes begin with is open: the bytes behind it.
    fn next<'a>(&mut self, alloc: Global, bytes: &'a [u8]) -> Result<Option<&'a [u8]>, Refusal>
        ensures ok { IfOk result (λ found.
            IsGroupRead self.old bytes.now (option_map (λ x. x.now) found) self.new) }
        ensures err { OnErr result (self.new ≡ self.old) }
        ensures refused { IfErr result (λ e.
            (e ≡ OutOfMemory) ⊎ (group_next self.old bytes.now ≡ Err e)) }
    {
        let found = match next_group(alloc, self.format, self.file, self.gate, self.mark, bytes) {
            Ok(found) => found,
            Err(refusal) => return Err(refusal),
        };
        let Some((group, later)) = found else {
            return Ok(None);
        };
        let mark = group.mark();
        self.groups.push(group)?;
        self.gate += bytes.len() - later.len();
        self.mark = mark;
        Ok(Some(later))
    }

    /// Reads on from the front of some bytes, which are those from the gate on, however many: while
    /// fewer than so many of them are taken, and up to a closed gate. It stops in front of a frame
    /// that isn't read, since it isn't all there, or for want of memory. Where that is the first,
    /// all is as it was, and nothing is told of the segment: `more` tells, of more bytes.
    pub fn read_on(&mut self, alloc: Global, bytes: &[u8], most: usize) -> Reached
        ensures read { (upto start : ℕ) (all more : List ℕ) → IsReadTo upto start all self.old →
            drop self.old.gate all ≡ bytes.now ++ more → IsReadTo upto start all self.new }
        ensures end { (upto start : ℕ) (all more : List ℕ) → IsReadTo upto start all self.old →
            drop self.old.gate all ≡ bytes.now ++ more → result ≡ End →
            HasClosedGateAt self.new.gate all }
        ensures file { self.new.file ≡ self.old.file }
        ensures grows { self.old.gate ≤ self.new.gate }
        ensures within { self.new.gate ≤ self.old.gate + length bytes.now }
        ensures most { self.new.gate ≤ self.old.gate + most + MAX_FRAME_LEN }
        ensures unmoved { self.new.gate ≡ self.old.gate → self.new ≡ self.old }
    {
        let mut rest = bytes;
        while bytes.len() - rest.len() < most {
            let found = match self.next(alloc, rest) {
                Ok(found) => found,
                Err(_) => return Reached::More,
            };
            let Some(later) = found else {
                return Reached::End;
            };
            rest = later;
        }
        Reached::More
    }

    /// Reads the next slice of the segment: the groups of which the frames begin among so many
    /// bytes from the gate on, one at least, up to the closed gate. It is given the bytes from the
    /// gate on, as many as the longest frame has, or more, or all that there are. It stops early in
    /// front of a frame that isn't all there, or for which memory is short: that one is the next
    /// slice's first.
    ///
    /// Refused where nothing more is read, and then all is as it was: Corrupt with the file, where
    /// the bytes are no segment, or OutOfMemory.
    pub fn more(&mut self, alloc: Global, window: &[u8], most: usize) -> Result<Reached, Refusal>
        ensures read { (upto start : ℕ) (bytes : List ℕ) → IsReadTo upto start bytes self.old →
            IsWindow self.old.gate bytes window.now →
            OnOk result (IsReadTo upto start bytes self.new) }
        ensures end { (upto start : ℕ) (bytes : List ℕ) → IsReadTo upto start bytes self.old →
            IsWindow self.old.gate bytes window.now →
            IfOk result (λ reached. reached ≡ End → HasClosedGateAt self.new.gate bytes) }
        ensures file { self.new.file ≡ self.old.file }
        ensures some { IfOk result (λ reached. reached ≡ More → self.old.gate < self.new.gate) }
        ensures grows { OnOk result (self.old.gate ≤ self.new.gate) }
        ensures within { OnOk result (self.new.gate ≤ self.old.gate + length window.now) }
        ensures most { OnOk result (self.new.gate ≤ self.old.gate + most + MAX_FRAME_LEN) }
        ensures err { OnErr result (self.new ≡ self.old) }
        ensures why { IfErr result (λ e. (e ≡ OutOfMemory) ⊎ (e ≡ Corrupt self.old.file)) }
        ensures refused { (upto start : ℕ) (bytes : List ℕ) → IsReadTo upto start bytes self.old →
            IsWindow self.old.gate bytes window.now →
            IfErr result (IsToldOf upto self.old.file start bytes) }
    {
        let found = match self.next(alloc, window) {
            Ok(found) => found,
            Err(refusal) => return Err(refusal),
        };
        let Some(rest) = found else {
            return Ok(Reached::End);
        };
        let taken = window.len() - rest.len();
        if taken >= most {
            return Ok(Reached::More);
        }
        Ok(self.read_on(alloc, rest, most - taken))
    }

    /// Whether a segment is whole, of which a slice has come to the closed gate.
    ///
    /// Refused: Corrupt with the file where it is sealed and has no group.
    pub fn end(&self, kind: Kind) -> Result<(), Refusal>
        ensures ok { (upto start : ℕ) (bytes : List ℕ) → IsReadTo upto start bytes self.now →
            HasClosedGateAt self.now.gate bytes →
            OnOk result (SegmentHas upto self.now.file start kind bytes (Ok self.now.groups)) }
        ensures err { (upto start : ℕ) (bytes : List ℕ) → IsReadTo upto start bytes self.now →
            HasClosedGateAt self.now.gate bytes →
            IfErr result (λ e. SegmentHas upto self.now.file start kind bytes (Err e)) }
        ensures why { IfErr result (λ e. e ≡ Corrupt self.now.file) }
    {
        if is_enough(kind, self.groups.as_slice()) {
            Ok(())
        } else {
            Err(Refusal::Corrupt(self.file))
        }
    }

    /// What it holds so far.
    pub fn into_contents(self) -> Contents
        ensures groups { result.groups.items ≡ self.groups }
        ensures place { (upto start : ℕ) (bytes : List ℕ) → IsReadTo upto start bytes self →
            IsAllRead start result }
    {
        let SegmentReader {
            format: _,
            file: _,
            gate,
            mark,
            groups,
        } = self;
        Contents { groups, gate, mark }
    }
}

/// Whether a segment of this kind may hold these groups and no others: a sealed one has some.
fn is_enough(kind: Kind, groups: &[Group]) -> bool
    ensures { IsTrue result ↔ IsEnough kind groups.now }
{
    match kind {
        Kind::Last => true,
        Kind::Sealed => !groups.is_empty(),
    }
}
