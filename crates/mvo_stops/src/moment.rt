ghost use Rattle.std.specs.Prelude.{◌≡◌, ◌≢◌, ◌≤◌, [], length as len_of_list, None, IsSome, IfOk};
ghost use Rattle.mvo_stops.specs.Looking.{Changes, ChangesAt};

use crate::base::Base;
use crate::error::StopsError;
use crate::fill::{Fill, Length};
use crate::recorded::Recorded;
use crate::replay::make;
use mvo_disk::{Call, DeviceWork, FILE_COUNT, MemDisk};
use std::alloc::{AllocError, Global};

/// A moment of a script's run: the calls before one of them are made, that one in part or not, and
/// those that were made behind it where it failed.
pub struct Moment<'a> {
    pub recorded: &'a Recorded,
    pub base: &'a Base,
    /// So many calls are made.
    before: usize,
    /// What the next one has done, without a sync.
    part: Option<Call>,
    /// What is made behind that one.
    rest: &'a [Call],
}

impl Drop for Moment<'_> {
    fn drop(self) {
        let Moment {
            recorded: _,
            base: _,
            before: _,
            part: _,
            rest: _,
        } = self;
    }
}

impl<'a> Moment<'a> {
    /// Before the call at this place, from 0.
    pub fn before(recorded: &'a Recorded, base: &'a Base, place: usize) -> Moment<'a> {
        Moment {
            recorded,
            base,
            before: place,
            part: None,
            rest: &[],
        }
    }

    /// Within that call, if there is another moment within it than before it: nothing of a sync
    /// is done until it ends.
    pub fn within(
        recorded: &'a Recorded,
        base: &'a Base,
        place: usize,
    ) -> Result<Option<Moment<'a>>, AllocError>
        ensures { IfOk result (λ m. ChangesAt recorded.now place → IsSome m) }
    {
        match recorded.calls().get(place) {
            Some(call) => {
                let part = part_of(recorded.alloc, call)?;
                Ok(Moment::before(recorded, base, place).with(part))
            }
            None => Ok(None),
        }
    }

    /// After that call has failed, with a write in part: these bytes in its range, and the file as
    /// long as it was or as the write makes it. None where that is as before the call, or as with
    /// another fill or length.
    pub fn failed(
        recorded: &'a Recorded,
        base: &'a Base,
        place: usize,
        fill: Fill,
        length: Length,
    ) -> Result<Option<Moment<'a>>, StopsError>
        ensures { fill ≡ Fill.Written → length ≡ Length.Full →
            IfOk result (λ m. ChangesAt recorded.now place → IsSome m) }
    {
        let Some(call) = recorded.calls().get(place) else {
            return Ok(None);
        };
        let moment = Moment::before(recorded, base, place);
        let len = moment.len_of(call.file)?;
        let limit = match length {
            Length::Full => None,
            Length::Least if is_within(call, len) => return Ok(None),
            Length::Least => Some(len),
        };
        let part = failed_part_of(recorded.alloc, call, fill, limit)?;
        Ok(moment.with(part))
    }

    /// The moment at which the next call has done this, if it has.
    fn with(self, part: Option<Call>) -> Option<Moment<'a>>
        ensures { IsSome part → IsSome result }
    {
        let Moment {
            recorded,
            base,
            before,
            part: _,
            rest,
        } = self;
        match part {
            Some(part) => Some(Moment {
                recorded,
                base,
                before,
                part: Some(part),
                rest,
            }),
            None => None,
        }
    }

    /// The moment at which these calls are made too, behind that one.
    pub fn with_rest(self, rest: &'a [Call]) -> Moment<'a> {
        let Moment {
            recorded,
            base,
            before,
            part,
            rest: _,
        } = self;
        Moment {
            recorded,
            base,
            before,
            part,
            rest,
        }
    }

    /// How long a file is then.
    fn len_of(&self, file: u16) -> Result<usize, StopsError> {
        let disk = self.disk()?;
        if file < FILE_COUNT {
            Ok(disk.bytes(file).len())
        } else {
            Ok(0)
        }
    }

    /// The disk then, made anew: its record has the calls behind the base.
    pub fn disk(&self) -> Result<MemDisk, StopsError> {
        let mut disk = self.base.start.disk()?;
        self.recorded
            .make_between(&mut disk, self.base.made, self.before)?;
        if let Some(part) = &self.part {
            make(&mut disk, part)?;
        }
        for call in self.rest {
            make(&mut disk, call)?;
        }
        Ok(disk)
    }
}

/// A call that changes a file, as far as it goes before its end.
fn part_of(alloc: Global, call: &Call) -> Result<Option<Call>, AllocError>
    ensures { IfOk result (λ part. Changes call.now.work → IsSome part) }
{
    match &call.work {
        DeviceWork::Length | DeviceWork::Read { .. } | DeviceWork::Sync => Ok(None),
        DeviceWork::Write { at, bytes, .. } => {
            let bytes = bytes.as_slice().to_vec(alloc)?;
            Ok(Some(write(call.file, *at, bytes)))
        }
        DeviceWork::Cut { new_len, .. } => Ok(Some(cut(call.file, *new_len))),
    }
}

/// Whether a call leaves a file of this length no longer.
fn is_within(call: &Call, len: usize) -> bool {
    match &call.work {
        DeviceWork::Write { at, bytes, .. } => at.saturating_add(bytes.len()) <= len,
        _ => true,
    }
}

/// What a call that failed has done: a cut is made, and a write has left some bytes in its range,
/// up to a length of the file, if there's a limit.
fn failed_part_of(
    alloc: Global,
    call: &Call,
    fill: Fill,
    limit: Option<usize>,
) -> Result<Option<Call>, AllocError>
    ensures { fill ≡ Fill.Written → limit ≡ None →
        IfOk result (λ part. Changes call.now.work → IsSome part) }
{
    match &call.work {
        DeviceWork::Length | DeviceWork::Read { .. } | DeviceWork::Sync => Ok(None),
        DeviceWork::Write { at, bytes, .. } => {
            let count = count_below(bytes.len(), *at, limit);
            match left_of(alloc, bytes, fill, count)? {
                Some(left) => Ok(Some(write(call.file, *at, left))),
                None => Ok(None),
            }
        }
        DeviceWork::Cut { new_len, .. } if fill == Fill::Written => {
            Ok(Some(cut(call.file, *new_len)))
        }
        DeviceWork::Cut { .. } => Ok(None),
    }
}

/// How many of so many bytes from a place lie below a limit, if there's one.
fn count_below(count: usize, at: usize, limit: Option<usize>) -> usize
    ensures { limit ≡ None → result ≡ count }
{
    match limit {
        Some(len) => count.min(len.saturating_sub(at)),
        None => count,
    }
}

/// What a write that failed has left of its first bytes. None where that is nothing, or what
/// another fill leaves.
fn left_of(
    alloc: Global,
    bytes: &[u8],
    fill: Fill,
    count: usize,
) -> Result<Option<Vec<u8>>, AllocError>
    ensures { fill ≡ Fill.Written → bytes.now ≢ [] → len_of_list bytes.now ≤ count →
        IfOk result (λ left. IsSome left) }
{
    let mut left = Vec::with_capacity(alloc, count)?;
    let mut differs = fill == Fill::Written;
    for byte in bytes.iter().take(count) {
        let filled = fill.byte(*byte);
        differs = differs || filled != *byte;
        left.push(filled)?;
    }
    if differs && !left.is_empty() {
        Ok(Some(left))
    } else {
        Ok(None)
    }
}

fn write(file: u16, at: usize, bytes: Vec<u8>) -> Call {
    let len = bytes.len();
    Call {
        file,
        work: DeviceWork::Write { at, len, bytes },
        failed: false,
    }
}

fn cut(file: u16, len: usize) -> Call {
    Call {
        file,
        work: DeviceWork::Cut { len, new_len: len },
        failed: false,
    }
}
