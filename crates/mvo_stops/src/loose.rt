use crate::fill::{Fill, Length};
use crate::script_start::ScriptStart;
use mvo_disk::{Call, DeviceWork};
use std::alloc::{AllocError, Global};

/// What was written, from its first place to the one behind its last.
#[derive(Clone, Copy)]
struct Range {
    from: usize,
    to: usize,
}

/// A file and what a stop may change of it: the ranges written since its last sync, and all from
/// the kept length on.
#[derive(Drop)]
pub struct Loose {
    file: u16,
    /// Its content, and behind that what was cut off since its last sync.
    bytes: Vec<u8>,
    len: usize,
    kept: usize,
    ranges: Vec<Range>,
    /// Nothing was written or cut since.
    is_exact: bool,
}

impl Loose {
    /// A file that holds these bytes, synced.
    fn new(alloc: Global, file: u16, bytes: &[u8]) -> Result<Loose, AllocError> {
        let bytes = bytes.to_vec(alloc)?;
        let len = bytes.len();
        Ok(Loose {
            file,
            bytes,
            len,
            kept: len,
            ranges: Vec::new(alloc),
            is_exact: true,
        })
    }

    /// Whether a stop leaves its content alone.
    pub fn is_exact(&self) -> bool {
        self.is_exact
    }

    /// Which file it is.
    pub fn file(&self) -> u16 {
        self.file
    }

    /// What a call makes of it.
    fn call(&mut self, work: &DeviceWork) -> Result<(), AllocError> {
        match work {
            DeviceWork::Length | DeviceWork::Read { .. } => Ok(()),
            DeviceWork::Write { at, bytes, .. } => self.write(*at, bytes),
            DeviceWork::Cut { new_len, .. } => {
                self.cut(*new_len);
                Ok(())
            }
            DeviceWork::Sync => {
                self.sync();
                Ok(())
            }
        }
    }

    fn write(&mut self, at: usize, written: &[u8]) -> Result<(), AllocError> {
        let to = at.saturating_add(written.len());
        self.ranges.push(Range { from: at, to })?;
        for (place, byte) in (at..to).zip(written) {
            if place < self.bytes.len() {
                self.bytes[place] = *byte;
            } else {
                self.bytes.push(*byte)?;
            }
        }
        self.len = self.len.max(to);
        self.is_exact = false;
        Ok(())
    }

    fn cut(&mut self, len: usize) {
        self.len = len;
        self.kept = self.kept.min(len);
        self.is_exact = false;
    }

    fn sync(&mut self) {
        self.bytes.truncate(self.len);
        self.kept = self.len;
        self.ranges.clear();
        self.is_exact = true;
    }

    /// Whether a stop may leave another byte at a place.
    fn is_open(&self, place: usize) -> bool {
        place >= self.kept
            || self
                .ranges
                .iter()
                .any(|range| range.from <= place && place < range.to)
    }

    /// What a stop leaves of it.
    pub fn image(&self, alloc: Global, fill: Fill, length: Length) -> Result<Vec<u8>, AllocError> {
        let len = match length {
            Length::Least => self.kept,
            Length::Full => self.bytes.len(),
        };
        let mut image = Vec::with_capacity(alloc, len)?;
        for (place, byte) in self.bytes.iter().take(len).enumerate() {
            let left = if self.is_open(place) {
                fill.byte(*byte)
            } else {
                *byte
            };
            image.push(left)?;
        }
        Ok(image)
    }
}

/// The files that these calls changed on a disk that began so, as they are behind them.
pub fn loose_after(
    alloc: Global,
    start: &ScriptStart,
    calls: &[Call],
) -> Result<Vec<Loose>, AllocError> {
    let mut files = Vec::new(alloc);
    for call in calls {
        if !matches!(&call.work, DeviceWork::Length | DeviceWork::Read { .. }) {
            change(alloc, start, &mut files, call)?;
        }
    }
    Ok(files)
}

/// Makes a call on one of the files, which joins them where it isn't among them yet.
fn change(
    alloc: Global,
    start: &ScriptStart,
    files: &mut Vec<Loose>,
    call: &Call,
) -> Result<(), AllocError> {
    for loose in files.iter_mut() {
        if loose.file == call.file {
            return loose.call(&call.work);
        }
    }
    let mut loose = Loose::new(alloc, call.file, start.bytes(call.file))?;
    loose.call(&call.work)?;
    files.push(loose)?;
    Ok(())
}
